//! The items of a reply, one a poll.

ghost use Rattle.std.specs.Prelude.{◌≡◌, ◌||◌, [], None, Ok, true, false};
ghost use Rattle.futures.specs.declared.task.Poll.TheVariants.{Ready};
ghost use Rattle.pg_query.specs.Meaning.{GoesToAnswer, Leaves, MatchPoll};
ghost use Rattle.pg_streams.specs.Collecting as spec;
ghost use Rattle.pg_streams.specs.Collecting.{Awaits, Comes, Gives, Keeps, NothingDone, family_behind, family_of, given_up, is_last};

use crate::giving::{Giving, Told};
use crate::posting::{hang_up, post};
use bytes::Bytes;
use futures::task::Poll;
use pg_desk::{Desk, Stamp, Take};
use pg_errors::Error;
use pg_query::{error_of, malformed};
use pg_wire::{BackendMessages, WireFault};
use std::alloc::Global;

/// The items of the reply to a request that was booked, of which a poll gives the next. It is polled to its end or an error, or
/// is given up by `hang_up`.
#[derive(Drop)]
pub struct Items<G> {
    pub(crate) giving: G,
    pub(crate) id: u64,
    /// The messages that came and aren't read yet.
    pub(crate) batch: BackendMessages,
    /// The request that closes the statement, once no more is read.
    pub(crate) close: Option<Bytes>,
    /// The end or an error was given.
    pub(crate) over: bool,
}

/// What a message tells that is refused by this fault.
fn refused<I>(fault: WireFault) -> Result<Told<I>, Error>
    ensures { spec.IsRefused fault result }
{
    match malformed(fault) {
        Some(error) => Ok(Told::Fails(error)),
        None => Err(Error::OutOfMemory),
    }
}

impl<G: Giving> Items<G> {
    /// The reply to the request of this number, of which nothing was taken yet. Behind it this request closes the statement. It
    /// takes no memory.
    pub fn new(giving: G, id: u64, close: Option<Bytes>) -> Items<G>
        ensures { result ≡ record { giving = giving; id = id; batch = []; close = close; over = false } }
    {
        Items {
            giving,
            id,
            batch: BackendMessages::empty(),
            close,
            over: false,
        }
    }

    /// The end or an error was given.
    pub fn is_over(&self) -> bool
        ensures { result ≡ self.now.over }
    {
        self.over
    }

    /// Reads the messages that came, up to the first that tells something.
    pub(crate) fn read(&mut self, alloc: Global) -> Result<Option<Told<G::Item>>, Error>
        ensures reads { spec.Reads G.tells G.hears G.with_item G.at_end self.old self.new result }
        ensures keeps { Keeps G.known self.old self.new }
    {
        loop {
            match self.batch.next() {
                Ok(None) => return Ok(None),
                Ok(Some(message)) => {
                    if let Some(told) = self.giving.message(alloc, message)? {
                        return Ok(Some(told));
                    }
                }
                Err(fault) => return Ok(Some(refused(fault)?)),
            }
        }
    }

    /// These messages are read next.
    pub(crate) fn refill(&mut self, batch: BackendMessages)
        ensures { self.new ≡ record self.old { batch = batch } }
    {
        self.batch = batch;
    }

    /// Hangs up a request of which nothing comes any more, and gives the error that is answered then.
    fn leave<D: Desk>(&self, desk: &mut D) -> Error
        ensures { Leaves D.becomes desk.old self.now.id desk.new result }
    {
        if let Err(fault) = desk.hang_up(self.id) {
            return error_of(fault);
        }
        Error::Closed
    }

    /// Takes batches and reads them, until something is told or the mailbox is empty.
    fn go_on<D: Desk>(
        &mut self,
        alloc: Global,
        desk: &mut D,
        stamp: Stamp,
    ) -> Poll<Result<Told<G::Item>, Error>>
        ensures comes { MatchPoll result
            (λ r. Comes D.becomes G.tells G.with_item G.at_end stamp desk.old (family_of G.tells G.hears self.old) desk.new self.new r)
            (Awaits D.becomes G.tells G.hears stamp desk.old (family_of G.tells G.hears self.old) desk.new self.new) }
        ensures keeps { Keeps G.known self.old self.new }
    {
        loop {
            match self.read(alloc) {
                Ok(None) => {}
                Ok(Some(told)) => return Poll::Ready(Ok(told)),
                Err(error) => return Poll::Ready(Err(error)),
            }
            match desk.take(self.id) {
                Ok(Take::Batch(batch)) => self.refill(batch),
                Ok(Take::Empty) => return Poll::Pending,
                Ok(Take::Over) => return Poll::Ready(Err(Error::Closed)),
                Ok(Take::Gone) => return Poll::Ready(Err(self.leave(desk))),
                Err(fault) => return Poll::Ready(Err(error_of(fault))),
            }
        }
    }

    /// Gives what was told. Behind the end and an error no more is given.
    fn settle<D: Desk>(
        &mut self,
        alloc: Global,
        desk: &mut D,
        stamp: Stamp,
        told: Told<G::Item>,
    ) -> Option<Result<G::Item, Error>>
        ensures gives { Gives D.becomes G.tells G.with_item G.at_end stamp desk.old (family_behind G.tells G.with_item G.at_end told self.old) desk.new self.new result }
        ensures over { self.new.over ≡ (self.old.over || is_last (Ready result)) }
        ensures known { G.known self.new.giving ≡ G.known self.old.giving }
    {
        match told {
            Told::Item(item) => Some(Ok(item)),
            Told::Ends => {
                self.over = true;
                match post(alloc, desk, stamp, self.close.take()) {
                    Ok(()) => None,
                    Err(error) => Some(Err(error)),
                }
            }
            Told::Fails(error) => {
                self.over = true;
                match hang_up(alloc, desk, stamp, self.id, self.close.take()) {
                    Ok(()) => Some(Err(error)),
                    Err(error) => Some(Err(error)),
                }
            }
        }
    }

    /// The next item. Pending comes exactly where none came yet; None at the end of the reply, and from then on. An error is
    /// given once, and None from then on. Behind an error that a message tells the request was hung up, and behind that and
    /// the end the statement is closed. Closed comes where the desk gives no more of the reply: nothing is closed then. At
    /// OutOfMemory nothing more is done, and nobody reads or hangs up what is left of the reply: the connection is to be
    /// given up.
    pub fn poll_next<D: Desk>(
        &mut self,
        alloc: Global,
        desk: &mut D,
        stamp: Stamp,
    ) -> Poll<Option<Result<G::Item, Error>>>
        ensures gives { self.old.over ≡ false → MatchPoll result
            (λ next. Gives D.becomes G.tells G.with_item G.at_end stamp desk.old (family_of G.tells G.hears self.old) desk.new self.new next)
            (Awaits D.becomes G.tells G.hears stamp desk.old (family_of G.tells G.hears self.old) desk.new self.new) }
        ensures over { self.new.over ≡ (self.old.over || is_last result) }
        ensures nothing { self.old.over ≡ true → (result ≡ Ready None) × NothingDone desk.old self.old desk.new self.new }
        ensures known { G.known self.new.giving ≡ G.known self.old.giving }
    {
        if self.over {
            return Poll::Ready(None);
        }
        match self.go_on(alloc, desk, stamp) {
            Poll::Pending => Poll::Pending,
            Poll::Ready(Ok(told)) => Poll::Ready(self.settle(alloc, desk, stamp, told)),
            Poll::Ready(Err(error)) => {
                self.over = true;
                Poll::Ready(Some(Err(error)))
            }
        }
    }

    /// Gives them up: the request is hung up, and the statement is closed. Behind the end and an error nothing is left to do.
    /// Closed comes where the desk takes no requests any more.
    pub fn hang_up<D: Desk>(self, alloc: Global, desk: &mut D, stamp: Stamp) -> Result<(), Error>
        ensures gives_up { self.over ≡ false → GoesToAnswer D.becomes stamp desk.old (given_up self) desk.new result }
        ensures nothing { self.over ≡ true → (result ≡ Ok tt) × (desk.new ≡ desk.old) }
    {
        let Items {
            id,
            close,
            over,
            ..
        } = self;
        if over {
            return Ok(());
        }
        hang_up(alloc, desk, stamp, id, close)
    }
}
