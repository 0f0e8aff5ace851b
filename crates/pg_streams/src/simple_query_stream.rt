//! The parts of the reply to a simple query, one a poll.

ghost use Rattle.std.specs.Prelude.{◌≡◌, ◌||◌, [], None, Ok, true, false};
ghost use Rattle.futures.specs.declared.task.Poll.TheVariants.{Ready};
ghost use Rattle.pg_query.specs.Meaning.{GoesToAnswer, MatchPoll};
ghost use Rattle.pg_streams.specs.Collecting.{Awaits, Gives, NothingDone, given_up, is_last};
ghost use Rattle.pg_streams.specs.PartTelling.{parts_heard};
ghost use Rattle.pg_streams.specs.SimpleStates.{no_parts, parts_behind, parts_over, parts_told, with_part};

use crate::items::Items;
use crate::simple_giving::SimpleGiving;
use crate::simple_query_message::SimpleQueryMessage;
use futures::task::Poll;
use pg_desk::{Desk, Stamp};
use pg_errors::Error;
use std::alloc::Global;

/// The parts of the reply to a simple query. It must be spent: once it gave its end or an error, or before, by `hang_up`.
pub struct SimpleQueryStream {
    items: Items<SimpleGiving>,
}

impl SimpleQueryStream {
    /// The reply to the request of this number, of which nothing was taken yet.
    pub(crate) fn new(id: u64) -> SimpleQueryStream
        ensures { result ≡ record { items = record { giving = record { columns = None }; id = id; batch = []; close = None; over = false } } }
    {
        SimpleQueryStream {
            items: Items::new(SimpleGiving { columns: None }, id, None),
        }
    }

    /// The next part. Pending comes exactly where no message is there that tells one; None at the end of the reply, and from
    /// then on. An error is given once, and None from then on. The errors are those of a simple query: behind one that a
    /// message tells the request was hung up; Closed comes where the desk gives no more of the reply. At OutOfMemory nobody
    /// reads or hangs up what is left of the reply: the connection is to be given up.
    pub fn poll_next<D: Desk>(
        &mut self,
        alloc: Global,
        desk: &mut D,
        stamp: Stamp,
    ) -> Poll<Option<Result<SimpleQueryMessage, Error>>>
        ensures gives { parts_over self.old ≡ false → MatchPoll result
            (λ next. Gives D.becomes parts_told with_part no_parts stamp desk.old (parts_behind self.old) desk.new self.new.items next)
            (Awaits D.becomes parts_told parts_heard stamp desk.old (parts_behind self.old) desk.new self.new.items) }
        ensures over { parts_over self.new ≡ (parts_over self.old || is_last result) }
        ensures nothing { parts_over self.old ≡ true → (result ≡ Ready None) × NothingDone desk.old self.old.items desk.new self.new.items }
    {
        self.items.poll_next(alloc, desk, stamp)
    }

    /// Gives it up: the request is hung up, and the error of a desk that refuses that is the answer. Behind the end and an error
    /// nothing is left to do.
    pub fn hang_up<D: Desk>(self, alloc: Global, desk: &mut D, stamp: Stamp) -> Result<(), Error>
        ensures gives_up { parts_over self ≡ false → GoesToAnswer D.becomes stamp desk.old (given_up self.items) desk.new result }
        ensures nothing { parts_over self ≡ true → (result ≡ Ok tt) × (desk.new ≡ desk.old) }
    {
        let SimpleQueryStream { items } = self;
        items.hang_up(alloc, desk, stamp)
    }
}
