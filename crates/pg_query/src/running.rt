//! The one loop that runs every script.

ghost use Rattle.std.specs.Prelude.{◌≡◌, ◌≤◌, ◌<◌, [], length, MatchResult, MatchOption, IfOk, IfNone, Ok, Err};
ghost use Rattle.pg_query.specs.declared.stop.Stop.TheVariants.{Answers};
ghost use Rattle.pg_query.specs.Faults.{of_fault};
ghost use Rattle.pg_query.specs.Meaning.{meaning, meaning_at, Goes, GoesToAnswer, Reads, Waits, Stops, MatchPoll, Pulls, Leaves};
ghost use Rattle.pg_query.specs.Scripts.{ReadsAt, HearsAt, IsWanted, heard, GoesOn, Falls};
ghost use Rattle.pg_query.specs.declared.script.Want.TheVariants.{Act};
ghost use Rattle.pg_query.specs.declared.script.Action.TheVariants.{Ask, Send, Finish, Close, HangUp, Call};
ghost use Rattle.pg_query.specs.declared.script.Action.TheVariants as act;

use crate::asking::ask_desk;
use crate::desk_call::{DeskCall, Reply};
use crate::fault::{error_of, is_want_of_memory};
use crate::script::{Action, Offer, Script, Want};
use crate::stop::Stop;
use bytes::Bytes;
use futures::task::Poll;
use pg_desk::{Desk, DeskFault, Put, Stamp, Take};
use pg_errors::Error;
use pg_wire::{BackendMessages, Message, WireFault};
use std::alloc::Global;

/// A script, the request that it reads, and the messages of it that came and aren't read yet.
#[derive(Drop)]
pub struct Running<S: Script> {
    pub(crate) script: S,
    pub(crate) id: u64,
    pub(crate) batch: BackendMessages,
}

/// Drops a message.
fn let_go(told: Result<Message, WireFault>) {
    let _told = told;
}

/// An error is where it stops.
fn stopped<T: Drop>(went: Result<Want<T>, Error>) -> Result<Want<T>, Stop<T>>
    ensures { MatchResult went (λ want. result ≡ Ok want) (λ e. result ≡ Err (Answers (Err e))) }
{
    match went {
        Ok(want) => Ok(want),
        Err(e) => Err(Stop::Answers(Err(e))),
    }
}

impl<S: Script> Running<S> {
    /// A script at its begin. It takes no memory.
    pub(crate) fn new(script: S) -> Running<S>
        ensures script { result.script ≡ script }
        ensures batch { result.batch ≡ [] }
    {
        Running::at(script, 0)
    }

    /// A script that goes on with a request that was booked.
    pub(crate) fn at(script: S, id: u64) -> Running<S>
        ensures script { result.script ≡ script }
        ensures id { result.id ≡ id }
        ensures batch { result.batch ≡ [] }
    {
        Running {
            script,
            id,
            batch: BackendMessages::empty(),
        }
    }

    fn next(&mut self, alloc: Global) -> Result<Want<S::Output>, Error>
        ensures step { MatchResult result (λ want. GoesOn S.dialogue S.refuses S.waits (S.dialogue self.old.script) want self.new.script) (λ e. e ≡ Error.OutOfMemory) }
        ensures falls { IfOk result (λ want. Falls want (S.steps self.old.script) (S.steps self.new.script)) }
        ensures id { self.new.id ≡ self.old.id }
        ensures batch { self.new.batch ≡ self.old.batch }
    {
        Ok(self.script.next(alloc)?)
    }

    /// Gives the script the next message that came. None comes exactly where there is none.
    fn pull(&mut self, alloc: Global) -> Result<Option<Want<S::Output>>, Error>
        requires { ReadsAt S.dialogue S.waits self.old.script }
        ensures { Pulls S.dialogue S.refuses S.waits self.old self.new result }
    {
        match self.batch.next() {
            Ok(None) => Ok(None),
            Ok(Some(message)) => {
                let told = Ok(message);
                let want = self.script.message(alloc, &told);
                let_go(told);
                Ok(Some(want?))
            }
            Err(fault) => {
                if is_want_of_memory(fault) {
                    return Err(Error::OutOfMemory);
                }
                // Nothing behind a malformed message is read.
                self.batch = BackendMessages::empty();
                let told = Err(fault);
                let want = self.script.message(alloc, &told);
                let_go(told);
                Ok(Some(want?))
            }
        }
    }

    fn reply(&mut self, alloc: Global, reply: Reply) -> Result<Want<S::Output>, Error>
        requires { HearsAt S.dialogue S.waits self.old.script }
        ensures step { MatchResult result (λ want. GoesOn S.dialogue S.refuses S.waits (heard reply (S.dialogue self.old.script)) want self.new.script) (λ e. e ≡ Error.OutOfMemory) }
        ensures falls { IfOk result (λ want. Falls want (S.steps self.old.script) (S.steps self.new.script)) }
        ensures id { self.new.id ≡ self.old.id }
        ensures batch { self.new.batch ≡ self.old.batch }
    {
        Ok(self.script.reply(alloc, reply)?)
    }

    fn refused(&mut self, alloc: Global, fault: DeskFault) -> Result<Want<S::Output>, Error>
        ensures step { MatchResult result (λ want. GoesOn S.dialogue S.refuses S.waits (S.refuses self.old.script (of_fault fault)) want self.new.script) (λ e. e ≡ Error.OutOfMemory) }
        ensures falls { IfOk result (λ want. Falls want (S.steps self.old.script) (S.steps self.new.script)) }
        ensures id { self.new.id ≡ self.old.id }
        ensures batch { self.new.batch ≡ self.old.batch }
    {
        Ok(self.script.refused(alloc, error_of(fault))?)
    }

    fn ask<D: Desk>(
        &mut self,
        alloc: Global,
        desk: &mut D,
        stamp: Stamp,
        copying: bool,
        part: Bytes,
    ) -> Result<Want<S::Output>, Error>
        ensures goes { MatchResult result
            (λ want. Goes D.becomes stamp desk.old (meaning_at S.dialogue S.refuses self.old (Act (Ask copying part))) desk.new (meaning_at S.dialogue S.refuses self.new want))
            (λ e. GoesToAnswer D.becomes stamp desk.old (meaning_at S.dialogue S.refuses self.old (Act (Ask copying part))) desk.new (Err e)) }
        ensures wanted { IfOk result (λ want. IsWanted S.dialogue S.waits want self.new.script) }
        ensures falls { IfOk result (λ want. Falls want (S.steps self.old.script) (S.steps self.new.script)) }
        ensures count { D.undelivered desk.new ≤ D.undelivered desk.old }
        ensures batch { length self.new.batch ≤ length self.old.batch }
    {
        match desk.book(alloc, stamp, part, copying) {
            Ok(id) => {
                self.id = id;
                self.batch = BackendMessages::empty();
                self.next(alloc)
            }
            Err(fault) => Err(error_of(fault)),
        }
    }

    fn send<D: Desk>(
        &mut self,
        alloc: Global,
        desk: &mut D,
        stamp: Stamp,
        part: Bytes,
    ) -> Result<Want<S::Output>, Error>
        ensures goes { MatchResult result
            (λ want. Goes D.becomes stamp desk.old (meaning_at S.dialogue S.refuses self.old (Act (Send part))) desk.new (meaning_at S.dialogue S.refuses self.new want))
            (λ e. GoesToAnswer D.becomes stamp desk.old (meaning_at S.dialogue S.refuses self.old (Act (Send part))) desk.new (Err e)) }
        ensures wanted { IfOk result (λ want. IsWanted S.dialogue S.waits want self.new.script) }
        ensures falls { IfOk result (λ want. Falls want (S.steps self.old.script) (S.steps self.new.script)) }
        ensures count { D.undelivered desk.new ≤ D.undelivered desk.old }
        ensures batch { length self.new.batch ≤ length self.old.batch }
    {
        let sent = match desk.book(alloc, stamp, part, false) {
            Ok(id) => id,
            Err(fault) => return self.refused(alloc, fault),
        };
        match desk.hang_up(sent) {
            Ok(()) => self.next(alloc),
            Err(fault) => Err(error_of(fault)),
        }
    }

    fn finish<D: Desk>(
        &mut self,
        alloc: Global,
        desk: &mut D,
        stamp: Stamp,
        part: Bytes,
    ) -> Result<Want<S::Output>, Error>
        ensures goes { MatchResult result
            (λ want. Goes D.becomes stamp desk.old (meaning_at S.dialogue S.refuses self.old (Act (Finish part))) desk.new (meaning_at S.dialogue S.refuses self.new want))
            (λ e. GoesToAnswer D.becomes stamp desk.old (meaning_at S.dialogue S.refuses self.old (Act (Finish part))) desk.new (Err e)) }
        ensures wanted { IfOk result (λ want. IsWanted S.dialogue S.waits want self.new.script) }
        ensures falls { IfOk result (λ want. Falls want (S.steps self.old.script) (S.steps self.new.script)) }
        ensures count { D.undelivered desk.new ≤ D.undelivered desk.old }
        ensures batch { length self.new.batch ≤ length self.old.batch }
    {
        match desk.end_copy(alloc, self.id, part) {
            Put::Took => self.next(alloc),
            Put::Gone(_) => Err(self.leave(desk)),
            Put::OutOfMemory(_) => Err(Error::OutOfMemory),
            Put::Full(_) => unreachable!(),
        }
    }

    fn close<D: Desk>(
        &mut self,
        alloc: Global,
        desk: &mut D,
        stamp: Stamp,
        part: Bytes,
    ) -> Result<Want<S::Output>, Error>
        ensures goes { MatchResult result
            (λ want. Goes D.becomes stamp desk.old (meaning_at S.dialogue S.refuses self.old (Act (Close part))) desk.new (meaning_at S.dialogue S.refuses self.new want))
            (λ e. GoesToAnswer D.becomes stamp desk.old (meaning_at S.dialogue S.refuses self.old (Act (Close part))) desk.new (Err e)) }
        ensures wanted { IfOk result (λ want. IsWanted S.dialogue S.waits want self.new.script) }
        ensures falls { IfOk result (λ want. Falls want (S.steps self.old.script) (S.steps self.new.script)) }
        ensures count { D.undelivered desk.new ≤ D.undelivered desk.old }
        ensures batch { length self.new.batch ≤ length self.old.batch }
    {
        match desk.end_copy(alloc, self.id, part) {
            Put::Took => self.next(alloc),
            Put::Gone(_) => self.next(alloc),
            Put::OutOfMemory(_) => Err(Error::OutOfMemory),
            Put::Full(_) => unreachable!(),
        }
    }

    fn hang_up_own<D: Desk>(
        &mut self,
        alloc: Global,
        desk: &mut D,
        stamp: Stamp,
    ) -> Result<Want<S::Output>, Error>
        ensures goes { MatchResult result
            (λ want. Goes D.becomes stamp desk.old (meaning_at S.dialogue S.refuses self.old (Act HangUp)) desk.new (meaning_at S.dialogue S.refuses self.new want))
            (λ e. GoesToAnswer D.becomes stamp desk.old (meaning_at S.dialogue S.refuses self.old (Act HangUp)) desk.new (Err e)) }
        ensures wanted { IfOk result (λ want. IsWanted S.dialogue S.waits want self.new.script) }
        ensures falls { IfOk result (λ want. Falls want (S.steps self.old.script) (S.steps self.new.script)) }
        ensures count { D.undelivered desk.new ≤ D.undelivered desk.old }
        ensures batch { length self.new.batch ≤ length self.old.batch }
    {
        match desk.hang_up(self.id) {
            Ok(()) => {
                self.batch = BackendMessages::empty();
                self.next(alloc)
            }
            Err(fault) => Err(error_of(fault)),
        }
    }

    fn call<D: Desk>(
        &mut self,
        alloc: Global,
        desk: &mut D,
        stamp: Stamp,
        desk_call: DeskCall,
    ) -> Result<Want<S::Output>, Error>
        requires { HearsAt S.dialogue S.waits self.old.script }
        ensures goes { MatchResult result
            (λ want. Goes D.becomes stamp desk.old (meaning_at S.dialogue S.refuses self.old (Act (Call desk_call))) desk.new (meaning_at S.dialogue S.refuses self.new want))
            (λ e. GoesToAnswer D.becomes stamp desk.old (meaning_at S.dialogue S.refuses self.old (Act (Call desk_call))) desk.new (Err e)) }
        ensures wanted { IfOk result (λ want. IsWanted S.dialogue S.waits want self.new.script) }
        ensures falls { IfOk result (λ want. Falls want (S.steps self.old.script) (S.steps self.new.script)) }
        ensures count { D.undelivered desk.new ≤ D.undelivered desk.old }
        ensures batch { length self.new.batch ≤ length self.old.batch }
    {
        match ask_desk(alloc, desk, desk_call) {
            Ok(reply) => self.reply(alloc, reply),
            Err(fault) => self.refused(alloc, fault),
        }
    }

    fn put<D: Desk>(
        &mut self,
        alloc: Global,
        desk: &mut D,
        stamp: Stamp,
        offer: Offer,
    ) -> Result<Want<S::Output>, Stop<S::Output>>
        ensures goes { MatchResult result
            (λ want. Goes D.becomes stamp desk.old (meaning_at S.dialogue S.refuses self.old (Act (act.Put offer))) desk.new (meaning_at S.dialogue S.refuses self.new want))
            (λ stop. Stops D.becomes S.dialogue stamp desk.old (meaning_at S.dialogue S.refuses self.old (Act (act.Put offer))) desk.new self.new stop) }
        ensures wanted { IfOk result (λ want. IsWanted S.dialogue S.waits want self.new.script) }
        ensures falls { IfOk result (λ want. Falls want (S.steps self.old.script) (S.steps self.new.script)) }
        ensures count { D.undelivered desk.new ≤ D.undelivered desk.old }
        ensures batch { length self.new.batch ≤ length self.old.batch }
    {
        let Offer { part, cleanup } = offer;
        match desk.put(alloc, self.id, part) {
            Put::Took => stopped(self.next(alloc)),
            Put::Full(back) => Err(Stop::Offers(Offer {
                part: back,
                cleanup,
            })),
            Put::Gone(_) => Err(Stop::Answers(Err(self.leave(desk)))),
            Put::OutOfMemory(_) => Err(Stop::Answers(Err(Error::OutOfMemory))),
        }
    }

    /// Does one thing that the script wants.
    fn act<D: Desk>(
        &mut self,
        alloc: Global,
        desk: &mut D,
        stamp: Stamp,
        action: Action,
    ) -> Result<Want<S::Output>, Stop<S::Output>>
        requires { IsWanted S.dialogue S.waits (Act action) self.old.script }
        ensures goes { MatchResult result
            (λ want. Goes D.becomes stamp desk.old (meaning_at S.dialogue S.refuses self.old (Act action)) desk.new (meaning_at S.dialogue S.refuses self.new want))
            (λ stop. Stops D.becomes S.dialogue stamp desk.old (meaning_at S.dialogue S.refuses self.old (Act action)) desk.new self.new stop) }
        ensures wanted { IfOk result (λ want. IsWanted S.dialogue S.waits want self.new.script) }
        ensures falls { IfOk result (λ want. Falls want (S.steps self.old.script) (S.steps self.new.script)) }
        ensures count { D.undelivered desk.new ≤ D.undelivered desk.old }
        ensures batch { length self.new.batch ≤ length self.old.batch }
    {
        match action {
            Action::Ask(copying, part) => stopped(self.ask(alloc, desk, stamp, copying, part)),
            Action::Send(part) => stopped(self.send(alloc, desk, stamp, part)),
            Action::Put(offer) => self.put(alloc, desk, stamp, offer),
            Action::Finish(part) => stopped(self.finish(alloc, desk, stamp, part)),
            Action::Close(part) => stopped(self.close(alloc, desk, stamp, part)),
            Action::HangUp => stopped(self.hang_up_own(alloc, desk, stamp)),
            Action::Call(desk_call) => stopped(self.call(alloc, desk, stamp, desk_call)),
        }
    }

    /// Does what the script wants, until it reads, answers, or offers a part for which there is no room.
    fn settle<D: Desk>(
        &mut self,
        alloc: Global,
        desk: &mut D,
        stamp: Stamp,
        want: Want<S::Output>,
    ) -> Option<Stop<S::Output>>
        requires { IsWanted S.dialogue S.waits want self.old.script }
        ensures goes { MatchOption result
            (Reads D.becomes S.dialogue S.waits stamp desk.old (meaning_at S.dialogue S.refuses self.old want) desk.new self.new)
            (λ stop. Stops D.becomes S.dialogue stamp desk.old (meaning_at S.dialogue S.refuses self.old want) desk.new self.new stop) }
        ensures count { D.undelivered desk.new ≤ D.undelivered desk.old }
        ensures batch { length self.new.batch ≤ length self.old.batch }
    {
        let mut want = want;
        loop {
            match want {
                Want::Answer(answer) => return Some(Stop::Answers(answer)),
                Want::Read => return None,
                Want::Act(action) => match self.act(alloc, desk, stamp, action) {
                    Ok(next) => want = next,
                    Err(stop) => return Some(stop),
                },
            }
        }
    }

    /// Gives the script the messages that came, until it stops or none is left.
    fn read<D: Desk>(
        &mut self,
        alloc: Global,
        desk: &mut D,
        stamp: Stamp,
    ) -> Option<Stop<S::Output>>
        requires { ReadsAt S.dialogue S.waits self.old.script }
        ensures goes { MatchOption result
            (Reads D.becomes S.dialogue S.waits stamp desk.old (meaning S.dialogue self.old) desk.new self.new)
            (λ stop. Stops D.becomes S.dialogue stamp desk.old (meaning S.dialogue self.old) desk.new self.new stop) }
        ensures empty { IfNone result (self.new.batch ≡ []) }
        ensures count { D.undelivered desk.new ≤ D.undelivered desk.old }
    {
        loop {
            match self.pull(alloc) {
                Ok(None) => return None,
                // Most messages want another, and nothing is done for that or for an answer.
                Ok(Some(Want::Read)) => {}
                Ok(Some(Want::Answer(answer))) => return Some(Stop::Answers(answer)),
                Ok(Some(want)) => {
                    if let Some(stop) = self.settle(alloc, desk, stamp, want) {
                        return Some(stop);
                    }
                }
                Err(error) => return Some(Stop::Answers(Err(error))),
            }
        }
    }

    /// The same, where a batch may have been used up before.
    fn read_on<D: Desk>(
        &mut self,
        alloc: Global,
        desk: &mut D,
        stamp: Stamp,
    ) -> Option<Stop<S::Output>>
        requires { ReadsAt S.dialogue S.waits self.old.script }
        ensures goes { MatchOption result
            (Reads D.becomes S.dialogue S.waits stamp desk.old (meaning S.dialogue self.old) desk.new self.new)
            (λ stop. Stops D.becomes S.dialogue stamp desk.old (meaning S.dialogue self.old) desk.new self.new stop) }
        ensures empty { IfNone result (self.new.batch ≡ []) }
        ensures count { D.undelivered desk.new ≤ D.undelivered desk.old }
    {
        if self.batch.is_empty() {
            return None;
        }
        self.read(alloc, desk, stamp)
    }

    /// These messages are read next.
    fn refill(&mut self, batch: BackendMessages)
        ensures { self.new ≡ record self.old { batch = batch } }
    {
        self.batch = batch;
    }

    /// Hangs up a request of which nothing comes any more, and gives the error that is answered then.
    fn leave<D: Desk>(&self, desk: &mut D) -> Error
        ensures leaves { Leaves D.becomes desk.old self.now.id desk.new result }
        ensures count { D.undelivered desk.new ≤ D.undelivered desk.old }
    {
        if let Err(fault) = desk.hang_up(self.id) {
            return error_of(fault);
        }
        Error::Closed
    }

    /// Takes batches and reads them, until the script stops or its mailbox is empty.
    pub(crate) fn go_on<D: Desk>(
        &mut self,
        alloc: Global,
        desk: &mut D,
        stamp: Stamp,
    ) -> Poll<Stop<S::Output>>
        requires { ReadsAt S.dialogue S.waits self.old.script }
        ensures { MatchPoll result
            (λ stop. Stops D.becomes S.dialogue stamp desk.old (meaning S.dialogue self.old) desk.new self.new stop)
            (Waits D.becomes S.dialogue S.waits stamp desk.old (meaning S.dialogue self.old) desk.new self.new) }
    {
        loop {
            if let Some(stop) = self.read_on(alloc, desk, stamp) {
                return Poll::Ready(stop);
            }
            match desk.take(self.id) {
                Ok(Take::Batch(batch)) => self.refill(batch),
                Ok(Take::Empty) => return Poll::Pending,
                Ok(Take::Over) => return Poll::Ready(Stop::Answers(Err(Error::Closed))),
                Ok(Take::Gone) => return Poll::Ready(Stop::Answers(Err(self.leave(desk)))),
                Err(fault) => return Poll::Ready(Stop::Answers(Err(error_of(fault)))),
            }
        }
    }

    /// Goes on where this is wanted.
    pub(crate) fn run<D: Desk>(
        &mut self,
        alloc: Global,
        desk: &mut D,
        stamp: Stamp,
        want: Want<S::Output>,
    ) -> Poll<Stop<S::Output>>
        requires { IsWanted S.dialogue S.waits want self.old.script }
        ensures { MatchPoll result
            (λ stop. Stops D.becomes S.dialogue stamp desk.old (meaning_at S.dialogue S.refuses self.old want) desk.new self.new stop)
            (Waits D.becomes S.dialogue S.waits stamp desk.old (meaning_at S.dialogue S.refuses self.old want) desk.new self.new) }
    {
        match self.settle(alloc, desk, stamp, want) {
            Some(stop) => Poll::Ready(stop),
            None => self.go_on(alloc, desk, stamp),
        }
    }

    /// Begins the command.
    pub(crate) fn begin<D: Desk>(
        &mut self,
        alloc: Global,
        desk: &mut D,
        stamp: Stamp,
    ) -> Poll<Stop<S::Output>>
        ensures { MatchPoll result
            (λ stop. Stops D.becomes S.dialogue stamp desk.old (meaning S.dialogue self.old) desk.new self.new stop)
            (Waits D.becomes S.dialogue S.waits stamp desk.old (meaning S.dialogue self.old) desk.new self.new) }
    {
        match self.next(alloc) {
            Ok(want) => self.run(alloc, desk, stamp, want),
            Err(error) => Poll::Ready(Stop::Answers(Err(error))),
        }
    }
}
