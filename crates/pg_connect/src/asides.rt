//! Messages that no request asked for, and those that come where no request is open.

ghost use Rattle.std.specs.Prelude.{◌≡◌, ◌<◌, true, [], None, drop, Some, length, IfOk, IfErr, is_ok, OnOk};
ghost use Rattle.pg_spec.specs.Links.{LinkView};
ghost use Rattle.pg_errors.specs.Parsing.{ParsesError};
ghost use Rattle.pg_connect.specs.Passes.{PassesOn};
ghost use Rattle.pg_connect.specs.Reads.{IsUnreadable, KeepsReport, Sorts, TakesAside, MeansUnasked, IsUnasked, unreadable_as, ReadsFirst, HandedLate, LateEnds};

use crate::{ConnectionFault, Off, Streams};
use pg_errors::{AsyncMessage, Cause, DbError, Error, ParseFields};
use pg_types::Held;
use pg_wire::{BackendMessages, ErrorResponseBody, Message, ParameterStatusBody, WireFault};
use std::alloc::Global;
use std::mem;

impl Streams {
    /// Keeps a parameter report in place of an earlier one for its name.
    fn keep(&mut self, alloc: Global, report: &ParameterStatusBody) -> Result<(), ConnectionFault>
        ensures ok { OnOk result (KeepsReport self.old self.new (Message.ParameterStatus report.now)) }
        ensures fault { IfErr result (λ e. IsUnreadable (Message.ParameterStatus report.now) e × (self.new ≡ self.old)) }
    {
        let Ok(name) = report.name() else {
            return Err(ConnectionFault::Unreadable(Cause::NotUtf8));
        };
        let Ok(value) = report.value() else {
            return Err(ConnectionFault::Unreadable(Cause::NotUtf8));
        };
        let name = String::from_str(alloc, name)?;
        let value = String::from_str(alloc, value)?;
        self.parameters.keep(name, value)?;
        Ok(())
    }

    /// Keeps a parameter report, or reads a message to be handed out. None comes where there is none to
    /// be handed out.
    fn sort(
        &mut self,
        alloc: Global,
        message: &Message,
    ) -> Result<Option<AsyncMessage>, ConnectionFault>
        ensures { Sorts self.old self.new message.now result }
    {
        if let Message::ParameterStatus(report) = message {
            self.keep(alloc, report)?;
            return Ok(None);
        }
        match AsyncMessage::read(alloc, message) {
            Ok(handed) => Ok(handed),
            Err(e) => Err(unreadable(e)),
        }
    }

    /// Leaves a message unread, for what it can't be passed on.
    fn refuse(&mut self, message: Message)
        ensures { self.new ≡ record self.old { unread = Some message } }
    {
        drop(mem::replace(&mut self.unread, Some(message)));
    }

    /// Hands a message out.
    fn hand_out(&mut self, handed: AsyncMessage) -> Off
        ensures off { result ≡ Off.Handed handed }
        ensures moved { self.new ≡ record self.old { moved = true } }
    {
        self.moved = true;
        Off::Handed(handed)
    }

    /// Passes on a message that came off the bytes, or leaves it unread.
    pub(crate) fn take_aside(
        &mut self,
        alloc: Global,
        message: Message,
    ) -> Result<Off, ConnectionFault>
        ensures { TakesAside self.old self.new message result }
    {
        match self.sort(alloc, &message) {
            Ok(Some(handed)) => Ok(self.hand_out(handed)),
            Ok(None) => Ok(Off::Kept),
            Err(e) => {
                self.refuse(message);
                Err(e)
            }
        }
    }
}

/// Why a message of the server can't be read.
fn unreadable(e: Error) -> ConnectionFault
    ensures { result ≡ unreadable_as e }
{
    let mut e = e;
    match &mut e {
        Error::Parse(cause) => ConnectionFault::Unreadable(mem::replace(cause, Cause::NotUtf8)),
        _ => ConnectionFault::OutOfMemory,
    }
}

/// Reads a notice.
fn read_notice(alloc: Global, notice: &ErrorResponseBody) -> Result<Held<DbError>, Error>
    ensures { ParsesError notice.now.fields result }
{
    let notice = DbError::parse(alloc, notice)?;
    Ok(Held::new(alloc, notice)?)
}

impl Streams {
    /// Reads the first notice that is delayed, if there is one.
    fn first_notice(&self, alloc: Global) -> Option<Result<Held<DbError>, ConnectionFault>>
        ensures { ReadsFirst self.now result }
    {
        let notice = self.delayed.front()?;
        match read_notice(alloc, notice) {
            Ok(notice) => Some(Ok(notice)),
            Err(e) => Some(Err(unreadable(e))),
        }
    }

    /// Drops the first notice that is delayed, which is handed out.
    fn drop_notice(&mut self)
        ensures delayed { self.new.delayed.items ≡ drop 1 self.old.delayed.items }
        ensures same { self.new ≡ record self.old { delayed = self.new.delayed; moved = true } }
    {
        let _ = self.delayed.pop_front();
        self.moved = true;
    }

    /// Hands out the first notice that is delayed, if there is one. One that can't be read stays.
    pub(crate) fn hand_delayed(
        &mut self,
        alloc: Global,
    ) -> Result<Option<AsyncMessage>, ConnectionFault>
        requires { self.old.unread ≡ None }
        ensures passes { (l : LinkView) → PassesOn self.old self.new l l [] (HandedLate result) }
        ensures end { LateEnds self.old self.new result }
        ensures held { self.new.held ≡ self.old.held }
        ensures unread { self.new.unread ≡ None }
        ensures buffer { self.new.buffer ≡ self.old.buffer }
        ensures given { self.new.given ≡ self.old.given }
        ensures limit { self.new.max_bytes ≡ self.old.max_bytes }
        ensures closing { self.new.closing ≡ self.old.closing }
        ensures at_end { self.new.at_end ≡ self.old.at_end }
    {
        match self.first_notice(alloc) {
            None => Ok(None),
            Some(Ok(notice)) => {
                self.drop_notice();
                Ok(Some(AsyncMessage::Notice(notice)))
            }
            Some(Err(e)) => Err(e),
        }
    }
}

/// What a message means that comes where no request is open.
fn meaning(alloc: Global, message: &Message) -> ConnectionFault
    ensures { MeansUnasked message.now result }
{
    if let Message::ErrorResponse(body) = message {
        return match DbError::parse(alloc, body) {
            Ok(error) => match Error::db(alloc, error) {
                Ok(error) => ConnectionFault::Unasked(error),
                Err(_) => ConnectionFault::OutOfMemory,
            },
            Err(e) => match &e {
                Error::Parse(_) => ConnectionFault::Unasked(e),
                _ => ConnectionFault::OutOfMemory,
            },
        };
    }
    ConnectionFault::Unasked(Error::UnexpectedMessage)
}

/// What a batch means for which no request is open: what its first message means.
pub(crate) fn unasked(alloc: Global, batch: &BackendMessages) -> ConnectionFault
    requires { 0 < length batch.now }
    ensures { IsUnasked batch.now result }
{
    let mut look = match batch.share() {
        Ok(look) => look,
        Err(_) => return ConnectionFault::OutOfMemory,
    };
    match look.next() {
        Ok(Some(message)) => meaning(alloc, &message),
        Ok(None) => ConnectionFault::Unasked(Error::UnexpectedMessage),
        Err(WireFault::OutOfMemory) => ConnectionFault::OutOfMemory,
        Err(fault) => ConnectionFault::Unasked(Error::Parse(Cause::Wire(fault))),
    }
}
