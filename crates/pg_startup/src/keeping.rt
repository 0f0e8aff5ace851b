//! What a startup keeps of the messages that it hears: the key, notices, reports.

ghost use Rattle.std.specs.Prelude.{◌≡◌, IfErr, IfOk};
ghost use Rattle.pg_spec.specs.Messages as said;
ghost use Rattle.pg_spec.specs.Startup.{key_of};
ghost use Rattle.pg_wire.specs.Messages.{message_view};
ghost use Rattle.pg_startup.specs.Startups.{KeepsAside, KeepsOnly, with_key};

use crate::{Heard, Startup};
use pg_errors::Error;
use pg_wire::{ErrorResponseBody, Message, ParameterStatusBody};
use std::alloc::Global;

impl<'a> Startup<'a> {
    /// Keeps what the session's key is.
    pub(crate) fn note_key(&mut self, message: &Message)
        ensures { self.new ≡ with_key self.old (key_of (message_view message.now)) }
    {
        if let Message::BackendKeyData(body) = message {
            self.process_id = body.process_id();
            self.secret_key = body.secret_key();
        }
    }

    /// Keeps a notice for the connection.
    fn keep_notice(&mut self, body: ErrorResponseBody) -> Result<Heard, Error>
        ensures kept { IfOk result (λ h. (h ≡ Heard.More) × KeepsAside self.old self.new (said.NoticeResponse body.fields)) }
        ensures err { IfErr result (λ e. e ≡ Error.OutOfMemory) }
        ensures same { KeepsOnly self.old self.new }
    {
        match self.delayed.push_back(body) {
            Ok(()) => Ok(Heard::More),
            Err(_) => Err(Error::OutOfMemory),
        }
    }

    /// Keeps a report in place of an earlier one for its name.
    fn keep_report(&mut self, alloc: Global, report: &ParameterStatusBody) -> Result<Heard, Error>
        ensures kept { IfOk result (λ h. (h ≡ Heard.More) × KeepsAside self.old self.new (said.ParameterStatus report.now.name report.now.value)) }
        ensures err { IfErr result (λ e. e ≡ Error.OutOfMemory) }
        ensures same { KeepsOnly self.old self.new }
    {
        let (Ok(name), Ok(value)) = (report.name(), report.value()) else {
            return Err(Error::OutOfMemory);
        };
        let Ok(name) = String::from_str(alloc, name) else {
            return Err(Error::OutOfMemory);
        };
        let Ok(value) = String::from_str(alloc, value) else {
            return Err(Error::OutOfMemory);
        };
        match self.parameters.keep(name, value) {
            Ok(()) => Ok(Heard::More),
            Err(_) => Err(Error::OutOfMemory),
        }
    }

    /// Keeps a notice for the connection, or a report in place of an earlier one for its name.
    pub(crate) fn keep(&mut self, alloc: Global, message: Message) -> Result<Heard, Error>
        ensures kept { IfOk result (λ h. (h ≡ Heard.More) × KeepsAside self.old self.new (message_view message)) }
        ensures err { IfErr result (λ e. e ≡ Error.OutOfMemory) }
        ensures same { KeepsOnly self.old self.new }
    {
        match &message {
            Message::NoticeResponse(_) => match message.notice_body() {
                Some(body) => self.keep_notice(body),
                None => unreachable!(),
            },
            Message::ParameterStatus(report) => self.keep_report(alloc, report),
            _ => Ok(Heard::More),
        }
    }
}
