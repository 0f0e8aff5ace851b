//! A startup's dialogue, from message to message.

ghost use Rattle.std.specs.Prelude.{◌≡◌, IsTrue};
ghost use Rattle.pg_spec.specs.Passwords.{is_nonce};
ghost use Rattle.pg_spec.specs.Startup.{First};
ghost use Rattle.pg_wire.specs.Messages.{message_view};
ghost use Rattle.pg_startup.specs.Stages.{login_of};
ghost use Rattle.pg_startup.specs.Steps.{Tells};

use crate::dialogue::hear;
use crate::phase::{Login, Phase, Step};
use bytes::BytesMut;
use pg_errors::Error;
use pg_wire::Message;
use std::alloc::Global;
use std::marker::Model;

/// A dialogue, seen as what it stands on and what it waits for.
#[derive(Drop)]
pub struct Dialogue<'a> {
    login: Login<'a>,
    phase: Phase,
}

impl<'a> Model for Dialogue<'a> {
    ghost use Rattle.std.specs.Prelude.{IsTrue};
    ghost use Rattle.pg_spec.specs.Passwords.{is_nonce};
    ghost use Rattle.pg_startup.specs.Stages.{Stage, Holds, login_of, phase_of};

    ghost Value = { Stage };

    ghost view = { λ d. record { login = login_of d.login; phase = phase_of d.phase } };

    ghost invariant = { λ d. IsTrue (is_nonce d.login.nonce.now) × Holds (login_of d.login) d.phase };
}

/// What a message makes of the dialogue.
#[derive(Drop)]
pub enum Told<'a> {
    /// It goes on.
    More(Dialogue<'a>),
    /// It goes on, and this frame is to be sent.
    Sends(BytesMut, Dialogue<'a>),
    /// The message was ReadyForQuery.
    Done,
}

impl<'a> Dialogue<'a> {
    /// It waits for the server's first message.
    pub fn new(login: Login<'a>) -> Dialogue<'a>
        requires nonce { IsTrue (is_nonce login.nonce.now) }
        ensures login { result.login ≡ login_of login.entry }
        ensures phase { result.phase ≡ First }
    {
        Dialogue {
            login,
            phase: Phase::First,
        }
    }

    /// One message of the server. A dialogue that is done, or that an error ended, is spent. Encode comes where a
    /// frame can't be written, and else the error of the first row that fits: Db, Parse, UnexpectedMessage,
    /// Config(NoPassword), or Authentication with its cause.
    pub fn hear(self, alloc: Global, message: &Message) -> Result<Told<'a>, Error>
        ensures { Tells self.entry (message_view message.now) result }
    {
        let Dialogue { login, phase } = self;
        match hear(alloc, &login, phase, message) {
            Ok(Step::Goes(phase)) => Ok(Told::More(Dialogue { login, phase })),
            Ok(Step::Sends(frame, phase)) => Ok(Told::Sends(frame, Dialogue { login, phase })),
            Ok(Step::Done) => Ok(Told::Done),
            Err(e) => Err(e),
        }
    }
}
