//! A machine, made of its rows and its refusal.

ghost use Rattle.std.specs.Prelude.{◌≡◌, IfOk, IfSome, true, [], ◌∷◌};
ghost use Rattle.pg_spec.specs.RawMessages.{messages};
ghost use Rattle.pg_machine.specs.Machines.{is_one_error, is_refusal, MachineOr};
ghost use Rattle.pg_machine.specs.Making.{IsRead, IsUnread, error_of};

use crate::machine::{Machine, MachineFault, MachineRow, first_bad};
use crate::{Found, front_message};
use bytes::Bytes;
use pg_errors::{DbError, Error, ParseFields};
use pg_types::{Blob, List, OutOfMemory};
use pg_wire::{ErrorResponseBody, Message};
use std::alloc::Global;

/// The bytes are one ErrorResponse.
fn is_one_error(refusal: &[u8]) -> bool
    ensures { result ≡ is_one_error refusal.now }
{
    let Found::Whole(n) = front_message(refusal) else {
        return false;
    };
    n == refusal.len() && refusal[0] == b'E'
}

/// The body of one ErrorResponse. None: want of memory.
fn body_of(alloc: Global, refusal: &[u8]) -> Option<ErrorResponseBody>
    requires { is_one_error refusal.now ≡ true }
    ensures { IfSome result (λ body. messages refusal.now ≡ error_of body.fields ∷ []) }
{
    let Ok(mut bytes) = Bytes::copy_from_slice(alloc, refusal) else {
        return None;
    };
    match Message::parse(&mut bytes) {
        Ok(Some(message)) => match &message {
            Message::ErrorResponse(_) => message.error_body(),
            _ => None,
        },
        _ => None,
    }
}

/// What reading an error answers, without the error.
#[derive(Clone, Copy, Debug, PartialEq, Eq, Drop)]
enum ErrorRead {
    Read,
    Unreadable,
    OutOfMemory,
}

/// The fields of an error can be read.
fn reads_error(alloc: Global, body: &ErrorResponseBody) -> ErrorRead
    ensures { IsRead body.now.fields result }
{
    match DbError::parse(alloc, body) {
        Ok(_) => ErrorRead::Read,
        Err(error) => unread(error),
    }
}

/// Why an error couldn't be read.
fn unread(error: Error) -> ErrorRead
    ensures { IsUnread error result }
{
    match &error {
        Error::OutOfMemory => ErrorRead::OutOfMemory,
        _ => ErrorRead::Unreadable,
    }
}

/// The refusal is one ErrorResponse that can be read.
fn is_refusal(alloc: Global, refusal: &[u8]) -> Result<bool, OutOfMemory>
    ensures { IfOk result (λ b. b ≡ is_refusal refusal.now) }
{
    if !is_one_error(refusal) {
        return Ok(false);
    }
    match body_of(alloc, refusal) {
        Some(body) => match reads_error(alloc, &body) {
            ErrorRead::Read => Ok(true),
            ErrorRead::Unreadable => Ok(false),
            ErrorRead::OutOfMemory => Err(OutOfMemory),
        },
        None => Err(OutOfMemory),
    }
}

impl Machine {
    /// A machine of these rows and this refusal. BadRow tells the first row that breaks the rules: each reply is whole
    /// messages without ReadyForQuery, only an Execute opens a copy, with a reply that ends in CopyInResponse and has
    /// no error, and no other reply has a CopyInResponse. BadRefusal comes where the refusal isn't one error that can
    /// be read.
    pub fn new(
        alloc: Global,
        rows: List<MachineRow>,
        refusal: Blob,
    ) -> Result<Machine, MachineFault>
        ensures { MachineOr (record { rows = rows; refusal = refusal }) result }
    {
        if let Some(i) = first_bad(rows.as_slice()) {
            return Err(MachineFault::BadRow(i));
        }
        match is_refusal(alloc, refusal.as_slice()) {
            Ok(true) => Ok(Machine::of(rows, refusal)),
            Ok(false) => Err(MachineFault::BadRefusal),
            Err(_) => Err(MachineFault::OutOfMemory),
        }
    }
}
