//! The messages of the server, heard one after another.

ghost use Rattle.std.specs.Prelude.{◌≡◌, ◌≤◌, ◌∷◌, [], ℕ, List, Bool, Some, Ok, true, false, IfOk, MatchResult};
ghost use Rattle.pg_spec.specs.Batches.{is_batch};
ghost use Rattle.pg_spec.specs.Messages.{message_of};
ghost use Rattle.pg_spec.specs.RawMessages.{RawMessage, is_aside};
ghost use Rattle.pg_spec.specs.Startup.{Login};
ghost use Rattle.pg_wire.specs.Messages.{message_view};
ghost use Rattle.pg_startup.specs.Startups.{Adds, HasPlace, Hears, HearsAll, HearsBuffer, HearsOnly, IsTold, LeavesNone, MarksEnd, Queues, QueuesOnly, Speaks, StandsAt, TellsOnly, WasLast, refusal_of, sends_left};

use crate::{Dialogue, Heard, Startup, Told};
use pg_errors::{Cause, Error};
use pg_types::OutOfMemory;
use pg_wire::{BackendMessage, BackendMessages, Message, PostgresCodec, WireFault};
use std::alloc::Global;
use std::mem;

impl<'a> Startup<'a> {
    /// ReadyForQuery was heard.
    fn end(&mut self)
        ensures { self.new ≡ record self.old { done = true } }
    {
        self.done = true;
    }

    /// The dialogue goes on so.
    fn go_on(&mut self, next: Dialogue<'a>)
        ensures { self.new ≡ record self.old { dialogue = Some next.entry } }
    {
        drop(mem::replace(&mut self.dialogue, Some(next)));
    }

    /// Adds a frame to those that are to be sent. Where memory lacks, all is as before.
    fn queue(&mut self, frame: &[u8]) -> Result<(), OutOfMemory>
        ensures queued { MatchResult result (λ _. Adds self.old self.new frame.now) (λ _. Adds self.old self.new []) }
        ensures same { QueuesOnly self.old self.new }
    {
        if self.bytes.unsent.reserve(frame.len()).is_err() {
            return Err(OutOfMemory);
        }
        if self.opening.extend_from_slice(frame).is_err() {
            return Err(OutOfMemory);
        }
        self.bytes.unsent.extend_reserved(frame);
        self.bytes.flushed = false;
        Ok(())
    }

    /// What a message makes of the dialogue. A frame that answers it is queued.
    fn tell(&mut self, alloc: Global, message: &Message) -> Result<Heard, Error>
        ensures told { (l : Login) (first : List ℕ) (read : List RawMessage) (raw : RawMessage) → Speaks l first read self.old → self.old.done ≡ false →
            message_of raw ≡ Ok (message_view message.now) → IsTold l first read raw self.new result }
        ensures place { IfOk result (λ _. HasPlace (message_view message.now)) }
        ensures last { WasLast message.now result }
        ensures end { MarksEnd self.old self.new result }
        ensures queues { Queues self.old self.new }
        ensures lower { sends_left self.new ≤ sends_left self.old }
        ensures same { TellsOnly self.old self.new }
    {
        let Some(dialogue) = self.dialogue.take() else {
            return Err(Error::Closed);
        };
        match dialogue.hear(alloc, message) {
            Ok(Told::More(next)) => {
                self.go_on(next);
                Ok(Heard::More)
            }
            Ok(Told::Sends(frame, next)) => {
                match self.queue(frame.as_slice()) {
                    Ok(()) => {}
                    Err(OutOfMemory) => return Err(Error::OutOfMemory),
                }
                self.go_on(next);
                Ok(Heard::More)
            }
            Ok(Told::Done) => {
                self.end();
                Ok(Heard::Done)
            }
            Err(error) => Err(error),
        }
    }

    /// One message of a batch.
    fn hear(&mut self, alloc: Global, message: Message) -> Result<Heard, Error>
        ensures heard { (l : Login) (first : List ℕ) (read : List RawMessage) (raw : RawMessage) → StandsAt l first read self.old → self.old.done ≡ false →
            is_aside raw ≡ false → message_of raw ≡ Ok (message_view message) → Hears l first read (raw ∷ []) [] [] self.new result }
        ensures last { WasLast message result }
        ensures end { MarksEnd self.old self.new result }
        ensures queues { Queues self.old self.new }
        ensures lower { sends_left self.new ≤ sends_left self.old }
        ensures same { HearsOnly self.old self.new }
    {
        match self.tell(alloc, &message) {
            Ok(heard) => {
                self.note_key(&message);
                Ok(heard)
            }
            Err(error) => Err(error),
        }
    }

    /// A message that stands aside: a notice or a report of a setting.
    fn hear_aside(&mut self, alloc: Global, message: Message) -> Result<Heard, Error>
        ensures heard { (l : Login) (first : List ℕ) (read : List RawMessage) (raw : RawMessage) → StandsAt l first read self.old → self.old.done ≡ false →
            is_aside raw ≡ true → message_of raw ≡ Ok (message_view message) → Hears l first read (raw ∷ []) [] [] self.new result }
        ensures end { MarksEnd self.old self.new result }
        ensures queues { Queues self.old self.new }
        ensures lower { sends_left self.new ≤ sends_left self.old }
        ensures same { HearsOnly self.old self.new }
    {
        match self.tell(alloc, &message) {
            Ok(Heard::More) => self.keep(alloc, message),
            Ok(Heard::Done) => Ok(Heard::Done),
            Err(error) => Err(error),
        }
    }

    /// The messages of a batch, one after another.
    fn hear_batch(&mut self, alloc: Global, batch: BackendMessages) -> Result<Heard, Error>
        ensures heard { (l : Login) (first : List ℕ) (read : List RawMessage) (complete : Bool) → is_batch complete batch ≡ true →
            StandsAt l first read self.old → self.old.done ≡ false → Hears l first read batch [] [] self.new result }
        ensures end { MarksEnd self.old self.new result }
        ensures queues { Queues self.old self.new }
        ensures lower { sends_left self.new ≤ sends_left self.old }
        ensures same { HearsOnly self.old self.new }
    {
        let mut batch = batch;
        'messages: loop {
            match batch.next() {
                Ok(Some(message)) => match self.hear(alloc, message) {
                    Ok(Heard::More) => {}
                    Ok(Heard::Done) => return Ok(Heard::Done),
                    Err(error) => return Err(error),
                },
                Ok(None) => return Ok(Heard::More),
                Err(fault) => return Err(refusal(fault)),
            }
        }
    }

    /// All whole messages that are buffered, up to ReadyForQuery.
    pub(crate) fn hear_all(&mut self, alloc: Global) -> Result<Heard, Error>
        ensures heard { (l : Login) (first : List ℕ) (read : List RawMessage) → StandsAt l first read self.old → self.old.done ≡ false →
            HearsAll l first read self.old.bytes.buffer.items self.new.bytes.buffer.items self.new result }
        ensures none { LeavesNone self.new.bytes.buffer.items result }
        ensures end { MarksEnd self.old self.new result }
        ensures queues { Queues self.old self.new }
        ensures lower { sends_left self.new ≤ sends_left self.old }
        ensures same { HearsBuffer self.old self.new }
    {
        'batches: loop {
            match PostgresCodec::decode(&mut self.bytes.buffer) {
                Ok(Some(BackendMessage::Normal { messages, .. })) => {
                    match self.hear_batch(alloc, messages) {
                        Ok(Heard::More) => {}
                        Ok(Heard::Done) => return Ok(Heard::Done),
                        Err(error) => return Err(error),
                    }
                }
                Ok(Some(BackendMessage::Async(message))) => match self.hear_aside(alloc, message) {
                    Ok(Heard::More) => {}
                    Ok(Heard::Done) => return Ok(Heard::Done),
                    Err(error) => return Err(error),
                },
                Ok(None) => return Ok(Heard::More),
                Err(fault) => return Err(refusal(fault)),
            }
        }
    }
}

/// Why a message that can't be read ends the startup.
fn refusal(fault: WireFault) -> Error
    ensures { result ≡ refusal_of fault }
{
    match fault {
        WireFault::OutOfMemory => Error::OutOfMemory,
        _ => Error::Io(Cause::Wire(fault)),
    }
}
