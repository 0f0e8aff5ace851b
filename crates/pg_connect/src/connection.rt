//! The connection, which is polled until it ends.

ghost use Rattle.std.specs.Prelude.{◌≡◌, ◌^◌, ◌<◌, ◌≤◌, false, option_map, slice_get};
ghost use Rattle.pg_connect.specs.Kept.{value_of};
ghost use Rattle.pg_spec.specs.Parameters.{NamesRise};
ghost use Rattle.pg_wire.specs.LinkCalls.{Keeps, WaitAnswers};
ghost use Rattle.pg_connect.specs.Answers.{PollAnswers, IsWithinPoll};

use crate::Streams;
use futures::task::Poll;
use pg_desk::Engine;
use pg_errors::{AsyncMessage, Error};
use pg_wire::{Link, LinkWait};
use std::alloc::Global;

/// A connection to the server, with its link.
#[derive(Drop)]
pub struct Connection<L> {
    pub link: L,
    pub streams: Streams,
    ghost small: { streams.max_bytes < 2 ^ 63 },
    ghost within: { streams.ended ≡ false → streams.given ≤ streams.max_bytes },
}

impl<L: Link> Connection<L> {
    /// Reads, writes and flushes once. It answers a notice or a notification, or that it has to wait
    /// (Pending), or its end (None). The end or an error is answered once, and Closed from then on. An
    /// error makes the hub fail.
    pub fn poll_message<E: Engine>(
        &mut self,
        alloc: Global,
        hub: &mut E,
    ) -> Poll<Option<Result<AsyncMessage, Error>>>
        ensures answer { PollAnswers E.becomes hub.old hub.new self.old.streams self.new.streams (L.view self.old.link) (L.view self.new.link) result }
        ensures limit { self.new.streams.max_bytes ≡ self.old.streams.max_bytes }
        ensures limit_kept { self.old.streams.ended ≡ false → IsWithinPoll self.new.streams result }
    {
        self.streams.poll_message(alloc, &mut self.link, hub)
    }

    /// The value that was last reported for a setting of the server.
    pub fn parameter(&self, name: &str) -> Option<&str>
        ensures { option_map (λ text. text.now) result ≡ value_of self.now.streams.parameters name.now }
    {
        self.streams.parameters.get(name)
    }

    /// Name and value of the setting at place `i`, counted from 0, ascending by the name's bytes. None
    /// comes from their number on.
    pub fn parameter_at(&self, i: usize) -> Option<(&str, &str)>
        ensures at { option_map (λ pair. (pair.0.now, pair.1.now)) result ≡ slice_get self.now.streams.parameters i }
        ensures rising { NamesRise self.now.streams.parameters }
    {
        self.streams.parameters.at(i)
    }

    /// Waits until the link may be ready.
    pub fn wait(&mut self) -> LinkWait
        ensures answer { WaitAnswers (L.view self.old.link) (L.view self.new.link) result }
        ensures keeps { Keeps (L.view self.old.link) (L.view self.new.link) }
        ensures streams { self.new.streams ≡ self.old.streams }
    {
        self.link.wait()
    }

    /// How often a call on the link wasn't ready.
    pub fn quiet(&self) -> u64
        ensures { result ≡ (L.view self.now.link).quiet }
    {
        self.link.quiet()
    }

    /// Whether the last poll moved something: the link gave or took a byte or gave its end, a message was
    /// handed out, a batch was delivered or discarded, or a part was taken out of the hub.
    pub fn moved(&self) -> bool
        ensures { result ≡ self.now.streams.moved }
    {
        self.streams.moved
    }

    /// How many messages were delivered to requests, or discarded for them, since the startup.
    pub fn delivered(&self) -> u64
        ensures { result ≡ self.now.streams.delivered }
    {
        self.streams.delivered
    }
}
