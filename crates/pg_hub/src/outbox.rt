//! What of all requests hasn't gone out. Nothing is kept of one that went out whole.

ghost use Rattle.std.specs.Prelude.{◌≡◌, ◌⊎◌, ◌<◌, ◌≤◌, ◌+◌, ◌-◌, ◌++◌, ◌∷◌, [], length, slice_set, true, false, MatchBool, MatchOption};
ghost use Rattle.pg_hub.specs.declared.mailbox.Mailbox.{Mailbox};
ghost use Rattle.pg_hub.specs.Rests.{Rest, Outbound, rest_at, nothing_left, PopsFirst};

use crate::outgoing::Outgoing;
use crate::replies::Replies;
use bytes::Bytes;
use std::alloc::Global;
use std::collections::VecDeque;
use std::marker::Model;

/// What is left of the requests behind the first ones, which went out whole.
#[derive(Drop)]
pub(crate) struct Outbox {
    /// How many went out whole.
    whole: u64,
    left: VecDeque<Outgoing>,
}

impl Model for Outbox {
    ghost use Rattle.pg_hub.specs.Rests.{Outbound, rests_of};

    ghost Value = { Outbound };

    ghost view = { λ o. record { rests = rests_of o.whole o.left.items; whole = o.whole } };
}

impl Outbox {
    /// None. It takes no memory.
    pub(crate) fn new(alloc: Global) -> Outbox
        ensures { result ≡ record { rests = []; whole = 0 } }
    {
        Outbox {
            whole: 0,
            left: VecDeque::new(alloc),
        }
    }

    /// How many requests went out whole.
    pub(crate) fn whole(&self) -> u64
        ensures { result ≡ self.now.whole }
    {
        self.whole
    }

    /// Of how many requests parts are held.
    pub(crate) fn held(&self) -> usize
        ensures { result ≡ length self.now.rests - self.now.whole }
    {
        self.left.len()
    }

    /// A request of one part more, a copy or not, and an empty mailbox for its reply. Where memory lacks,
    /// nothing changes.
    pub(crate) fn push(&mut self, replies: &mut Replies, part: Bytes, copying: bool) -> bool
        ensures { MatchBool result
            ((self.new ≡ record self.old { rests = self.old.rests ++ record { parts = part ∷ []; copying = copying } ∷ [] })
            × (replies.new ≡ record replies.old { boxes = replies.old.boxes ++ Mailbox.Empty ∷ [] }))
            ((self.new ≡ self.old) × (replies.new ≡ replies.old)) }
    {
        if self.left.reserve(1).is_err() {
            return false;
        }
        if !replies.push() {
            return false;
        }
        self.left.push_back_reserved(Outgoing::new(part, copying));
        true
    }

    /// Whether a request is a copy that isn't ended.
    pub(crate) fn is_copying(&self, place: usize) -> bool
        requires { place < length self.now.rests }
        ensures { result ≡ (rest_at self.now.rests place).copying }
    {
        if (place as u64) < self.whole {
            return false;
        }
        self.left[place - self.whole as usize].is_copying()
    }

    /// Two parts of a copy wait.
    pub(crate) fn is_full(&self, place: usize) -> bool
        requires inside { place < length self.now.rests }
        requires copies { (rest_at self.now.rests place).copying ≡ true }
        ensures { MatchBool result (2 ≤ length (rest_at self.now.rests place).parts) (length (rest_at self.now.rests place).parts < 2) }
    {
        self.left[place - self.whole as usize].is_full()
    }

    /// A part more of a copy.
    pub(crate) fn put(&mut self, place: usize, part: Bytes)
        requires inside { place < length self.old.rests }
        requires copies { (rest_at self.old.rests place).copying ≡ true }
        requires room { length (rest_at self.old.rests place).parts < 2 }
        ensures { self.new ≡ record self.old { rests = slice_set self.old.rests place (record { parts = (rest_at self.old.rests place).parts ++ part ∷ []; copying = true }) } }
    {
        self.left[place - self.whole as usize].put(part);
    }

    /// The last part of a copy.
    pub(crate) fn close(&mut self, place: usize, part: Bytes)
        requires inside { place < length self.old.rests }
        requires copies { (rest_at self.old.rests place).copying ≡ true }
        ensures { self.new ≡ record self.old { rests = slice_set self.old.rests place (record { parts = (rest_at self.old.rests place).parts ++ part ∷ []; copying = false }) } }
    {
        self.left[place - self.whole as usize].close(part);
    }

    /// The oldest part goes out of the first request that hasn't gone out whole. `booked`: how many there are.
    pub(crate) fn pop(&mut self, booked: usize) -> Option<Bytes>
        requires all { booked ≡ length self.old.rests }
        requires some { self.old.whole < booked }
        ensures { MatchOption result
            (((rest_at self.old.rests self.old.whole).parts ≡ []) × (self.new ≡ self.old))
            (PopsFirst self.old self.new) }
    {
        let part = self.left[0].pop()?;
        if self.left[0].is_whole() {
            drop(self.left.pop_front());
            self.whole += 1;
        }
        Some(part)
    }
}
