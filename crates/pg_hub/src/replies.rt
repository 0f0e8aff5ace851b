//! What came for all requests. Of one whose reply is over and was taken, or whose reader hung up, a byte stays.

ghost use Rattle.std.specs.Prelude.{◌≡◌, ◌<◌, ◌+◌, ◌++◌, ◌∷◌, [], length, slice_set, Some, None, false, MatchBool, MatchOption, MatchResult, if◌then◌else◌};
ghost use Rattle.pg_hub.specs.declared.mailbox.Mailbox.{Mailbox};
ghost use Rattle.pg_hub.specs.Mail.{received_by, first_of, rest_of, is_gone, at, has, held_from, Ascending};
ghost use Rattle.pg_hub.specs.Places.{IsAt, mailbox_at, taken_at};

use crate::mailbox::{Kept, Mailbox};
use pg_wire::BackendMessages;
use std::alloc::Global;
use std::collections::VecDeque;
use std::marker::Model;

/// A mailbox for each request, and how many replies are over: those of the first requests.
#[derive(Drop)]
pub(crate) struct Replies {
    /// Of each request, whether its reader hung up.
    hung_up: Vec<bool>,
    /// The mailboxes of those whose reader is there and whose reply isn't over or wasn't taken, in order.
    kept: VecDeque<Kept>,
    finished: u64,
}

impl Model for Replies {
    ghost use Rattle.pg_hub.specs.Mail.{Mail, boxes_from, KeepsHeld};

    ghost Value = { Mail };

    ghost view = { λ r. record { boxes = boxes_from 0 r.hung_up.items r.kept.items; finished = r.finished } };

    ghost invariant = { λ r. KeepsHeld r.hung_up.items r.kept.items r.finished };
}

impl Replies {
    /// None. It takes no memory.
    pub(crate) fn new(alloc: Global) -> Replies
        ensures { result ≡ record { boxes = []; finished = 0 } }
    {
        Replies {
            hung_up: Vec::new(alloc),
            kept: VecDeque::new(alloc),
            finished: 0,
        }
    }

    /// How many requests there are.
    pub(crate) fn len(&self) -> usize
        ensures { result ≡ length self.now.boxes }
    {
        self.hung_up.len()
    }

    /// How many replies are over.
    pub(crate) fn finished(&self) -> u64
        ensures { result ≡ self.now.finished }
    {
        self.finished
    }

    /// How many mailboxes are held.
    pub(crate) fn held(&self) -> usize
        ensures { result ≡ held_from 0 self.now.finished self.now.boxes }
    {
        self.kept.len()
    }

    /// An empty mailbox more. Where memory lacks, nothing changes.
    pub(crate) fn push(&mut self) -> bool
        ensures { MatchBool result (self.new ≡ record self.old { boxes = self.old.boxes ++ Mailbox.Empty ∷ [] }) (self.new ≡ self.old) }
    {
        if self.kept.reserve(1).is_err() {
            return false;
        }
        let id = self.hung_up.len() as u64;
        if self.hung_up.push(false).is_err() {
            return false;
        }
        let mailbox = Mailbox::Empty;
        self.kept.push_back_reserved(Kept { id, mailbox });
        true
    }

    /// Takes the oldest batch out of a mailbox.
    pub(crate) fn take(&mut self, place: usize) -> Option<BackendMessages>
        requires { place < length self.old.boxes }
        ensures result { result ≡ first_of (at self.old.boxes place) }
        ensures rest { self.new ≡ record self.old { boxes = slice_set self.old.boxes place (rest_of (at self.old.boxes place)) } }
    {
        match place_of(&self.kept, place as u64) {
            Err(_) => None,
            Ok(i) => take_at(&mut self.kept, i, self.finished),
        }
    }

    /// Puts a batch of the oldest reply that isn't over into its mailbox, or hands it back where two wait
    /// there. `complete`: the reply is over then.
    pub(crate) fn put(&mut self, batch: BackendMessages, complete: bool) -> Option<BackendMessages>
        requires { self.old.finished < length self.old.boxes }
        ensures { MatchOption result
            ((m : Mailbox) × (received_by (at self.old.boxes self.old.finished) batch ≡ Some m)
            × (self.new ≡ record { boxes = slice_set self.old.boxes self.old.finished m; finished = (if complete then 1 else 0) + self.old.finished }))
            (λ back. (back ≡ batch) × (self.new ≡ self.old) × (received_by (at self.old.boxes self.old.finished) batch ≡ None)) }
    {
        match place_of(&self.kept, self.finished) {
            Err(_) => {
                drop(batch);
                self.finished += if complete { 1 } else { 0 };
                None
            }
            Ok(i) => match self.kept[i].put(batch) {
                Some(back) => Some(back),
                None => {
                    self.finished += if complete { 1 } else { 0 };
                    None
                }
            },
        }
    }

    /// Drops what waits in a mailbox, and what comes later.
    pub(crate) fn hang_up(&mut self, place: usize)
        requires { place < length self.old.boxes }
        ensures { self.new ≡ record self.old { boxes = slice_set self.old.boxes place Mailbox.HungUp } }
    {
        self.hung_up[place] = true;
        if let Ok(i) = place_of(&self.kept, place as u64) {
            drop(self.kept.remove(i));
        }
    }

    /// Whether the reader of a mailbox hung up.
    pub(crate) fn is_hung_up(&self, place: usize) -> bool
        requires { place < length self.now.boxes }
        ensures { result ≡ is_gone (at self.now.boxes place) }
    {
        self.hung_up[place]
    }
}

/// Where the mailbox of a request stands, or would stand where none is kept.
fn place_of(kept: &VecDeque<Kept>, id: u64) -> Result<usize, usize>
    requires { Ascending 0 kept.now.items }
    ensures { MatchResult result (IsAt id kept.now.items) (λ _. has id kept.now.items ≡ false) }
{
    kept.binary_search_by_key(&id, |mailbox| mailbox.id)
}

/// Takes the oldest batch out of the mailbox at a place, and lets go of it where nothing more can come.
fn take_at(kept: &mut VecDeque<Kept>, i: usize, finished: u64) -> Option<BackendMessages>
    requires { i < length kept.old.items }
    ensures result { result ≡ first_of (mailbox_at kept.old.items i) }
    ensures rest { kept.new.items ≡ taken_at kept.old.items i finished }
{
    let first = kept[i].take();
    if !kept[i].is_held(finished) {
        drop(kept.remove(i));
    }
    first
}
