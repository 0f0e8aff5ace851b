//! What a poll of the startup does.

ghost use Rattle.std.specs.Prelude.{◌≡◌, ◌<◌, ◌≤◌, ◌^◌, ℕ, List, Ok, Err, true, false, IfErr, MatchResult};
ghost use Rattle.futures.specs.Poll.{IfReady, OnPending};
ghost use Rattle.pg_spec.specs.Links.{LinkView};
ghost use Rattle.pg_spec.specs.RawMessages.{RawMessage};
ghost use Rattle.pg_spec.specs.Startup.{Login};
ghost use Rattle.pg_connect.specs.Calm.{MissesNone, MissesOne, StaysCalm};
ghost use Rattle.pg_startup.specs.Startups.{HasNone, HearsAll, HearsBuffer, Opening, Queues, StandsAt, sends_left};
ghost use Rattle.pg_startup.specs.StartupPolls.{CatchEnds, CatchesUp, CaughtUp, FailsNow, GoesOn, IsNearer, SameStart, StartupAnswers};
ghost use Rattle.pg_startup.specs.declared.startup.Heard.{Heard};

use crate::Startup;
use futures::task::Poll;
use pg_errors::Error;
use pg_wire::Link;
use std::alloc::Global;

impl<'a> Startup<'a> {
    /// Hears what is buffered, unless ReadyForQuery was heard.
    fn hear_rest(&mut self, alloc: Global) -> Result<(), Error>
        ensures heard { (l : Login) (first : List ℕ) (read : List RawMessage) → StandsAt l first read self.old → self.old.done ≡ false →
            MatchResult result (λ _. (h : Heard) × HearsAll l first read self.old.bytes.buffer.items self.new.bytes.buffer.items self.new (Ok h))
            (λ e. HearsAll l first read self.old.bytes.buffer.items self.new.bytes.buffer.items self.new (Err e)) }
        ensures over { self.old.done ≡ true → (result ≡ Ok tt) × (self.new ≡ self.old) }
        ensures none { result ≡ Ok tt → self.new.done ≡ false → HasNone self.new.bytes.buffer.items }
        ensures queues { Queues self.old self.new }
        ensures lower { sends_left self.new ≤ sends_left self.old }
        ensures same { HearsBuffer self.old self.new }
    {
        if self.done {
            return Ok(());
        }
        match self.hear_all(alloc) {
            Ok(_) => Ok(()),
            Err(error) => Err(error),
        }
    }

    /// Hears what is buffered, unless ReadyForQuery was heard, and sends what answers it. `false`: the link isn't ready.
    #[tactic(auto, using(pg_connect::proofs::Calm::no_lulls))]
    fn catch_up<L: Link>(&mut self, alloc: Global, link: &mut L) -> Result<bool, Error>
        requires given { self.old.bytes.given ≤ self.old.bytes.max_bytes }
        ensures answer { (l : Login) (asked : ℕ) (begin : LinkView) → Opening l asked begin (L.view link.old) self.old →
            CaughtUp l asked begin (L.view link.new) self.new result }
        ensures fails_now { (l : Login) (asked : ℕ) (begin : LinkView) → Opening l asked begin (L.view link.old) self.old →
            IfErr result (FailsNow (L.view link.old) (L.view link.new)) }
        ensures end { CatchEnds self.new (L.view link.old) (L.view link.new) result }
        ensures catches { CatchesUp self.old self.new (L.view link.old) (L.view link.new) }
        ensures same { SameStart self.old self.new }
        ensures no_lull { StaysCalm (L.view link.old) (L.view link.new) }
        ensures quiet { MissesOne (L.view link.old) (L.view link.new) }
        ensures ready { result ≡ Ok true → MissesNone (L.view link.old) (L.view link.new) }
    {
        match self.hear_rest(alloc) {
            Ok(()) => {}
            Err(error) => return Err(error),
        }
        self.bytes.send(link)
    }

    /// Hears what came, sends what answers it, and reads on, until ReadyForQuery was heard and all frames were taken and
    /// passed on, or the link isn't ready. The last piece that it read was read only once all frames before it were taken and
    /// passed on. Pending comes only where a call of the link wasn't ready. A Pending poll in which something moved leaves less
    /// to do, and one in which nothing moved leaves the link untouched. Where it fails by the link or at its end, that came in this
    /// poll. An error ends it: nothing is said of polls behind one.
    #[tactic(auto, using(pg_connect::proofs::Calm::no_lulls))]
    pub fn poll<L: Link>(&mut self, alloc: Global, link: &mut L) -> Poll<Result<(), Error>>
        requires limit { self.old.bytes.max_bytes < 2 ^ 63 }
        requires given { self.old.bytes.given ≤ self.old.bytes.max_bytes }
        ensures answer { (l : Login) (asked : ℕ) (begin : LinkView) → Opening l asked begin (L.view link.old) self.old →
            StartupAnswers l asked begin (L.view link.new) self.new result }
        ensures fails_now { (l : Login) (asked : ℕ) (begin : LinkView) → Opening l asked begin (L.view link.old) self.old →
            IfReady result (λ r. IfErr r (FailsNow (L.view link.old) (L.view link.new))) }
        ensures pending { OnPending result (GoesOn self.new (L.view link.old) (L.view link.new)) }
        ensures nearer { OnPending result (IsNearer self.old self.new) }
        ensures within { OnPending result (self.new.bytes.given ≤ self.new.bytes.max_bytes) }
        ensures same { SameStart self.old self.new }
        ensures no_lull { StaysCalm (L.view link.old) (L.view link.new) }
        ensures quiet { MissesOne (L.view link.old) (L.view link.new) }
    {
        self.bytes.moved = false;
        'pieces: loop {
            match self.catch_up(alloc, link) {
                Ok(true) => {}
                Ok(false) => return Poll::Pending,
                Err(error) => return Poll::Ready(Err(error)),
            }
            if self.done {
                return Poll::Ready(Ok(()));
            }
            match self.bytes.read_piece(link) {
                Ok(true) => {}
                Ok(false) => return Poll::Pending,
                Err(error) => return Poll::Ready(Err(error)),
            }
        }
    }
}
