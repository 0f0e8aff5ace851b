//! What a link counts and promises.

ghost use Rattle.std.specs.Prelude.{◌≡◌};
ghost use Rattle.pg_stream.specs.Tallies.{after_read, after_write, after_flush, after_shutdown, after_wait, failed, held_back, new_tally, not_ready};

use pg_wire::{LinkRead, LinkStep, LinkWait, LinkWrite};

/// What was promised and done, and how often calls went amiss.
#[derive(Clone, Copy)]
pub(crate) struct Tally {
    pub(crate) promised: bool,
    pub(crate) flushed: bool,
    pub(crate) shut: bool,
    pub(crate) faults: u64,
    pub(crate) quiet: u64,
    pub(crate) dry: u64,
    pub(crate) blocked: u64,
    pub(crate) lulls: u64,
    pub(crate) ends: u64,
}

impl Tally {
    /// Nothing was promised or done.
    pub(crate) fn new() -> Tally
        ensures { result ≡ new_tally }
    {
        Tally {
            promised: false,
            flushed: false,
            shut: false,
            faults: 0,
            quiet: 0,
            dry: 0,
            blocked: 0,
            lulls: 0,
            ends: 0,
        }
    }

    fn count_fault(self) -> Tally
        ensures { result ≡ failed self }
    {
        Tally {
            faults: self.faults.saturating_add(1),
            ..self
        }
    }

    /// A call other than `wait` wasn't ready: a lull, where it was promised to be.
    fn count_quiet(self) -> Tally
        ensures { result ≡ not_ready self }
    {
        let lulls = if self.promised {
            self.lulls.saturating_add(1)
        } else {
            self.lulls
        };
        Tally {
            quiet: self.quiet.saturating_add(1),
            lulls,
            ..self
        }
    }

    fn count_blocked(self) -> Tally
        ensures { result ≡ held_back self }
    {
        let quiet = self.count_quiet();
        Tally {
            blocked: quiet.blocked.saturating_add(1),
            ..quiet
        }
    }

    /// A read answered this.
    pub(crate) fn after_read(self, answer: LinkRead) -> Tally
        ensures { result ≡ after_read answer self }
    {
        match answer {
            LinkRead::Got(_) => Tally {
                promised: false,
                ..self
            },
            LinkRead::End => Tally {
                ends: self.ends.saturating_add(1),
                ..self
            },
            LinkRead::NotReady => {
                let quiet = self.count_quiet();
                Tally {
                    dry: quiet.dry.saturating_add(1),
                    ..quiet
                }
            }
            LinkRead::Failed => self.count_fault(),
        }
    }

    /// A write answered this.
    pub(crate) fn after_write(self, answer: LinkWrite) -> Tally
        ensures { result ≡ after_write answer self }
    {
        match answer {
            LinkWrite::Took(_) => Tally {
                promised: false,
                flushed: false,
                ..self
            },
            LinkWrite::NotReady => self.count_blocked(),
            LinkWrite::Failed => self.count_fault(),
            LinkWrite::OutOfMemory => self,
        }
    }

    /// A flush answered this.
    pub(crate) fn after_flush(self, answer: LinkStep) -> Tally
        ensures { result ≡ after_flush answer self }
    {
        match answer {
            LinkStep::Done => Tally {
                flushed: true,
                ..self
            },
            LinkStep::NotReady => self.count_blocked(),
            LinkStep::Failed => self.count_fault(),
        }
    }

    /// A shutdown answered this.
    pub(crate) fn after_shutdown(self, answer: LinkStep) -> Tally
        ensures { result ≡ after_shutdown answer self }
    {
        match answer {
            LinkStep::Done => Tally { shut: true, ..self },
            LinkStep::NotReady => self.count_blocked(),
            LinkStep::Failed => self.count_fault(),
        }
    }

    /// A wait answered this.
    pub(crate) fn after_wait(self, answer: LinkWait) -> Tally
        ensures { result ≡ after_wait answer self }
    {
        match answer {
            LinkWait::Ready => Tally {
                promised: true,
                ..self
            },
            LinkWait::Idle => Tally {
                quiet: self.quiet.saturating_add(1),
                lulls: self.lulls.saturating_add(1),
                ..self
            },
            LinkWait::Failed => self.count_fault(),
        }
    }
}
