//! A machine, fed with the bytes of frames.

ghost use Rattle.std.specs.Prelude.{◌≡◌, ◌≤◌, length, take, List, ℕ, None};
ghost use Rattle.pg_machine.specs.Feeding.{FeedsAll, HasFed, Feeds, GoesFurther, GoesOn};

use crate::machine::{At, Machine};
use crate::opening::frames_begin;
use crate::{Found, front_message};
use pg_types::OutOfMemory;

/// How many bytes were cut into frames, and where the server stands behind them.
#[derive(Clone, Copy, Debug, PartialEq, Eq, Drop)]
pub(crate) struct Fed {
    pub cut: usize,
    pub at: At,
}

impl Machine {
    /// Answers the whole frames of the bytes, one after another. Where memory lacks some replies may stand behind `out`.
    pub(crate) fn feed(&self, at: At, frames: &[u8], out: &mut Vec<u8>) -> Result<Fed, OutOfMemory>
        ensures { FeedsAll self.now at frames.now out.old.items out.new.items result }
    {
        let mut cut = 0;
        let mut at = at;
        while let Found::Whole(len) = front_message(&frames[cut..]) {
            at = self.serve(at, &frames[cut..cut + len], out)?;
            cut += len;
        }
        Ok(Fed { cut, at })
    }

    /// Answers what came behind the first `len` bytes taken, whose frames were answered.
    fn go_behind(
        &self,
        taken: &[u8],
        len: usize,
        fed: Fed,
        said: &mut Vec<u8>,
    ) -> Result<Fed, OutOfMemory>
        requires within { len ≤ length taken.now }
        requires fed { HasFed self.now (take len taken.now) fed }
        ensures { (startup : List ℕ) → GoesFurther self.now startup taken.now (take len taken.now) said.old.items said.new.items result }
    {
        let done = self.feed(fed.at, &taken[fed.cut..], said)?;
        Ok(Fed {
            cut: fed.cut + done.cut,
            at: done.at,
        })
    }

    /// Says the startup once the startup frame came, and answers what came behind it.
    fn begin(
        &self,
        startup: &[u8],
        taken: &[u8],
        said: &mut Vec<u8>,
    ) -> Result<Option<Fed>, OutOfMemory>
        ensures { (before : List ℕ) → Feeds self.now before None → GoesOn self.now startup.now taken.now before said.old.items said.new.items result }
    {
        let Some(cut) = frames_begin(taken) else {
            return Ok(None);
        };
        if said.extend_from_slice(startup).is_err() {
            return Err(OutOfMemory);
        }
        let done = self.feed(At::new(), &taken[cut..], said)?;
        Ok(Some(Fed {
            cut: cut + done.cut,
            at: done.at,
        }))
    }

    /// Answers what came behind the first `len` bytes taken; with the startup frame the startup comes first. None
    /// of `fed` stands for a startup frame that hasn't come whole.
    pub(crate) fn go_on(
        &self,
        startup: &[u8],
        taken: &[u8],
        len: usize,
        fed: Option<Fed>,
        said: &mut Vec<u8>,
    ) -> Result<Option<Fed>, OutOfMemory>
        requires within { len ≤ length taken.now }
        requires fed { Feeds self.now (take len taken.now) fed }
        ensures { GoesOn self.now startup.now taken.now (take len taken.now) said.old.items said.new.items result }
    {
        match fed {
            Some(fed) => Ok(Some(self.go_behind(taken, len, fed, said)?)),
            None => self.begin(startup, taken, said),
        }
    }
}
