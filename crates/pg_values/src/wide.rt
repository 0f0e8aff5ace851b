//! A number of 128 bits in two halves.

ghost use Rattle.std.specs.Prelude.{◌≡◌};

use std::fmt;
use std::marker::Model;

/// A number of 128 bits, in two halves, so that it lies at any place where a number of 64 bits may.
#[derive(Drop)]
pub struct Wide {
    high: i64,
    low: u64,
}

impl Model for Wide {
    ghost use Rattle.std.specs.Prelude.{ℤ, pos, ◌*ℤ◌, ◌+ℤ◌, ◌^◌};

    ghost Value = { ℤ };

    ghost view = { λ w. w.high *ℤ pos (2 ^ 64) +ℤ pos w.low };
}

const UNIT: i128 = 18_446_744_073_709_551_616;

impl Wide {
    /// This number.
    pub fn new(number: i128) -> Wide
        ensures { result ≡ number }
    {
        Wide {
            high: number.div_euclid(UNIT) as i64,
            low: number.rem_euclid(UNIT) as u64,
        }
    }

    /// The number.
    pub fn get(&self) -> i128
        ensures { result ≡ self.now }
    {
        self.high as i128 * UNIT + self.low as i128
    }
}

impl fmt::Debug for Wide {
    fn fmt<W: fmt::Write>(&self, f: &mut fmt::Formatter<W>) -> fmt::Result {
        fmt::Debug::fmt(&self.get(), f)
    }
}
