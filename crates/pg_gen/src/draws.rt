//! Drawn numbers.

ghost use Rattle.std.specs.Prelude.{◌≡◌};
ghost use Rattle.pg_gen.specs.Draws.{drawn, next_number};

/// A linear congruential generator (G. Marsaglia, "The structure of linear congruential sequences").
#[derive(Clone, Copy, Drop)]
pub(crate) struct Draws {
    pub(crate) number: u32,
}

impl Draws {
    /// The next number of 16 bits.
    pub(crate) fn draw(&mut self) -> u32
        ensures number { self.new.number ≡ next_number self.old.number }
        ensures drawn { result ≡ drawn (next_number self.old.number) }
    {
        self.number = ((69_069 * u64::from(self.number) + 1) % 4_294_967_296) as u32;
        self.number / 65_536
    }
}
