//! Where a command comes to a stop.

ghost use Rattle.std.specs.Prelude.{◌≡◌, Err};
ghost use Rattle.pg_query.specs.declared.stop.Stop.TheVariants.{Answers};

use crate::script::Offer;
use pg_errors::Error;

/// Where a command that doesn't read comes to a stop.
#[derive(Drop)]
pub(crate) enum Stop<T> {
    Answers(Result<T, Error>),
    /// The desk had no room for a part.
    Offers(Offer),
}

impl<T> From<Error> for Stop<T> {
    ghost from_gives = { λ e stop. stop ≡ Answers (Err e) };

    fn from(error: Error) -> Stop<T> {
        Stop::Answers(Err(error))
    }
}
