//! The flags of a range.

ghost use Rattle.std.specs.Prelude.{◌≡◌, ◌<◌, ◌/◌, ◌%◌, ◌==◌, ℕ, MatchOption};
ghost use Rattle.pg_values.specs.Spelling.{has_flag, lower_by, upper_by, bound_by, values_of, range_flags};

use crate::datum::Bound;

/// Whether a flag is set.
pub(crate) fn has_flag(flag: u8, flags: u8) -> bool
    requires { 0 < flag }
    ensures { result ≡ has_flag flag flags }
{
    flags / flag % 2 == 1
}

/// The bound that these flags say.
fn bound_by(empty: bool, infinite: bool, inclusive: bool) -> Bound
    ensures { result ≡ bound_by empty infinite inclusive }
{
    match (empty, infinite, inclusive) {
        (true, _, _) => Bound::Infinite,
        (false, true, _) => Bound::Infinite,
        (false, false, true) => Bound::Inclusive,
        (false, false, false) => Bound::Exclusive,
    }
}

/// The lower bound.
pub(crate) fn lower_by(flags: u8) -> Bound
    ensures { result ≡ lower_by flags }
{
    bound_by(has_flag(1, flags), has_flag(8, flags), has_flag(2, flags))
}

/// The upper bound.
pub(crate) fn upper_by(flags: u8) -> Bound
    ensures { result ≡ upper_by flags }
{
    bound_by(has_flag(1, flags), has_flag(16, flags), has_flag(4, flags))
}

/// How many values a bound has.
pub(crate) fn values_of(bound: Bound) -> usize
    ensures { result ≡ values_of bound }
{
    match bound {
        Bound::Infinite => 0,
        Bound::Inclusive => 1,
        Bound::Exclusive => 1,
    }
}

/// The flags that a range with these bounds is written with. None: there is none, since an empty range has no bounds.
pub(crate) fn flags_of(empty: bool, lower: Bound, upper: Bound) -> Option<u8>
    ensures { MatchOption result
        ((flags : ℕ) → empty ≡ has_flag 1 flags → lower ≡ lower_by flags → upper ≡ upper_by flags → ⊥)
        (λ flags. (flags < 32) × (flags ≡ range_flags empty lower upper) × (has_flag 1 flags ≡ empty)
        × (lower_by flags ≡ lower) × (upper_by flags ≡ upper)) }
{
    match (empty, lower, upper) {
        (true, Bound::Infinite, Bound::Infinite) => Some(1),
        (true, _, _) => None,
        (false, Bound::Infinite, Bound::Infinite) => Some(24),
        (false, Bound::Infinite, Bound::Inclusive) => Some(12),
        (false, Bound::Infinite, Bound::Exclusive) => Some(8),
        (false, Bound::Inclusive, Bound::Infinite) => Some(18),
        (false, Bound::Inclusive, Bound::Inclusive) => Some(6),
        (false, Bound::Inclusive, Bound::Exclusive) => Some(2),
        (false, Bound::Exclusive, Bound::Infinite) => Some(16),
        (false, Bound::Exclusive, Bound::Inclusive) => Some(4),
        (false, Bound::Exclusive, Bound::Exclusive) => Some(0),
    }
}
