//! Laws on rows: functions that do nothing, whose contracts say what the definitions mean.

ghost use Rattle.std.specs.Prelude.{◌≡◌, ℕ, List, Some, None};
ghost use Rattle.pg_rows.specs.Places.{place_by_name};
ghost use Rattle.pg_rows.specs.Lookups.{HasNone, IsFirst, IsNamed, IsNamedInAnyCase};

/// A name means the first column of exactly this name, whatever the others are named; where there is none, the first whose
/// name is equal up to the case of ASCII letters; and where there is none either, no column.
pub fn names_are_looked_up()
    ensures exact { (name : List ℕ) (names : List (List ℕ)) (place : ℕ) → IsFirst (IsNamed name) names place → place_by_name name names ≡ Some place }
    ensures any_case { (name : List ℕ) (names : List (List ℕ)) (place : ℕ) → HasNone (IsNamed name) names → IsFirst (IsNamedInAnyCase name) names place → place_by_name name names ≡ Some place }
    ensures none { (name : List ℕ) (names : List (List ℕ)) → HasNone (IsNamed name) names → HasNone (IsNamedInAnyCase name) names → place_by_name name names ≡ None }
{}
