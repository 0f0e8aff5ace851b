//! What the numbers of values and types mean.

ghost use Rattle.std.specs.Prelude.{◌≡◌, ℕ, true, [], ◌∷◌, Ok, Err};
ghost use Rattle.pg_spec.specs.Faults.{Parameters};
ghost use Rattle.pg_types.specs.declared.value.Value.TheVariants as value;
ghost use Rattle.pg_query.specs.Dialogue.{Answer};
ghost use Rattle.pg_execute.specs.Parameters.{given_of};
ghost use Rattle.pg_states.specs.Paired.{paired};

/// Values that aren't as many as types are refused, told by how many they are and how many there should be.
pub fn values_are_as_many_as_types()
    ensures fewer { paired {T = ℕ} 1 (given_of []) (Answer (Ok 7)) ≡ Answer (Err (Parameters 0 1)) }
    ensures more { paired {T = ℕ} 0 (given_of (value.Bool true ∷ [])) (Answer (Ok 7)) ≡ Answer (Err (Parameters 1 0)) }
    ensures as_many { paired {T = ℕ} 1 (given_of (value.Bool true ∷ [])) (Answer (Ok 7)) ≡ Answer (Ok 7) }
{}
