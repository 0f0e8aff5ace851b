//! A statement or a text is executed, and what it affected is counted.

ghost use Rattle.std.specs.Prelude.{◌≡◌};
ghost use Rattle.pg_execute.specs.Executes.{execute};
ghost use Rattle.pg_execute.specs.Parameters.{params};
ghost use Rattle.pg_execute.specs.Targets.{on_target};
ghost use Rattle.pg_states.specs.Texts.{prepare_text};

use crate::executed::{Executed, executed_state};
use pg_execute::{Count, Target};
use pg_query::Polled;
use pg_types::Params;

/// The state that executes a statement or a text as an execution. How many rows it affected is the answer.
pub type ExecuteState<'a, P> = Executed<'a, Count, P>;

/// Makes the state that executes this target with these values. It takes no memory, and books nothing before its first poll.
pub fn execute_state<'a, P: Params + Drop>(target: Target<'a>, values: P) -> ExecuteState<'a, P>
    ensures live { ⟦<ExecuteState<'a, P> as Polled>⟧.is_live result }
    ensures asks { (⟦<ExecuteState<'a, P> as Polled>⟧.place result).dialogue ≡ on_target prepare_text (λ s. execute s (params (P.count values) (P.gives_at values))) target.entry }
{
    executed_state(target, Count, values)
}
