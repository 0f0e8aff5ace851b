//! A statement or a text is queried, and its first rows are read.

ghost use Rattle.std.specs.Prelude.{◌≡◌};
ghost use Rattle.pg_execute.specs.Executes.{query_raw};
ghost use Rattle.pg_execute.specs.Parameters.{params};
ghost use Rattle.pg_execute.specs.Targets.{on_target};
ghost use Rattle.pg_states.specs.Texts.{prepare_text};

use crate::executed::{Executed, executed_state};
use pg_execute::{First, Target, WholeRows};
use pg_query::Polled;
use pg_types::Params;

/// The state that executes a statement or a text as a query. Its first rows are the answer; once so many came the request is
/// hung up.
pub type FirstRowsState<'a, P> = Executed<'a, First<WholeRows>, P>;

/// Makes the state that executes this target with these values, and reads so many rows at most. It takes no memory, and books
/// nothing before its first poll.
pub fn first_rows_state<'a, P: Params + Drop>(
    target: Target<'a>,
    take: u64,
    values: P,
) -> FirstRowsState<'a, P>
    ensures live { ⟦<FirstRowsState<'a, P> as Polled>⟧.is_live result }
    ensures asks { (⟦<FirstRowsState<'a, P> as Polled>⟧.place result).dialogue ≡ on_target prepare_text (λ s. query_raw take s (params (P.count values) (P.gives_at values))) target.entry }
{
    let form = First {
        take,
        make: WholeRows,
    };
    executed_state(target, form, values)
}
