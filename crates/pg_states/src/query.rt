//! A statement or a text is queried.

ghost use Rattle.std.specs.Prelude.{◌≡◌};
ghost use Rattle.pg_execute.specs.Executes.{query};
ghost use Rattle.pg_execute.specs.Parameters.{params};
ghost use Rattle.pg_execute.specs.Targets.{on_target};
ghost use Rattle.pg_states.specs.Texts.{prepare_text};

use crate::executed::{Executed, executed_state};
use pg_execute::{HowMany, Query, Target, WholeRows};
use pg_query::Polled;
use pg_types::Params;

/// The state that executes a statement or a text as a query. Its rows are the answer.
pub type QueryState<'a, P> = Executed<'a, Query<WholeRows>, P>;

/// Makes the state that executes this target with these values; it may have so many rows. It takes no memory, and books nothing
/// before its first poll.
pub fn query_state<'a, P: Params + Drop>(
    target: Target<'a>,
    how_many: HowMany,
    values: P,
) -> QueryState<'a, P>
    ensures live { ⟦<QueryState<'a, P> as Polled>⟧.is_live result }
    ensures asks { (⟦<QueryState<'a, P> as Polled>⟧.place result).dialogue ≡ on_target prepare_text (λ s. query how_many s (params (P.count values) (P.gives_at values))) target.entry }
{
    let form = Query {
        how_many,
        make: WholeRows,
    };
    executed_state(target, form, values)
}
