//! The values of one column are queried of a statement or a text.

ghost use Rattle.std.specs.Prelude.{◌≡◌};
ghost use Rattle.pg_execute.specs.Executes.{query_scalar_as};
ghost use Rattle.pg_execute.specs.Parameters.{params};
ghost use Rattle.pg_execute.specs.Targets.{on_target};
ghost use Rattle.pg_states.specs.Texts.{prepare_text};

use crate::executed::{Executed, executed_state};
use pg_execute::{HowMany, Query, Scalar, Scalars, Target};
use pg_query::Polled;
use pg_types::Params;

/// The state that executes a statement or a text as a query of one column, whose values are read as `R`. They are the answer.
pub type QueryScalarState<'a, R, P> = Executed<'a, Query<Scalars<R>>, P>;

/// Makes the state that executes this target with these values; it may have so many rows. It takes no memory, and books nothing
/// before its first poll.
pub fn query_scalar_state<'a, R: Scalar, P: Params + Drop>(
    target: Target<'a>,
    how_many: HowMany,
    values: P,
) -> QueryScalarState<'a, R, P>
    ensures live { ⟦<QueryScalarState<'a, R, P> as Polled>⟧.is_live result }
    ensures asks { (⟦<QueryScalarState<'a, R, P> as Polled>⟧.place result).dialogue ≡ on_target prepare_text (λ s. query_scalar_as R.reads how_many s (params (P.count values) (P.gives_at values))) target.entry }
{
    let form = Query {
        how_many,
        make: Scalars::new(),
    };
    executed_state(target, form, values)
}
