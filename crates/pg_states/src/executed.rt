//! A statement or a text is executed, in any form.

ghost use Rattle.std.specs.Prelude.{◌≡◌};
ghost use Rattle.pg_execute.specs.Executes.{executes};
ghost use Rattle.pg_execute.specs.Parameters.{params};
ghost use Rattle.pg_execute.specs.Targets.{on_target};
ghost use Rattle.pg_states.specs.Texts.{prepare_text};

use pg_execute::{Executes, Form, OnTarget, Target, on_target};
use pg_query::{Command, Polled};
use pg_search::Finds;
use pg_types::Params;

/// The state that executes a statement or a text with values, which are of any kind. What its form makes of the reply is the answer.
pub type Executed<'a, E, P> = Command<OnTarget<'a, Finds, Executes<E, P>>>;

/// Makes the state that executes this target with these values. It takes no memory, and books nothing before its first poll.
pub fn executed_state<'a, E: Form, P: Params + Drop>(
    target: Target<'a>,
    form: E,
    values: P,
) -> Executed<'a, E, P>
    ensures live { ⟦<Executed<'a, E, P> as Polled>⟧.is_live result }
    ensures asks { (⟦<Executed<'a, E, P> as Polled>⟧.place result).dialogue ≡ on_target prepare_text (λ s. executes (E.stops form) (E.reads form s) s (params (P.count values) (P.gives_at values))) target.entry }
{
    let go = Executes { form, values };
    Command::new(on_target(target, Finds {}, go))
}
