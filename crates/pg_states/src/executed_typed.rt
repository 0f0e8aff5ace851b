//! A text is executed with values of given types, and what it affected is counted.

ghost use Rattle.std.specs.Prelude.{◌≡◌, length};
ghost use Rattle.pg_types.specs.Texts.{sql_text};
ghost use Rattle.pg_core.specs.Maybes.{maybe_dialogue};
ghost use Rattle.pg_execute.specs.Parameters.{params};
ghost use Rattle.pg_execute.specs.Typed.{execute_typed};
ghost use Rattle.pg_execute.specs.Types.{built_in_types, types_in};
ghost use Rattle.pg_states.specs.Paired.{paired};

use pg_core::Maybe;
use pg_errors::Error;
use pg_execute::{ExecuteTyped, Types, executes_typed};
use pg_query::{Command, Polled, Script};
use pg_types::{List, Oid, Params, Sql, Text, Type};

type Executed<'a, P> = Maybe<u64, ExecuteTyped<'a, P>>;

/// The state that executes a text with values of given types, in one request. How many rows its last command affected is
/// the answer.
pub type ExecutedTyped<'a, P> = Command<Executed<'a, P>>;

/// What is executed, where there are as many values as types, which are so many.
fn of_pairs<'a, P: Params + Drop>(
    text: Sql<'a>,
    types: Types<'a>,
    count: usize,
    values: P,
) -> Executed<'a, P>
    ensures { maybe_dialogue ⟦<ExecuteTyped<'a, P> as Script>⟧.dialogue result ≡ paired count (params (P.count values) (P.gives_at values)) (execute_typed (sql_text text.entry) (types_in types.entry) (params (P.count values) (P.gives_at values))) }
{
    if values.len() != count {
        return Maybe::Answers(Err(Error::Parameters(values.len(), count)));
    }
    Maybe::Goes(executes_typed(text, types, values))
}

/// The state, where types are told in any way, which are so many.
fn of_any<'a, P: Params + Drop>(
    text: Sql<'a>,
    types: Types<'a>,
    count: usize,
    values: P,
) -> ExecutedTyped<'a, P>
    ensures live { ⟦<ExecutedTyped<'a, P> as Polled>⟧.is_live result }
    ensures asks { (⟦<ExecutedTyped<'a, P> as Polled>⟧.place result).dialogue ≡ paired count (params (P.count values) (P.gives_at values)) (execute_typed (sql_text text.entry) (types_in types.entry) (params (P.count values) (P.gives_at values))) }
{
    let script = of_pairs(text, types, count, values);
    Command::new(script)
}

/// Makes the state that executes this text with these values, each of the type at its place. It takes no memory, and books
/// nothing before its first poll. Parameters comes where the values aren't as many as the types; nothing is booked then.
pub fn executed_by_types<'a, P: Params + Drop>(
    text: &'a str,
    types: &'a [Type],
    values: P,
) -> ExecutedTyped<'a, P>
    ensures live { ⟦<ExecutedTyped<'a, P> as Polled>⟧.is_live result }
    ensures asks { (⟦<ExecutedTyped<'a, P> as Polled>⟧.place result).dialogue ≡ paired (length types.now) (params (P.count values) (P.gives_at values)) (execute_typed text.now types.now (params (P.count values) (P.gives_at values))) }
{
    of_any(
        Sql::Borrowed(text),
        Types::Given(types),
        types.len(),
        values,
    )
}

/// The same, where the types are built-in, and these are their oids. An oid of no such type is left out: the types behind
/// it then stand a place before, and a value past them is dropped.
pub fn executed_by_oids<'a, P: Params + Drop>(
    text: &'a str,
    oids: &'a [Oid],
    values: P,
) -> ExecutedTyped<'a, P>
    ensures live { ⟦<ExecutedTyped<'a, P> as Polled>⟧.is_live result }
    ensures asks { (⟦<ExecutedTyped<'a, P> as Polled>⟧.place result).dialogue ≡ paired (length oids.now) (params (P.count values) (P.gives_at values)) (execute_typed text.now (built_in_types oids.now) (params (P.count values) (P.gives_at values))) }
{
    of_any(
        Sql::Borrowed(text),
        Types::BuiltIn(oids),
        oids.len(),
        values,
    )
}

/// The same as the first, where nothing is borrowed.
pub fn executed_by_owned<P: Params + Drop>(
    text: Text,
    types: List<Type>,
    values: P,
) -> ExecutedTyped<'static, P>
    ensures live { ⟦<ExecutedTyped<'static, P> as Polled>⟧.is_live result }
    ensures asks { (⟦<ExecutedTyped<'static, P> as Polled>⟧.place result).dialogue ≡ paired (length types) (params (P.count values) (P.gives_at values)) (execute_typed text types (params (P.count values) (P.gives_at values))) }
{
    let count = types.as_slice().len();
    of_any(Sql::Owned(text), Types::Owned(types), count, values)
}
