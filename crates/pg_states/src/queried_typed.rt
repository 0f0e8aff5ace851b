//! A text is queried with values of given types.

ghost use Rattle.std.specs.Prelude.{◌≡◌, length};
ghost use Rattle.pg_types.specs.Texts.{sql_text};
ghost use Rattle.pg_core.specs.Lookups.{find_all};
ghost use Rattle.pg_core.specs.Maybes.{maybe_dialogue};
ghost use Rattle.pg_execute.specs.Parameters.{params};
ghost use Rattle.pg_execute.specs.Typed.{query_typed};
ghost use Rattle.pg_execute.specs.Types.{built_in_types, types_in};
ghost use Rattle.pg_states.specs.Paired.{paired};

use pg_core::{Finder, Maybe};
use pg_errors::Error;
use pg_execute::{HowMany, QueryTyped, ResultSet, Types, queries_typed};
use pg_query::{Command, Polled, Script};
use pg_search::Finds;
use pg_types::{List, Oid, Params, Sql, Text, Type};

type Typed<'a, P> = QueryTyped<'a, Finds, <Finds as Finder>::Search, P>;

type Queried<'a, P> = Maybe<ResultSet, Typed<'a, P>>;

/// The state that queries a text with values of given types, in one request. Its rows are the answer.
pub type QueriedTyped<'a, P> = Command<Queried<'a, P>>;

/// What is queried, where there are as many values as types, which are so many.
fn of_pairs<'a, P: Params + Drop>(
    how_many: HowMany,
    text: Sql<'a>,
    types: Types<'a>,
    count: usize,
    values: P,
) -> Queried<'a, P>
    ensures { maybe_dialogue ⟦<Typed<'a, P> as Script>⟧.dialogue result ≡ paired count (params (P.count values) (P.gives_at values)) (query_typed find_all how_many (sql_text text.entry) (types_in types.entry) (params (P.count values) (P.gives_at values))) }
{
    if values.len() != count {
        return Maybe::Answers(Err(Error::Parameters(values.len(), count)));
    }
    Maybe::Goes(queries_typed(how_many, text, types, values, Finds {}))
}

/// The state, where types are told in any way, which are so many.
fn of_any<'a, P: Params + Drop>(
    how_many: HowMany,
    text: Sql<'a>,
    types: Types<'a>,
    count: usize,
    values: P,
) -> QueriedTyped<'a, P>
    ensures live { ⟦<QueriedTyped<'a, P> as Polled>⟧.is_live result }
    ensures asks { (⟦<QueriedTyped<'a, P> as Polled>⟧.place result).dialogue ≡ paired count (params (P.count values) (P.gives_at values)) (query_typed find_all how_many (sql_text text.entry) (types_in types.entry) (params (P.count values) (P.gives_at values))) }
{
    let script = of_pairs(how_many, text, types, count, values);
    Command::new(script)
}

/// Makes the state that queries this text with these values, each of the type at its place; it may have so many rows. It takes no
/// memory, and books nothing before its first poll. Parameters comes where the values aren't as many as the types; nothing
/// is booked then.
pub fn queried_by_types<'a, P: Params + Drop>(
    how_many: HowMany,
    text: &'a str,
    types: &'a [Type],
    values: P,
) -> QueriedTyped<'a, P>
    ensures live { ⟦<QueriedTyped<'a, P> as Polled>⟧.is_live result }
    ensures asks { (⟦<QueriedTyped<'a, P> as Polled>⟧.place result).dialogue ≡ paired (length types.now) (params (P.count values) (P.gives_at values)) (query_typed find_all how_many text.now types.now (params (P.count values) (P.gives_at values))) }
{
    of_any(
        how_many,
        Sql::Borrowed(text),
        Types::Given(types),
        types.len(),
        values,
    )
}

/// The same, where the types are built-in, and these are their oids. An oid of no such type is left out: the types behind
/// it then stand a place before, and a value past them is dropped.
pub fn queried_by_oids<'a, P: Params + Drop>(
    how_many: HowMany,
    text: &'a str,
    oids: &'a [Oid],
    values: P,
) -> QueriedTyped<'a, P>
    ensures live { ⟦<QueriedTyped<'a, P> as Polled>⟧.is_live result }
    ensures asks { (⟦<QueriedTyped<'a, P> as Polled>⟧.place result).dialogue ≡ paired (length oids.now) (params (P.count values) (P.gives_at values)) (query_typed find_all how_many text.now (built_in_types oids.now) (params (P.count values) (P.gives_at values))) }
{
    of_any(
        how_many,
        Sql::Borrowed(text),
        Types::BuiltIn(oids),
        oids.len(),
        values,
    )
}

/// The same as the first, where nothing is borrowed.
pub fn queried_by_owned<P: Params + Drop>(
    how_many: HowMany,
    text: Text,
    types: List<Type>,
    values: P,
) -> QueriedTyped<'static, P>
    ensures live { ⟦<QueriedTyped<'static, P> as Polled>⟧.is_live result }
    ensures asks { (⟦<QueriedTyped<'static, P> as Polled>⟧.place result).dialogue ≡ paired (length types) (params (P.count values) (P.gives_at values)) (query_typed find_all how_many text types (params (P.count values) (P.gives_at values))) }
{
    let count = types.as_slice().len();
    of_any(
        how_many,
        Sql::Owned(text),
        Types::Owned(types),
        count,
        values,
    )
}
