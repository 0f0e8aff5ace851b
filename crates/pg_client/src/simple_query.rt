//! Simple queries (PostgreSQL documentation, "Simple Query").

ghost use Rattle.std.specs.Prelude.{◌≡◌};
ghost use Rattle.pg_types.specs.Texts.{sql_text};
ghost use Rattle.pg_client.specs.Done.{batch_execute};
ghost use Rattle.pg_client.specs.DoneStates.{place_of_batch, IsLiveBatch};
ghost use Rattle.pg_client.specs.Queries.{place_of_query, IsLiveQuery};
ghost use Rattle.pg_client.specs.Simple.{simple_query};

use crate::done_script::DoneScript;
use crate::simple_script::SimpleScript;
use pg_query::Command;
use pg_types::Sql;

/// The state of a simple query.
pub type SimpleQueryState<'a> = Command<SimpleScript<'a>>;

/// The state of a batch of statements, sent as one simple query of which only the end is told.
pub type BatchExecuteState<'a> = Command<DoneScript<'a>>;

/// Makes the state of a simple query of this text. It takes no memory, and books nothing before its first
/// poll. With `take` the answer is at most so many parts, and the request is hung up once they are there.
/// Encode is the answer exactly where the text holds a zero byte or is too long for its frame.
pub fn simple_query_state<'a>(text: Sql<'a>, take: Option<u64>) -> SimpleQueryState<'a>
    ensures live { IsLiveQuery result }
    ensures asks { (place_of_query result).dialogue ≡ simple_query (sql_text text.entry) take }
{
    Command::new(SimpleScript::New(text, take))
}

/// Makes the state of a batch of the statements of this text. It takes no memory, and books nothing before
/// its first poll. What the statements give is passed over unread, up to the first error. Encode is the
/// answer exactly where the text holds a zero byte or is too long for its frame.
pub fn batch_execute_state<'a>(text: Sql<'a>) -> BatchExecuteState<'a>
    ensures live { IsLiveBatch result }
    ensures asks { (place_of_batch result).dialogue ≡ batch_execute (sql_text text.entry) }
{
    Command::new(DoneScript::Batch(text))
}
