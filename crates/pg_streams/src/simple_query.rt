//! A simple query whose parts are the answer.

ghost use Rattle.std.specs.Prelude.{◌≡◌, IfOk};
ghost use Rattle.pg_types.specs.Texts.{sql_text};
ghost use Rattle.pg_core.specs.Composing.{or_encode};
ghost use Rattle.pg_spec.specs.Frames as frames;
ghost use Rattle.pg_streams.specs.SimpleStreams.{simple_query_raw};

use crate::parts_reading::PartsReading;
use crate::simple_query_message::SimpleQueryMessage;
use crate::simple_query_raw::query_frame;
use bytes::Bytes;
use pg_core::{Answered, Go, Maybe, OrAnswer, Then};
use pg_errors::Error;
use pg_execute::ask;
use pg_query::{Command, Polled, SingleRequest};
use pg_types::{List, Sql};
use std::alloc::{AllocError, Global};

/// The request of a text, or why it can't be sent.
fn query_request(alloc: Global, text: &str) -> Result<Result<Bytes, Error>, AllocError>
    ensures { IfOk result (λ request. request ≡ or_encode (frames.query_frame text.now)) }
{
    match query_frame(alloc, text) {
        Ok(frame) => Ok(Ok(frame)),
        Err(error) => match &error {
            Error::OutOfMemory => Err(AllocError),
            _ => Ok(Err(error)),
        },
    }
}

/// A request of which the parts are collected, in the form in which a `Go` may name it as its `Next`.
pub type AskedParts = Maybe<
    List<SimpleQueryMessage>,
    SingleRequest<PartsReading, List<SimpleQueryMessage>>,
>;

/// Writes the request of a text, and asks by it.
#[derive(Drop)]
pub struct AsksParts<'a> {
    text: Sql<'a>,
}

impl<'a> Go for AsksParts<'a> {
    ghost use Rattle.pg_types.specs.Texts.{sql_text};
    ghost use Rattle.pg_streams.specs.SimpleStreams.{simple_query_raw};

    type Input = ();

    type Next = AskedParts;

    ghost to = { λ k _. simple_query_raw (sql_text k.text) };

    ghost most = { λ _. 2 };

    fn go(self, alloc: Global, _start: ()) -> Result<AskedParts, AllocError> {
        let request = query_request(alloc, self.text.as_str())?;
        Ok(Maybe::Goes(ask(PartsReading::new(alloc), request)))
    }
}

/// Asks by a text as a simple query, and answers the parts of the reply.
pub type AnswersParts<'a> = Then<
    Answered<()>,
    OrAnswer<AsksParts<'a>>,
    Maybe<List<SimpleQueryMessage>, AskedParts>,
>;

/// The state of a simple query.
pub type SimpleQueryState<'a> = Command<AnswersParts<'a>>;

/// Makes the state of a simple query of this text, which answers what its stream would give. It takes no memory, and books
/// nothing before its first poll. Encode is the answer exactly where the text holds a zero byte or is too long for its frame.
pub fn simple_query_state<'a>(text: Sql<'a>) -> SimpleQueryState<'a>
    ensures live { ⟦<SimpleQueryState<'a> as Polled>⟧.is_live result }
    ensures asks { (⟦<SimpleQueryState<'a> as Polled>⟧.place result).dialogue ≡ simple_query_raw (sql_text text.entry) }
{
    let go = AsksParts { text };
    let script = Then::First(Maybe::Answers(Ok(())), OrAnswer { go });
    Command::new(script)
}
