//! Requests that are cancelled.

ghost use Rattle.pg_open.specs.Cancelling.{IsStillOpen};

use crate::connector::Connector;
use crate::endings::{tell_choice, tell_chosen, tell_error};
use crate::setting;
use futures::task::Poll;
use pg_cases::words::{at, text_at};
use pg_config::Config;
use pg_errors::Error;
use pg_open::{CancelQuery, CancelStage, CancelToken, SessionInfo};
use pg_wire::MemoryLink;
use std::alloc::{AllocError, Global};

/// How often a case is polled at most.
const POLLS: u32 = 9;

/// What the links took.
fn tell_stage(
    stage: &CancelStage<MemoryLink, Connector>,
    out: &mut String,
) -> Result<(), AllocError> {
    match stage {
        CancelStage::Choosing(choice) => tell_choice(choice, out),
        CancelStage::Sending(link, _) => tell_chosen(link, out),
        CancelStage::Over(Some(link)) => tell_chosen(link, out),
        CancelStage::Over(None) => Ok(()),
    }
}

/// What the last poll answered, and what the links took.
fn tell_answer(
    answer: &Result<(), Error>,
    stage: &CancelStage<MemoryLink, Connector>,
    out: &mut String,
) -> Result<(), AllocError> {
    match answer {
        Ok(()) => out.push_str(" cancelled")?,
        Err(error) => tell_error(error, out)?,
    }
    tell_stage(stage, out)
}

/// The same of an answer that is owned here alone.
fn tell_ready(
    answer: Result<(), Error>,
    stage: &CancelStage<MemoryLink, Connector>,
    out: &mut String,
) -> Result<(), AllocError> {
    tell_answer(&answer, stage, out)
}

/// Polls until it answers.
fn tell_polls(
    alloc: Global,
    query: CancelQuery<MemoryLink, Connector>,
    out: &mut String,
) -> Result<(), AllocError>
    requires open { IsStillOpen query.stage }
{
    let mut query = query;
    'polls: for _ in 0..POLLS {
        match query.poll(alloc) {
            Poll::Ready(answer) => return tell_ready(answer, &query.stage, out),
            Poll::Pending => out.push_str(" pending")?,
        }
    }
    out.push_str(" waits")?;
    tell_stage(&query.stage, out)
}

/// Cancels by the words: the process, the key, the connection string, the connector and what the server gives.
pub(crate) fn tell(alloc: Global, words: &[Vec<u8>], out: &mut String) -> Result<(), AllocError> {
    let config = match Config::from_str(alloc, text_at(words, 3)) {
        Ok(config) => config,
        Err(error) => return tell_error(&error, out),
    };
    let info = SessionInfo {
        process_id: text_at(words, 1).parse::<i32>().unwrap_or(0),
        secret_key: text_at(words, 2).parse::<i32>().unwrap_or(0),
        ssl_mode: config.get_ssl_mode(),
        ssl_negotiation: config.get_ssl_negotiation(),
    };
    let rest = words.get(5..).unwrap_or(&[]);
    let (link, connector) = setting::read(alloc, at(words, 4), rest)?;
    tell_polls(
        alloc,
        CancelToken::new(&info).cancel_query_raw(link, connector),
        out,
    )
}
