//! The report of a session that ended.

ghost use Rattle.std.specs.Prelude.{◌≡◌, ◌<◌, ◌^◌, ◌++◌, ◌∷◌, [], IfOk, IfErr, Ok, OnOk, map, string_bytes};
ghost use Rattle.std.specs.List.{concat};
ghost use Rattle.pg_spec.specs.Book.{wire};
ghost use Rattle.pg_spec.specs.Frames.{terminate_frame};
ghost use Rattle.pg_core.specs.Trails.{said_booking};
ghost use Rattle.pg_play.specs.Told.{told_of};
ghost use Rattle.pg_session.specs.Reports.{Reports};
ghost use Rattle.pg_play.specs.Parameters.{pair_view};
ghost use Rattle.pg_play.specs.Plays.{state_of};

use crate::handle::Handle;
use crate::play::Play;
use pg_connect::Parameters;
use pg_errors::{AsyncMessage, Error};
use pg_hub::Booking;
use pg_session::Spoken;
use pg_spec::TurnMark;
use pg_text::Pair;
use pg_types::{Blob, List, OutOfMemory, Text};
use std::alloc::Global;

/// What a session reports at its end.
#[derive(Drop)]
pub struct Report<A> {
    /// For each script, the answers of its commands.
    pub answers: List<List<A>>,
    /// Notices and notifications, in order.
    pub asynchronous: List<AsyncMessage>,
    /// The server's settings, ascending by the bytes of their names.
    pub parameters: List<Pair>,
    pub process_id: i32,
    pub secret_key: i32,
    /// The requests in the order in which they were booked.
    pub book: List<Booking>,
    pub trace: List<TurnMark>,
    /// All bytes that the link took.
    pub sent: Blob,
}

/// The requests in the order in which they were booked, and all bytes that the link took.
#[derive(Drop)]
struct Requests {
    book: List<Booking>,
    sent: Blob,
}

/// What of a report wants memory.
#[derive(Drop)]
struct Gathered<A> {
    answers: List<List<A>>,
    parameters: List<Pair>,
    requests: Requests,
}

impl<'a, S: Spoken<'a>> Play<S, S::Answer, S::Slots> {
    /// The report, where `opening` is what startup sent, and `key` the server's process and the secret key.
    pub fn into_report(
        self,
        alloc: Global,
        opening: Vec<u8>,
        key: (i32, i32),
    ) -> Result<Report<S::Answer>, Error>
        ensures report { IfOk result (λ report. Reports opening.items key (state_of S.place self) (told_of report)) }
        ensures counted { self.streams.given < 2 ^ 64 }
        ensures error { IfErr result (λ e. e ≡ Error.OutOfMemory) }
    {
        let Play {
            hub,
            streams,
            handles,
            unanswered: _,
            trace,
            asynchronous,
        } = self;
        let parameters = parameters_of(alloc, &streams.parameters);
        drop(streams);
        let requests = requests_of(opening, hub.into_book());
        match gather(answers_of(alloc, handles), parameters, requests) {
            Ok(gathered) => Ok(reported(gathered, asynchronous, trace, key)),
            Err(_) => {
                drop(asynchronous);
                drop(trace);
                Err(Error::OutOfMemory)
            }
        }
    }
}

/// What of a report wants memory, where there was room for all of it.
fn gather<A: Drop>(
    answers: Result<List<List<A>>, OutOfMemory>,
    parameters: Result<List<Pair>, OutOfMemory>,
    requests: Result<Requests, OutOfMemory>,
) -> Result<Gathered<A>, OutOfMemory>
    ensures answers { IfOk result (λ g. answers ≡ Ok g.answers) }
    ensures parameters { IfOk result (λ g. parameters ≡ Ok g.parameters) }
    ensures requests { IfOk result (λ g. requests ≡ Ok g.requests) }
{
    let answers = answers?;
    let parameters = parameters?;
    let requests = requests?;
    Ok(Gathered {
        answers,
        parameters,
        requests,
    })
}

/// The report of what was gathered, and of what stood in the session. It takes no memory.
fn reported<A: Drop>(
    gathered: Gathered<A>,
    asynchronous: Vec<AsyncMessage>,
    trace: Vec<TurnMark>,
    key: (i32, i32),
) -> Report<A>
    ensures { result ≡ record {
      answers = gathered.answers;
      asynchronous = asynchronous.items;
      parameters = gathered.parameters;
      process_id = key.0;
      secret_key = key.1;
      book = gathered.requests.book;
      trace = trace.items;
      sent = gathered.requests.sent;
    } }
{
    let Gathered {
        answers,
        parameters,
        requests,
    } = gathered;
    let Requests { book, sent } = requests;
    Report {
        answers,
        asynchronous: List::new(asynchronous),
        parameters,
        process_id: key.0,
        secret_key: key.1,
        book,
        trace: List::new(trace),
        sent,
    }
}

/// The requests of a book, and what crossed the link with them.
fn requests_of(opening: Vec<u8>, book: List<Booking>) -> Result<Requests, OutOfMemory>
    ensures book { IfOk result (λ requests. requests.book ≡ book) }
    ensures sent { IfOk result (λ requests. requests.sent ≡ opening.items ++ wire (map said_booking book) ++ terminate_frame) }
{
    match sent_bytes(opening, book.as_slice()) {
        Ok(sent) => Ok(Requests { book, sent }),
        Err(_) => {
            drop(book);
            Err(OutOfMemory)
        }
    }
}

/// The answers of all handles.
fn answers_of<'a, S: Spoken<'a>>(
    alloc: Global,
    handles: Vec<Handle<S, S::Answer, S::Slots>>,
) -> Result<List<List<S::Answer>>, OutOfMemory>
    ensures { IfOk result (λ answers. answers ≡ map (λ handle. handle.answers.items) handles.items) }
{
    let mut answers = Vec::new(alloc);
    'handles: for handle in handles {
        answers.push(handle.into_answers())?;
    }
    Ok(List::new(answers))
}

/// The server's settings as last reported.
fn parameters_of(alloc: Global, parameters: &Parameters) -> Result<List<Pair>, OutOfMemory>
    ensures { IfOk result (λ pairs. map pair_view pairs ≡ parameters.now) }
{
    let mut pairs = Vec::new(alloc);
    'settings: for (name, value) in parameters.as_map() {
        add_pair(alloc, &mut pairs, name.as_str(), value.as_str())?;
    }
    Ok(List::new(pairs))
}

/// Adds a setting behind the others.
fn add_pair(
    alloc: Global,
    pairs: &mut Vec<Pair>,
    name: &str,
    value: &str,
) -> Result<(), OutOfMemory>
    ensures { OnOk result (map pair_view pairs.new.items ≡ map pair_view pairs.old.items ++ (name.now, value.now) ∷ []) }
{
    let name = Text::from_str(alloc, name)?;
    let value = Text::from_str(alloc, value)?;
    pairs.push(Pair { name, value })?;
    Ok(())
}

/// Terminate (PostgreSQL documentation, "Message Formats").
const TERMINATE: [u8; 5] = [b'X', 0, 0, 0, 4];

/// What startup sent, the book's bytes in order, and Terminate.
fn sent_bytes(opening: Vec<u8>, book: &[Booking]) -> Result<Blob, OutOfMemory>
    ensures { IfOk result (λ sent. sent ≡ opening.items ++ wire (map said_booking book.now) ++ terminate_frame) }
{
    let mut sent = opening;
    'requests: for booking in book {
        add_parts(&mut sent, booking.parts.as_slice())?;
    }
    sent.extend_from_slice(&TERMINATE)?;
    Ok(Blob::new(sent))
}

/// Adds the parts of a request, in order.
fn add_parts(sent: &mut Vec<u8>, parts: &[Blob]) -> Result<(), OutOfMemory>
    ensures { OnOk result (sent.new.items ≡ sent.old.items ++ concat parts.now) }
{
    'parts: for part in parts {
        sent.extend_from_slice(part.as_slice())?;
    }
    Ok(())
}
