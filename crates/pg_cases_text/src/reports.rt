//! Reports that no session gives, or none that is short: numbers at their limits, bytes at the borders of
//! those that print as they are.

use crate::list::push;
use pg_cases::shared;
use pg_desk::{Booking, Column, Stamp};
use pg_errors::Error;
use pg_text::{
    Answer, Cells, Pair, Report, RowCells, SimpleMessage, Statement, TurnMark, report_text,
};
use pg_types::{Blob, Kind, List, Oid, OutOfMemory, Text, Type, Value};
use pg_wire::{DataRowBody, Message, WireFault};
use std::alloc::{AllocError, Global};
use std::str;

/// The report on a session that did nothing.
fn quiet(alloc: Global) -> Report {
    Report {
        answers: List::empty(alloc),
        asynchronous: List::empty(alloc),
        parameters: List::empty(alloc),
        process_id: 0,
        secret_key: 0,
        book: List::empty(alloc),
        trace: List::empty(alloc),
        sent: Blob::new(Vec::new(alloc)),
    }
}

fn put_parameter(
    alloc: Global,
    name: &str,
    value: &str,
    report: &mut Report,
) -> Result<(), OutOfMemory> {
    let name = Text::from_str(alloc, name)?;
    let value = Text::from_str(alloc, value)?;
    push(&mut report.parameters, Pair { name, value })
}

fn put_settings(alloc: Global, report: &mut Report) -> Result<(), OutOfMemory> {
    report.process_id = i32::MIN;
    report.secret_key = i32::MAX;
    put_parameter(alloc, "TimeZone", "\"UTC\\", report)?;
    put_parameter(alloc, "", "", report)
}

/// The bytes at the borders of those that print as they are, and those behind a backslash.
const BORDERS: &[u8] = b"\x1f ~\x7f!\"#[\\]\x00\x0a\x80\xff";

fn put_cells(alloc: Global, cells: &mut Cells) -> Result<(), OutOfMemory> {
    push(cells, None)?;
    push(cells, Some(Blob::from_slice(alloc, b"")?))?;
    push(cells, Some(Blob::from_slice(alloc, BORDERS)?))
}

fn put_row(alloc: Global, messages: &mut List<SimpleMessage>) -> Result<(), OutOfMemory> {
    let mut cells = List::empty(alloc);
    put_cells(alloc, &mut cells)?;
    push(messages, SimpleMessage::Row(cells))
}

fn put_names(alloc: Global, names: &mut List<Text>) -> Result<(), OutOfMemory> {
    push(names, Text::from_str(alloc, "a")?)?;
    push(names, Text::from_str(alloc, "\u{e9}")?)
}

fn put_columns(alloc: Global, messages: &mut List<SimpleMessage>) -> Result<(), OutOfMemory> {
    let mut names = List::empty(alloc);
    put_names(alloc, &mut names)?;
    push(messages, SimpleMessage::Columns(names))
}

fn put_messages(alloc: Global, messages: &mut List<SimpleMessage>) -> Result<(), OutOfMemory> {
    put_columns(alloc, messages)?;
    put_row(alloc, messages)?;
    push(messages, SimpleMessage::Columns(List::empty(alloc)))?;
    push(messages, SimpleMessage::Row(List::empty(alloc)))?;
    push(messages, SimpleMessage::Complete(2))
}

/// The answer of a command with a message of each kind.
fn put_answer(alloc: Global, answers: &mut List<Answer>) -> Result<(), OutOfMemory> {
    let mut messages = List::empty(alloc);
    put_messages(alloc, &mut messages)?;
    push(answers, Answer::Messages(messages))
}

/// The answers of a handle with that, and of one command more that failed.
fn put_first(alloc: Global, report: &mut Report) -> Result<(), OutOfMemory> {
    let mut answers = List::empty(alloc);
    put_answer(alloc, &mut answers)?;
    push(&mut answers, Answer::Failed(Error::Closed))?;
    push(&mut report.answers, answers)
}

/// The answers of a handle with one command.
fn put_one(alloc: Global, answer: Answer, report: &mut Report) -> Result<(), OutOfMemory> {
    let mut answers = List::empty(alloc);
    push(&mut answers, answer)?;
    push(&mut report.answers, answers)
}

fn put_answers(alloc: Global, report: &mut Report) -> Result<(), OutOfMemory> {
    put_first(alloc, report)?;
    push(&mut report.answers, List::empty(alloc))?;
    put_one(alloc, Answer::Messages(List::empty(alloc)), report)?;
    put_one(alloc, Answer::Done, report)
}

/// A type with this oid.
fn of_oid(alloc: Global, oid: Oid) -> Result<Type, OutOfMemory> {
    let name = Text::from_str(alloc, "t")?;
    let schema = Text::from_str(alloc, "s")?;
    Type::new(alloc, name, oid, Kind::Simple, schema)
}

fn put_column(
    alloc: Global,
    name: &str,
    oid: Oid,
    columns: &mut List<Column>,
) -> Result<(), OutOfMemory> {
    let name = Text::from_str(alloc, name)?;
    let type_ = of_oid(alloc, oid)?;
    push(columns, Column::new(name, 1, 2, 3, type_))
}

/// The answer that is a statement of these parameters and columns.
fn put_described(
    alloc: Global,
    name: &str,
    params: List<Type>,
    columns: List<Column>,
    answers: &mut List<Answer>,
) -> Result<(), OutOfMemory> {
    let name = Text::from_str(alloc, name)?;
    let statement = Statement::new(alloc, name, params, columns)?;
    push(answers, Answer::Statement(statement))
}

/// The answer that is a statement with two parameters and two columns.
fn put_statement(alloc: Global, answers: &mut List<Answer>) -> Result<(), OutOfMemory> {
    let mut params = List::empty(alloc);
    push(&mut params, of_oid(alloc, 23)?)?;
    push(&mut params, of_oid(alloc, u32::MAX)?)?;
    let mut columns = List::empty(alloc);
    put_column(alloc, "?column?", 25, &mut columns)?;
    put_column(alloc, "\u{e9}\"", 0, &mut columns)?;
    put_described(alloc, "s1", params, columns, answers)
}

fn put_statements(alloc: Global, report: &mut Report) -> Result<(), OutOfMemory> {
    let mut answers = List::empty(alloc);
    put_described(
        alloc,
        "",
        List::empty(alloc),
        List::empty(alloc),
        &mut answers,
    )?;
    put_statement(alloc, &mut answers)?;
    push(&mut answers, Answer::Done)?;
    push(&mut report.answers, answers)
}

/// The statement with two columns.
fn of_two_columns(alloc: Global) -> Result<Statement, OutOfMemory> {
    let mut columns = List::empty(alloc);
    put_column(alloc, "?column?", 25, &mut columns)?;
    put_column(alloc, "\u{e9}\"", 0, &mut columns)?;
    let name = Text::from_str(alloc, "s1")?;
    Statement::new(alloc, name, List::empty(alloc), columns)
}

/// A row of three cells as it is sent: null, one without bytes, and one of those at the borders.
const THREE_CELLS: &[u8] =
    b"\x00\x03\xff\xff\xff\xff\x00\x00\x00\x00\x00\x00\x00\x0e\x1f ~\x7f!\"#[\\]\x00\x0a\x80\xff";

/// A row without cells.
const NO_CELLS: &[u8] = b"\x00\x00";

fn of_read(read: Result<Option<Message>, WireFault>) -> Option<DataRowBody> {
    match read {
        Ok(Some(message)) => message.row_body(),
        _ => None,
    }
}

/// Adds the row that is sent so.
fn put_sent(alloc: Global, sent: &[u8], rows: &mut List<RowCells>) -> Result<(), OutOfMemory> {
    let mut received = shared::of_message(alloc, b'D', sent)?;
    let read = Message::parse(&mut received);
    let Some(body) = of_read(read) else {
        return Ok(());
    };
    match RowCells::new(body) {
        Ok(cells) => push(rows, cells),
        Err(_) => Ok(()),
    }
}

/// The answer that is no rows.
fn put_no_rows(alloc: Global, answers: &mut List<Answer>) -> Result<(), OutOfMemory> {
    let name = Text::from_str(alloc, "s0")?;
    let statement = Statement::new(alloc, name, List::empty(alloc), List::empty(alloc))?;
    push(
        answers,
        Answer::Rows {
            statement,
            rows: List::empty(alloc),
            affected: None,
        },
    )
}

/// The answer that is two rows.
fn put_two_rows(alloc: Global, answers: &mut List<Answer>) -> Result<(), OutOfMemory> {
    let mut rows = List::empty(alloc);
    put_sent(alloc, THREE_CELLS, &mut rows)?;
    put_sent(alloc, NO_CELLS, &mut rows)?;
    push(
        answers,
        Answer::Rows {
            statement: of_two_columns(alloc)?,
            rows,
            affected: Some(u64::MAX),
        },
    )
}

/// Values without a text.
fn put_plain(values: &mut List<Value>) -> Result<(), OutOfMemory> {
    push(values, Value::Null)?;
    push(values, Value::Bool(true))?;
    push(values, Value::Bool(false))?;
    push(values, Value::Int(0))?;
    push(values, Value::Int(-1))?;
    push(values, Value::Int(i64::MAX))?;
    push(values, Value::Int(i64::MIN))
}

/// A text, and bytes.
fn put_texts(alloc: Global, values: &mut List<Value>) -> Result<(), OutOfMemory> {
    let text = Text::from_str(alloc, "\u{e9}\"\\")?;
    push(values, Value::Text(text))?;
    let bytes = Blob::from_slice(alloc, b"\x00\xab")?;
    push(values, Value::Bytes(bytes))
}

/// The answer that is a value of each kind.
fn put_values(alloc: Global, answers: &mut List<Answer>) -> Result<(), OutOfMemory> {
    let mut values = List::empty(alloc);
    put_plain(&mut values)?;
    put_texts(alloc, &mut values)?;
    push(answers, Answer::Scalars(values))
}

/// An answer of each execution.
fn put_all(alloc: Global, answers: &mut List<Answer>) -> Result<(), OutOfMemory> {
    put_no_rows(alloc, answers)?;
    put_two_rows(alloc, answers)?;
    push(answers, Answer::Scalars(List::empty(alloc)))?;
    put_values(alloc, answers)?;
    push(answers, Answer::Count(0))?;
    push(answers, Answer::Count(u64::MAX))
}

fn put_executions(alloc: Global, report: &mut Report) -> Result<(), OutOfMemory> {
    let mut answers = List::empty(alloc);
    put_all(alloc, &mut answers)?;
    push(&mut report.answers, answers)
}

fn put_parts(alloc: Global, bytes: &[&[u8]], parts: &mut List<Blob>) -> Result<(), OutOfMemory> {
    for part in bytes {
        push(parts, Blob::from_slice(alloc, part)?)?;
    }
    Ok(())
}

/// A request of these parts.
fn put_booking(
    alloc: Global,
    stamp: Stamp,
    bytes: &[&[u8]],
    report: &mut Report,
) -> Result<(), OutOfMemory> {
    let mut parts = List::empty(alloc);
    put_parts(alloc, bytes, &mut parts)?;
    push(&mut report.book, Booking { stamp, parts })
}

const FIRST: Stamp = Stamp {
    owner: 0,
    command: 0,
    turn: 3,
};

const LAST: Stamp = Stamp {
    owner: 2,
    command: 0,
    turn: 4,
};

fn put_book(alloc: Global, report: &mut Report) -> Result<(), OutOfMemory> {
    put_booking(alloc, FIRST, &[b"\x51\x00\xff", b"\x51"], report)?;
    put_booking(alloc, LAST, &[], report)
}

const FIRST_TURN: TurnMark = TurnMark {
    turn: 0,
    delivered: 1,
};

const LAST_TURN: TurnMark = TurnMark {
    turn: u32::MAX,
    delivered: u64::MAX,
};

fn put_work(alloc: Global, report: &mut Report) -> Result<(), OutOfMemory> {
    put_one(alloc, Answer::Failed(Error::Closed), report)?;
    put_book(alloc, report)?;
    push(&mut report.trace, FIRST_TURN)?;
    push(&mut report.trace, LAST_TURN)?;
    report.sent = Blob::from_slice(alloc, b"\x00\xab")?;
    Ok(())
}

/// Makes the report of this name.
fn put(alloc: Global, name: &str, report: &mut Report) -> Result<(), OutOfMemory> {
    match name {
        "settings" => put_settings(alloc, report),
        "answers" => put_answers(alloc, report),
        "statements" => put_statements(alloc, report),
        "executions" => put_executions(alloc, report),
        "work" => put_work(alloc, report),
        _ => Ok(()),
    }
}

fn tell_text(text: &Result<Blob, OutOfMemory>, out: &mut String) -> Result<(), AllocError> {
    let Ok(text) = text else {
        return Err(AllocError);
    };
    match str::from_utf8(text.as_slice()) {
        Ok(text) => write!(out, "\n{text}"),
        Err(_) => out.push_str(" not UTF-8"),
    }
}

fn tell_report(alloc: Global, report: &Report, out: &mut String) -> Result<(), AllocError> {
    let text = report_text(alloc, report);
    tell_text(&text, out)
}

fn tell_made(
    alloc: Global,
    name: &str,
    report: &mut Report,
    out: &mut String,
) -> Result<(), AllocError> {
    match put(alloc, name, report) {
        Ok(()) => tell_report(alloc, report, out),
        Err(OutOfMemory) => Err(AllocError),
    }
}

/// The text of the report of this name, in the lines below.
pub(crate) fn tell(alloc: Global, name: &str, out: &mut String) -> Result<(), AllocError> {
    let mut report = quiet(alloc);
    tell_made(alloc, name, &mut report, out)
}
