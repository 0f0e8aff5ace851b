//! The text of a report, line by line.

ghost use Rattle.std.specs.Prelude.{◌≡◌, ◌++◌, ◌∷◌, [], map, flat_map, codes, decimal, option_map, IfOk};
ghost use Rattle.std.specs.List.{concat, join_with_byte};
ghost use Rattle.hex.specs.Hex.{encode_lower};
ghost use Rattle.pg_spec.specs.ReportText as spec;
ghost use Rattle.pg_spec.specs.SimpleQuery as simple;
ghost use Rattle.pg_errors.specs.Views.{async_of};
ghost use Rattle.pg_text.specs.ReportText as text;
ghost use Rattle.pg_text.specs.Views.{booking_of, item_of};
ghost use Rattle.pg_text.specs.Written as written;
ghost use Rattle.pg_text.specs.Written.{Adds};

use crate::command::Answer;
use crate::put::{put, put_hex, put_int, put_number, put_quoted, put_signed};
use crate::report::{Pair, Report};
use pg_desk::{Booking, Column, Stamp, Statement};
use pg_errors::{AsyncMessage, DbError, Error, Notification};
use pg_query::SimpleMessage;
use pg_rows::RowCells;
use pg_spec::TurnMark;
use pg_types::{Blob, List, OutOfMemory, Text, Type, Value};
use std::alloc::Global;

/// The text of a report.
#[tactic(auto, unfolding(crate::specs::Written::process_line))]
pub fn report_text(alloc: Global, report: &Report) -> Result<Blob, OutOfMemory>
    ensures { IfOk result (λ b. b ≡ text.report_text report.now) }
{
    let mut out = String::new(alloc);
    put(&mut out, "status ok\n")?;
    put_session(alloc, &mut out, report)?;
    put_work(alloc, &mut out, report)?;
    Ok(Blob::new(out.into_bytes()))
}

/// What is printed for a session that failed.
pub fn error_text(alloc: Global, error: &Error) -> Result<Blob, OutOfMemory>
    ensures { IfOk result (λ b. b ≡ spec.error_text error.now) }
{
    let mut out = String::new(alloc);
    put(&mut out, "error ")?;
    put_error(alloc, &mut out, error)?;
    put(&mut out, "\n")?;
    Ok(Blob::new(out.into_bytes()))
}

/// What is said of the session as a whole.
fn put_session(alloc: Global, out: &mut String, report: &Report) -> Result<(), OutOfMemory>
    ensures { Adds (written.session_lines report.now) out.old out.new result }
{
    put_process(alloc, out, report)?;
    put_parameters(alloc, out, report.parameters.as_slice())?;
    put_asynchronous(alloc, out, report.asynchronous.as_slice())
}

/// What the scripts did, and what went over the link.
fn put_work(alloc: Global, out: &mut String, report: &Report) -> Result<(), OutOfMemory>
    ensures { Adds (written.work_lines report.now) out.old out.new result }
{
    put_answers(alloc, out, report.answers.as_slice())?;
    put_book(alloc, out, report.book.as_slice())?;
    put_trace(out, report.trace.as_slice())?;
    put_sent(alloc, out, report.sent.as_slice())
}

#[tactic(auto, unfolding(crate::specs::Written::process_line))]
fn put_process(alloc: Global, out: &mut String, report: &Report) -> Result<(), OutOfMemory>
    ensures { Adds (written.process_line report.now.process_id report.now.secret_key) out.old out.new result }
{
    put(out, "process ")?;
    put_signed(alloc, out, report.process_id)?;
    put(out, " ")?;
    put_signed(alloc, out, report.secret_key)?;
    put(out, "\n")
}

fn put_sent(alloc: Global, out: &mut String, sent: &[u8]) -> Result<(), OutOfMemory>
    ensures { Adds (written.sent_line sent.now) out.old out.new result }
{
    put(out, "sent ")?;
    put_hex(alloc, out, sent)?;
    put(out, "\n")
}

fn put_parameters(alloc: Global, out: &mut String, pairs: &[Pair]) -> Result<(), OutOfMemory>
    ensures { Adds (written.parameter_lines pairs.now) out.old out.new result }
{
    for pair in pairs {
        put_parameter(alloc, out, pair)?;
    }
    Ok(())
}

fn put_parameter(alloc: Global, out: &mut String, pair: &Pair) -> Result<(), OutOfMemory>
    ensures { Adds (spec.line (codes "parameter" ∷ spec.quoted pair.now.name ∷ spec.quoted pair.now.value ∷ [])) out.old out.new result }
{
    put(out, "parameter")?;
    put_texts(alloc, out, pair.name.as_str(), pair.value.as_str())?;
    put(out, "\n")
}

fn put_asynchronous(
    alloc: Global,
    out: &mut String,
    messages: &[AsyncMessage],
) -> Result<(), OutOfMemory>
    ensures { Adds (flat_map spec.async_line (map async_of messages.now)) out.old out.new result }
{
    for message in messages {
        put_async(alloc, out, message)?;
    }
    Ok(())
}

fn put_async(alloc: Global, out: &mut String, message: &AsyncMessage) -> Result<(), OutOfMemory>
    ensures { Adds (spec.async_line (async_of message.now)) out.old out.new result }
{
    put(out, "async ")?;
    match message {
        AsyncMessage::Notice(notice) => put_notice(alloc, out, notice.get()),
        AsyncMessage::Notification(notification) => put_notification(alloc, out, notification),
    }
}

fn put_notice(alloc: Global, out: &mut String, notice: &DbError) -> Result<(), OutOfMemory>
    ensures { Adds (written.notice_words notice.now) out.old out.new result }
{
    put(out, "notice ")?;
    put_db_error(alloc, out, notice)?;
    put(out, "\n")
}

fn put_notification(
    alloc: Global,
    out: &mut String,
    notification: &Notification,
) -> Result<(), OutOfMemory>
    ensures { Adds (written.notification_words notification.now) out.old out.new result }
{
    put(out, "notification ")?;
    put_signed(alloc, out, notification.process_id())?;
    put_texts(alloc, out, notification.channel(), notification.payload())?;
    put(out, "\n")
}

/// Two texts in quotes, each behind a space.
fn put_texts(alloc: Global, out: &mut String, first: &str, second: &str) -> Result<(), OutOfMemory>
    ensures { Adds (32 ∷ spec.quoted first.now ++ 32 ∷ spec.quoted second.now) out.old out.new result }
{
    put(out, " ")?;
    put_quoted(alloc, out, first.as_bytes())?;
    put(out, " ")?;
    put_quoted(alloc, out, second.as_bytes())
}

/// Severity, code and message.
fn put_db_error(alloc: Global, out: &mut String, error: &DbError) -> Result<(), OutOfMemory>
    ensures { Adds (written.error_fields error.now) out.old out.new result }
{
    put_quoted(alloc, out, error.severity().as_bytes())?;
    put(out, " ")?;
    put_quoted(alloc, out, error.code().code().as_bytes())?;
    put(out, " ")?;
    put_quoted(alloc, out, error.message().as_bytes())
}

fn put_answers(alloc: Global, out: &mut String, answers: &[List<Answer>]) -> Result<(), OutOfMemory>
    ensures { Adds (written.scripts_from 0 answers.now) out.old out.new result }
{
    for (handle, script) in answers.iter().enumerate() {
        put_script(alloc, out, handle as u64, script.as_slice())?;
    }
    Ok(())
}

fn put_script(
    alloc: Global,
    out: &mut String,
    handle: u64,
    answers: &[Answer],
) -> Result<(), OutOfMemory>
    ensures { Adds (written.answers_from handle 0 answers.now) out.old out.new result }
{
    for (command, answer) in answers.iter().enumerate() {
        put_answer(alloc, out, handle, command as u64, answer)?;
    }
    Ok(())
}

fn put_answer(
    alloc: Global,
    out: &mut String,
    handle: u64,
    command: u64,
    answer: &Answer,
) -> Result<(), OutOfMemory>
    ensures { Adds (text.answer_lines handle (command, answer.now)) out.old out.new result }
{
    put(out, "answer ")?;
    put_number(out, handle)?;
    put(out, " ")?;
    put_number(out, command)?;
    match answer {
        Answer::Done => put_done(out),
        Answer::Messages(messages) => put_items(alloc, out, messages.as_slice()),
        Answer::Statement(statement) => put_statement(alloc, out, statement),
        Answer::Rows {
            statement,
            rows,
            affected,
        } => put_result(alloc, out, statement, rows.as_slice(), *affected),
        Answer::Scalars(values) => put_scalars(alloc, out, values.as_slice()),
        Answer::Count(count) => put_count(out, *count),
        Answer::Failed(error) => put_failed(alloc, out, error),
    }
}

/// How many messages there are, and a line for each.
fn put_items(alloc: Global, out: &mut String, messages: &[SimpleMessage]) -> Result<(), OutOfMemory>
    ensures { Adds (written.answered (Answer.Messages messages.now)) out.old out.new result }
{
    put(out, " messages ")?;
    put_number(out, messages.len() as u64)?;
    put(out, "\n")?;
    put_messages(alloc, out, messages)
}

fn put_done(out: &mut String) -> Result<(), OutOfMemory>
    ensures { Adds (written.answered Answer.Done) out.old out.new result }
{
    put(out, " done\n")
}

/// The name of a statement, and a line for each parameter and each column.
fn put_statement(alloc: Global, out: &mut String, statement: &Statement) -> Result<(), OutOfMemory>
    ensures { Adds (written.answered (Answer.Statement statement.now)) out.old out.new result }
{
    put(out, " statement ")?;
    put_quoted(alloc, out, statement.name().as_bytes())?;
    put(out, "\n")?;
    put_params(out, statement.params())?;
    put_described(alloc, out, statement.columns())
}

fn put_params(out: &mut String, params: &[Type]) -> Result<(), OutOfMemory>
    ensures { Adds (flat_map text.param_line params.now) out.old out.new result }
{
    for param in params {
        put_param(out, param)?;
    }
    Ok(())
}

fn put_param(out: &mut String, param: &Type) -> Result<(), OutOfMemory>
    ensures { Adds (text.param_line param.now) out.old out.new result }
{
    put(out, "param ")?;
    put_number(out, param.oid() as u64)?;
    put(out, "\n")
}

/// A line for each column of a statement.
fn put_described(alloc: Global, out: &mut String, columns: &[Column]) -> Result<(), OutOfMemory>
    ensures { Adds (flat_map text.column_line columns.now) out.old out.new result }
{
    for column in columns {
        put_column(alloc, out, column)?;
    }
    Ok(())
}

fn put_column(alloc: Global, out: &mut String, column: &Column) -> Result<(), OutOfMemory>
    ensures { Adds (text.column_line column.now) out.old out.new result }
{
    put(out, "column ")?;
    put_quoted(alloc, out, column.name().as_bytes())?;
    put(out, " ")?;
    put_number(out, column.type_().oid() as u64)?;
    put(out, "\n")
}

/// How many rows there are and were affected, and a line for each column and each row.
fn put_result(
    alloc: Global,
    out: &mut String,
    statement: &Statement,
    rows: &[RowCells],
    affected: Option<u64>,
) -> Result<(), OutOfMemory>
    ensures { Adds (written.answered (Answer.Rows statement.now rows.now affected)) out.old out.new result }
{
    put(out, " rows ")?;
    put_number(out, rows.len() as u64)?;
    put(out, " ")?;
    put_affected(out, affected)?;
    put(out, "\n")?;
    let columns = statement.columns();
    put_described(alloc, out, columns)?;
    put_rows(alloc, out, rows)
}

/// How many rows were affected, where a command ended.
fn put_affected(out: &mut String, affected: Option<u64>) -> Result<(), OutOfMemory>
    ensures { Adds (text.affected_word affected) out.old out.new result }
{
    match affected {
        Some(affected) => put_number(out, affected),
        None => put(out, "-"),
    }
}

fn put_rows(alloc: Global, out: &mut String, rows: &[RowCells]) -> Result<(), OutOfMemory>
    ensures { Adds (flat_map text.row_line rows.now) out.old out.new result }
{
    for cells in rows {
        put_shared_row(alloc, out, cells)?;
    }
    Ok(())
}

/// A row whose cells stand in the received bytes.
fn put_shared_row(alloc: Global, out: &mut String, cells: &RowCells) -> Result<(), OutOfMemory>
    ensures { Adds (text.row_line cells.now) out.old out.new result }
{
    put(out, "row")?;
    put_shared_cells(alloc, out, cells)?;
    put(out, "\n")
}

/// Each of its cells behind a space.
fn put_shared_cells(alloc: Global, out: &mut String, cells: &RowCells) -> Result<(), OutOfMemory>
    ensures { Adds (written.behind_spaces spec.cell cells.now) out.old out.new result }
{
    let mut left = cells.iter();
    loop {
        let Some(cell) = left.next() else {
            return Ok(());
        };
        put_cell(alloc, out, cell)?;
    }
}

/// How many values there are, and a line for each.
fn put_scalars(alloc: Global, out: &mut String, values: &[Value]) -> Result<(), OutOfMemory>
    ensures { Adds (written.answered (Answer.Scalars values.now)) out.old out.new result }
{
    put(out, " scalars ")?;
    put_number(out, values.len() as u64)?;
    put(out, "\n")?;
    put_values(alloc, out, values)
}

fn put_values(alloc: Global, out: &mut String, values: &[Value]) -> Result<(), OutOfMemory>
    ensures { Adds (flat_map text.value_line values.now) out.old out.new result }
{
    for value in values {
        put_value_line(alloc, out, value)?;
    }
    Ok(())
}

fn put_value_line(alloc: Global, out: &mut String, value: &Value) -> Result<(), OutOfMemory>
    ensures { Adds (text.value_line value.now) out.old out.new result }
{
    put(out, "value ")?;
    put_value(alloc, out, value)?;
    put(out, "\n")
}

/// A value as a line of a session text has it.
fn put_value(alloc: Global, out: &mut String, value: &Value) -> Result<(), OutOfMemory>
    ensures { Adds (text.value_word value.now) out.old out.new result }
{
    match value {
        Value::Null => put(out, "null"),
        Value::Bool(true) => put(out, "true"),
        Value::Bool(false) => put(out, "false"),
        Value::Int(int) => put_int(alloc, out, *int),
        Value::Text(text) => put_quoted(alloc, out, text.as_str().as_bytes()),
        Value::Bytes(bytes) => {
            put(out, "x")?;
            put_hex(alloc, out, bytes.as_slice())
        }
    }
}

fn put_count(out: &mut String, count: u64) -> Result<(), OutOfMemory>
    ensures { Adds (written.answered (Answer.Count count)) out.old out.new result }
{
    put(out, " count ")?;
    put_number(out, count)?;
    put(out, "\n")
}

fn put_failed(alloc: Global, out: &mut String, error: &Error) -> Result<(), OutOfMemory>
    ensures { Adds (written.answered (Answer.Failed error.now)) out.old out.new result }
{
    put(out, " failed ")?;
    put_error(alloc, out, error)?;
    put(out, "\n")
}

fn put_messages(
    alloc: Global,
    out: &mut String,
    messages: &[SimpleMessage],
) -> Result<(), OutOfMemory>
    ensures { Adds (flat_map spec.item_line (map item_of messages.now)) out.old out.new result }
{
    for message in messages {
        put_message(alloc, out, message)?;
    }
    Ok(())
}

fn put_message(alloc: Global, out: &mut String, message: &SimpleMessage) -> Result<(), OutOfMemory>
    ensures { Adds (spec.item_line (item_of message.now)) out.old out.new result }
{
    match message {
        SimpleMessage::Columns(names) => put_columns(alloc, out, names.as_slice()),
        SimpleMessage::Row(cells) => put_row(alloc, out, cells.as_slice()),
        SimpleMessage::Complete(affected) => put_complete(out, *affected),
    }
}

fn put_columns(alloc: Global, out: &mut String, names: &[Text]) -> Result<(), OutOfMemory>
    ensures { Adds (spec.item_line (simple.Columns names.now)) out.old out.new result }
{
    put(out, "columns")?;
    put_names(alloc, out, names)?;
    put(out, "\n")
}

fn put_row(alloc: Global, out: &mut String, cells: &[Option<Blob>]) -> Result<(), OutOfMemory>
    ensures { Adds (spec.item_line (simple.Row cells.now)) out.old out.new result }
{
    put(out, "row")?;
    put_cells(alloc, out, cells)?;
    put(out, "\n")
}

fn put_complete(out: &mut String, affected: u64) -> Result<(), OutOfMemory>
    ensures { Adds (spec.item_line (simple.Complete affected)) out.old out.new result }
{
    put(out, "complete ")?;
    put_number(out, affected)?;
    put(out, "\n")
}

/// Each name behind a space.
fn put_names(alloc: Global, out: &mut String, names: &[Text]) -> Result<(), OutOfMemory>
    ensures { Adds (written.behind_spaces spec.quoted names.now) out.old out.new result }
{
    for name in names {
        put(out, " ")?;
        put_quoted(alloc, out, name.as_str().as_bytes())?;
    }
    Ok(())
}

/// Each cell behind a space.
fn put_cells(alloc: Global, out: &mut String, cells: &[Option<Blob>]) -> Result<(), OutOfMemory>
    ensures { Adds (written.behind_spaces spec.cell cells.now) out.old out.new result }
{
    for cell in cells {
        put_cell(alloc, out, bytes_of(cell))?;
    }
    Ok(())
}

/// The bytes of a cell, None for null.
fn bytes_of(cell: &Option<Blob>) -> Option<&[u8]>
    ensures { option_map (λ r. r.now) result ≡ cell.now }
{
    match cell {
        Some(bytes) => Some(bytes.as_slice()),
        None => None,
    }
}

/// A cell behind a space: its bytes in quotes, or null.
fn put_cell(alloc: Global, out: &mut String, cell: Option<&[u8]>) -> Result<(), OutOfMemory>
    ensures { Adds (32 ∷ spec.cell (option_map (λ r. r.now) cell.entry)) out.old out.new result }
{
    put(out, " ")?;
    match cell {
        None => put(out, "null"),
        Some(bytes) => put_quoted(alloc, out, bytes),
    }
}

fn put_book(alloc: Global, out: &mut String, book: &[Booking]) -> Result<(), OutOfMemory>
    ensures { Adds (written.book_from 0 book.now) out.old out.new result }
{
    for (number, booking) in book.iter().enumerate() {
        put_booking(alloc, out, number as u64, booking)?;
    }
    Ok(())
}

fn put_booking(
    alloc: Global,
    out: &mut String,
    number: u64,
    booking: &Booking,
) -> Result<(), OutOfMemory>
    ensures { Adds (spec.book_line (number, booking_of booking.now)) out.old out.new result }
{
    put(out, "book")?;
    put_next(out, number)?;
    put_stamp(out, &booking.stamp)?;
    put_parts(alloc, out, booking.parts.as_slice())?;
    put(out, "\n")
}

/// Owner, command and turn, each behind a space, and a space behind them.
fn put_stamp(out: &mut String, stamp: &Stamp) -> Result<(), OutOfMemory>
    ensures { Adds (written.stamp_words stamp.now) out.old out.new result }
{
    put_next(out, stamp.owner as u64)?;
    put_next(out, stamp.command as u64)?;
    put_next(out, stamp.turn)?;
    put(out, " ")
}

/// A number behind a space.
fn put_next(out: &mut String, number: u64) -> Result<(), OutOfMemory>
    ensures { Adds (32 ∷ decimal number) out.old out.new result }
{
    put(out, " ")?;
    put_number(out, number)
}

fn put_parts(alloc: Global, out: &mut String, parts: &[Blob]) -> Result<(), OutOfMemory>
    ensures { Adds (encode_lower (concat parts.now)) out.old out.new result }
{
    for part in parts {
        put_hex(alloc, out, part.as_slice())?;
    }
    Ok(())
}

fn put_trace(out: &mut String, trace: &[TurnMark]) -> Result<(), OutOfMemory>
    ensures { Adds (flat_map spec.turn_line trace.now) out.old out.new result }
{
    for mark in trace {
        put_turn(out, *mark)?;
    }
    Ok(())
}

fn put_turn(out: &mut String, mark: TurnMark) -> Result<(), OutOfMemory>
    ensures { Adds (spec.turn_line mark) out.old out.new result }
{
    put(out, "turn ")?;
    put_number(out, mark.turn as u64)?;
    put(out, " ")?;
    put_number(out, mark.delivered)?;
    put(out, "\n")
}

/// The name of an error, and what it carries.
fn put_error(alloc: Global, out: &mut String, error: &Error) -> Result<(), OutOfMemory>
    ensures { Adds (join_with_byte 32 (spec.failure_words error.now)) out.old out.new result }
{
    put(out, name_of(error))?;
    put_carried(alloc, out, error)
}

fn name_of(error: &Error) -> &'static str
    ensures { result.now ≡ spec.failure_name error.now }
{
    match error {
        Error::Io(_) => "Io",
        Error::UnexpectedMessage => "UnexpectedMessage",
        Error::Tls(_) => "Tls",
        Error::ToSql(_, _) => "ToSql",
        Error::FromSql(_, _) => "FromSql",
        Error::Column(_) => "Column",
        Error::ColumnCount => "ColumnCount",
        Error::Parameters(_, _) => "Parameters",
        Error::Closed => "Closed",
        Error::Db(_) => "Db",
        Error::Parse(_) => "Parse",
        Error::Encode(_) => "Encode",
        Error::Authentication(_) => "Authentication",
        Error::ConfigParse(_) => "ConfigParse",
        Error::Config(_) => "Config",
        Error::RowCount => "RowCount",
        Error::Connect(_) => "Connect",
        Error::Stalled { .. } => "Stalled",
        Error::LimitReached { .. } => "LimitReached",
        Error::Missing => "Missing",
        Error::OutOfMemory => "OutOfMemory",
    }
}

/// What an error carries, each word behind a space.
fn put_carried(alloc: Global, out: &mut String, error: &Error) -> Result<(), OutOfMemory>
    ensures { Adds (written.words_behind (spec.failure_parts error.now)) out.old out.new result }
{
    match error {
        Error::ToSql(place, _) => put_next(out, *place as u64),
        Error::FromSql(place, _) => put_next(out, *place as u64),
        Error::Column(column) => {
            put(out, " ")?;
            put_quoted(alloc, out, column.as_str().as_bytes())
        }
        Error::Parameters(given, expected) => put_two(out, *given as u64, *expected as u64),
        Error::Db(error) => {
            put(out, " ")?;
            put_db_error(alloc, out, error.get())
        }
        Error::Stalled { before, after } => put_two(out, *before, *after),
        Error::LimitReached { given, limit } => put_two(out, *given, *limit),
        _ => Ok(()),
    }
}

/// Two numbers, each behind a space.
fn put_two(out: &mut String, first: u64, second: u64) -> Result<(), OutOfMemory>
    ensures { Adds (32 ∷ decimal first ++ 32 ∷ decimal second) out.old out.new result }
{
    put_next(out, first)?;
    put_next(out, second)
}
