//! Why a program ends with another status than 0, and the line that says so.

ghost use Rattle.std.specs.Prelude.{◌≡◌, ◌↔◌, ◌<◌, ◌≤◌, ◌^◌, ◌++◌, ℕ, None, Some, IfOk, IfSome, IsTrue, EachIndex, slice_index, codes, decimal, option_map, string_bytes};
ghost use Rattle.std.specs.Char.{is_ascii_alphanumeric};
ghost use Rattle.pg_types.specs.Getters.{cause_in, sql_state_in};
ghost use Rattle.pg_diagnostics.specs.Messages as spec;
ghost use Rattle.pg_diagnostics.specs.Words.{error_words};
ghost use Rattle.pg_diagnostics.specs.declared.reason.Reason.TheVariants as reason;

use crate::cause::{cause_words, error_words};
use pg_types::{Error, OutOfMemory};
use std::alloc::Global;

/// The version of the programs.
pub const VERSION: &str = "0.1.0";

/// Why a program ends with another status than 0.
#[derive(Clone, Copy, Drop)]
pub enum Reason<'a> {
    /// The session answered this error.
    Session(&'a Error),
    /// This line of the text is refused, counted from 1.
    Line(u64),
    /// The text has more than 67,108,864 bytes.
    TooLong,
    /// The text can't be read.
    Unread,
    /// What is due can't be written.
    Unwritten,
    OutOfMemory,
}

/// Why a run of a text ended with this status. Where a session answered an error it is handed in. A refused text is told by the
/// first bytes that were written.
pub fn reason_of<'a>(status: u8, error: Option<&'a Error>, head: &[u8]) -> Option<Reason<'a>>
    ensures ok { status ≡ 0 → result ≡ None }
    ensures session { status ≡ 1 → result ≡ option_map reason.Session error.entry }
    ensures line { (n : ℕ) → status ≡ 2 → n < 2 ^ 64 → head.now ≡ spec.refusal n → result ≡ Some (reason.Line n) }
    ensures unread { status ≡ 3 → result ≡ Some reason.Unread }
    ensures unwritten { status ≡ 4 → result ≡ Some reason.Unwritten }
    ensures memory { 5 ≤ status → result ≡ Some reason.OutOfMemory }
{
    match status {
        0 => None,
        1 => error.map(Reason::Session),
        2 => Some(refusal(head)),
        3 => Some(Reason::Unread),
        4 => Some(Reason::Unwritten),
        _ => Some(Reason::OutOfMemory),
    }
}

/// Why a text is refused, by what was written then.
fn refusal<'a>(head: &[u8]) -> Reason<'a>
    ensures { (n : ℕ) → n < 2 ^ 64 → head.now ≡ spec.refusal n → result ≡ reason.Line n }
{
    match refused_line(head) {
        Some(number) => Reason::Line(number),
        None => Reason::TooLong,
    }
}

/// The number of the line that is refused, where these bytes are written then.
fn refused_line(head: &[u8]) -> Option<u64>
    ensures { (n : ℕ) → n < 2 ^ 64 → head.now ≡ spec.refusal n → result ≡ Some n }
{
    let rest = head.strip_prefix(b"refused ")?;
    let digits = rest.strip_suffix(b"\n")?;
    number_of(digits)
}

/// The number that is spelled so.
fn number_of(digits: &[u8]) -> Option<u64>
    ensures { (n : ℕ) → n < 2 ^ 64 → digits.now ≡ decimal n → result ≡ Some n }
{
    let Ok(text) = str::from_utf8(digits) else {
        return None;
    };
    match text.parse::<u64>() {
        Ok(number) => Some(number),
        Err(_) => None,
    }
}

/// The line that says it: the program's name, the file's, in it the line, and what is wrong, as other programs say it. None of it
/// comes from the file but the number.
pub fn message(
    alloc: Global,
    program: &str,
    file: &str,
    reason: Reason<'_>,
) -> Result<String, OutOfMemory>
    ensures { IfOk result (λ text. string_bytes text ≡ spec.message program.now file.now reason.entry) }
{
    match reason {
        Reason::Session(error) => session_message(alloc, program, file, error),
        Reason::Line(number) => line_message(alloc, program, file, number),
        Reason::TooLong => plain(
            alloc,
            program,
            file,
            "the text is longer than 67108864 bytes",
        ),
        Reason::Unread => plain(alloc, program, file, "can't be read"),
        Reason::Unwritten => plain(alloc, program, file, "can't be written"),
        Reason::OutOfMemory => no_memory(alloc, program),
    }
}

/// What is wrong with a file.
fn plain(alloc: Global, program: &str, file: &str, words: &str) -> Result<String, OutOfMemory>
    ensures { IfOk result (λ text. string_bytes text ≡ spec.says program.now file.now words.now) }
{
    Ok(format!(in alloc; "{program}: {file}: {words}")?)
}

/// Memory lacked, whatever the file.
fn no_memory(alloc: Global, program: &str) -> Result<String, OutOfMemory>
    ensures { IfOk result (λ text. string_bytes text ≡ program.now ++ codes ": out of memory") }
{
    Ok(format!(in alloc; "{program}: out of memory")?)
}

/// What is wrong with a line of a file.
fn line_message(
    alloc: Global,
    program: &str,
    file: &str,
    number: u64,
) -> Result<String, OutOfMemory>
    ensures { IfOk result (λ text. string_bytes text ≡ spec.message program.now file.now (reason.Line number)) }
{
    Ok(format!(in alloc; "{program}: {file}:{number}: the line is refused")?)
}

/// What a session answered.
fn session_message(
    alloc: Global,
    program: &str,
    file: &str,
    error: &Error,
) -> Result<String, OutOfMemory>
    ensures { IfOk result (λ text. string_bytes text ≡ spec.session_message program.now file.now (error_words error.now) (cause_in error.now)) }
{
    let words = error_words(error);
    match error.cause() {
        Some(cause) => caused(alloc, program, file, words, cause_words(cause)),
        None => plain(alloc, program, file, words),
    }
}

/// What is wrong with a file, and why.
fn caused(
    alloc: Global,
    program: &str,
    file: &str,
    words: &str,
    cause: &str,
) -> Result<String, OutOfMemory>
    ensures { IfOk result (λ text. string_bytes text ≡ spec.says program.now file.now (words.now ++ codes ": " ++ cause.now)) }
{
    Ok(format!(in alloc; "{program}: {file}: {words}: {cause}")?)
}

/// The SQLSTATE of an error of the server, where it is in form: five letters and digits (PostgreSQL documentation, "PostgreSQL
/// Error Codes").
pub fn code_in_form(error: &Error) -> Option<&str>
    ensures { IfSome result (λ code. (sql_state_in error.now ≡ Some code.now) × spec.IsCode code.now) }
{
    let code = error.code()?.code();
    if is_code(code.as_bytes()) {
        Some(code)
    } else {
        None
    }
}

/// Five letters and digits.
fn is_code(bytes: &[u8]) -> bool
    ensures { IsTrue result → spec.IsCode bytes.now }
{
    bytes.len() == 5 && are_alphanumeric(bytes)
}

fn are_alphanumeric(bytes: &[u8]) -> bool
    ensures { IsTrue result ↔ EachIndex bytes.now (λ k. IsTrue (is_ascii_alphanumeric (slice_index bytes.now k))) }
{
    bytes.iter().all(|byte| byte.is_ascii_alphanumeric())
}
