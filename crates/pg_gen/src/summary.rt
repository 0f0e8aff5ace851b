//! What a report comes to, in eight lines.

ghost use Rattle.std.specs.Prelude.{◌≡◌, ◌∷◌, [], length, decimal, IfOk};
ghost use Rattle.pg_spec.specs.ReportText.{line};
ghost use Rattle.pg_text.specs.Written.{Adds};
ghost use Rattle.pg_gen.specs.Counting.{count_lines, link_lines};
ghost use Rattle.pg_gen.specs.Summaries as spec;

use crate::counts::Counts;
use pg_text::Report;
use pg_types::{Blob, OutOfMemory};
use std::alloc::Global;

/// The lines `commands`, `failed`, `messages`, `rows`, `complete`, `async`, `requests` and `sent`, each
/// with one number: the answers; those that failed; the messages in answers; the rows among them; the sum
/// of the affected rows, which stays at 18,446,744,073,709,551,615 where it would pass it; the
/// asynchronous messages; the requests; the bytes that were sent.
pub fn summary_text(alloc: Global, report: &Report) -> Result<Blob, OutOfMemory>
    ensures { IfOk result (λ b. b ≡ spec.summary_text report.now) }
{
    let counts = Counts::of(report.answers.as_slice())?;
    let mut out = String::new(alloc);
    put_counts(alloc, &mut out, counts)?;
    put_link(alloc, &mut out, report)?;
    Ok(Blob::new(out.into_bytes()))
}

/// The lines on the answers.
fn put_counts(alloc: Global, out: &mut String, counts: Counts) -> Result<(), OutOfMemory>
    ensures { Adds (count_lines counts) out.old out.new result }
{
    put_number(alloc, out, "commands", counts.commands)?;
    put_number(alloc, out, "failed", counts.failed)?;
    put_number(alloc, out, "messages", counts.messages)?;
    put_number(alloc, out, "rows", counts.rows)?;
    put_number(alloc, out, "complete", counts.complete)
}

/// The lines on what crossed the link.
fn put_link(alloc: Global, out: &mut String, report: &Report) -> Result<(), OutOfMemory>
    ensures { Adds (link_lines (length report.now.asynchronous) (length report.now.book) (length report.now.sent)) out.old out.new result }
{
    put_number(
        alloc,
        out,
        "async",
        report.asynchronous.as_slice().len() as u64,
    )?;
    put_number(alloc, out, "requests", report.book.as_slice().len() as u64)?;
    put_number(alloc, out, "sent", report.sent.as_slice().len() as u64)
}

/// A line of a name and a number.
fn put_number(alloc: Global, out: &mut String, name: &str, number: u64) -> Result<(), OutOfMemory>
    ensures { Adds (line (name.now ∷ decimal number ∷ [])) out.old out.new result }
{
    let text = format!(in alloc; "{name} {number}\n")?;
    Ok(out.push_str(text.as_str())?)
}
