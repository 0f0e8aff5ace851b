//! A session text over a link that is handed in.

ghost use Rattle.std.specs.Prelude.{◌≡◌, IfOk, map, string_bytes};
ghost use Rattle.pg_served.specs.Rehearsals.{PlaysOver, pipe_words};

use pg_tool::{Outcome, run};
use pg_types::OutOfMemory;
use pg_wire::{Link, Sink, Source};
use std::alloc::Global;

/// The words by which a session text is played over the link handed in.
fn pipe_words(alloc: Global) -> Result<Vec<String>, OutOfMemory>
    ensures { IfOk result (λ words. map string_bytes words.items ≡ pipe_words) }
{
    let mut words = Vec::new(alloc);
    words.push(String::from_str(alloc, "pipe")?)?;
    words.push(String::from_str(alloc, "-")?)?;
    words.push(String::from_str(alloc, "-")?)?;
    Ok(words)
}

/// An end for want of memory, before anything was read or written.
pub(crate) fn out_of_memory() -> Outcome
    ensures { result ≡ record { status = 5; result = None } }
{
    Outcome {
        status: 5,
        result: None,
    }
}

/// Plays the session text of a source over this link, and writes the report to a sink.
pub(crate) fn rehearse<S: Source, K: Sink, L: Link>(
    alloc: Global,
    source: &mut S,
    sink: &mut K,
    link: &mut L,
) -> Outcome
    ensures { PlaysOver (L.view link.old) (L.view link.new) (record {
      source_before = S.state source.old;
      source_after = S.state source.new;
      sink_before = K.state sink.old;
      sink_after = K.state sink.new;
      status = result.status;
      result = result.result;
    }) }
{
    match pipe_words(alloc) {
        Ok(words) => run(alloc, words.as_slice(), source, sink, link),
        Err(_) => out_of_memory(),
    }
}
