//! Laws over the program's contract, which show what it means. Each body does nothing.

ghost use Rattle.std.specs.Prelude.{◌≡◌, ℕ, List, Result};
ghost use Rattle.pg_promises.specs.Calls.{Call};
ghost use Rattle.pg_types.specs.declared.error.Error.{Error};
ghost use Rattle.pg_promises.specs.Examples.{good_text};
ghost use Rattle.pg_spec.specs.Report as said;
ghost use Rattle.pg_spec.specs.SessionText as said_text;
ghost use Rattle.pg_table.specs.Headlines.{simple_call};
ghost use Rattle.pg_text.specs.SessionText.{IsRefusedAt, IsSessionText, SessionText};
ghost use Rattle.pg_text.specs.Sessions.{as_session};
ghost use Rattle.pg_text.specs.Views.{as_scripts};
ghost use Rattle.pg_text.specs.declared.command.Command.{Command};
ghost use Rattle.pg_text.specs.declared.report.Report.{Report};
ghost use Rattle.pg_tool.specs.RunContract.{IsSimplyMade, IsWellMade};
ghost use Rattle.pg_tool.specs.SessionContract.{SessionContract, ToldSimply};
ghost use Rattle.pg_tool.specs.TableContract.{TableContract, table_result};
ghost use Rattle.pg_tool.specs.Worked.{shared_text};

/// A text that is well made is there: one client asks `SELECT 1`, and the plan is a conforming server's.
pub fn some_text_is_well_made()
    ensures { IsWellMade (as_session good_text) }
{}

/// A text whose commands look a type up is well made too: one handle prepares two statements whose parameter is of the domain `age`, and the
/// plan is a conforming server's. It has three replies for the first, which looks `age` up, and one for the second, whose desk keeps it.
pub fn texts_that_look_types_up_are_well_made()
    ensures { IsWellMade shared_text }
{}

/// A text of simple queries alone, whose plan answers its startup and has a reply for each request that its scripts ask, is well made.
pub fn simple_texts_are_well_made()
    ensures { (text : said_text.SessionText) → IsSimplyMade text → IsWellMade (as_session text) }
{}

/// No text is neither a session text nor refused at one of its lines.
pub fn no_text_is_neither()
    ensures { (text : List ℕ) → ((s : SessionText) → IsSessionText text s → ⊥) → ((n : ℕ) → IsRefusedAt text n → ⊥) → ⊥ }
{}

/// What a session of simple queries alone promises by the words over any commands, it promises by those on simple queries.
pub fn sessions_of_simple_queries_keep_theirs()
    ensures { (call : Call Command) (scripts : List (List said.Command)) (result : Result Report Error) → call.scripts ≡ as_scripts scripts →
        TableContract call (table_result result) → ToldSimply result (SessionContract (simple_call call scripts)) }
{}
