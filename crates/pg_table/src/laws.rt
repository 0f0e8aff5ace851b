//! What is promised over any commands, of those of the table. Each body does nothing.

ghost use Rattle.std.specs.Prelude.{◌≡◌, ◌≢◌, ℕ, List, Result, None, Some};
ghost use Rattle.pg_spec.specs.Simples.{AreSimple, Headline};
ghost use Rattle.pg_promises.specs.Calls.{Call};
ghost use Rattle.pg_promises.specs.Kept.{NoneKeptBack};
ghost use Rattle.pg_promises.specs.Sent.{SentInOrder};
ghost use Rattle.pg_promises.specs.Endings.{EndedWell, IsRun, Report, Session, course_of, replies};
ghost use Rattle.pg_promises.specs.Landed.{report_of, session_of};
ghost use Rattle.pg_promises.specs.EndedWell as simple;
ghost use Rattle.pg_promises.specs.Promises as promised;
ghost use Rattle.pg_spec.specs.Faults.{Failure};
ghost use Rattle.pg_spec.specs.Report as said;
ghost use Rattle.pg_spec.specs.Settings.{Settings};
ghost use Rattle.pg_spec.specs.Turns.{Times};
ghost use Rattle.pg_text.specs.Views.{as_scripts};
ghost use Rattle.pg_text.specs.declared.command.Answer.{Answer};
ghost use Rattle.pg_text.specs.declared.command.Command.{Command};
ghost use Rattle.pg_desk.specs.declared.statement.Described.{Described as Statement};
ghost use Rattle.pg_session.specs.Speeches.{AreCommands, BookWhole, LetGo, meaning_of};
ghost use Rattle.pg_table.specs.Headlines.{AnsweredSimply, simple_call, simple_meaning, simple_session, simple_words};
ghost use Rattle.pg_table.specs.Slots.{Slots, statement_in, with_statement, without};
ghost use Rattle.pg_table.specs.Table.{simply, table};

/// The commands of the table are commands that a session takes, they book whole requests and let each go, and its simple queries
/// mean what the headline says.
pub fn the_table_is_of_commands()
    ensures commands { AreCommands table }
    ensures whole { BookWhole table }
    ensures let_go { LetGo table }
    ensures simple { AreSimple (meaning_of table) simply }
{}

/// In a session that ended well the simple queries did what the headline says, whatever other commands ran beside them.
pub fn simple_queries_of_the_table()
    ensures headline { (s : Session Command Answer) (taken : List ℕ) (ended : EndedWell (meaning_of table) s taken) →
        Headline simply s.scripts s.report.answers (course_of s.report (replies s) ended.asked) ended.has_run.schedule }
{}

/// A session of simple queries alone that ended well by the main theorem over any commands did so by that on simple queries, and
/// what has run has run as that says without the bytes.
pub fn sessions_of_simple_queries()
    ensures ended_well { (s : Session Command Answer) (scripts : List (List said.Command)) (taken : List ℕ) → s.scripts ≡ as_scripts scripts →
        EndedWell (meaning_of table) s taken → AnsweredSimply s.report.answers (λ answers. EndedWell simple_meaning (simple_session s scripts answers) taken) }
    ensures as_before { (s : Session Command Answer) (scripts : List (List said.Command)) (taken : List ℕ) → s.scripts ≡ as_scripts scripts →
        EndedWell (meaning_of table) s taken → AnsweredSimply s.report.answers (λ answers. simple.EndedWell (session_of (simple_session s scripts answers)) taken) }
    ensures has_run { (scripts : List (List said.Command)) (turns : List ℕ) (report : Report Answer) → IsRun (meaning_of table) (as_scripts scripts) turns report →
        AnsweredSimply report.answers (λ answers. (schedule : List (List Times)) × simple.HasRun scripts turns (report_of (simple_words report answers)) schedule) }
{}

/// What a session of simple queries alone sent where it failed, in order by the definition over any commands, is so by the one on
/// simple queries; and the same of requests that are kept back.
pub fn failed_sessions_of_simple_queries()
    ensures sent { (call : Call Command) (scripts : List (List said.Command)) (s : Settings) (given taken : List ℕ) → call.scripts ≡ as_scripts scripts →
        SentInOrder (meaning_of table) call s given taken → promised.SentInOrder (simple_call call scripts) s given taken }
    ensures kept { (call : Call Command) (scripts : List (List said.Command)) (result : Result said.Report Failure) → call.scripts ≡ as_scripts scripts →
        NoneKeptBack (meaning_of table) call result → promised.NoneKeptBack (simple_call call scripts) result }
{}

/// A slot holds the statement that was put last into it, and the others hold what they held.
pub fn slots_hold_what_was_put_last()
    ensures held { (slots : Slots) (number : ℕ) (statement : Statement) → statement_in (with_statement slots number statement) number ≡ Some statement }
    ensures others { (slots : Slots) (number other : ℕ) (statement : Statement) → other ≢ number →
        statement_in (with_statement slots number statement) other ≡ statement_in slots other }
{}

/// A slot that was emptied holds nothing, and the others hold what they held.
pub fn emptied_slots_hold_nothing()
    ensures emptied { (slots : Slots) (number : ℕ) → statement_in (without slots number) number ≡ None }
    ensures others { (slots : Slots) (number other : ℕ) → other ≢ number → statement_in (without slots number) other ≡ statement_in slots other }
{}
