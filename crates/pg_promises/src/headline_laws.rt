//! Laws over the definitions. Each body does nothing.

ghost use Rattle.std.specs.Prelude.{ℕ, List, Option};
ghost use Rattle.pg_spec.specs.Courses.{Asked};
ghost use Rattle.pg_spec.specs.Meanings.{Meaning};
ghost use Rattle.pg_spec.specs.Simples.{AreSimple, Headline, IsAsBefore, Simply};
ghost use Rattle.pg_promises.specs.Endings.{EndedWell, IsRun, Report, Session, course_of, replies};
ghost use Rattle.pg_promises.specs.Landed as landed;
ghost use Rattle.pg_promises.specs.Landed.{IsAsLanded, report_of, session_of, simply};
ghost use Rattle.pg_promises.specs.EndedWell as simple;
ghost use Rattle.pg_spec.specs.Report.{Answer, Command};
ghost use Rattle.pg_spec.specs.SimpleQuery.{SimpleAnswer};
ghost use Rattle.pg_spec.specs.Turns.{Times};

/// What a simple query does in any course is, in the course of a session, what the theorem on simple queries says of it.
pub fn as_landed<Q, R>()
    ensures { (s : simple.Session) (asked : List (Asked Q R)) (handle place : ℕ) (text : List ℕ) (take : Option ℕ) (times : Times) (answer : SimpleAnswer) →
        IsAsBefore (landed.course_of s asked) handle place text take times answer → IsAsLanded s handle place text take times answer }
{}

/// In a session of any commands that ended well the simple queries did what the headline says.
pub fn headline_of_session<C, A, E, Q, R>()
    ensures { (meaning : Meaning C A E Q R) (how : Simply C A) → AreSimple meaning how →
        (s : Session C A) (taken : List ℕ) (ended : EndedWell meaning s taken) →
        Headline how s.scripts s.report.answers (course_of s.report (replies s) ended.asked) ended.has_run.schedule }
{}

/// A session of simple queries alone that ended well, by the theorem over any commands, ended well by the one on simple queries.
pub fn session_of_simple_queries<E, Q, R>()
    ensures { (meaning : Meaning Command Answer E Q R) → AreSimple meaning simply →
        (s : Session Command Answer) (taken : List ℕ) → EndedWell meaning s taken → simple.EndedWell (session_of s) taken }
{}

/// And one that ended well by the theorem on simple queries ended well by the one over any commands, whatever else these are.
pub fn simple_queries_end_well<E, Q, R>()
    ensures { (meaning : Meaning Command Answer E Q R) → AreSimple meaning simply →
        (s : Session Command Answer) (taken : List ℕ) → simple.EndedWell (session_of s) taken → EndedWell meaning s taken }
{}

/// What is said of a session without its bytes holds of one that ended well.
pub fn what_ended_well_has_run<C, A, E, Q, R>()
    ensures { (meaning : Meaning C A E Q R) (s : Session C A) (taken : List ℕ) → EndedWell meaning s taken → IsRun meaning s.scripts s.turns s.report }
{}

/// Of a session of simple queries alone it says, without its bytes, what the theorem on simple queries says without them.
pub fn run_of_simple_queries<E, Q, R>()
    ensures { (meaning : Meaning Command Answer E Q R) → AreSimple meaning simply → (scripts : List (List Command)) (turns : List ℕ) (report : Report Answer) →
        IsRun meaning scripts turns report → (schedule : List (List Times)) × simple.HasRun scripts turns (report_of report) schedule }
{}
