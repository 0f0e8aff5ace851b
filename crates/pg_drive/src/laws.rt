//! What holds of every drive, and of every run of tasks.

ghost use Rattle.std.specs.Prelude.{◌≡◌, ℕ, Ok, Err, List, Result};
ghost use Rattle.pg_spec.specs.declared.stamps.Stamp.{Stamp};
ghost use Rattle.pg_types.specs.declared.error.Error.{Error};
ghost use Rattle.pg_drive.specs.declared.line.Lull.{Lull};
ghost use Rattle.pg_drive.specs.Drives.{Asked, Drives, Gives, Stand, over};
ghost use Rattle.pg_drive.specs.Lines.{LineSteps, LineView};
ghost use Rattle.pg_drive.specs.Lives.{EndsLife};
ghost use Rattle.pg_drive.specs.Stalls.{IsStalled};
ghost use Rattle.pg_desk.specs.declared.event.Event.{Event};
ghost use Rattle.pg_drive.specs.declared.task.Running.{Running};
ghost use Rattle.pg_drive.specs.Deeds.{IsRun, WasDone};
ghost use Rattle.pg_drive.specs.Runnings.{RunningLives, RunningTurns};
ghost use Rattle.pg_drive.specs.Closings.{Closes, IsShut};
ghost use Rattle.pg_drive.specs.Tasks.{Runs, Shared, behind_turns};

use crate::task::Task;
use pg_desk::Engine;
use pg_query::Polled;

/// What a drive gives is the answer of its state behind a life of its own, among all that was done to the
/// hub: or memory lacked, or the connection or its link ended it.
pub fn life_of_a_drive<E: Engine, T>()
    ensures { (stamp : Stamp) (s : Stand E T) (r : Result T Error) → Gives E.becomes stamp s r → EndsLife E.becomes stamp s r }
{}

/// The same of a command that a line drove to its answer.
pub fn life_of_an_ask<E: Engine, T>()
    ensures { (stamp : Stamp) (s : Stand E T) (left : LineView E) (r : Result T Error) → Asked E.becomes stamp s left r → EndsLife E.becomes stamp s r }
{}

/// Why a drive that was new is stalled, behind some polls and one more of the state: neither of the last two
/// polls of the connection moved anything, and the link was waited for in vain, or wasn't ready where it was
/// promised, or a mailbox was full.
pub fn why_a_drive_stalls<E: Engine, T>()
    ensures { (stamp : Stamp) (s : Stand E T) (ss : List (Stand E T)) (t : Stand E T) (between : E) (b : LineView E) (from to : ℕ) → s.line.lull ≡ Lull.Moved → Drives E.becomes stamp s ss t →
        LineSteps E.becomes (over between t.line) b (Err (Error.Stalled from to)) →
        IsStalled E.becomes (over between t.line) b from to }
{}

/// What tasks and a line did to their hub, from before the first round to behind the last: each call of a desk was a task's and each
/// other the line's, and the calls of each task, in order, are one unbroken run of its own turns, from where it stood to where it
/// stands.
pub fn what_tasks_did<E: Engine, T: Task>()
    ensures { (s t : Shared E T) (r : Result (Unit {0}) Error) → Runs E.becomes T.done T.turns s t r → WasDone E.becomes T.turns s.line.hub s.tasks t.line.hub t.tasks }
{}

/// A run of turns of a command's state is a life of that command, under its stamp; and its answer, if it has one, is the command's own
/// where that led, or memory lacked.
pub fn life_of_a_running<S: Polled>()
    ensures { (s t : Running S S.Output) (events : List Event) → IsRun (RunningTurns S.place) s events t → RunningLives S.place s events t }
{}

/// Why rounds over a line that was new are stalled: as a drive is.
pub fn why_a_line_stalls<E: Engine, T: Task>()
    ensures { (s t : Shared E T) (from to : ℕ) → s.line.lull ≡ Lull.Moved → (runs : Runs E.becomes T.done T.turns s t (Err (Error.Stalled from to))) →
        IsStalled E.becomes (behind_turns runs.last.line runs.ends.took.hub runs.ends.took.moved) t.line from to }
{}

/// Where a line is closed without an error, all that went out was taken by its link, and that is shut down.
pub fn how_a_line_is_closed<E: Engine>()
    ensures { (a b : LineView E) → Closes E.becomes a b (Ok tt) → IsShut b }
{}
