//! Many tasks over one line: rounds in which each has a turn, and then the line makes a step.

ghost use Rattle.std.specs.Prelude.{◌≡◌, ◌<◌, length, true, false, if◌then◌else◌};
ghost use Rattle.std.specs.List.{All};
ghost use Rattle.pg_drive.specs.declared.line.Lull.TheVariants.{Moved};
ghost use Rattle.pg_drive.specs.Tasks.{AreDone, IsLeft, RoundMade, Runs, TakeTurns, TurnAt, shared};

use crate::line::{Line, Lull};
use crate::task::Task;
use futures::task::Poll;
use pg_desk::{Desk, Engine};
use pg_errors::Error;
use pg_wire::Link;
use std::alloc::Global;
use std::sync::Wait;

/// The turn of the task at this place, if it isn't done. Whether something moved.
fn turn_at<T: Task, D: Desk>(alloc: Global, desk: &mut D, tasks: &mut [T], place: usize) -> bool
    requires place { place < length tasks.old }
    requires live { All T.is_live tasks.old }
    ensures turn { TurnAt D.becomes T.done T.turns place desk.old tasks.old result desk.new tasks.new }
    ensures live { All T.is_live tasks.new }
    ensures count { length tasks.new ≡ length tasks.old }
{
    if tasks[place].is_done() {
        return false;
    }
    tasks[place].turn(alloc, desk)
}

/// One turn of each task that isn't done, in order. Whether something moved.
fn take_turns<T: Task, D: Desk>(alloc: Global, desk: &mut D, tasks: &mut [T]) -> bool
    requires { All T.is_live tasks.old }
    ensures turns { TakeTurns D.becomes T.done T.turns (length tasks.old) desk.old tasks.old result desk.new tasks.new }
    ensures live { All T.is_live tasks.new }
{
    let mut moved = false;
    'turns: for place in 0..tasks.len() {
        moved |= turn_at(alloc, desk, tasks, place);
    }
    moved
}

/// Whether each is done.
fn are_done<T: Task>(tasks: &[T]) -> bool
    ensures all { result ≡ true → AreDone T.done tasks.now }
    ensures left { result ≡ false → IsLeft T.done tasks.now }
{
    'tasks: for task in tasks {
        if !task.is_done() {
            return false;
        }
    }
    true
}

impl<L: Link, E: Engine> Line<L, E> {
    /// A round: each task that isn't done has one turn, in order; and then, where one isn't done yet, the line makes a step. Where a
    /// turn moved something, the polls in which nothing moved are counted anew. Ready(Ok): all are done, and the connection wasn't
    /// polled. Behind an error the tasks stand as their turns left them. At the connection's own the hub has failed: their turns end
    /// them, and so does hanging them up. At Stalled, and at the Io of a wait, it hasn't, and the desk isn't closed: another round is right,
    /// and so are hanging them up and `close`.
    pub fn round<T: Task>(&mut self, alloc: Global, tasks: &mut [T]) -> Poll<Result<(), Error>>
        requires { All T.is_live tasks.old }
        ensures round { RoundMade E.becomes T.done T.turns (shared L.view self.old tasks.old) (shared L.view self.new tasks.new) result }
        ensures live { All T.is_live tasks.new }
    {
        let moved = take_turns(alloc, &mut self.hub, tasks);
        if are_done(tasks) {
            return Poll::Ready(Ok(()));
        }
        self.count_anew(moved);
        match self.step(alloc) {
            Ok(()) => Poll::Pending,
            Err(error) => Poll::Ready(Err(error)),
        }
    }

    /// Where something moved, the polls in which nothing moves are counted anew.
    fn count_anew(&mut self, moved: bool)
        ensures { self.new ≡ record self.old { lull = if moved then Moved else self.old.lull } }
    {
        if moved {
            self.lull = Lull::Moved;
        }
    }

    /// Rounds until all tasks are done, or one ends in an error: what a pool, or a session of many commands, does on one thread. It
    /// goes on as long as a task or the server does: no clause says that it returns.
    pub fn run<T: Task, R: Wait>(
        &mut self,
        rt: &R,
        alloc: Global,
        tasks: &mut [T],
    ) -> Result<(), Error>
        requires { All T.is_live tasks.old }
        ensures run { Runs E.becomes T.done T.turns (shared L.view self.old tasks.old) (shared L.view self.new tasks.new) result }
        ensures live { All T.is_live tasks.new }
    {
        'rounds: for _ in rt.forever() {
            match self.round(alloc, tasks) {
                Poll::Ready(end) => return end,
                Poll::Pending => {}
            }
        }
        unreachable!()
    }
}
