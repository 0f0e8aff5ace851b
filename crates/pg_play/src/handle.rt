//! A handle, which runs the commands of its script one after another.
//! A turn polls once: a poll goes on until its mailbox is empty, so no message is kept back, and whether anything
//! moved is told by the hub.

ghost use Rattle.std.specs.Prelude.{◌≡◌, ◌≢◌, ◌<◌, ◌++◌, ◌∷◌, IfOk, IfSome, OnOk, Err, length, map, true, None, is_some, option_map, slice_get, []};
ghost use Rattle.std.specs.List.{All};
ghost use Rattle.pg_session.specs.Turns.{HandleTurns};
ghost use Rattle.pg_play.specs.Handles.{IsIdleHandle, IsLiveHandle, IsOnScript, OneTurned, PollsRunning, view_of};

use futures::task::Poll;
use pg_desk::{Desk, Stamp};
use pg_errors::Error;
use pg_query::Polled;
use pg_session::{Polling, Spoken};
use pg_types::{List, OutOfMemory};
use std::alloc::Global;

/// A handle: the command that runs, the answers so far, and what its script keeps between its commands. The
/// next command, or the one that runs, is that at the place of the number of answers. A running command stands
/// on the heap, so that a handle is small.
#[derive(Drop)]
pub struct Handle<S, A, E> {
    running: Option<S>,
    answers: Vec<A>,
    slots: E,
}

impl<'a, S: Spoken<'a>> Handle<S, S::Answer, S::Slots> {
    pub(crate) fn new(alloc: Global) -> Handle<S, S::Answer, S::Slots>
        ensures running { result.running ≡ None }
        ensures answers { result.answers.items ≡ [] }
        ensures slots { result.slots ≡ S.speech.begins }
    {
        Handle {
            running: None,
            answers: Vec::new(alloc),
            slots: S::first_slots(alloc),
        }
    }

    /// How many commands were answered, so the place of the next one or of the one that runs. OutOfMemory
    /// comes above 4,294,967,295, which no script has.
    pub(crate) fn answered(&self) -> Result<u32, OutOfMemory>
        ensures { IfOk result (λ n. n ≡ length self.now.answers.items) }
    {
        let Ok(answered) = u32::try_from(self.answers.len()) else {
            return Err(OutOfMemory);
        };
        Ok(answered)
    }

    /// A turn: the next command of the script begins where none runs, and the one that runs is polled
    /// once. `owner` is the handle's number, and `turn` that of the turns made before.
    pub(crate) fn turn<D: Desk>(
        &mut self,
        alloc: Global,
        desk: &mut D,
        script: &'a [S::Command],
        owner: u32,
        turn: u64,
    ) -> Result<Polling, OutOfMemory>
        requires live { IsLiveHandle S.is_live self.old }
        requires on_script { IsOnScript script.now (view_of S.place self.old) }
        ensures live { IsLiveHandle S.is_live self.new }
        ensures turns { IfOk result (HandleTurns D.becomes S.speech script.now (record { owner = owner; command = length self.old.answers.items; turn = turn })
            desk.old (view_of S.place self.old) desk.new (view_of S.place self.new)) }
    {
        let stamp = Stamp::new(owner, self.answered()?, turn);
        let Some(command) = command_at(script, self.answers.len()) else {
            return Ok(Polling::Idle);
        };
        if self.running.is_some() {
            return self.poll(alloc, desk, stamp, command, Polling::Waits);
        }
        let Ok(state) = S::begin(alloc, command, &self.slots) else {
            return Err(OutOfMemory);
        };
        self.running = Some(state);
        self.poll(alloc, desk, stamp, command, Polling::Began)
    }

    /// Polls the command that runs once, where it stands. Where it waits, `waiting` is what the turn did.
    fn poll<D: Desk>(
        &mut self,
        alloc: Global,
        desk: &mut D,
        stamp: Stamp,
        command: &S::Command,
        waiting: Polling,
    ) -> Result<Polling, OutOfMemory>
        requires live { IsLiveHandle S.is_live self.old }
        requires runs { is_some self.old.running ≡ true }
        ensures live { IsLiveHandle S.is_live self.new }
        ensures ends { IfOk result (PollsRunning D.becomes S.speech stamp command.now desk.old (view_of S.place self.old) desk.new (view_of S.place self.new) waiting) }
    {
        let Some(state) = &mut self.running else {
            unreachable!()
        };
        match state.poll(alloc, desk, stamp) {
            Poll::Pending => Ok(waiting),
            Poll::Ready(answer) => {
                self.running = None;
                self.answer(command, answer)?;
                Ok(Polling::Answered)
            }
        }
    }

    /// Keeps the answer of the command that ran, and what its script keeps of it. Want of memory ends the session.
    fn answer(
        &mut self,
        command: &S::Command,
        answer: Result<S::Output, Error>,
    ) -> Result<(), OutOfMemory>
        ensures running { self.new.running ≡ self.old.running }
        ensures kept { OnOk result (self.new.answers.items ≡ self.old.answers.items ++ (S.speech.ends self.old.slots command.now answer).answer ∷ []) }
        ensures slots { OnOk result (self.new.slots ≡ (S.speech.ends self.old.slots command.now answer).own) }
        ensures memory { OnOk result (answer ≢ Err Error.OutOfMemory) }
    {
        match S::keep(&mut self.slots, command, answer) {
            Ok(told) => pushed(&mut self.answers, told),
            Err(_) => Err(OutOfMemory),
        }
    }

    pub(crate) fn into_answers(self) -> List<S::Answer>
        ensures { result ≡ self.answers.items }
    {
        let Handle {
            running: _running,
            answers,
            slots: _slots,
        } = self;
        List::new(answers)
    }
}

/// Adds a value at the end.
fn pushed<T: Drop>(values: &mut Vec<T>, value: T) -> Result<(), OutOfMemory>
    ensures { OnOk result (values.new.items ≡ values.old.items ++ value ∷ []) }
{
    values.push(value)?;
    Ok(())
}

/// The command at a place of a script.
fn command_at<C>(script: &[C], place: usize) -> Option<&C>
    ensures { slice_get script.now place ≡ option_map (λ command. command.now) result }
{
    script.get(place)
}

/// So many handles, none of which has begun a command.
pub(crate) fn new_handles<'a, S: Spoken<'a>>(
    alloc: Global,
    count: usize,
) -> Result<Vec<Handle<S, S::Answer, S::Slots>>, OutOfMemory>
    ensures { IfOk result (λ handles. (length handles.items ≡ count) × All (IsIdleHandle S.speech.begins) handles.items) }
{
    let mut handles = Vec::new(alloc);
    'handles: while handles.len() < count {
        handles.push(Handle::new(alloc))?;
    }
    Ok(handles)
}

/// The turn of the handle at a place, behind so many turns.
pub(crate) fn turn_at<'a, S: Spoken<'a>, D: Desk>(
    handles: &mut [Handle<S, S::Answer, S::Slots>],
    place: u32,
    alloc: Global,
    desk: &mut D,
    script: &'a [S::Command],
    turn: u64,
) -> Result<Polling, OutOfMemory>
    requires place { place < length handles.old }
    requires live { All (IsLiveHandle S.is_live) handles.old }
    requires on_script { IfSome (slice_get handles.old place) (λ handle. IsOnScript script.now (view_of S.place handle)) }
    ensures live { All (IsLiveHandle S.is_live) handles.new }
    ensures count { length handles.new ≡ length handles.old }
    ensures turns { IfOk result (OneTurned D.becomes S.speech script.now (λ old. record { owner = place; command = length old.answers; turn = turn })
        place desk.old (map (view_of S.place) handles.old) desk.new (map (view_of S.place) handles.new)) }
{
    handles[place as usize].turn(alloc, desk, script, place, turn)
}
