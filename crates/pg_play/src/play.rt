//! A session behind its startup: handles and the connection take turns on one hub.
//! A turn whose number no handle has is the connection's, so no list of given turns has to be refused.

ghost use Rattle.std.specs.Prelude.{◌≡◌, ◌^◌, ◌<◌, ◌≤◌, ◌++◌, ◌∷◌, [], length, slice_get, Some, Ok, false, IfOk, IfErr, OnOk};
ghost use Rattle.std.specs.List.{All};
ghost use Rattle.pg_connect.specs.Calm.{StaysCalm};
ghost use Rattle.pg_session.specs.Failures.{HasFailed, TurnFails};
ghost use Rattle.pg_session.specs.Speeches.{BookWhole};
ghost use Rattle.pg_session.specs.Sessions.{IsNewSession, Plays};
ghost use Rattle.pg_session.specs.States.{commands_in};
ghost use Rattle.pg_session.specs.Turns.{Closes, ClosesBehind, Turns, left_behind, moved_by};
ghost use Rattle.pg_text.specs.Scripts.{AreScripts};
ghost use Rattle.pg_wire.specs.LinkCalls.{Continues};
ghost use Rattle.pg_session.specs.Measure.{left_to_do};
ghost use Rattle.pg_play.specs.Handles.{IsIdleHandle};
ghost use Rattle.pg_play.specs.Plays.{ConnectionPolled, Crosses, HandlePolled, IsFirstHub, IsGoing, IsLater, IsLimited, IsReady, IsShort, Leaves, RoundFails, RoundMade, RoundsEnd, state_of};

use crate::handle::{Handle, new_handles, turn_at};
use crate::opening::pause;
use futures::task::Poll;
use pg_connect::Streams;
use pg_errors::{AsyncMessage, Error};
use pg_hub::{Engine, Hub};
use pg_session::{Polling, Spoken};
use pg_spec::TurnMark;
use pg_types::{List, OutOfMemory};
use pg_wire::Link;
use std::alloc::Global;

/// The session's state between two turns.
#[derive(Drop)]
pub struct Play<S, A, E> {
    pub(crate) hub: Hub,
    pub(crate) streams: Streams,
    pub(crate) handles: Vec<Handle<S, A, E>>,
    /// How many commands of all handles aren't answered.
    pub(crate) unanswered: usize,
    pub(crate) trace: Vec<TurnMark>,
    pub(crate) asynchronous: Vec<AsyncMessage>,
}

/// What a session has before its first turn, but for its connection.
#[derive(Drop)]
struct FirstParts<S, A, E> {
    hub: Hub,
    handles: Vec<Handle<S, A, E>>,
    unanswered: usize,
}

impl<'a, S: Spoken<'a>> Play<S, S::Answer, S::Slots> {
    /// A session before its first turn. Requests are closed at once where there is no command.
    pub fn new(
        alloc: Global,
        streams: Streams,
        scripts: &[List<S::Command>],
    ) -> Result<Play<S, S::Answer, S::Slots>, Error>
        requires scripts { AreScripts scripts.now }
        requires limit { streams.max_bytes < 2 ^ 63 }
        requires within { streams.given ≤ streams.max_bytes }
        ensures ready { IfOk result (λ p. IsReady S.is_live scripts.now p) }
        ensures fresh { IfOk result (λ p. IsNewSession S.speech scripts.now (state_of S.place p)) }
        ensures streams { IfOk result (λ p. p.streams ≡ streams) }
        ensures going { IfOk result (λ p. IsGoing S.place scripts.now p) }
        ensures error { IfErr result (λ e. e ≡ Error.OutOfMemory) }
    {
        match Self::first_parts(alloc, scripts) {
            Ok(parts) => {
                let FirstParts {
                    hub,
                    handles,
                    unanswered,
                } = parts;
                Ok(Play {
                    hub,
                    streams,
                    handles,
                    unanswered,
                    trace: Vec::new(alloc),
                    asynchronous: Vec::new(alloc),
                })
            }
            Err(_) => {
                drop(streams);
                Err(Error::OutOfMemory)
            }
        }
    }

    /// What stands before the first turn, but for the connection.
    fn first_parts(
        alloc: Global,
        scripts: &[List<S::Command>],
    ) -> Result<FirstParts<S, S::Answer, S::Slots>, OutOfMemory>
        requires { AreScripts scripts.now }
        ensures hub { IfOk result (λ parts. IsFirstHub (commands_in scripts.now) parts.hub) }
        ensures handles { IfOk result (λ parts. (length parts.handles.items ≡ length scripts.now) × All (IsIdleHandle S.speech.begins) parts.handles.items) }
        ensures unanswered { IfOk result (λ parts. parts.unanswered ≡ commands_in scripts.now) }
    {
        let unanswered = count_commands(scripts);
        let hub = first_hub(alloc, unanswered)?;
        match new_handles(alloc, scripts.len()) {
            Ok(handles) => Ok(FirstParts {
                hub,
                handles,
                unanswered,
            }),
            Err(_) => {
                drop(hub);
                Err(OutOfMemory)
            }
        }
    }

    /// Makes the turns that were given, then whole rounds, until the connection is shut down.
    #[tactic(auto, using(crate::proofs::Calming::calm_none))]
    pub fn run<L: Link>(
        &mut self,
        alloc: Global,
        link: &mut L,
        scripts: &'a [List<S::Command>],
        turns: &[u32],
    ) -> Result<(), Error>
        requires whole { BookWhole S.speech }
        requires ready { IsReady S.is_live scripts.now self.old }
        requires going { IsGoing S.place scripts.now self.old }
        ensures fails { IfErr result (HasFailed S.speech scripts.now (state_of S.place self.old) (L.view link.old) (L.view link.new)) }
        ensures limited { OnOk result (IsLimited self.old self.new) }
        ensures plays { OnOk result (Plays S.speech scripts.now turns.now (state_of S.place self.old) (L.view link.old) (state_of S.place self.new) (L.view link.new)) }
        ensures crosses { Crosses (L.view link.old) (L.view link.new) result }
    {
        'turns: for turn in turns {
            match self.turn(alloc, link, scripts, *turn) {
                Ok(Some(_)) => {}
                Ok(None) => return Ok(()),
                Err(error) => return Err(error),
            }
        }
        self.rounds(alloc, link, scripts)
    }

    /// Makes whole rounds. Where one moved nothing the link is waited for, and where the next one moves
    /// nothing either, the session is stalled. Each other round leaves less to do.
    #[tactic(auto, using(crate::proofs::Calming::calm_none))]
    fn rounds<L: Link>(
        &mut self,
        alloc: Global,
        link: &mut L,
        scripts: &'a [List<S::Command>],
    ) -> Result<(), Error>
        requires whole { BookWhole S.speech }
        requires ready { IsReady S.is_live scripts.now self.old }
        requires going { IsGoing S.place scripts.now self.old }
        ensures fails { IfErr result (HasFailed S.speech scripts.now (state_of S.place self.old) (L.view link.old) (L.view link.new)) }
        ensures limited { OnOk result (IsLimited self.old self.new) }
        ensures ends { OnOk result (RoundsEnd S.speech scripts.now (state_of S.place self.old) (L.view link.old) (state_of S.place self.new) (L.view link.new)) }
        ensures crosses { Crosses (L.view link.old) (L.view link.new) result }
    {
        let mut waited = false;
        'rounds: loop {
            let before = link.quiet();
            let moved = match self.round(alloc, link, scripts) {
                Ok(None) => return Ok(()),
                Ok(Some(moved)) => moved,
                Err(error) => return Err(error),
            };
            self.left_is_counted(scripts);
            let after = link.quiet();
            waited = pause(link, moved, waited, before, after)?;
        }
    }

    /// Of what is left to do, what commands still do and what is still to be sent is counted.
    fn left_is_counted(&self, scripts: &[List<S::Command>])
        requires { AreScripts scripts.now }
        ensures { IsShort (left_to_do scripts.now (state_of S.place self.now)) }
    {
        let _parts = self.hub.unsent();
        let _bytes = self.streams.unsent.len();
    }

    /// Each handle once, in order, and then the connection. `None`: the connection is shut down; else
    /// whether anything moved.
    fn round<L: Link>(
        &mut self,
        alloc: Global,
        link: &mut L,
        scripts: &'a [List<S::Command>],
    ) -> Result<Option<bool>, Error>
        requires whole { BookWhole S.speech }
        requires ready { IsReady S.is_live scripts.now self.old }
        requires going { IsGoing S.place scripts.now self.old }
        ensures ready { IsReady S.is_live scripts.now self.new }
        ensures leaves { IfOk result (Leaves S.place scripts.now self.old self.new) }
        ensures fails { IfErr result (RoundFails S.speech scripts.now (state_of S.place self.old) (L.view link.old) (L.view link.new)) }
        ensures made { IfOk result (RoundMade S.speech scripts.now (state_of S.place self.old) (L.view link.old) (state_of S.place self.new) (L.view link.new)) }
        ensures crosses { Crosses (L.view link.old) (L.view link.new) result }
    {
        let mut moved = false;
        let connection = scripts.len() as u32;
        'turns: for turn in 0..connection + 1 {
            match self.turn(alloc, link, scripts, turn) {
                Ok(Some(more)) => moved |= more,
                Ok(None) => return Ok(None),
                Err(error) => return Err(error),
            }
        }
        Ok(Some(moved))
    }

    /// One turn: a handle's where the number is below that of the handles, else the connection's.
    /// `None`: the connection is shut down; else whether anything moved.
    fn turn<L: Link>(
        &mut self,
        alloc: Global,
        link: &mut L,
        scripts: &'a [List<S::Command>],
        turn: u32,
    ) -> Result<Option<bool>, Error>
        requires whole { BookWhole S.speech }
        requires ready { IsReady S.is_live scripts.now self.old }
        requires going { IsGoing S.place scripts.now self.old }
        ensures ready { IsReady S.is_live scripts.now self.new }
        ensures leaves { IfOk result (Leaves S.place scripts.now self.old self.new) }
        ensures fails { IfErr result (TurnFails (state_of S.place self.old) (L.view link.old) (L.view link.new)) }
        ensures made { IfOk result (Turns S.speech scripts.now turn (state_of S.place self.old) (state_of S.place self.new) (L.view link.old) (L.view link.new)) }
        ensures crosses { Crosses (L.view link.old) (L.view link.new) result }
    {
        if (turn as usize) < scripts.len() {
            return noted(self.handle_turn(alloc, scripts, turn));
        }
        let moved = self.poll_connection(alloc, link)?;
        noted(self.mark(turn, moved))
    }

    /// Notes a turn that was made, and passes on what it moved.
    fn mark(&mut self, turn: u32, moved: Option<bool>) -> Result<Option<bool>, OutOfMemory>
        ensures trace { OnOk result (self.new.trace.items ≡ self.old.trace.items ++ record { turn = turn; delivered = self.old.streams.delivered } ∷ []) }
        ensures moved { IfOk result (λ passed. passed ≡ moved) }
        ensures same { self.new ≡ record self.old { trace = self.new.trace } }
    {
        self.trace
            .push(TurnMark::new(turn, self.streams.delivered))?;
        Ok(moved)
    }

    /// How many turns were made, so the place of the next one.
    fn turns_made(&self) -> u64
        ensures { result ≡ length self.now.trace.items }
    {
        self.trace.len() as u64
    }

    /// A handle's turn. It moves if a command begins, books, takes, hangs up or answers.
    fn handle_turn(
        &mut self,
        alloc: Global,
        scripts: &'a [List<S::Command>],
        turn: u32,
    ) -> Result<Option<bool>, OutOfMemory>
        requires ready { IsReady S.is_live scripts.now self.old }
        requires going { IsGoing S.place scripts.now self.old }
        requires place { turn < length scripts.now }
        ensures ready { IsReady S.is_live scripts.now self.new }
        ensures made { IfOk result (HandlePolled S.speech scripts.now turn (state_of S.place self.old) (state_of S.place self.new)) }
    {
        let script = script_at(scripts, turn);
        let turns = self.turns_made();
        let _ = self.hub.touched();
        let polling = turn_at(&mut self.handles, turn, alloc, &mut self.hub, script, turns)?;
        let moved = self.behind_poll(polling)?;
        self.mark(turn, Some(moved))
    }

    /// Closes requests behind the last answer, and says whether a handle's turn moved anything.
    fn behind_poll(&mut self, polling: Polling) -> Result<bool, OutOfMemory>
        ensures closes { OnOk result (ClosesBehind polling self.old.unanswered self.old.hub self.new.hub) }
        ensures moved { IfOk result (λ moved. moved ≡ moved_by polling self.old.hub) }
        ensures unanswered { OnOk result (self.new.unanswered ≡ left_behind polling self.old.unanswered) }
        ensures same { self.new ≡ record self.old { hub = self.new.hub; unanswered = self.new.unanswered } }
    {
        match polling {
            Polling::Idle => Ok(false),
            Polling::Began => Ok(true),
            Polling::Waits => Ok(self.hub.touched()),
            Polling::Answered => {
                self.unanswered = self.unanswered.saturating_sub(1);
                close_if_answered(&mut self.hub, self.unanswered)?;
                Ok(true)
            }
        }
    }

    /// Polls the connection once.
    fn poll_connection<L: Link>(
        &mut self,
        alloc: Global,
        link: &mut L,
    ) -> Result<Option<bool>, Error>
        requires limit { self.old.streams.max_bytes < 2 ^ 63 }
        requires within { self.old.streams.ended ≡ false → self.old.streams.given ≤ self.old.streams.max_bytes }
        ensures fails { IfErr result (TurnFails (state_of S.place self.old) (L.view link.old) (L.view link.new)) }
        ensures polled { IfOk result (ConnectionPolled (state_of S.place self.old) (state_of S.place self.new) (L.view link.old) (L.view link.new)) }
        ensures limit { self.new.streams.max_bytes ≡ self.old.streams.max_bytes }
        ensures within { self.new.streams.ended ≡ false → self.new.streams.given ≤ self.new.streams.max_bytes }
        ensures handles { self.new.handles ≡ self.old.handles }
        ensures link { Continues (L.view link.old) (L.view link.new) }
        ensures error { IfErr result IsLater }
        ensures calm { StaysCalm (L.view link.old) (L.view link.new) }
    {
        match self.streams.poll_message(alloc, link, &mut self.hub) {
            Poll::Pending => Ok(Some(self.streams.moved)),
            Poll::Ready(None) => Ok(None),
            Poll::Ready(Some(Err(error))) => Err(error),
            Poll::Ready(Some(Ok(message))) => {
                self.asynchronous.push(message)?;
                Ok(Some(true))
            }
        }
    }
}

/// The hub of a session in which so many commands aren't answered.
fn first_hub(alloc: Global, unanswered: usize) -> Result<Hub, OutOfMemory>
    ensures { IfOk result (IsFirstHub unanswered) }
{
    let mut hub = Hub::new(alloc, 0, 0);
    match close_if_answered(&mut hub, unanswered) {
        Ok(()) => Ok(hub),
        Err(_) => {
            drop(hub);
            Err(OutOfMemory)
        }
    }
}

/// Where every command is answered, no request will be booked any more.
fn close_if_answered(hub: &mut Hub, unanswered: usize) -> Result<(), OutOfMemory>
    ensures { OnOk result (Closes unanswered hub.old hub.new) }
{
    if unanswered > 0 {
        return Ok(());
    }
    match hub.close_requests() {
        Ok(()) => Ok(()),
        Err(_) => Err(OutOfMemory),
    }
}

/// A turn as the session tells it. What only wants memory has an error that takes no room.
fn noted(made: Result<Option<bool>, OutOfMemory>) -> Result<Option<bool>, Error>
    ensures made { IfOk result (λ moved. made ≡ Ok moved) }
    ensures error { IfErr result (λ e. e ≡ Error.OutOfMemory) }
{
    match made {
        Ok(moved) => Ok(moved),
        Err(_) => Err(Error::OutOfMemory),
    }
}

/// The script at a place.
fn script_at<C>(scripts: &[List<C>], place: u32) -> &[C]
    requires { place < length scripts.now }
    ensures { slice_get scripts.now place ≡ Some result.now }
{
    scripts[place as usize].as_slice()
}

/// How many commands the scripts have together.
fn count_commands<C>(scripts: &[List<C>]) -> usize
    requires { AreScripts scripts.now }
    ensures { result ≡ commands_in scripts.now }
{
    let mut commands = 0;
    'scripts: for script in scripts {
        commands += script.as_slice().len();
    }
    commands
}
