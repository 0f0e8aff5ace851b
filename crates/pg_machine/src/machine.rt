//! A server as a finite table of replies.

ghost use Rattle.std.specs.Prelude.{◌≡◌, true, IfSome, length};
ghost use Rattle.std.specs.List.{list_all};
ghost use Rattle.std.specs.Option.{option_copied};
ghost use Rattle.pg_wire.specs.Fronts.{IsWhole};
ghost use Rattle.pg_machine.specs.Requests.{is_execute};
ghost use Rattle.pg_machine.specs.Sessions.{begun};
ghost use Rattle.pg_machine.specs.Machines.{own_answer, answer_or_refusal, asked_of, refusal_of, Says, tagged_as, row_of, is_row, FirstBad, IsMachine};
ghost use Rattle.pg_machine.specs.Steps.{serving_of, Serves};

use crate::{Mode, Turn, kind_of, may_answer, mode_behind, put, says_ready, tags_of, turn_of};
use pg_types::{Blob, List, OutOfMemory};
use std::marker::Model;
use thiserror::Error;

/// In `state` this frame is answered by `reply`, and leads to the state `next`.
#[derive(Debug, Drop)]
pub struct MachineRow {
    pub state: u32,
    /// All bytes of the frame: tag, length and body.
    pub frame: Blob,
    pub next: u32,
    /// Whole messages without ReadyForQuery.
    pub reply: Blob,
    /// The reply opens a copy.
    pub opens: bool,
}

/// Why a table is none of a server.
#[derive(Clone, Copy, Debug, PartialEq, Eq, Error, Drop)]
pub enum MachineFault {
    /// The row at this place, counted from 0, breaks the rules, and none before it does.
    #[error("row {0} breaks the rules")]
    BadRow(usize),
    /// The refusal isn't one ErrorResponse that can be read.
    #[error("the refusal is no error")]
    BadRefusal,
    #[error("out of memory")]
    OutOfMemory,
}

/// A server that answers by a table: the rows, and the refusal of a frame that has none. It begins in state 0.
#[derive(Debug, Drop)]
pub struct Machine {
    rows: List<MachineRow>,
    refusal: Blob,
}

impl Model for Machine {
    ghost use Rattle.pg_machine.specs.Machines.{Table};

    ghost Value = { Table };

    ghost use Rattle.pg_machine.specs.MachineFields.{table_of, HoldsMachine};

    ghost view = { table_of };

    ghost invariant = { HoldsMachine };
}

/// A frame is an Execute.
fn executes(frame: &[u8]) -> bool
    ensures { result ≡ is_execute (tagged_as frame.now) }
{
    match frame {
        [tag, ..] => *tag == b'E',
        [] => false,
    }
}

/// A row keeps to the rules.
fn keeps_rules(row: &MachineRow) -> bool
    ensures { result ≡ is_row row.now }
{
    let reply = row.reply.as_slice();
    let tags = tags_of(reply);
    may_answer(tags, executes(row.frame.as_slice()), row.opens)
}

/// The place of the first row that breaks the rules.
pub(crate) fn first_bad(rows: &[MachineRow]) -> Option<usize>
    ensures { FirstBad rows.now result }
{
    for (i, row) in rows.iter().enumerate() {
        if !keeps_rules(row) {
            return Some(i);
        }
    }
    None
}

/// The first row of a state and a frame.
fn find_row<'a>(rows: &'a [MachineRow], state: u32, frame: &[u8]) -> Option<&'a MachineRow>
    requires { list_all is_row rows.now ≡ true }
    ensures first { option_copied result ≡ row_of rows.now state frame.now }
    ensures sound { IfSome result (λ row. is_row row.now ≡ true) }
{
    for row in rows {
        if row.state == state && row.frame.as_slice() == frame {
            return Some(row);
        }
    }
    None
}

/// What a frame is answered, the state then, and whether that opens a copy.
#[derive(Clone, Copy, Debug, Drop)]
pub(crate) struct Said<'a> {
    pub reply: &'a [u8],
    pub state: u32,
    pub opens: bool,
}

impl Machine {
    /// A law, which does nothing when it runs: the table keeps the rules.
    pub fn rules_law(&self)
        ensures { IsMachine self.now }
    {
        let _ = &self.refusal;
    }

    /// A table that keeps to the rules.
    pub(crate) fn of(rows: List<MachineRow>, refusal: Blob) -> Machine
        requires { IsMachine (record { rows = rows; refusal = refusal }) }
        ensures { result ≡ record { rows = rows; refusal = refusal } }
    {
        Machine { rows, refusal }
    }

    /// The answer of the row of a frame.
    fn own(&self, state: u32, frame: &[u8]) -> Option<Said<'_>>
        ensures { Says (own_answer self.now state frame.now) result }
    {
        let row = find_row(self.rows.as_slice(), state, frame)?;
        Some(Said {
            reply: row.reply.as_slice(),
            state: row.next,
            opens: row.opens,
        })
    }

    /// The refusal, which leaves the state as it is.
    fn refusal(&self, state: u32) -> Said<'_>
        ensures { Says (Some (refusal_of self.now.refusal, state)) (Some result) }
    {
        Said {
            reply: self.refusal.as_slice(),
            state,
            opens: false,
        }
    }

    /// The answer of its row, or else the refusal.
    fn own_or_refusal(&self, state: u32, frame: &[u8]) -> Said<'_>
        ensures { Says (Some (answer_or_refusal self.now state frame.now)) (Some result) }
    {
        match self.own(state, frame) {
            Some(said) => said,
            None => self.refusal(state),
        }
    }

    /// What is said to a frame, where anything is.
    fn asked(&self, turn: Turn, state: u32, frame: &[u8]) -> Option<Said<'_>>
        ensures { Says (asked_of self.now turn state frame.now) result }
    {
        match turn {
            Turn::Silent | Turn::Ready => None,
            Turn::TakesData => self.own(state, frame),
            Turn::Refuses => Some(self.refusal(state)),
            Turn::AnswersReady | Turn::Answers | Turn::EndsCopy => {
                Some(self.own_or_refusal(state, frame))
            }
        }
    }
}

/// Where a machine stands between two frames.
#[derive(Clone, Copy, Debug, PartialEq, Eq, Drop)]
pub(crate) struct At {
    pub state: u32,
    pub mode: Mode,
}

impl At {
    /// It hasn't been fed.
    pub fn new() -> At
        ensures { serving_of result ≡ begun 0 }
    {
        At {
            state: 0,
            mode: Mode::Normal,
        }
    }
}

impl Machine {
    /// Answers a frame: its reply goes behind `out`. Where memory lacks nothing is added.
    pub(crate) fn serve(&self, at: At, frame: &[u8], out: &mut Vec<u8>) -> Result<At, OutOfMemory>
        requires { IsWhole frame.now (length frame.now) }
        ensures { Serves self.now at frame.now out.old.items out.new.items result }
    {
        let turn = turn_of(at.mode, kind_of(frame[0]));
        let ready = says_ready(turn);
        let Some(said) = self.asked(turn, at.state, frame) else {
            put(&[], ready, out)?;
            let mode = if ready { Mode::Normal } else { at.mode };
            return Ok(At {
                state: at.state,
                mode,
            });
        };
        let error = tags_of(said.reply).error;
        put(said.reply, ready, out)?;
        Ok(At {
            state: said.state,
            mode: mode_behind(turn, error, said.opens),
        })
    }
}
