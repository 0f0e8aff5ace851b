//! The text of a session, line by line.
//! `end` may stand twice: a second one can't say anything else than the first, while a second nonce, limit or cut
//! could.

ghost use Rattle.std.specs.Prelude.{◌≡◌, ◌<◌, ◌+◌, ◌-◌, ◌^◌, ◌∷◌, ◌++◌, [], ℕ, length, EachIndex, IfOk, IfSome, MatchOption, OnOk, ◌↔◌, ◌≢◌, slice_index, unwrap_or, true, false};
ghost use Rattle.pg_text.specs.SessionText as said;
ghost use Rattle.pg_spec.specs.SessionText.{default_nonce};
ghost use Rattle.pg_wire.specs.Giving.{lists};
ghost use Rattle.pg_text.specs.Drafts.{AddsLast, HasCut, IsEmpty, IsWithin, ReadsOn, Steps, so_far, with_entry, with_line, with_read};
ghost use Rattle.pg_text.specs.Scripts.{are_typed};
ghost use Rattle.pg_text.specs.Sessions.{Finishes, ReadsText};
ghost use Rattle.pg_text.specs.Texts.{lines_of};

use crate::command::Command;
use crate::line::{Line, read_line};
use crate::scripts::Scripts;
use crate::session::{Session, TextFault};
use memchr::memchr;
use pg_types::{Blob, List, OutOfMemory, Text};
use pg_wire::MemoryLink;
use std::alloc::Global;

/// The longest text, in bytes: 64 MiB.
const LONGEST: usize = 67_108_864;

/// The limit where the text names none, in bytes.
const DEFAULT_LIMIT: u64 = 16_777_216;

/// How many bytes the link gives or takes at a time where the text doesn't say.
const DEFAULT_PIECE: usize = 8192;

/// The nonce of a text that gives none.
const DEFAULT_NONCE: &[u8] = b"abcdefghijklmnopqrstuvwx";

/// What the lines so far say.
#[derive(Drop)]
struct Draft {
    config: Option<Text>,
    nonce: Option<Blob>,
    limit: Option<u64>,
    cut: Option<u64>,
    ends: bool,
    turns: Vec<u32>,
    plan: Vec<Vec<u8>>,
    scripts: Vec<List<Command>>,
}

/// Reads a session text. TooLong comes exactly above 67,108,864 bytes; Line names the first line, from 1,
/// that breaks the rules, and the one after the last where `config` lacks or there are too many scripts.
pub fn session_text(alloc: Global, text: &[u8]) -> Result<Session, TextFault>
    ensures text { ReadsText text.now result }
    ensures too_long { (result ≡ Err TextFault.TooLong) ↔ (67108864 < length text.now) }
{
    if text.len() > LONGEST {
        return Err(TextFault::TooLong);
    }
    let mut draft = Draft::new(alloc);
    let mut rest = text;
    let mut number = 1;
    while !rest.is_empty() {
        let (line, behind) = cut_line(rest);
        match draft.read(alloc, line) {
            Ok(true) => {}
            Ok(false) => return Err(TextFault::Line(number)),
            Err(OutOfMemory) => return Err(TextFault::OutOfMemory),
        }
        rest = behind;
        number += 1;
    }
    draft.finish(alloc, number)
}

/// The bytes up to the first line feed, and what stands behind it.
fn cut_line(text: &[u8]) -> (&[u8], &[u8])
    requires { 0 < length text.now }
    ensures shorter { length result.1.now < length text.now }
    ensures lines { lines_of text.now ≡ result.0.now ∷ lines_of result.1.now }
{
    match feed_in(text) {
        Some(at) => (&text[..at], &text[at + 1..]),
        None => (text, &[]),
    }
}

/// Where the first line feed is.
fn feed_in(bytes: &[u8]) -> Option<usize>
    ensures { MatchOption result
        (EachIndex bytes.now (λ k. slice_index bytes.now k ≢ 10))
        (λ at. (at < length bytes.now) × (slice_index bytes.now at ≡ 10) × ((k : ℕ) → k < at → slice_index bytes.now k ≢ 10)) }
{
    memchr(b'\n', bytes)
}

impl Draft {
    fn new(alloc: Global) -> Draft
        ensures within { IsWithin 0 result }
        ensures nothing { IsEmpty (so_far result) }
    {
        Draft {
            config: None,
            nonce: None,
            limit: None,
            cut: None,
            ends: false,
            turns: Vec::new(alloc),
            plan: Vec::new(alloc),
            scripts: Vec::new(alloc),
        }
    }

    /// Reads one more line. `false`: it breaks the rules.
    fn read(&mut self, alloc: Global, line: &[u8]) -> Result<bool, OutOfMemory>
        ensures line { IfOk result (λ stands. ReadsOn (so_far self.old) line.now stands (so_far self.new)) }
        ensures within { (n : ℕ) → IsWithin n self.old → OnOk result (IsWithin (n + 1) self.new) }
    {
        match read_line(alloc, line)? {
            Some(line) => {
                let stands = self.add(alloc, line)?;
                Ok(stands)
            }
            None => Ok(false),
        }
    }

    /// Adds a line. `false`: it may not stand there.
    fn add(&mut self, alloc: Global, line: Line) -> Result<bool, OutOfMemory>
        requires { HasCut line }
        ensures steps { IfOk result (λ stands. Steps (with_read line (so_far self.old)) stands (so_far self.new)) }
        ensures within { (n : ℕ) → IsWithin n self.old → OnOk result (IsWithin (n + 1) self.new) }
    {
        match line {
            Line::Nothing => Ok(true),
            Line::Config(text) => Ok(self.set_config(text)),
            Line::Nonce(nonce) => Ok(self.set_nonce(nonce)),
            Line::Limit(limit) => Ok(self.set_limit(limit)),
            Line::Cut(cut) => Ok(self.set_cut(cut)),
            Line::End => Ok(self.set_end()),
            Line::Turns(turns) => self.add_turns(turns),
            Line::Step(entry) => self.add_entry(entry),
            Line::Handle => self.add_script(alloc),
            Line::Command(command) => self.add_command(command),
        }
    }

    fn set_config(&mut self, text: Text) -> bool
        ensures steps { Steps (with_line (said.ConfigLine text) (so_far self.old)) result (so_far self.new) }
        ensures within { (n : ℕ) → IsWithin n self.old → IsWithin (n + 1) self.new }
    {
        match &self.config {
            Some(_) => false,
            None => {
                self.config = Some(text);
                true
            }
        }
    }

    fn set_nonce(&mut self, nonce: Blob) -> bool
        ensures steps { Steps (with_line (said.NonceLine nonce) (so_far self.old)) result (so_far self.new) }
        ensures within { (n : ℕ) → IsWithin n self.old → IsWithin (n + 1) self.new }
    {
        match (&self.config, &self.nonce) {
            (Some(_), None) => {
                self.nonce = Some(nonce);
                true
            }
            _ => false,
        }
    }

    fn set_limit(&mut self, limit: u64) -> bool
        ensures steps { Steps (with_line (said.LimitLine limit) (so_far self.old)) result (so_far self.new) }
        ensures within { (n : ℕ) → IsWithin n self.old → IsWithin (n + 1) self.new }
    {
        match (&self.config, self.limit) {
            (Some(_), None) => {
                self.limit = Some(limit);
                true
            }
            _ => false,
        }
    }

    fn set_cut(&mut self, cut: u64) -> bool
        requires { 0 < cut }
        ensures steps { Steps (with_line (said.CutLine cut) (so_far self.old)) result (so_far self.new) }
        ensures within { (n : ℕ) → IsWithin n self.old → IsWithin (n + 1) self.new }
    {
        match (&self.config, self.cut) {
            (Some(_), None) => {
                self.cut = Some(cut);
                true
            }
            _ => false,
        }
    }

    /// The link ends behind its plan.
    fn set_end(&mut self) -> bool
        ensures steps { Steps (with_line said.EndLine (so_far self.old)) result (so_far self.new) }
        ensures within { (n : ℕ) → IsWithin n self.old → IsWithin (n + 1) self.new }
    {
        match &self.config {
            Some(_) => {
                self.ends = true;
                true
            }
            None => false,
        }
    }

    fn add_turns(&mut self, turns: Vec<u32>) -> Result<bool, OutOfMemory>
        ensures steps { IfOk result (λ stands. Steps (with_line (said.TurnsLine turns.items) (so_far self.old)) stands (so_far self.new)) }
        ensures within { (n : ℕ) → IsWithin n self.old → OnOk result (IsWithin (n + 1) self.new) }
    {
        match &self.config {
            Some(_) => {
                self.turns.extend_from_slice(turns.as_slice())?;
                Ok(true)
            }
            None => Ok(false),
        }
    }

    /// Adds an entry of the plan.
    fn add_entry(&mut self, entry: Vec<u8>) -> Result<bool, OutOfMemory>
        ensures steps { IfOk result (λ stands. Steps (with_entry entry.items (so_far self.old)) stands (so_far self.new)) }
        ensures within { (n : ℕ) → IsWithin n self.old → OnOk result (IsWithin (n + 1) self.new) }
    {
        match &self.config {
            Some(_) => {
                self.plan.push(entry)?;
                Ok(true)
            }
            None => Ok(false),
        }
    }

    /// Begins a script.
    fn add_script(&mut self, alloc: Global) -> Result<bool, OutOfMemory>
        ensures steps { IfOk result (λ stands. Steps (with_line said.HandleLine (so_far self.old)) stands (so_far self.new)) }
        ensures within { (n : ℕ) → IsWithin n self.old → OnOk result (IsWithin (n + 1) self.new) }
    {
        match &self.config {
            Some(_) => {
                self.scripts.push(List::empty(alloc))?;
                Ok(true)
            }
            None => Ok(false),
        }
    }

    /// Adds a command to the last script.
    fn add_command(&mut self, command: Command) -> Result<bool, OutOfMemory>
        ensures steps { IfOk result (λ stands. Steps (with_line (said.CommandLine command) (so_far self.old)) stands (so_far self.new)) }
        ensures within { (n : ℕ) → IsWithin n self.old → OnOk result (IsWithin (n + 1) self.new) }
    {
        match &self.config {
            Some(_) => {
                let stands = push_last(&mut self.scripts, command)?;
                Ok(stands)
            }
            None => Ok(false),
        }
    }

    /// The session, where `number` is that of the line after the last.
    fn finish(self, alloc: Global, number: u64) -> Result<Session, TextFault>
        requires within { IsWithin (2 ^ 32 - 1) self }
        requires typed { are_typed self.scripts.items ≡ true }
        ensures { Finishes (so_far self) number result }
    {
        let Draft {
            config,
            nonce,
            limit,
            cut,
            ends,
            turns,
            plan,
            scripts,
        } = self;
        let Some(config) = config else {
            return Err(TextFault::Line(number));
        };
        let Ok(scripts) = Scripts::new(List::new(scripts)) else {
            return Err(TextFault::Line(number));
        };
        Ok(Session {
            config,
            scripts,
            turns: List::new(turns),
            nonce: nonce_or_default(alloc, nonce)?,
            max_bytes: limit.unwrap_or(DEFAULT_LIMIT),
            link: new_link(alloc, plan, cut, ends),
        })
    }
}

/// Adds a command to the last script. `false`: there is none.
fn push_last(scripts: &mut Vec<List<Command>>, command: Command) -> Result<bool, OutOfMemory>
    ensures last { IfOk result (λ stands. AddsLast command scripts.old.items stands scripts.new.items) }
{
    match scripts.last_mut() {
        Some(script) => {
            let stands = push_command(script, command)?;
            Ok(stands)
        }
        None => Ok(false),
    }
}

fn push_command(script: &mut List<Command>, command: Command) -> Result<bool, OutOfMemory>
    ensures { IfOk result (λ stands. (stands ≡ true) × (script.new ≡ script.old ++ command ∷ [])) }
{
    script.push(command)?;
    Ok(true)
}

/// The nonce that the text gives, or the default.
fn nonce_or_default(alloc: Global, nonce: Option<Blob>) -> Result<Blob, OutOfMemory>
    ensures { IfOk result (λ given. given ≡ unwrap_or nonce default_nonce) }
{
    match nonce {
        Some(nonce) => Ok(nonce),
        None => Blob::from_slice(alloc, DEFAULT_NONCE),
    }
}

/// The link that gives this plan, at most `cut` bytes a read, and then its end, if it `ends`.
fn new_link(alloc: Global, plan: Vec<Vec<u8>>, cut: Option<u64>, ends: bool) -> MemoryLink
    requires { IfSome cut (λ cut. 0 < cut) }
    ensures { result ≡ record {
      entries = lists plan.items;
      ends = ends;
      cut = unwrap_or cut 8192;
      room = 8192;
      given = [];
      taken = [];
      promised = false;
      flushed = false;
      shut = false;
      quiet = 0;
      dry = 0;
      lulls = 0;
      ended = 0;
    } }
{
    let cut = match cut {
        Some(cut) => cut as usize,
        None => DEFAULT_PIECE,
    };
    MemoryLink::new(alloc, plan, cut, DEFAULT_PIECE, ends)
}
