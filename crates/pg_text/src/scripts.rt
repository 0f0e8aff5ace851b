//! Scripts: for each handle the commands that it runs one after another.
//! Transactions of one connection can't stand beside one another, so a script that begins one is the only one.
//! A line names built-in types alone, and whoever makes scripts by hand can see to that: so no session has to test
//! it, and no state that it begins leaves a type or a value out.

ghost use Rattle.std.specs.Prelude.{◌≡◌, ◌<◌, ◌+◌, ◌^◌, true, length, Decides, IfOk, IfErr};
ghost use Rattle.std.specs.List.{list_any};
ghost use Rattle.pg_text.specs.Levels.{KeepLevels, effect_of, has_levels, is_changed, nests, open_behind};
ghost use Rattle.pg_text.specs.Scripts.{AreRefused, AreScripts, AreShort, are_typed};

use crate::command::Command;
use pg_errors::{Cause, Error};
use pg_types::List;
use std::marker::Model;

/// The most scripts of a session.
const MOST: usize = 1024;

/// The scripts of a session, at most 1,024 of them, each of fewer than 4,294,967,296 commands. A command whose values have types
/// has as many values as types, and these are built-in.
#[derive(Drop)]
pub struct Scripts {
    scripts: List<List<Command>>,
}

impl Model for Scripts {
    ghost use Rattle.std.specs.Prelude.{◌≡◌, true, List as Items};
    ghost use Rattle.pg_text.specs.declared.command.Command.{Command};

    ghost Value = { Items (Items Command) };

    ghost use Rattle.pg_text.specs.Levels.{KeepLevels};
    ghost use Rattle.pg_text.specs.Scripts.{AreScripts, are_typed};

    ghost view = { λ s. s.scripts };

    ghost invariant = { λ s. AreScripts s.scripts × (are_typed s.scripts ≡ true) × KeepLevels s.scripts };
}

impl Scripts {
    /// Config(Scripts) comes exactly where there are more than 1,024 scripts, or their levels of transactions aren't kept: a script
    /// that has one isn't the only one, or ends one that isn't open, leaves one open, or begins a transaction within another. Whoever
    /// makes them sees to it that none has 4,294,967,296 commands, that a command with given types has as many values as types, and
    /// that these are built-in.
    pub fn new(scripts: List<List<Command>>) -> Result<Scripts, Error>
        requires short { AreShort scripts }
        requires typed { are_typed scripts ≡ true }
        ensures ok { IfOk result (λ s. s ≡ scripts) }
        ensures refused { IfErr result (λ e. AreRefused scripts e) }
    {
        if scripts.as_slice().len() > MOST {
            return Err(Error::Config(Cause::Scripts));
        }
        if keep_levels(scripts.as_slice()) {
            Ok(Scripts { scripts })
        } else {
            Err(Error::Config(Cause::Scripts))
        }
    }

    /// The scripts, one for each handle.
    pub fn as_slice(&self) -> &[List<Command>]
        ensures scripts { result.now ≡ self.now }
        ensures bounds { AreScripts self.now }
        ensures typed { are_typed self.now ≡ true }
        ensures levels { KeepLevels self.now }
    {
        self.scripts.as_slice()
    }
}

/// The levels that these scripts open and end are as a session can run them.
fn keep_levels(scripts: &[List<Command>]) -> bool
    requires short { AreShort scripts.now }
    ensures { Decides result (KeepLevels scripts.now) }
{
    if scripts.len() == 1 {
        is_nested(scripts[0].as_slice())
    } else {
        !any_has_levels(scripts)
    }
}

/// Some script opens or ends a level.
fn any_has_levels(scripts: &[List<Command>]) -> bool
    ensures { result ≡ list_any has_levels scripts.now }
{
    for script in scripts {
        if some_level(script.as_slice()) {
            return true;
        }
    }
    false
}

/// Some command opens or ends a level.
fn some_level(script: &[Command]) -> bool
    ensures { result ≡ has_levels script.now }
{
    for command in script {
        if changes_levels(command) {
            return true;
        }
    }
    false
}

/// A command opens or ends a level.
fn changes_levels(command: &Command) -> bool
    ensures { result ≡ is_changed (effect_of command.now) }
{
    matches!(
        command,
        Command::Begin(_)
            | Command::Savepoint { .. }
            | Command::Commit
            | Command::Rollback
            | Command::Abandon
    )
}

/// The levels that a script opens are nested, and none is left open.
fn is_nested(script: &[Command]) -> bool
    requires short { length script.now < 2 ^ 32 }
    ensures { result ≡ nests 0 script.now }
{
    let mut depth = 0;
    for command in script {
        match depth_behind(command, depth) {
            Some(next) => depth = next,
            None => return false,
        }
    }
    depth == 0
}

/// How many levels are open behind a command where so many were. None: it may not stand there.
fn depth_behind(command: &Command, depth: u64) -> Option<u64>
    requires { depth < 2 ^ 32 }
    ensures { result ≡ open_behind (effect_of command.now) depth }
{
    match command {
        Command::Begin(_) => { if depth == 0 { Some(1) } else { None } }
        Command::Savepoint { .. } => Some(depth + 1),
        Command::Commit | Command::Rollback | Command::Abandon => depth.checked_sub(1),
        _ => Some(depth),
    }
}
