//! A session that is made of how many commands it has, and a seed.
//! A definition makes it of these two numbers, so that one law says of all such sessions that they are well made.

ghost use Rattle.std.specs.Prelude.{◌≡◌, ◌≤◌, ◌+◌, map, IfOk};
ghost use Rattle.std.specs.List.{range_with_len};
ghost use Rattle.pg_text.specs.Sessions.{as_session, session_of, IsNew};
ghost use Rattle.pg_text.specs.Views.{as_command, as_scripts};
ghost use Rattle.pg_wire.specs.Giving.{lists};
ghost use Rattle.pg_gen.specs.Generated as spec;
ghost use Rattle.pg_gen.specs.Generated.{IsCount};
ghost use Rattle.pg_gen.specs.Messages.{bytes_of};

use crate::draws::Draws;
use crate::reply::{OPENING, reply};
use itoa::Buffer;
use pg_text::{Command, Scripts, Session};
use pg_types::{Blob, List, OutOfMemory, Text};
use pg_wire::MemoryLink;
use std::alloc::Global;

/// The most commands of a generated session.
pub const MOST_COMMANDS: u32 = 100_000;

/// How many scripts share the commands.
const SCRIPTS: u32 = 8;

/// The most bytes that the link may give.
const LIMIT: u64 = 16_777_216;

/// How many bytes the link gives or takes at a time.
const PIECE: usize = 8192;

/// The nonce of a session whose text gives none.
const NONCE: &[u8] = b"abcdefghijklmnopqrstuvwx";

/// The session of `n` commands, from 1 to 100,000, that this seed makes: the same at each call.
pub fn gen_session(alloc: Global, n: u32, seed: u32) -> Result<Session, OutOfMemory>
    requires { IsCount n }
    ensures session { IfOk result (λ s. session_of s ≡ as_session (spec.generated n seed)) }
    ensures new_link { IfOk result (λ s. IsNew s) }
{
    let config = Text::from_str(alloc, "user=a")?;
    let nonce = Blob::from_slice(alloc, NONCE)?;
    let scripts = match Scripts::new(List::new(new_scripts(alloc, n)?)) {
        Ok(scripts) => scripts,
        Err(_) => unreachable!(),
    };
    let plan = new_plan(alloc, n, seed)?;
    Ok(Session {
        config,
        scripts,
        turns: List::empty(alloc),
        nonce,
        max_bytes: LIMIT,
        link: MemoryLink::new(alloc, plan, PIECE, PIECE, false),
    })
}

/// The scripts, each of every eighth command.
fn new_scripts(alloc: Global, n: u32) -> Result<Vec<List<Command>>, OutOfMemory>
    requires { n ≤ 100000 }
    ensures scripts { IfOk result (λ scripts. scripts.items ≡ as_scripts (map (spec.script n) (range_with_len 0 8))) }
{
    let mut scripts = Vec::with_capacity(alloc, SCRIPTS as usize)?;
    for handle in 0..SCRIPTS {
        scripts.push(new_script(alloc, n, handle)?)?;
    }
    Ok(scripts)
}

/// The commands whose numbers leave this remainder.
fn new_script(alloc: Global, n: u32, handle: u32) -> Result<List<Command>, OutOfMemory>
    requires { n ≤ 100000 }
    ensures { IfOk result (λ script. script ≡ map as_command (spec.script n handle)) }
{
    let mut script = Vec::with_capacity(alloc, (n / SCRIPTS) as usize + 1)?;
    for i in 0..n {
        if i % SCRIPTS == handle {
            script.push(new_command(alloc, i)?)?;
        }
    }
    Ok(List::new(script))
}

/// A simple query of `q` and the command's number.
fn new_command(alloc: Global, i: u32) -> Result<Command, OutOfMemory>
    ensures { IfOk result (λ command. command ≡ as_command (spec.command i)) }
{
    let mut buffer = Buffer::new();
    let number = buffer.format(i);
    let mut text = String::with_capacity(alloc, number.len() + 1)?;
    text.push_str("q")?;
    text.push_str(number)?;
    Ok(Command::Simple {
        text: Text::new(text),
        take: None,
    })
}

/// The entries of the plan: what accepts the startup, and a reply to each command.
fn new_plan(alloc: Global, n: u32, seed: u32) -> Result<Vec<Vec<u8>>, OutOfMemory>
    requires { n ≤ 100000 }
    ensures { IfOk result (λ plan. lists plan.items ≡ map bytes_of (spec.replies n seed)) }
{
    let mut plan = Vec::with_capacity(alloc, n as usize + 1)?;
    plan.push(Vec::from_slice(alloc, &OPENING)?)?;
    let mut draws = Draws { number: seed };
    for k in 0..n {
        let rows = draws.draw() % 4;
        let notified = draws.draw() % 16 == 1;
        plan.push(reply(alloc, k, rows, notified)?)?;
    }
    Ok(plan)
}
