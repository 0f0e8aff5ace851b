//! A session over a link to a server, or to a machine.

ghost use Rattle.std.specs.Prelude.{◌<◌, ◌^◌};
ghost use Rattle.pg_server.specs.ServerLinks.{served_of};
ghost use Rattle.pg_served.specs.Promised.{OverMachine, OverServer};

use pg_errors::Error;
use pg_machine::MachineLink;
use pg_server::{Handler, ServerLink};
use pg_tool::{Report, Scripts, run_session};
use std::alloc::Global;

/// Plays the scripts over a link to a server. Where they are simple queries alone, it answers Ok and the link was just made, to a
/// server that was fed with nothing, the server's reply to each request, but for notices, notifications and parameter reports, is
/// what it is where the requests are fed one at a time, whatever the turns, and however many bytes the link gives and takes at a time.
///
/// The errors are those of `run_session`, but for Io(Ended) and Closed. Io(Link) comes only where the server has a fault, which
/// `ServerLink::fault` tells then; over such a link it is the one for which the server stops at the bytes that were taken. There
/// valid input of simple queries to a server that conforms and has no fault for what they ask answers Ok, or OutOfMemory.
pub fn run_served<H: Handler>(
    alloc: Global,
    config: &str,
    scripts: &Scripts,
    turns: &[u32],
    nonce: &[u8],
    max_bytes: u64,
    link: &mut ServerLink<H>,
) -> Result<Report, Error>
    requires { max_bytes < 2 ^ 63 }
    ensures { OverServer H.step
        (record { config = config.now; nonce = nonce.now; scripts = scripts.now; turns = turns.now; limit = max_bytes })
        (served_of H.state link.old) (served_of H.state link.new) result }
{
    let result = run_session(alloc, config, scripts, turns, nonce, max_bytes, link);
    link.fault_law();
    link.bytes_law();
    result
}

/// Plays the scripts over a link to a machine. Where they are simple queries alone, it answers Ok, the link was just made and the
/// startup is in form, the machine's reply to each request, but for notices, notifications and parameter reports, is what
/// `feed_alone` answers, whatever the turns, and however many bytes the link gives and takes at a time.
///
/// The errors are those of `run_session`, but for Io(Link), Io(Ended) and Closed. Over such a link, valid input of simple
/// queries to a machine that conforms answers Ok, or OutOfMemory.
pub fn run_over_machine(
    alloc: Global,
    config: &str,
    scripts: &Scripts,
    turns: &[u32],
    nonce: &[u8],
    max_bytes: u64,
    link: &mut MachineLink,
) -> Result<Report, Error>
    requires { max_bytes < 2 ^ 63 }
    ensures { OverMachine
        (record { config = config.now; nonce = nonce.now; scripts = scripts.now; turns = turns.now; limit = max_bytes })
        link.old link.new result }
{
    link.rules_law();
    run_session(alloc, config, scripts, turns, nonce, max_bytes, link)
}
