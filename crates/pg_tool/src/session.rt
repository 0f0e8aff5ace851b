//! A session: the startup, the turns, and the report.

ghost use Rattle.std.specs.Prelude.{◌≡◌, ◌<◌, ◌^◌, List, IfErr, IfOk, IsTrue, OnOk};
ghost use Rattle.pg_config.specs.Views.{settings_of};
ghost use Rattle.pg_promises.specs.Causes.{NeedsNoTls};
ghost use Rattle.pg_promises.specs.ConnectionStrings.{Means};
ghost use Rattle.pg_spec.specs.Passwords.{is_nonce};
ghost use Rattle.pg_spec.specs.Report.{Command};
ghost use Rattle.pg_spec.specs.Settings.{Settings};
ghost use Rattle.pg_connect.specs.Calm.{StaysCalm};
ghost use Rattle.pg_session.specs.Sessions.{HasPlayed};
ghost use Rattle.pg_wire.specs.LinkCalls.{Continues};
ghost use Rattle.pg_text.specs.Views.{as_scripts};
ghost use Rattle.pg_table.specs.Headlines.{told_in};
ghost use Rattle.pg_table.specs.Table.{table};
ghost use Rattle.pg_play.specs.Told.{told_of};
ghost use Rattle.pg_tool.specs.ReadsOwn.{ReadsOwn};
ghost use Rattle.pg_tool.specs.SessionContract.{SessionContract, ToldSimply};
ghost use Rattle.pg_tool.specs.TableContract.{TableContract, table_call, table_result};
ghost use Rattle.pg_tool.specs.Fails.{PlaysWithin, SessionFails};
ghost use Rattle.pg_tool.specs.Asked.{call_of};

use crate::asked::may_start;
use crate::required::ask_in_vain;
use pg_config::Config;
use pg_errors::{Cause, Error};
use pg_open::TlsChoice;
use pg_play::play_over;
use pg_table::AnyState;
use pg_text::{Answer, Report, Scripts};
use pg_wire::Link;
use std::alloc::Global;

/// Plays the scripts over a link, each on a handle of its own: starts up, makes the turns (below the
/// number of scripts a handle's, else the connection's), then whole rounds, until the connection is shut
/// down. `max_bytes` is the most bytes that the link may give.
///
/// Before any byte come ConfigParse exactly where the connection string has a fault, its first one, else
/// Config(NoUser) exactly where it names no user, else Config(Nonce) exactly where the nonce isn't in form.
/// Where it requires TLS nothing crosses the link but an SSLRequest, and the session ends in Tls, since its
/// connector is `NoTls`, or in an error of the link before the server's byte. Else come the errors of the startup: Encode,
/// Config(NoPassword), Authentication, Db, Parse, UnexpectedMessage and Io. LimitReached comes where the
/// link gave more than `max_bytes` bytes, Stalled where two rounds or polls moved nothing, or the link has
/// nothing to wait for. Over a link that conforms valid input answers Ok, or OutOfMemory. Where it answers Ok
/// over a link that tells its bytes, request k read only a front of the server's k-th group.
pub fn run_session<L: Link>(
    alloc: Global,
    config: &str,
    scripts: &Scripts,
    turns: &[u32],
    nonce: &[u8],
    max_bytes: u64,
    link: &mut L,
) -> Result<Report, Error>
    requires { max_bytes < 2 ^ 63 }
    ensures by_table { TableContract
        (table_call config.now nonce.now scripts.now turns.now max_bytes (L.view link.old) (L.view link.new)) (table_result result) }
    ensures simply { (simple : List (List Command)) → scripts.now ≡ as_scripts simple → ToldSimply result
        (SessionContract (call_of config.now nonce.now simple turns.now max_bytes (L.view link.old) (L.view link.new))) }
    ensures played { IfOk result (λ report. (s : Settings) × Means config.now s
        × HasPlayed table s nonce.now scripts.now turns.now (L.view link.old) (L.view link.new) (told_in report)) }
    ensures reads_own { IfOk result (λ report. (s : Settings) × Means config.now s
        × ReadsOwn table s nonce.now scripts.now turns.now (L.view link.old) (L.view link.new) (told_in report)) }
{
    let settings = Config::from_str(alloc, config)?;
    match may_start(&settings, nonce) {
        Ok(()) => {}
        Err(cause) => return Err(Error::Config(cause)),
    }
    match TlsChoice::first(
        settings.get_ssl_mode(),
        settings.get_ssl_negotiation(),
        false,
        true,
    ) {
        TlsChoice::Raw => play_as(alloc, &settings, nonce, scripts, turns, max_bytes, link),
        TlsChoice::Asks => Err(ask_in_vain(alloc, max_bytes, link)),
        TlsChoice::Shakes => Err(Error::Tls(Cause::Handshake)),
        TlsChoice::Fails(cause) => Err(Error::Tls(cause)),
    }
}

/// The session of these settings, which require no TLS, and of a nonce in form.
fn play_as<L: Link>(
    alloc: Global,
    settings: &Config,
    nonce: &[u8],
    scripts: &Scripts,
    turns: &[u32],
    max_bytes: u64,
    link: &mut L,
) -> Result<Report, Error>
    requires limit { max_bytes < 2 ^ 63 }
    requires nonce { IsTrue (is_nonce nonce.now) }
    requires no_tls { NeedsNoTls (settings_of settings.now) }
    ensures fails { IfErr result (SessionFails (settings_of settings.now) nonce.now scripts.now max_bytes (L.view link.old) (L.view link.new)) }
    ensures played { IfOk result (PlaysWithin (settings_of settings.now) nonce.now scripts.now turns.now max_bytes (L.view link.old) (L.view link.new)) }
    ensures link { Continues (L.view link.old) (L.view link.new) }
    ensures calm { OnOk result (StaysCalm (L.view link.old) (L.view link.new)) }
{
    match play_over::<AnyState, L>(
        alloc,
        settings,
        nonce,
        scripts.as_slice(),
        turns,
        max_bytes,
        link,
    ) {
        Ok(report) => Ok(in_words(report)),
        Err(error) => Err(error),
    }
}

/// The same report, of the text's answers.
fn in_words(report: pg_play::Report<Answer>) -> Report
    ensures { told_in result ≡ told_of report }
{
    let pg_play::Report {
        answers,
        asynchronous,
        parameters,
        process_id,
        secret_key,
        book,
        trace,
        sent,
    } = report;
    Report {
        answers,
        asynchronous,
        parameters,
        process_id,
        secret_key,
        book,
        trace,
        sent,
    }
}
