//! A session: the startup, the turns, and the report.

ghost use Rattle.std.specs.Prelude.{◌≡◌, ◌<◌, ◌^◌, IfErr, IfOk, IsTrue, OnOk};
ghost use Rattle.pg_config.specs.Views.{settings_of};
ghost use Rattle.pg_promises.specs.Causes.{NeedsNoTls};
ghost use Rattle.pg_spec.specs.Passwords.{is_nonce};
ghost use Rattle.pg_connect.specs.Calm.{StaysCalm};
ghost use Rattle.pg_wire.specs.LinkCalls.{Continues};
ghost use Rattle.pg_text.specs.Scripts.{AreScripts};
ghost use Rattle.pg_session.specs.Speeches.{BookWhole};
ghost use Rattle.pg_play.specs.Fails.{PlaysWithin, SessionFails};
ghost use Rattle.pg_play.specs.Told.{told_of};

use crate::opening::open;
use crate::play::Play;
use crate::report::Report;
use pg_config::Config;
use pg_errors::Error;
use pg_session::Spoken;
use pg_startup::{Login, Startup};
use pg_types::List;
use pg_wire::Link;
use std::alloc::Global;

/// The session of these settings, which require no TLS, and of a nonce in form.
pub fn play_over<'a, S: Spoken<'a>, L: Link>(
    alloc: Global,
    settings: &Config,
    nonce: &[u8],
    scripts: &'a [List<S::Command>],
    turns: &[u32],
    max_bytes: u64,
    link: &mut L,
) -> Result<Report<S::Answer>, Error>
    requires limit { max_bytes < 2 ^ 63 }
    requires whole { BookWhole S.speech }
    requires scripts { AreScripts scripts.now }
    requires nonce { IsTrue (is_nonce nonce.now) }
    requires no_tls { NeedsNoTls (settings_of settings.now) }
    ensures fails { IfErr result (SessionFails S.speech (settings_of settings.now) nonce.now scripts.now max_bytes (L.view link.old) (L.view link.new)) }
    ensures played { IfOk result (λ report. PlaysWithin S.speech (settings_of settings.now) nonce.now scripts.now turns.now max_bytes (L.view link.old) (L.view link.new) (told_of report)) }
    ensures link { Continues (L.view link.old) (L.view link.new) }
    ensures calm { OnOk result (StaysCalm (L.view link.old) (L.view link.new)) }
{
    let login = Login {
        config: settings,
        nonce,
        channel: None,
    };
    let mut startup = Startup::new(alloc, login, 0, max_bytes)?;
    open(alloc, &mut startup, link)?;
    let (opening, key, streams) = startup.into_streams(alloc);
    let mut play: Play<S, S::Answer, S::Slots> = Play::new(alloc, streams, scripts)?;
    play.run(alloc, link, scripts, turns)?;
    play.into_report(alloc, opening, key)
}
