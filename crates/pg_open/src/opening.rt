//! A connection is opened over a link: the choice of TLS, the handshake, and the startup, polled until they answer.

ghost use Rattle.std.specs.Prelude.{◌≡◌, ◌<◌, ◌≤◌, ◌^◌, ◌++◌, false, IfOk, IsTrue, MatchResult, Ok, Err, Some};
ghost use Rattle.futures.specs.Poll.{OnPending};
ghost use Rattle.pg_config.specs.Views.{settings_of};
ghost use Rattle.pg_startup.specs.Steps.{Made, frame_of};
ghost use Rattle.pg_spec.specs.Links.{LinkView};
ghost use Rattle.pg_spec.specs.Passwords.{is_nonce};
ghost use Rattle.pg_startup.specs.StartupPolls.{IsFresh};
ghost use Rattle.pg_startup.specs.Startups.{Opening};
ghost use Rattle.pg_open.specs.Opening.{Finishes, GoesOnFrom, IsOpening, IsReached, LeavesLess, OpenAnswers, OpenIdles, OpenStands, OpenStays, StartAnswers, WasGoing, WasReached, info_of, login_by, moved_before, open_quiet, outside, sent_before, tls_settings};

use crate::may_start::may_start;
use crate::tls::{TlsConnect, TlsStream};
use crate::{
    ConnectRaw, ConnectTls, MaybeTls, OpenSettings, OpenStage, Opened, SessionInfo, Starting,
    StreamOf, TlsSettings,
};
use bytes::BytesMut;
use futures::task::Poll;
use pg_config::Config;
use pg_connect::Connection;
use pg_errors::Error;
use pg_startup::{Login, Startup};
use pg_types::{Blob, OutOfMemory};
use pg_wire::{Link, LinkWait};
use std::alloc::Global;
use std::mem;

/// Opens a connection over this link. The settings say whether there is TLS and how the client logs in; `has_hostname`:
/// the host has a name, for which its certificate can stand. `nonce` is the client's, for a login that asks for a proof of
/// the password; one out of form is refused, whatever the login. `max_bytes` is the most bytes that the link, or the stream
/// over it, may give in all, and below 2^63: the byte that answers the SSLRequest and the stream's bytes count together, those
/// of the handshake don't. It takes no memory.
pub fn connect_raw<'a, L: Link + Drop, T: TlsConnect<L> + Drop>(
    link: L,
    tls: T,
    has_hostname: bool,
    config: &'a Config,
    nonce: &'a [u8],
    max_bytes: u64,
) -> ConnectRaw<'a, L, T>
    requires limit { max_bytes < 2 ^ 63 }
    ensures stands { OpenStands (outside L.view T.connects T.begins T.Future.polled T.Future.Stream.view T.Future.Stream.binding) result.settings link tls result.stage }
    ensures open { IsOpening (outside L.view T.connects T.begins T.Future.polled T.Future.Stream.view T.Future.Stream.binding) result.settings result.stage }
    ensures config { result.settings.config.now ≡ config.now }
    ensures nonce { result.settings.nonce.now ≡ nonce.now }
    ensures hostname { result.settings.has_hostname ≡ has_hostname }
    ensures limit { result.settings.max_bytes ≡ max_bytes }
    ensures unmoved { result.moved ≡ false }
{
    ConnectRaw {
        settings: OpenSettings {
            config,
            nonce,
            has_hostname,
            max_bytes,
        },
        moved: false,
        stage: OpenStage::Fresh(link, tls),
    }
}

impl<'a, L: Link + Drop, T: TlsConnect<L> + Drop> ConnectRaw<'a, L, T> {
    /// Goes on until there is an answer: the connection behind its startup, or why there is none. Config(NoUser) comes
    /// exactly where the settings name no user, else Config(Nonce) exactly where the nonce isn't in form, before any byte;
    /// then the errors of `ConnectTls::poll`; Encode where the startup frame can't be written; then those of `Startup::poll`.
    /// Pending comes only where a call of the link or stream wasn't ready, or the handshake was pending. Behind an answer it
    /// isn't polled again.
    pub fn poll(&mut self, alloc: Global) -> Poll<Result<Opened<L, T>, Error>>
        requires open { IsOpening (outside L.view T.connects T.begins T.Future.polled T.Future.Stream.view T.Future.Stream.binding) self.old.settings self.old.stage }
        ensures answer { (link : L) (tls : T) → OpenStands (outside L.view T.connects T.begins T.Future.polled T.Future.Stream.view T.Future.Stream.binding) self.old.settings link tls self.old.stage →
            OpenAnswers (outside L.view T.connects T.begins T.Future.polled T.Future.Stream.view T.Future.Stream.binding) self.old.settings link tls self.new.moved self.old.stage self.new.stage result }
        ensures open { OnPending result (IsOpening (outside L.view T.connects T.begins T.Future.polled T.Future.Stream.view T.Future.Stream.binding) self.new.settings self.new.stage) }
        ensures same { self.new.settings ≡ self.old.settings }
    {
        self.moved = false;
        match mem::replace(&mut self.stage, OpenStage::Over(None)) {
            OpenStage::Fresh(link, tls) => self.begin(alloc, link, tls),
            OpenStage::Choosing(choice) => self.choose(alloc, choice),
            OpenStage::Starting(starting) => self.go_on(alloc, starting),
            OpenStage::Over(_) => Poll::Ready(Err(Error::Closed)),
        }
    }

    /// Whether it may start is looked at, and the choice begins.
    fn begin(&mut self, alloc: Global, link: L, tls: T) -> Poll<Result<Opened<L, T>, Error>>
        ensures answer { OpenAnswers (outside L.view T.connects T.begins T.Future.polled T.Future.Stream.view T.Future.Stream.binding) self.old.settings link tls self.new.moved (OpenStage.Fresh link tls) self.new.stage result }
        ensures same { self.new.settings ≡ self.old.settings }
    {
        match may_start(self.settings.config, self.settings.nonce) {
            Ok(()) => {
                let choice = ConnectTls::new(link, tls, choice_settings(&self.settings));
                self.choose(alloc, choice)
            }
            Err(cause) => {
                self.stage = OpenStage::Fresh(link, tls);
                Poll::Ready(Err(Error::Config(cause)))
            }
        }
    }

    /// The choice of TLS, and what follows it.
    fn choose(
        &mut self,
        alloc: Global,
        choice: ConnectTls<L, T>,
    ) -> Poll<Result<Opened<L, T>, Error>>
        requires open { IsOpening (outside L.view T.connects T.begins T.Future.polled T.Future.Stream.view T.Future.Stream.binding) self.old.settings (OpenStage.Choosing choice) }
        ensures answer { (link : L) (tls : T) → OpenStands (outside L.view T.connects T.begins T.Future.polled T.Future.Stream.view T.Future.Stream.binding) self.old.settings link tls (OpenStage.Choosing choice) →
            OpenAnswers (outside L.view T.connects T.begins T.Future.polled T.Future.Stream.view T.Future.Stream.binding) self.old.settings link tls self.new.moved (OpenStage.Choosing choice) self.new.stage result }
        ensures same { self.new.settings ≡ self.old.settings }
    {
        let mut choice = choice;
        match choice.poll(alloc) {
            Poll::Ready(Ok(link)) => self.start(alloc, link, choice.asked),
            Poll::Ready(Err(error)) => {
                self.stage = OpenStage::Choosing(choice);
                Poll::Ready(Err(error))
            }
            Poll::Pending => {
                self.moved = choice.moved;
                self.stage = OpenStage::Choosing(choice);
                Poll::Pending
            }
        }
    }

    /// The startup begins.
    fn start(
        &mut self,
        alloc: Global,
        link: MaybeTls<L, StreamOf<L, T>>,
        asked: u64,
    ) -> Poll<Result<Opened<L, T>, Error>>
        requires reached { WasReached (outside L.view T.connects T.begins T.Future.polled T.Future.Stream.view T.Future.Stream.binding) self.old.settings asked link }
        ensures answer { (from : L) (tls : T) → IsReached (outside L.view T.connects T.begins T.Future.polled T.Future.Stream.view T.Future.Stream.binding) self.old.settings from tls asked link →
            StartAnswers (outside L.view T.connects T.begins T.Future.polled T.Future.Stream.view T.Future.Stream.binding) self.old.settings from tls link link asked (moved_before asked link) self.new.moved self.new.stage result }
        ensures same { self.new.settings ≡ self.old.settings }
    {
        self.moved = has_moved(asked, &link);
        match startup_over(alloc, &self.settings, &link, asked) {
            Ok(startup) => self.go_on(
                alloc,
                Starting {
                    link,
                    startup,
                    asked,
                },
            ),
            Err(error) => self.leave(link, error),
        }
    }

    /// The startup goes on.
    fn go_on(
        &mut self,
        alloc: Global,
        starting: Starting<'a, MaybeTls<L, StreamOf<L, T>>>,
    ) -> Poll<Result<Opened<L, T>, Error>>
        requires going { WasGoing (outside L.view T.connects T.begins T.Future.polled T.Future.Stream.view T.Future.Stream.binding) self.old.settings starting }
        ensures answer { (link : L) (tls : T) → GoesOnFrom (outside L.view T.connects T.begins T.Future.polled T.Future.Stream.view T.Future.Stream.binding) self.old.settings link tls starting.entry self.old.moved self.new.moved self.new.stage result }
        ensures nearer { OnPending result (LeavesLess starting.entry.startup self.new.stage) }
        ensures same { self.new.settings ≡ self.old.settings }
    {
        let Starting {
            mut link,
            mut startup,
            asked,
        } = starting;
        match startup.poll(alloc, &mut link) {
            Poll::Ready(Ok(())) => self.finish(alloc, link, startup, asked),
            Poll::Ready(Err(error)) => self.leave(link, error),
            Poll::Pending => {
                self.moved = self.moved || startup.moved();
                self.stage = OpenStage::Starting(Starting {
                    link,
                    startup,
                    asked,
                });
                Poll::Pending
            }
        }
    }

    /// It ends by this error, and the link or stream is left as it is.
    fn leave(
        &mut self,
        link: MaybeTls<L, StreamOf<L, T>>,
        error: Error,
    ) -> Poll<Result<Opened<L, T>, Error>>
        ensures answer { result ≡ Poll.Ready (Err error) }
        ensures left { self.new ≡ record self.old { stage = OpenStage.Over (Some link) } }
    {
        self.stage = OpenStage::Over(Some(link));
        Poll::Ready(Err(error))
    }

    /// A startup is done: the connection is handed out, or memory lacks for what was sent.
    fn finish(
        &mut self,
        alloc: Global,
        link: MaybeTls<L, StreamOf<L, T>>,
        startup: Startup<'a>,
        asked: u64,
    ) -> Poll<Result<Opened<L, T>, Error>>
        requires small { startup.bytes.max_bytes < 2 ^ 63 }
        requires within { startup.bytes.given ≤ startup.bytes.max_bytes }
        ensures answer { Finishes self.old.settings startup.entry asked link self.new.stage result }
        ensures same { self.new.settings ≡ self.old.settings }
    {
        match sent_in_all(alloc, asked, startup.opening.as_slice()) {
            Ok(sent) => Poll::Ready(Ok(self.open(alloc, link, startup, sent))),
            Err(OutOfMemory) => self.leave(link, Error::OutOfMemory),
        }
    }

    /// The connection behind a startup that is done.
    fn open(
        &self,
        alloc: Global,
        link: MaybeTls<L, StreamOf<L, T>>,
        startup: Startup<'a>,
        sent: Blob,
    ) -> Opened<L, T>
        requires small { startup.bytes.max_bytes < 2 ^ 63 }
        requires within { startup.bytes.given ≤ startup.bytes.max_bytes }
        ensures info { result.info ≡ info_of self.now.settings startup.entry }
        ensures sent { result.sent ≡ sent }
        ensures streams { IsFresh startup.entry startup.entry.opening.items result.connection.streams }
        ensures link { result.connection.link ≡ link }
    {
        let (_, (process_id, secret_key), streams) = startup.into_streams(alloc);
        let info = SessionInfo {
            process_id,
            secret_key,
            ssl_mode: self.settings.config.get_ssl_mode(),
            ssl_negotiation: self.settings.config.get_ssl_negotiation(),
        };
        Opened {
            info,
            sent,
            connection: Connection { link, streams },
        }
    }

    /// Waits until the link or stream may be ready. While a handshake has the link, it is Ready at once.
    pub fn wait(&mut self) -> LinkWait
        requires open { IsOpening (outside L.view T.connects T.begins T.Future.polled T.Future.Stream.view T.Future.Stream.binding) self.old.settings self.old.stage }
        ensures waits { OpenIdles (outside L.view T.connects T.begins T.Future.polled T.Future.Stream.view T.Future.Stream.binding) self.old.stage self.new.stage result }
        ensures open { IsOpening (outside L.view T.connects T.begins T.Future.polled T.Future.Stream.view T.Future.Stream.binding) self.new.settings self.new.stage }
        ensures stays { OpenStays (outside L.view T.connects T.begins T.Future.polled T.Future.Stream.view T.Future.Stream.binding) self.old.settings self.old.stage self.new.stage }
        ensures same { self.new ≡ record self.old { stage = self.new.stage } }
    {
        match &mut self.stage {
            OpenStage::Fresh(link, _) => link.wait(),
            OpenStage::Choosing(choice) => choice.wait(),
            OpenStage::Starting(starting) => starting.link.wait(),
            OpenStage::Over(_) => LinkWait::Ready,
        }
    }

    /// How often a call of the link or stream wasn't ready. While a handshake has the link, how often before it.
    pub fn quiet(&self) -> u64
        requires open { IsOpening (outside L.view T.connects T.begins T.Future.polled T.Future.Stream.view T.Future.Stream.binding) self.now.settings self.now.stage }
        ensures { open_quiet (outside L.view T.connects T.begins T.Future.polled T.Future.Stream.view T.Future.Stream.binding) self.now.stage ≡ Some result }
    {
        match &self.stage {
            OpenStage::Fresh(link, _) => link.quiet(),
            OpenStage::Choosing(choice) => choice.quiet(),
            OpenStage::Starting(starting) => starting.link.quiet(),
            OpenStage::Over(_) => 0,
        }
    }

    /// Whether the link or stream gave or took a byte, or a handshake was polled, in the last poll, if that was Pending.
    pub fn moved(&self) -> bool
        ensures { result ≡ self.now.moved }
    {
        self.moved
    }
}

/// By what the choice of TLS is made.
fn choice_settings(settings: &OpenSettings) -> TlsSettings
    ensures { result ≡ tls_settings settings.now }
{
    TlsSettings {
        mode: settings.config.get_ssl_mode(),
        negotiation: settings.config.get_ssl_negotiation(),
        has_hostname: settings.has_hostname,
        max_bytes: settings.max_bytes,
    }
}

/// Whether something moved in the poll in which the choice gave this: a byte of the link, or a handshake.
fn has_moved<L, S>(asked: u64, link: &MaybeTls<L, S>) -> bool
    ensures { result ≡ moved_before asked link.now }
{
    match link {
        MaybeTls::Raw(_) => asked > 0,
        MaybeTls::Tls(_) => true,
    }
}

/// A startup before its first poll, over a link or stream by which its login is bound. Encode comes exactly where the
/// writer of the startup frame refuses it.
fn startup_over<'a, K: TlsStream>(
    alloc: Global,
    settings: &OpenSettings<'a>,
    link: &K,
    asked: u64,
) -> Result<Startup<'a>, Error>
    requires nonce { IsTrue (is_nonce settings.now.nonce.now) }
    ensures made { MatchResult result
        (λ s. Made (frame_of (settings_of settings.now.config.now)) (Ok s.opening.items))
        (λ e. Made (frame_of (settings_of settings.now.config.now)) (Err e)) }
    ensures fresh { (begin : LinkView) → IfOk result (Opening (login_by settings.now (K.binding link.now)) asked begin begin) }
    ensures limit { IfOk result (λ s. (s.bytes.max_bytes ≡ settings.now.max_bytes) × (s.bytes.given ≡ asked)) }
{
    let Ok(binding) = link.channel_binding(alloc) else {
        return Err(Error::OutOfMemory);
    };
    let login = Login {
        config: settings.config,
        nonce: settings.nonce,
        channel: binding.into_hash(),
    };
    Startup::new(alloc, login, asked, settings.max_bytes)
}

/// What was sent in all: the SSLRequest, if the server was asked, and the frames of the startup.
fn sent_in_all(alloc: Global, asked: u64, opening: &[u8]) -> Result<Blob, OutOfMemory>
    ensures { IfOk result (λ sent. sent ≡ sent_before asked ++ opening.now) }
{
    let mut sent = BytesMut::new(alloc);
    if asked > 0 && pg_wire::ssl_request(&mut sent).is_err() {
        return Err(OutOfMemory);
    }
    if sent.extend_from_slice(opening).is_err() {
        return Err(OutOfMemory);
    }
    Blob::from_slice(alloc, sent.as_slice())
}
