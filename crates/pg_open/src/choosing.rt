//! The choice whether there is TLS over a link, and the handshake, polled until they answer.
//! While a handshake is pending something counts as moved: a caller that stalls behind a poll in which nothing
//! moved, and a wait that is Ready at once, would stall at each handshake.

ghost use Rattle.std.specs.Prelude.{◌≡◌, ◌<◌, ◌^◌, ◌-◌, Some, None, Err};
ghost use Rattle.futures.specs.Poll.{OnPending};
ghost use Rattle.pg_startup.specs.SslRequests.{Asked};
ghost use Rattle.pg_startup.specs.declared.ssl_request.SslRequest.{SslRequest as Request};
ghost use Rattle.pg_open.specs.declared.choice.TlsChoice.TheVariants as choices;
ghost use Rattle.pg_open.specs.Choosing.{IsAsked, IsBegun, IsOpen, StandsAt, TlsAnswers, Waits, WaitsOn, Chose, first_of, known, limit_of, quiet_of};

use crate::tls::{ForcePrivateApi, TlsConnect, TlsHandshake};
use crate::{ConnectTls, MaybeTls, NO_LIMIT, Question, Stage, StreamOf, TlsChoice, TlsSettings};
use futures::task::Poll;
use pg_config::{SslMode, SslNegotiation};
use pg_errors::{Cause, Error};
use pg_startup::SslRequest;
use pg_wire::{Link, LinkWait};
use std::alloc::Global;
use std::mem;

/// Chooses whether there is TLS over this link, by the settings `sslmode` and `sslnegotiation`, the connector, and whether
/// the host has a name (PostgreSQL documentation, "SSL Session Encryption"). It takes no memory.
pub fn connect_tls<L: Link + Drop, T: TlsConnect<L> + Drop>(
    link: L,
    mode: SslMode,
    negotiation: SslNegotiation,
    tls: T,
    has_hostname: bool,
) -> ConnectTls<L, T>
    ensures stands { StandsAt (known L.view T.connects T.begins T.Future.polled) result.settings link tls result.asked result.stage }
    ensures open { IsOpen result.stage }
    ensures settings { result.settings ≡ record { mode = mode; negotiation = negotiation; has_hostname = has_hostname; max_bytes = 2 ^ 63 - 1 } }
{
    let settings = TlsSettings {
        mode,
        negotiation,
        has_hostname,
        max_bytes: NO_LIMIT,
    };
    ConnectTls::new(link, tls, settings)
}

impl<L: Link + Drop, T: TlsConnect<L> + Drop> ConnectTls<L, T> {
    /// Like `connect_tls`, with a limit on the bytes that the link may give.
    pub fn new(link: L, tls: T, settings: TlsSettings) -> ConnectTls<L, T>
        ensures fresh { result.stage ≡ Stage.Fresh link tls }
        ensures stands { StandsAt (known L.view T.connects T.begins T.Future.polled) result.settings link tls result.asked result.stage }
        ensures open { IsOpen result.stage }
        ensures settings { result.settings ≡ settings }
    {
        ConnectTls {
            settings,
            asked: 0,
            moved: false,
            stage: Stage::Fresh(link, tls),
        }
    }

    /// Goes on until there is an answer: the link as the choice left it, the handshake's stream, or why there is neither.
    /// Pending comes only where a call of the link wasn't ready in this poll, or the handshake was pending in it. Tls comes
    /// with PreferDirect, Refused or NoHostname exactly by the choice, and with Handshake where the handshake failed in this
    /// poll; Io where a call of the link failed, or where it ended in place of the byte that answers the SSLRequest;
    /// LimitReached where the limit allows no such byte.
    pub fn poll(&mut self, alloc: Global) -> Poll<Result<MaybeTls<L, StreamOf<L, T>>, Error>>
        requires open { IsOpen self.old.stage }
        ensures answer { (link : L) (tls : T) → StandsAt (known L.view T.connects T.begins T.Future.polled) self.old.settings link tls self.old.asked self.old.stage →
            TlsAnswers (known L.view T.connects T.begins T.Future.polled) self.old.settings link tls self.new.asked self.new.stage result }
        ensures pending { OnPending result (WaitsOn (known L.view T.connects T.begins T.Future.polled) self.new.moved self.old.stage self.new.stage) }
        ensures open { OnPending result (IsOpen self.new.stage) }
        ensures same { self.new.settings ≡ self.old.settings }
    {
        match mem::replace(&mut self.stage, Stage::Over(None)) {
            Stage::Fresh(link, tls) => self.begin(alloc, link, tls),
            Stage::Asking(question) => self.ask(question),
            Stage::Shaking(handshake, quiet) => self.shake(handshake, quiet),
            Stage::Over(_) => Poll::Ready(Err(Error::Closed)),
        }
    }

    /// The choice before a byte.
    fn begin(
        &mut self,
        alloc: Global,
        link: L,
        tls: T,
    ) -> Poll<Result<MaybeTls<L, StreamOf<L, T>>, Error>>
        ensures answer { self.old.asked ≡ 0 →
            TlsAnswers (known L.view T.connects T.begins T.Future.polled) self.old.settings link tls self.new.asked self.new.stage result }
        ensures pending { OnPending result (WaitsOn (known L.view T.connects T.begins T.Future.polled) self.new.moved (Stage.Fresh link tls) self.new.stage) }
        ensures open { OnPending result (IsOpen self.new.stage) }
        ensures same { self.new.settings ≡ self.old.settings }
    {
        let settings = self.settings;
        match TlsChoice::first(
            settings.mode,
            settings.negotiation,
            tls.can_connect(ForcePrivateApi),
            settings.has_hostname,
        ) {
            TlsChoice::Raw => Poll::Ready(Ok(MaybeTls::Raw(link))),
            TlsChoice::Shakes => self.start(link, tls),
            TlsChoice::Fails(cause) => self.leave(link, Error::Tls(cause)),
            TlsChoice::Asks => {
                let limit = settings.max_bytes.min(NO_LIMIT);
                let Ok(request) = SslRequest::new(alloc, limit) else {
                    return self.leave(link, Error::OutOfMemory);
                };
                self.ask(Question { link, tls, request })
            }
        }
    }

    /// The server is asked, and its byte decides.
    fn ask(&mut self, question: Question<L, T>) -> Poll<Result<MaybeTls<L, StreamOf<L, T>>, Error>>
        ensures answer { (link : L) (tls : T) → IsAsked (known L.view T.connects T.begins T.Future.polled) self.old.settings link tls question self.old.asked →
            TlsAnswers (known L.view T.connects T.begins T.Future.polled) self.old.settings link tls self.new.asked self.new.stage result }
        ensures pending { OnPending result (WaitsOn (known L.view T.connects T.begins T.Future.polled) self.new.moved (Stage.Asking question) self.new.stage) }
        ensures open { OnPending result (IsOpen self.new.stage) }
        ensures same { self.new.settings ≡ self.old.settings }
    {
        let Question {
            mut link,
            tls,
            mut request,
        } = question;
        match request.poll(&mut link) {
            Poll::Pending => {
                self.moved = request.moved();
                self.stage = Stage::Asking(Question { link, tls, request });
                Poll::Pending
            }
            Poll::Ready(Err(error)) => self.leave(link, error),
            Poll::Ready(Ok(byte)) => self.decide(link, tls, byte),
        }
    }

    /// The choice by the byte.
    fn decide(
        &mut self,
        link: L,
        tls: T,
        byte: u8,
    ) -> Poll<Result<MaybeTls<L, StreamOf<L, T>>, Error>>
        ensures answer { (from : L) (request : Request) → first_of self.old.settings (T.connects tls) ≡ choices.Asks → request.bytes.max_bytes ≡ limit_of self.old.settings →
            Asked (L.view from) (L.view link) request byte →
            TlsAnswers (known L.view T.connects T.begins T.Future.polled) self.old.settings from tls self.new.asked self.new.stage result }
        ensures pending { OnPending result (WaitsOn (known L.view T.connects T.begins T.Future.polled) self.new.moved (Stage.Over None) self.new.stage) }
        ensures open { OnPending result (IsOpen self.new.stage) }
        ensures same { self.new.settings ≡ self.old.settings }
    {
        self.asked = 1;
        match TlsChoice::after_byte(self.settings.mode, self.settings.has_hostname, byte) {
            TlsChoice::Raw => Poll::Ready(Ok(MaybeTls::Raw(link))),
            TlsChoice::Shakes => self.start(link, tls),
            TlsChoice::Fails(why) => self.leave(link, Error::Tls(why)),
            // No byte leads here.
            TlsChoice::Asks => Poll::Ready(Err(Error::Closed)),
        }
    }

    /// It ends by this error, and the link is left as it is.
    fn leave(&mut self, link: L, error: Error) -> Poll<Result<MaybeTls<L, StreamOf<L, T>>, Error>>
        ensures answer { result ≡ Poll.Ready (Err error) }
        ensures left { self.new ≡ record self.old { stage = Stage.Over (Some link) } }
    {
        self.stage = Stage::Over(Some(link));
        Poll::Ready(Err(error))
    }

    /// The handshake begins.
    fn start(&mut self, link: L, tls: T) -> Poll<Result<MaybeTls<L, StreamOf<L, T>>, Error>>
        ensures answer { (from : L) → Chose (known L.view T.connects T.begins T.Future.polled) self.old.settings from tls link self.old.asked choices.Shakes →
            TlsAnswers (known L.view T.connects T.begins T.Future.polled) self.old.settings from tls self.new.asked self.new.stage result }
        ensures pending { OnPending result (WaitsOn (known L.view T.connects T.begins T.Future.polled) self.new.moved (Stage.Over None) self.new.stage) }
        ensures open { OnPending result (IsOpen self.new.stage) }
        ensures same { self.new.settings ≡ self.old.settings }
    {
        let quiet = link.quiet();
        self.shake(tls.connect(link), quiet)
    }

    /// The handshake goes on.
    fn shake(
        &mut self,
        handshake: T::Future,
        quiet: u64,
    ) -> Poll<Result<MaybeTls<L, StreamOf<L, T>>, Error>>
        ensures answer { (link : L) (tls : T) → IsBegun (known L.view T.connects T.begins T.Future.polled) self.old.settings link tls self.old.asked quiet handshake →
            TlsAnswers (known L.view T.connects T.begins T.Future.polled) self.old.settings link tls self.new.asked self.new.stage result }
        ensures pending { OnPending result (WaitsOn (known L.view T.connects T.begins T.Future.polled) self.new.moved (Stage.Shaking handshake quiet) self.new.stage) }
        ensures open { OnPending result (IsOpen self.new.stage) }
        ensures same { self.new.settings ≡ self.old.settings }
    {
        let mut handshake = handshake;
        self.moved = true;
        match handshake.poll() {
            Poll::Pending => {
                self.stage = Stage::Shaking(handshake, quiet);
                Poll::Pending
            }
            Poll::Ready(Ok(stream)) => Poll::Ready(Ok(MaybeTls::Tls(stream))),
            Poll::Ready(Err(_)) => Poll::Ready(Err(Error::Tls(Cause::Handshake))),
        }
    }

    /// Waits until the link may be ready. While a handshake has the link, it is Ready at once.
    pub fn wait(&mut self) -> LinkWait
        requires open { IsOpen self.old.stage }
        ensures waits { Waits L.view self.old.stage self.new.stage result }
        ensures same { self.new ≡ record self.old { stage = self.new.stage } }
    {
        match &mut self.stage {
            Stage::Fresh(link, _) => link.wait(),
            Stage::Asking(question) => question.link.wait(),
            _ => LinkWait::Ready,
        }
    }

    /// How often a call of the link wasn't ready. While a handshake has the link, how often before it.
    pub fn quiet(&self) -> u64
        requires open { IsOpen self.now.stage }
        ensures { quiet_of L.view self.now.stage ≡ Some result }
    {
        match &self.stage {
            Stage::Fresh(link, _) => link.quiet(),
            Stage::Asking(question) => question.link.quiet(),
            Stage::Shaking(_, quiet) => *quiet,
            Stage::Over(_) => 0,
        }
    }
}
