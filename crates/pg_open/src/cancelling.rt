//! A request of a session is cancelled, over a link of its own.

ghost use Rattle.std.specs.Prelude.{◌≡◌, FitsSigned};
ghost use Rattle.std.specs.Int.{w32};
ghost use Rattle.futures.specs.Poll.{OnPending};
ghost use Rattle.pg_open.specs.Links.{view_of};
ghost use Rattle.pg_open.specs.Choosing.{IsOpen, known};
ghost use Rattle.pg_open.specs.Cancelling.{CancelAnswers, CancelIdles, CancelStands, CancelWaits, IsGiven, IsOnlySending, IsStillOpen, IsUnderWay, Said, SaidEnds};

use crate::tls::TlsConnect;
use crate::{
    CancelQuery, CancelStage, CancelToken, ConnectTls, MaybeTls, NO_LIMIT, SessionInfo, StreamOf,
    TlsSettings,
};
use futures::task::Poll;
use pg_errors::{Cause, Error};
use pg_startup::Transfer;
use pg_wire::{Link, LinkStep, LinkWait};
use std::alloc::Global;
use std::mem;

impl CancelToken {
    /// A token for the session of which this is known.
    pub fn new(info: &SessionInfo) -> CancelToken
        ensures { result.info ≡ info.now }
    {
        CancelToken { info: *info }
    }

    /// Cancels what the session does, over a new link to its server (PostgreSQL documentation, "Canceling Requests in
    /// Progress"). There is TLS as for the session, to a host that has a name. It takes no memory.
    pub fn cancel_query_raw<L: Link + Drop, T: TlsConnect<L> + Drop>(
        &self,
        link: L,
        tls: T,
    ) -> CancelQuery<L, T>
        ensures info { result.info ≡ self.now.info }
        ensures stands { CancelStands (known L.view T.connects T.begins T.Future.polled) (view_of L.view T.Future.Stream.view) result.info link tls result.stage }
        ensures open { IsStillOpen result.stage }
    {
        let settings = TlsSettings {
            mode: self.info.ssl_mode,
            negotiation: self.info.ssl_negotiation,
            has_hostname: true,
            max_bytes: NO_LIMIT,
        };
        CancelQuery {
            info: self.info,
            stage: CancelStage::Choosing(ConnectTls::new(link, tls, settings)),
        }
    }
}

/// The process and the key of a session.
fn key_of(info: &SessionInfo) -> (i32, i32)
    ensures value { result ≡ (info.now.process_id, info.now.secret_key) }
    ensures fits { FitsSigned w32 result.0 × FitsSigned w32 result.1 }
{
    (info.process_id, info.secret_key)
}

/// Sends all that is unsent, and ends the writing side. `false`: the link isn't ready. Io comes where a call of the link
/// failed.
fn send_all<K: Link>(link: &mut K, bytes: &mut Transfer) -> Result<bool, Error>
    ensures said { Said bytes.old bytes.new (K.view link.old) (K.view link.new) }
    ensures end { SaidEnds bytes.old bytes.new (K.view link.old) (K.view link.new) result }
{
    if !bytes.send(link)? {
        return Ok(false);
    }
    match link.shutdown() {
        LinkStep::Done => Ok(true),
        LinkStep::NotReady => Ok(false),
        LinkStep::Failed => Err(Error::Io(Cause::Link)),
    }
}

impl<L: Link + Drop, T: TlsConnect<L> + Drop> CancelQuery<L, T> {
    /// Goes on until the CancelRequest was taken whole and passed on, and the writing side was ended. The server answers
    /// nothing. Pending comes only where a call of the link or stream wasn't ready in this poll, or the handshake was pending
    /// in it. Errors come as from `ConnectTls::poll`, and Io where a call of the link or stream failed.
    pub fn poll(&mut self, alloc: Global) -> Poll<Result<(), Error>>
        requires open { IsStillOpen self.old.stage }
        ensures answer { (link : L) (tls : T) → CancelStands (known L.view T.connects T.begins T.Future.polled) (view_of L.view T.Future.Stream.view) self.old.info link tls self.old.stage →
            CancelAnswers (known L.view T.connects T.begins T.Future.polled) (view_of L.view T.Future.Stream.view) self.old.info link tls self.new.stage result }
        ensures pending { OnPending result (CancelWaits (known L.view T.connects T.begins T.Future.polled) (view_of L.view T.Future.Stream.view) self.old.stage self.new.stage) }
        ensures open { OnPending result (IsStillOpen self.new.stage) }
        ensures same { self.new.info ≡ self.old.info }
    {
        match mem::replace(&mut self.stage, CancelStage::Over(None)) {
            CancelStage::Choosing(choice) => self.choose(alloc, choice),
            CancelStage::Sending(link, bytes) => self.send(link, bytes),
            CancelStage::Over(_) => Poll::Ready(Err(Error::Closed)),
        }
    }

    /// The choice of TLS, and what follows it.
    fn choose(&mut self, alloc: Global, choice: ConnectTls<L, T>) -> Poll<Result<(), Error>>
        requires open { IsOpen choice.stage }
        ensures answer { (link : L) (tls : T) → CancelStands (known L.view T.connects T.begins T.Future.polled) (view_of L.view T.Future.Stream.view) self.old.info link tls (CancelStage.Choosing choice) →
            CancelAnswers (known L.view T.connects T.begins T.Future.polled) (view_of L.view T.Future.Stream.view) self.old.info link tls self.new.stage result }
        ensures pending { OnPending result (CancelWaits (known L.view T.connects T.begins T.Future.polled) (view_of L.view T.Future.Stream.view) (CancelStage.Choosing choice) self.new.stage) }
        ensures open { OnPending result (IsStillOpen self.new.stage) }
        ensures same { self.new.info ≡ self.old.info }
    {
        let mut choice = choice;
        match choice.poll(alloc) {
            Poll::Ready(Ok(link)) => self.begin(alloc, link),
            Poll::Ready(Err(error)) => {
                self.stage = CancelStage::Choosing(choice);
                Poll::Ready(Err(error))
            }
            Poll::Pending => {
                self.stage = CancelStage::Choosing(choice);
                Poll::Pending
            }
        }
    }

    /// The CancelRequest is written.
    fn begin(&mut self, alloc: Global, link: MaybeTls<L, StreamOf<L, T>>) -> Poll<Result<(), Error>>
        ensures answer { (from : L) (tls : T) → IsGiven (known L.view T.connects T.begins T.Future.polled) (view_of L.view T.Future.Stream.view) self.old.info from tls link →
            CancelAnswers (known L.view T.connects T.begins T.Future.polled) (view_of L.view T.Future.Stream.view) self.old.info from tls self.new.stage result }
        ensures sending { OnPending result (IsOnlySending self.new.stage) }
        ensures same { self.new.info ≡ self.old.info }
    {
        let mut bytes = Transfer::new(alloc, 0, NO_LIMIT);
        let (process_id, secret_key) = key_of(&self.info);
        if pg_wire::cancel_request(process_id, secret_key, &mut bytes.unsent).is_err() {
            self.stage = CancelStage::Over(Some(link));
            return Poll::Ready(Err(Error::OutOfMemory));
        }
        self.send(link, bytes)
    }

    /// It is sent.
    fn send(
        &mut self,
        link: MaybeTls<L, StreamOf<L, T>>,
        bytes: Transfer,
    ) -> Poll<Result<(), Error>>
        ensures answer { (from : L) (tls : T) → IsUnderWay (known L.view T.connects T.begins T.Future.polled) (view_of L.view T.Future.Stream.view) self.old.info from tls link bytes →
            CancelAnswers (known L.view T.connects T.begins T.Future.polled) (view_of L.view T.Future.Stream.view) self.old.info from tls self.new.stage result }
        ensures pending { OnPending result (CancelWaits (known L.view T.connects T.begins T.Future.polled) (view_of L.view T.Future.Stream.view) (CancelStage.Sending link bytes) self.new.stage) }
        ensures sending { OnPending result (IsOnlySending self.new.stage) }
        ensures same { self.new.info ≡ self.old.info }
    {
        let mut link = link;
        let mut bytes = bytes;
        match send_all(&mut link, &mut bytes) {
            Ok(true) => {
                self.stage = CancelStage::Over(Some(link));
                Poll::Ready(Ok(()))
            }
            Ok(false) => {
                self.stage = CancelStage::Sending(link, bytes);
                Poll::Pending
            }
            Err(error) => {
                self.stage = CancelStage::Over(Some(link));
                Poll::Ready(Err(error))
            }
        }
    }

    /// Waits until the link or stream may be ready. While a handshake has the link, it is Ready at once.
    pub fn wait(&mut self) -> LinkWait
        requires open { IsStillOpen self.old.stage }
        ensures waits { CancelIdles L.view (view_of L.view T.Future.Stream.view) self.old.stage self.new.stage result }
        ensures same { self.new ≡ record self.old { stage = self.new.stage } }
    {
        match &mut self.stage {
            CancelStage::Choosing(choice) => choice.wait(),
            CancelStage::Sending(link, _) => link.wait(),
            CancelStage::Over(_) => LinkWait::Ready,
        }
    }
}
