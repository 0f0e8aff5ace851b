//! TLS that a session requires. Its connector is `NoTls`, which can't connect, so such a session ends in an error.

ghost use Rattle.std.specs.Prelude.{◌≡◌, ◌^◌, ◌<◌, ◌≤◌};
ghost use Rattle.pg_spec.specs.Links.{LinkView};
ghost use Rattle.pg_connect.specs.Calm.{StaysCalm};
ghost use Rattle.pg_startup.specs.SslRequests.{Asking};
ghost use Rattle.pg_tool.specs.Required.{AskEnds, AsksWithin, tls_error};

use futures::task::Poll;
use pg_config::SslMode;
use pg_errors::{Cause, Error};
use pg_open::TlsChoice;
use pg_play::pause;
use pg_startup::SslRequest;
use pg_wire::Link;
use std::alloc::Global;

/// Polls the request for TLS until it answers. Where a poll moved nothing the link is waited for, and where the next one
/// moves nothing either, the session is stalled.
#[tactic(auto, using(pg_play::proofs::Calming::calm_none))]
fn ask<L: Link>(request: &mut SslRequest, link: &mut L) -> Result<u8, Error>
    requires limit { request.old.bytes.max_bytes < 2 ^ 63 }
    requires given { request.old.bytes.given ≤ request.old.bytes.max_bytes }
    ensures answer { (begin : LinkView) → Asking begin (L.view link.old) request.old → StaysCalm begin (L.view link.old) →
        AskEnds begin (L.view link.new) request.new result }
    ensures same { request.new.bytes.max_bytes ≡ request.old.bytes.max_bytes }
{
    let mut waited = false;
    'polls: loop {
        let before = link.quiet();
        match request.poll(link) {
            Poll::Ready(answer) => return answer,
            Poll::Pending => {}
        }
        let after = link.quiet();
        waited = pause(link, request.moved(), waited, before, after)?;
    }
}

/// Asks the server for TLS, and says why the session ends: Tls(Handshake) comes exactly where the server has TLS,
/// Tls(Refused) exactly where it has none. Before its byte come Io, LimitReached where the limit allows no byte, Stalled.
pub(crate) fn ask_in_vain<L: Link>(alloc: Global, max_bytes: u64, link: &mut L) -> Error
    requires { max_bytes < 2 ^ 63 }
    ensures { AsksWithin max_bytes (L.view link.old) (L.view link.new) result }
{
    let Ok(mut request) = SslRequest::new(alloc, max_bytes) else {
        return Error::OutOfMemory;
    };
    match ask(&mut request, link) {
        Ok(byte) => error_of(TlsChoice::after_byte(SslMode::Require, true, byte)),
        Err(error) => error,
    }
}

/// What a choice of TLS comes to over `NoTls`, whose handshake fails at once.
fn error_of(choice: TlsChoice) -> Error
    ensures { result ≡ tls_error choice }
{
    match choice {
        TlsChoice::Fails(cause) => Error::Tls(cause),
        _ => Error::Tls(Cause::Handshake),
    }
}
