//! How a case ends: what the links took, and the error.

use crate::connector::{Connector, Stream};
use pg_cases::written;
use pg_errors::Error;
use pg_open::{ConnectTls, MaybeTls, Stage};
use pg_wire::MemoryLink;
use std::alloc::AllocError;

/// What a link took.
pub(crate) fn tell_link(link: &MemoryLink, out: &mut String) -> Result<(), AllocError> {
    out.push_str(" took")?;
    written::tell(link.taken(), out)
}

/// What a link took, if it is there.
pub(crate) fn tell_left(link: &Option<MemoryLink>, out: &mut String) -> Result<(), AllocError> {
    match link {
        Some(link) => tell_link(link, out),
        None => Ok(()),
    }
}

/// What the link took, and then the stream over it.
pub(crate) fn tell_chosen(
    link: &MaybeTls<MemoryLink, Stream>,
    out: &mut String,
) -> Result<(), AllocError> {
    match link {
        MaybeTls::Raw(link) => tell_link(link, out),
        MaybeTls::Tls(stream) => {
            tell_left(&stream.under, out)?;
            out.push_str(" tls")?;
            tell_link(&stream.inside, out)
        }
    }
}

/// What the link took in a choice of TLS, unless a handshake has it.
pub(crate) fn tell_choice(
    choice: &ConnectTls<MemoryLink, Connector>,
    out: &mut String,
) -> Result<(), AllocError> {
    match &choice.stage {
        Stage::Fresh(link, _) => tell_link(link, out),
        Stage::Asking(question) => tell_link(&question.link, out),
        Stage::Shaking(_, _) => Ok(()),
        Stage::Over(link) => tell_left(link, out),
    }
}

/// An error.
pub(crate) fn tell_error(error: &Error, out: &mut String) -> Result<(), AllocError> {
    write!(out, " refused {error:?}")
}
