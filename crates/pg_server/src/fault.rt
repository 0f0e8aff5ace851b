//! Why a server refuses what it is given.

use pg_types::WireFault;
use thiserror::Error;

/// Why a server can't be made, or goes no further.
#[derive(Clone, Copy, Debug, PartialEq, Eq, Error, Drop)]
pub enum ServerFault {
    /// The startup isn't AuthenticationOk, then BackendKeyData, ParameterStatus and NoticeResponse in any number, then
    /// ReadyForQuery.
    #[error("bad startup")]
    BadStartup,
    /// A startup frame of another version than 3.0, with its number. A GSSENCRequest counts as one, of version 80877104.
    #[error("version {0} is unknown")]
    Version(u32),
    /// A CancelRequest.
    #[error("a request to cancel")]
    Cancel,
    /// A frame that can't be read. Before the startup frame: BadLength for a length below 8, and for another length than
    /// its own of an SSLRequest or a CancelRequest, and Layout for a startup frame of version 3.0 that breaks its form.
    /// Behind it as `Frame::parse` has it.
    #[error("bad frame: {0}")]
    BadFrame(WireFault),
    /// The handler's answer to the frame of this number isn't one that a server may give. Frames are counted from 0,
    /// behind the startup frame.
    #[error("bad answer to frame {0}")]
    BadEffect(u64),
    /// Bytes came behind Terminate, or it was fed behind Terminate or a fault.
    #[error("the session is over")]
    Ended,
    #[error("out of memory")]
    OutOfMemory,
}
