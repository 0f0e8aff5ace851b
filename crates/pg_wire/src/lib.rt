//! Links to the server, and the frames and messages that cross them. Nothing here does input or
//! output by itself but the adapters over `Read` and `Write`.
//! The frames that a client writes behind the startup frame, and for a password or a cancel.
#![tactic(auto)]

mod alone;
mod backend;
mod binding;
mod body;
mod codec;
mod copying;
mod error_fields;
pub mod frame;
mod frame_items;
mod frames_laws;
mod front;
mod frontend;
mod giving;
mod header;
mod laws;
mod layout;
mod link;
mod mechanisms;
mod memory_link;
mod memory_stream;
mod message;
mod named;
mod parameters;
mod parsing;
mod password;
mod ranges;
mod row_fields;
mod std_stream;
mod stream;
mod texts;
mod turning;

pub use alone::{cancel_request, copy_done, flush, ssl_request, sync};
pub use backend::BackendMessages;
pub use binding::bind;
pub use body::{
    AuthenticationGssContinueBody, AuthenticationMd5PasswordBody, AuthenticationSaslBody,
    AuthenticationSaslContinueBody, AuthenticationSaslFinalBody, BackendKeyDataBody,
    CommandCompleteBody, CopyDataBody, CopyInResponseBody, CopyOutResponseBody, DataRowBody,
    ErrorResponseBody, NotificationResponseBody, ParameterDescriptionBody, ParameterStatusBody,
    ReadyForQueryBody, RowDescriptionBody,
};
pub use codec::{BackendMessage, FrontendMessage, PostgresCodec};
pub use copying::copy_fail;
pub use error_fields::{ErrorField, ErrorFields};
pub use frames_laws::{
    answers_are_read_back, opening_frames_are_read_back, requests_are_read_back,
    short_frames_are_read_back,
};
pub use frontend::{StartupParams, TERMINATE, copy_data, query, startup_message, terminate};
pub use header::Header;
pub use laws::{cuttings_of_a_stream, steps_of_a_body};
pub use link::{Link, LinkRead, LinkStep, LinkWait, LinkWrite};
pub use mechanisms::SaslMechanisms;
pub use memory_link::MemoryLink;
pub use memory_stream::{MemorySink, MemorySource};
pub use message::Message;
pub use named::{close, describe, execute};
pub use parameters::Parameters;
pub use parsing::parse;
pub use password::{password_message, sasl_initial_response, sasl_response};
pub use pg_types::{FrameFault, WireFault};
pub use ranges::DataRowRanges;
pub use row_fields::{Field, Fields};
pub use std_stream::{ReadSource, WriteSink};
pub use stream::{Sink, SinkFlush, SinkWrite, Source, SourceRead};
