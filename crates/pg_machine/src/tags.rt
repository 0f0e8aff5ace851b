//! What a reply holds, by the tags of its messages.

ghost use Rattle.std.specs.Prelude.{◌≡◌};
ghost use Rattle.std.specs.List.{list_any};
ghost use Rattle.pg_spec.specs.Batches.{is_nothing};
ghost use Rattle.pg_spec.specs.RawMessages.{messages, bytes_left, is_ready, ends_in};
ghost use Rattle.pg_machine.specs.Serving.{is_error};
ghost use Rattle.pg_machine.specs.Requests.{is_copy_in};
ghost use Rattle.pg_machine.specs.Tags.{heard, has_two, AreBytes, sounds};

use crate::front::{Found, front};

/// Which messages stand in a reply.
#[derive(Clone, Copy, Debug, PartialEq, Eq, Drop)]
pub struct Tags {
    /// Whole messages alone stand there.
    pub whole: bool,
    /// A ReadyForQuery is among them.
    pub ready: bool,
    /// An ErrorResponse is among them.
    pub error: bool,
    /// A CopyInResponse is among them.
    pub copy_in: bool,
    /// A second one is.
    pub again: bool,
    /// The last is a CopyInResponse.
    pub ends: bool,
}

impl Tags {
    /// With a message of this tag behind the others.
    fn with(self, tag: u8) -> Tags
        ensures { result ≡ heard self tag }
    {
        Tags {
            whole: self.whole,
            ready: self.ready || tag == b'Z',
            error: self.error || tag == b'E',
            copy_in: self.copy_in || tag == b'G',
            again: self.again || (self.copy_in && tag == b'G'),
            ends: tag == b'G',
        }
    }
}

/// The tags of a reply, of which each header is looked at once.
pub fn tags_of(reply: &[u8]) -> Tags
    ensures bytes { AreBytes reply.now }
    ensures whole { result.whole ≡ is_nothing (bytes_left reply.now) }
    ensures ready { result.ready ≡ list_any is_ready (messages reply.now) }
    ensures error { result.error ≡ list_any is_error (messages reply.now) }
    ensures copy_in { result.copy_in ≡ list_any is_copy_in (messages reply.now) }
    ensures again { result.again ≡ has_two is_copy_in (messages reply.now) }
    ensures ends { result.ends ≡ ends_in is_copy_in (messages reply.now) }
{
    let mut at = 0;
    let mut tags = Tags {
        whole: false,
        ready: false,
        error: false,
        copy_in: false,
        again: false,
        ends: false,
    };
    while let Found::Whole(n) = front(&reply[at..]) {
        tags = tags.with(reply[at]);
        at += n;
    }
    let whole = at == reply.len();
    Tags {
        whole,
        ready: tags.ready,
        error: tags.error,
        copy_in: tags.copy_in,
        again: tags.again,
        ends: tags.ends,
    }
}

/// A reply of these tags may be given to a frame, which is an Execute or not, where it opens a copy or doesn't.
pub fn may_answer(tags: Tags, executes: bool, opens: bool) -> bool
    ensures { result ≡ sounds tags executes opens }
{
    if !tags.whole || tags.ready {
        return false;
    }
    if opens {
        executes && tags.ends && !tags.error
    } else {
        !tags.copy_in
    }
}
