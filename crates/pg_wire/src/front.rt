//! The whole message in front of received bytes, and where the batch in front of them ends.

ghost use Rattle.std.specs.Prelude.{◌≡◌, true, false, length};
ghost use Rattle.pg_spec.specs.RawMessages.{messages};
ghost use Rattle.pg_wire.specs.Fronts.{FrontIs, IsCut, is_aside_tag};

use crate::header::Header;

/// What stands in front of some bytes.
#[derive(Clone, Copy, Debug, PartialEq, Eq, Drop)]
pub(crate) enum Found {
    /// A whole message of so many bytes.
    Whole(usize),
    /// Too few bytes for the message or its header.
    Short,
    /// A header whose length is below 4.
    Bad,
}

/// Looks at the header in front.
pub(crate) fn front(s: &[u8]) -> Found
    ensures { FrontIs s.now result }
{
    let header = match Header::parse(s) {
        Ok(Some(header)) => header,
        Ok(None) => return Found::Short,
        Err(_) => return Found::Bad,
    };
    let n = header.len() as usize + 1;
    if s.len() < n {
        Found::Short
    } else {
        Found::Whole(n)
    }
}

/// NoticeResponse, NotificationResponse or ParameterStatus, which answer no request.
pub(crate) fn is_aside(tag: u8) -> bool
    ensures { result ≡ is_aside_tag tag }
{
    tag == b'N' || tag == b'A' || tag == b'S'
}

/// An end of a batch: behind how many bytes, and whether the batch has its ReadyForQuery.
#[derive(Clone, Copy, Debug, PartialEq, Eq, Drop)]
pub(crate) struct Cut {
    pub at: usize,
    pub complete: bool,
}

/// How many whole messages stand in front.
pub(crate) fn count(s: &[u8]) -> usize
    ensures { result ≡ length (messages s.now) }
{
    let mut at = 0;
    let mut n = 0;
    loop {
        match front(&s[at..]) {
            Found::Whole(len) => {
                at += len;
                n += 1;
            }
            _ => return n,
        }
    }
}

/// Where the batch in front ends: behind its ReadyForQuery, before a message aside, or where whole
/// messages run out.
pub(crate) fn batch_end(s: &[u8]) -> Cut
    ensures { IsCut s.now result.at result.complete }
{
    let mut at = 0;
    loop {
        let n = match front(&s[at..]) {
            Found::Whole(n) => n,
            _ => return Cut {
                at,
                complete: false,
            },
        };
        let tag = s[at];
        if is_aside(tag) {
            return Cut {
                at,
                complete: false,
            };
        }
        at += n;
        if tag == b'Z' {
            return Cut { at, complete: true };
        }
    }
}
