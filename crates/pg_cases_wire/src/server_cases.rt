//! What a case of the server half, or of a link over a reader and a writer, calls.

use crate::{calls, feeds, links, read_frames};
use pg_cases::words::text_at;
use std::alloc::{AllocError, Global};

/// What such a case gives, by its first word.
pub(crate) fn tell(alloc: Global, words: &[Vec<u8>], out: &mut String) -> Result<(), AllocError> {
    match text_at(words, 0) {
        "read-frame" => read_frames::tell(alloc, words, out),
        "fronts" => read_frames::tell_fronts(alloc, words, out),
        "link" | "told_link" => links::tell(alloc, words, out),
        "feed" | "told" | "made" => feeds::tell(alloc, words, out),
        "stream" => calls::tell(alloc, feeds::from(words, 1), out),
        _ => out.push_str(" no such case"),
    }
}
