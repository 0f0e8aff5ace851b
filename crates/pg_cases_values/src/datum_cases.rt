//! What a case of composed values calls.

use crate::{datum_parameters, datums, many, row_cases};
use pg_cases::words::{at, text_at};
use std::alloc::{AllocError, Global};

/// What a case of composed values or of rows gives, by its first word.
pub(crate) fn tell(alloc: Global, words: &[Vec<u8>], out: &mut String) -> Result<(), AllocError> {
    match text_at(words, 0) {
        "read" => datums::tell(alloc, text_at(words, 1), text_at(words, 2), out),
        "write" => datums::tell_write(
            alloc,
            text_at(words, 1),
            text_at(words, 2),
            at(words, 3),
            out,
        ),
        "parameter" => datum_parameters::tell(alloc, words, out),
        "many" => many::tell(alloc, words, out),
        "size" => datums::tell_size(out),
        _ => row_cases::tell(alloc, words, out),
    }
}
