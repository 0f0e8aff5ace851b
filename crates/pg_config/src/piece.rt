//! Texts cut at a mark.

ghost use Rattle.std.specs.Prelude.{◌≡◌, ◌≢◌, ◌<◌, ℕ, length, slice_index, EachIndex, IfSome, MatchOption, option_map};
ghost use Rattle.pg_config.specs.Pieces.{IsCut, before, behind};

/// What stands before the first `mark`, and what stands behind it.
pub(crate) fn cut(text: &[u8], mark: u8) -> (&[u8], Option<&[u8]>)
    ensures cut { IsCut mark text.now result.0.now (option_map (λ behind. behind.now) result.1) }
    ensures front { result.0.now ≡ before mark text.now }
    ensures behind { option_map (λ behind. behind.now) result.1 ≡ behind mark text.now }
    ensures shorter { IfSome result.1 (λ behind. length behind.now < length text.now) }
{
    match place_of(text, mark) {
        Some(at) => (&text[..at], Some(&text[at + 1..])),
        None => (text, None),
    }
}

/// Where the first `mark` is.
fn place_of(text: &[u8], mark: u8) -> Option<usize>
    ensures { MatchOption result
        (EachIndex text.now (λ k. slice_index text.now k ≢ mark))
        (λ at. (at < length text.now) × (slice_index text.now at ≡ mark) × ((k : ℕ) → k < at → slice_index text.now k ≢ mark)) }
{
    text.iter().position(|byte| *byte == mark)
}
