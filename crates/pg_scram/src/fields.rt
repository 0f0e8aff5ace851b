//! The attributes of a SCRAM message (RFC 5802, section 5).

ghost use Rattle.std.specs.Prelude.{◌≡◌, ◌∷◌, [], ◌==◌, option_map, MatchOption};
ghost use Rattle.std.specs.List.{position};
ghost use Rattle.std.specs.Str.{byte};
ghost use Rattle.pg_spec.specs.Passwords.{after_prefix};
ghost use Rattle.pg_scram.specs.Challenge.{fields_of, three_of};

/// The place of the first comma.
fn comma(text: &[u8]) -> Option<usize>
    ensures { result ≡ position (λ c. c == byte ",") text.now }
{
    text.iter().position(|c| *c == b',')
}

/// What stands before the first comma, and what behind it.
fn cut_at_comma(text: &[u8]) -> Option<(&[u8], &[u8])>
    ensures { MatchOption result (fields_of text.now ≡ text.now ∷ []) (λ cut. fields_of text.now ≡ cut.0.now ∷ fields_of cut.1.now) }
{
    match comma(text) {
        Some(at) => Some((&text[..at], &text[at + 1..])),
        None => None,
    }
}

/// The three fields of a text that has three.
pub(crate) fn three_fields(text: &[u8]) -> Option<(&[u8], &[u8], &[u8])>
    ensures { option_map (λ fields. (fields.0.now, (fields.1.now, fields.2.now))) result ≡ three_of (fields_of text.now) }
{
    let Some((first, rest)) = cut_at_comma(text) else {
        return None;
    };
    let Some((second, third)) = cut_at_comma(rest) else {
        return None;
    };
    match cut_at_comma(third) {
        Some(_) => None,
        None => Some((first, second, third)),
    }
}

/// The value of a field with this name.
pub(crate) fn value_of<'a>(field: &'a [u8], name: &[u8]) -> Option<&'a [u8]>
    ensures { option_map (λ value. value.now) result ≡ after_prefix name.now field.now }
{
    if field.starts_with(name) {
        Some(&field[name.len()..])
    } else {
        None
    }
}
