//! The fields of an error or a notice (PostgreSQL documentation, "Error and Notice Message Fields").

ghost use Rattle.std.specs.Prelude.{◌≡◌, ◌<◌, length, IfOk, IfSome};
ghost use Rattle.pg_wire.specs.Steps.{Steps, error_step};

use crate::body::ErrorResponseBody;
use crate::texts::text_end;
use pg_types::WireFault;
use std::marker::Model;

/// A field: the byte that says what it is, and its text.
#[derive(Drop)]
pub struct ErrorField<'a> {
    type_: u8,
    value: &'a [u8],
}

impl<'a> Model for ErrorField<'a> {
    ghost use Rattle.pg_spec.specs.DbErrors as spec;

    ghost Value = { spec.ErrorField };

    ghost view = { λ f. record { kind = f.type_; text = f.value.now } };
}

impl<'a> ErrorField<'a> {
    /// The byte that says what the field is, as `S` for the severity.
    pub fn type_(&self) -> u8
        ensures { result ≡ self.now.kind }
    {
        self.type_
    }

    /// The text without the zero byte that ends it. Whether it is UTF-8 isn't looked at.
    pub fn value_bytes(&self) -> &'a [u8]
        ensures { result.now ≡ self.now.text }
    {
        self.value
    }
}

/// The fields not yet read, seen as the bytes that hold them.
#[derive(Drop)]
pub struct ErrorFields<'a> {
    bytes: &'a [u8],
}

impl<'a> Model for ErrorFields<'a> {
    ghost use Rattle.std.specs.Prelude.{List, ℕ};

    ghost Value = { List ℕ };

    ghost view = { λ f. f.bytes.now };
}

impl ErrorResponseBody {
    /// Reads the fields one after another.
    pub fn fields(&self) -> ErrorFields<'_>
        ensures { result ≡ self.now.fields }
    {
        ErrorFields {
            bytes: self.fields.as_slice(),
        }
    }
}

impl<'a> ErrorFields<'a> {
    /// The next field, or None at the zero byte that ends them. Layout comes where bytes run out, and
    /// where bytes are left behind that zero byte; what is left is then as before.
    pub fn next(&mut self) -> Result<Option<ErrorField<'a>>, WireFault>
        ensures step { Steps (error_step self.old) self.old self.new result }
        ensures shorter { IfOk result (λ field. IfSome field (λ _. length self.new < length self.old)) }
    {
        let [type_, rest @ ..] = self.bytes else {
            return Err(WireFault::Layout);
        };
        if *type_ == 0 {
            if rest.is_empty() {
                return Ok(None);
            }
            return Err(WireFault::Layout);
        }
        let end = match text_end(rest) {
            Some(end) => end,
            None => return Err(WireFault::Layout),
        };
        self.bytes = &rest[end + 1..];
        Ok(Some(ErrorField {
            type_: *type_,
            value: &rest[..end],
        }))
    }
}
