//! The columns of a RowDescription (PostgreSQL documentation, "Message Formats", under RowDescription).

ghost use Rattle.std.specs.Prelude.{◌≡◌, ◌<◌, MatchResult, IfOk, IfSome};
ghost use Rattle.pg_spec.specs.Bodies.{utf8_at, field_at};
ghost use Rattle.pg_wire.specs.Steps.{Steps, Refuses, field_step};

use crate::body::RowDescriptionBody;
use crate::texts::{text_end, utf8};
use bytes::Buf;
use pg_types::WireFault;
use std::marker::Model;

/// A column of a result.
#[derive(Drop)]
pub struct Field<'a> {
    name: &'a str,
    table_oid: u32,
    column_id: i16,
    type_oid: u32,
    type_size: i16,
    type_modifier: i32,
    format: i16,
}

impl<'a> Model for Field<'a> {
    ghost use Rattle.pg_spec.specs.Bodies as spec;

    ghost Value = { spec.Field };

    ghost view = { λ f. record { name = f.name.now; table_oid = f.table_oid; column_id = f.column_id; type_oid = f.type_oid; type_size = f.type_size; type_modifier = f.type_modifier; format = f.format } };
}

impl<'a> Field<'a> {
    /// Its name, without the zero byte that ends it.
    pub fn name(&self) -> &'a str
        ensures { result.now ≡ self.now.name }
    {
        self.name
    }

    /// The table of which it is a column, 0 for none.
    pub fn table_oid(&self) -> u32
        ensures { result ≡ self.now.table_oid }
    {
        self.table_oid
    }

    /// Its number in the table, 0 for none.
    pub fn column_id(&self) -> i16
        ensures { result ≡ self.now.column_id }
    {
        self.column_id
    }

    /// The type of its values.
    pub fn type_oid(&self) -> u32
        ensures { result ≡ self.now.type_oid }
    {
        self.type_oid
    }

    /// In bytes; a negative size is that of a type whose values differ in size.
    pub fn type_size(&self) -> i16
        ensures { result ≡ self.now.type_size }
    {
        self.type_size
    }

    /// What the type makes of it is the type's own, -1 for none.
    pub fn type_modifier(&self) -> i32
        ensures { result ≡ self.now.type_modifier }
    {
        self.type_modifier
    }

    /// 0 for text, 1 for binary.
    pub fn format(&self) -> i16
        ensures { result ≡ self.now.format }
    {
        self.format
    }

    /// Reads a column off the front, its name first.
    fn read(bytes: &'a [u8]) -> Result<(Field<'a>, &'a [u8]), WireFault>
        ensures { MatchResult result (λ read. field_at bytes.now ≡ Ok (read.0, read.1.now)) (λ fault. Refuses (field_at bytes.now) fault) }
    {
        let (name, mut rest) = text(bytes)?;
        let Ok(table_oid) = rest.try_get_u32() else {
            return Err(WireFault::Layout);
        };
        let Ok(column_id) = rest.try_get_i16() else {
            return Err(WireFault::Layout);
        };
        let Ok(type_oid) = rest.try_get_u32() else {
            return Err(WireFault::Layout);
        };
        let Ok(type_size) = rest.try_get_i16() else {
            return Err(WireFault::Layout);
        };
        let Ok(type_modifier) = rest.try_get_i32() else {
            return Err(WireFault::Layout);
        };
        let Ok(format) = rest.try_get_i16() else {
            return Err(WireFault::Layout);
        };
        let field = Field {
            name,
            table_oid,
            column_id,
            type_oid,
            type_size,
            type_modifier,
            format,
        };
        Ok((field, rest))
    }
}

/// Reads a text that must be UTF-8.
fn text(bytes: &[u8]) -> Result<(&str, &[u8]), WireFault>
    ensures { MatchResult result (λ read. utf8_at bytes.now ≡ Ok (read.0.now, read.1.now)) (λ fault. Refuses (utf8_at bytes.now) fault) }
{
    let Some(end) = text_end(bytes) else {
        return Err(WireFault::Layout);
    };
    let text = utf8(&bytes[..end])?;
    Ok((text, &bytes[end + 1..]))
}

/// The columns not yet read.
#[derive(Drop)]
pub struct Fields<'a> {
    count: u16,
    bytes: &'a [u8],
}

impl<'a> Model for Fields<'a> {
    ghost use Rattle.pg_wire.specs.Steps.{ItemsLeft};

    ghost Value = { ItemsLeft };

    ghost view = { λ f. record { count = f.count; bytes = f.bytes.now } };
}

impl RowDescriptionBody {
    /// Reads the columns one after another.
    pub fn fields(&self) -> Fields<'_>
        ensures { result ≡ record { count = self.now.count; bytes = self.now.fields } }
    {
        Fields {
            count: self.count,
            bytes: self.fields.as_slice(),
        }
    }
}

impl<'a> Fields<'a> {
    /// How many columns the message says are left.
    pub fn len(&self) -> usize
        ensures { result ≡ self.now.count }
    {
        self.count as usize
    }

    /// The next column, or None behind the last. Layout comes where bytes run out, and where bytes are
    /// left behind the last column, NotUtf8 where the name isn't UTF-8; what is left is then as before.
    pub fn next(&mut self) -> Result<Option<Field<'a>>, WireFault>
        ensures step { Steps (field_step self.old) self.old self.new result }
        ensures fewer { IfOk result (λ field. IfSome field (λ _. self.new.count < self.old.count)) }
    {
        if self.count == 0 {
            if self.bytes.is_empty() {
                return Ok(None);
            }
            return Err(WireFault::Layout);
        }
        match Field::read(self.bytes) {
            Ok((field, rest)) => {
                self.count -= 1;
                self.bytes = rest;
                Ok(Some(field))
            }
            Err(fault) => Err(fault),
        }
    }
}
