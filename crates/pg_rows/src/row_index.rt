//! Which column of a row is meant.

ghost use Rattle.std.specs.Prelude.{◌≡◌, ◌⊎◌, List, ℕ, map, IfOk, IfErr};
ghost use Rattle.std.specs.List.{position};
ghost use Rattle.std.specs.Str.{bytes_eq, str_eq_ignore_ascii_case};
ghost use Rattle.pg_types.specs.declared.error.Error.TheVariants as error;
ghost use Rattle.pg_rows.specs.Places.{index_text, place_of};

use crate::simple_column::SimpleColumn;
use pg_desk::Column;
use pg_types::{Error, Text};
use std::alloc::Global;

/// Which column of a row is meant.
#[derive(Clone, Copy, Debug, Drop)]
pub enum RowIndex<'a> {
    /// The one at this place, from 0.
    At(usize),
    /// The first of exactly this name; where there is none, the first whose name differs in the case of ASCII letters
    /// alone.
    Name(&'a str),
}

/// A column that has a name.
pub(crate) trait AsName {
    /// The name.
    ghost name: { Self → List ℕ };

    /// The name.
    fn as_name(&self) -> &str
        ensures { result.now ≡ name self.now };
}

impl AsName for Column {
    ghost name = { λ c. c.name };

    fn as_name(&self) -> &str {
        self.name()
    }
}

impl AsName for SimpleColumn {
    ghost name = { λ c. c.name };

    fn as_name(&self) -> &str {
        self.name()
    }
}

/// The column has exactly this name.
fn is_named<C: AsName>(column: &C, name: &str) -> bool
    ensures { result ≡ bytes_eq (C.name column.now) name.now }
{
    column.as_name() == name
}

/// The column has this name up to the case of ASCII letters.
fn is_named_in_any_case<C: AsName>(column: &C, name: &str) -> bool
    ensures { result ≡ str_eq_ignore_ascii_case (C.name column.now) name.now }
{
    column.as_name().eq_ignore_ascii_case(name)
}

/// The first column of exactly this name.
fn place_of_equal<C: AsName>(columns: &[C], name: &str) -> Option<usize>
    ensures { result ≡ position (λ n. bytes_eq n name.now) (map C.name columns.now) }
{
    columns.iter().position(|column| is_named(column, name))
}

/// The first column of this name up to the case of ASCII letters.
fn place_in_any_case<C: AsName>(columns: &[C], name: &str) -> Option<usize>
    ensures { result ≡ position (λ n. str_eq_ignore_ascii_case n name.now) (map C.name columns.now) }
{
    columns
        .iter()
        .position(|column| is_named_in_any_case(column, name))
}

/// The place of the column that is meant, None where there is none.
pub(crate) fn place_of<C: AsName>(columns: &[C], index: RowIndex<'_>) -> Option<usize>
    ensures { result ≡ place_of index.entry (map C.name columns.now) }
{
    match index {
        RowIndex::At(place) if place < columns.len() => Some(place),
        RowIndex::At(_) => None,
        RowIndex::Name(name) => match place_of_equal(columns, name) {
            Some(place) => Some(place),
            None => place_in_any_case(columns, name),
        },
    }
}

/// The name that was asked for, or the place in decimal.
fn text_of(alloc: Global, index: RowIndex<'_>) -> Result<Text, Error>
    ensures text { IfOk result (λ text. text ≡ index_text index.entry) }
    ensures lacks { IfErr result (λ e. e ≡ error.OutOfMemory) }
{
    match index {
        RowIndex::At(place) => Ok(Text::new(format!(in alloc; "{place}")?)),
        RowIndex::Name(name) => Ok(Text::from_str(alloc, name)?),
    }
}

/// The error of an index that means no column, or want of memory.
pub(crate) fn no_column(alloc: Global, index: RowIndex<'_>) -> Error
    ensures { (result ≡ error.OutOfMemory) ⊎ (result ≡ error.Column (index_text index.entry)) }
{
    match text_of(alloc, index) {
        Ok(text) => Error::Column(text),
        Err(error) => error,
    }
}
