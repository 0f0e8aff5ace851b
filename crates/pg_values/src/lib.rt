//! Composed values: arrays, ranges, composites, enums, domains, numbers of any scale, dates, timestamps and uuids, read from their
//! binary form and written in it.
#![tactic(auto)]

mod arrays;
mod datum;
mod datum_from_sql;
mod datum_to_sql;
mod display;
mod escape;
pub mod laws;
mod lists;
mod numeric;
mod numeric_written;
mod parts;
mod put;
mod quotes;
mod ranges;
mod reading;
mod scalars;
mod scalars_written;
mod supported;
mod time_text;
mod wide;
mod writing;

pub use datum::{Bound, Datum, Dim};
pub use reading::read_datum;
pub use wide::Wide;
pub use writing::write_datum;
