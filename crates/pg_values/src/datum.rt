//! A value of any supported type.

use crate::wide::Wide;
use pg_types::{Blob, Held, List, Text};

/// A dimension of an array (PostgreSQL documentation, "Arrays").
#[derive(Clone, Copy, Debug, PartialEq, Eq, Drop)]
pub struct Dim {
    /// How many items it has, at least 1.
    pub len: i32,
    /// The subscript of its first item; 1 unless another was given.
    pub lower: i32,
}

/// A bound of a range (PostgreSQL documentation, "Range Types").
#[derive(Clone, Copy, Debug, PartialEq, Eq, Drop)]
pub enum Bound {
    /// There is no bound on this side.
    Infinite,
    /// The bound's value belongs to the range.
    Inclusive,
    /// The bound's value doesn't belong to the range.
    Exclusive,
}

/// A value of any supported type (PostgreSQL documentation, "Data Types"; the binary forms are those of the send functions in the
/// source file that is named).
#[derive(Debug, Drop)]
pub enum Datum {
    /// No value, of any type.
    Null,
    /// bool (bool.c).
    Bool(bool),
    /// "char", int2, int4, int8, oid (char.c, int.c, int8.c, oid.c).
    Int(i64),
    /// text, varchar, bpchar, name, unknown (varlena.c, varchar.c, name.c).
    Text(Text),
    /// bytea (varlena.c).
    Bytes(Blob),
    /// One of the labels of an enum (enum.c).
    Label(Text),
    /// A numeric that is NaN (numeric.c).
    NotANumber,
    /// A numeric (numeric.c).
    Numeric {
        /// The number times ten to the power of `scale`; of at most 38 decimals.
        unscaled: Wide,
        /// How many decimals stand behind the point, from 0 to 38.
        scale: u16,
    },
    /// Days from 2000-01-01; the lowest and the highest are minus and plus infinity (date.c).
    Date(i32),
    /// Microseconds from the begin of 2000-01-01, of a timestamptz in UTC; the lowest and the highest are minus and plus infinity
    /// (timestamp.c).
    Timestamp(i64),
    /// Sixteen bytes (uuid.c).
    Uuid(Blob),
    /// An array (arrayfuncs.c).
    Array {
        /// From 0 to 6 dimensions, the outermost first.
        dims: Held<List<Dim>>,
        /// As many items as the product of the lengths, the last dimension running fastest; none where there is no dimension.
        items: List<Datum>,
    },
    /// A range (rangetypes.c).
    Range {
        /// It has no value in it; both bounds are then `Infinite`.
        empty: bool,
        /// The bound below.
        lower: Bound,
        /// The bound above.
        upper: Bound,
        /// The values of the bounds that aren't infinite, the lower first.
        bounds: List<Datum>,
    },
    /// The fields of a composite, in their order (rowtypes.c).
    Composite(List<Datum>),
}
