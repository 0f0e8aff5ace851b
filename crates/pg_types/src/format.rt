//! How a value stands in a message.

/// A value is null, or its bytes were written.
#[derive(Clone, Copy, Debug, PartialEq, Eq, Drop)]
pub enum IsNull {
    Yes,
    No,
}

/// The form of a value's bytes (PostgreSQL documentation, "Formats and Format Codes").
#[derive(Clone, Copy, Debug, PartialEq, Eq, Drop)]
pub enum Format {
    Text,
    Binary,
}
