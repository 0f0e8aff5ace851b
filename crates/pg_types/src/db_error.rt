//! Errors and notices of the server.

ghost use Rattle.std.specs.Prelude.{◌≡◌, option_map, IfOk};
ghost use Rattle.std.specs.Option.{option_and_then, option_copied};
ghost use Rattle.pg_types.specs.Getters.{query_in, severity_name, text_of_field};

use crate::severity::Severity;
use crate::sql_state::SqlState;
use crate::{OutOfMemory, Text, copy_optional, optional_str};
use std::alloc::Global;
use std::fmt;

/// Where in a query the error lies, in characters from 1.
#[derive(Debug, Drop, PartialEq, Eq)]
pub enum ErrorPosition {
    /// In the query that was sent.
    Original(u32),
    /// In a query that the server made.
    Internal { position: u32, query: Text },
}

/// What an ErrorResponse or a NoticeResponse says (PostgreSQL documentation, "Error and Notice Message
/// Fields"). The getter of each field says what it is.
#[derive(Debug, Drop, PartialEq, Eq)]
pub struct DbError {
    pub severity: Text,
    pub parsed_severity: Option<Severity>,
    pub code: SqlState,
    pub message: Text,
    pub detail: Option<Text>,
    pub hint: Option<Text>,
    pub position: Option<ErrorPosition>,
    pub where_: Option<Text>,
    pub schema: Option<Text>,
    pub table: Option<Text>,
    pub column: Option<Text>,
    pub datatype: Option<Text>,
    pub constraint: Option<Text>,
    pub file: Option<Text>,
    pub line: Option<u32>,
    pub routine: Option<Text>,
}

impl DbError {
    /// In the language of the server's messages.
    pub fn severity(&self) -> &str
        ensures { result.now ≡ self.now.severity }
    {
        self.severity.as_str()
    }

    /// The severity that isn't translated, where the server tells it.
    pub fn parsed_severity(&self) -> Option<Severity>
        ensures { result ≡ self.now.parsed_severity }
    {
        self.parsed_severity
    }

    /// What kind of error it is.
    pub fn code(&self) -> &SqlState
        ensures { result.now ≡ self.now.code }
    {
        &self.code
    }

    /// What is wrong, mostly in one line.
    pub fn message(&self) -> &str
        ensures { result.now ≡ self.now.message }
    {
        self.message.as_str()
    }

    /// More on what is wrong, maybe in several lines.
    pub fn detail(&self) -> Option<&str>
        ensures { option_map (λ text. text.now) result ≡ self.now.detail }
    {
        optional_str(&self.detail)
    }

    /// What may be done about it, maybe in several lines.
    pub fn hint(&self) -> Option<&str>
        ensures { option_map (λ text. text.now) result ≡ self.now.hint }
    {
        optional_str(&self.hint)
    }

    /// Where in a query the error lies.
    pub fn position(&self) -> Option<&ErrorPosition>
        ensures { option_copied result ≡ self.now.position }
    {
        self.position.as_ref()
    }

    /// In what the server was at work, newest first.
    pub fn where_(&self) -> Option<&str>
        ensures { option_map (λ text. text.now) result ≡ self.now.where_ }
    {
        optional_str(&self.where_)
    }

    /// The schema of what the error is about.
    pub fn schema(&self) -> Option<&str>
        ensures { option_map (λ text. text.now) result ≡ self.now.schema }
    {
        optional_str(&self.schema)
    }

    /// The table that it is about.
    pub fn table(&self) -> Option<&str>
        ensures { option_map (λ text. text.now) result ≡ self.now.table }
    {
        optional_str(&self.table)
    }

    /// The column of that table.
    pub fn column(&self) -> Option<&str>
        ensures { option_map (λ text. text.now) result ≡ self.now.column }
    {
        optional_str(&self.column)
    }

    /// The data type that it is about.
    pub fn datatype(&self) -> Option<&str>
        ensures { option_map (λ text. text.now) result ≡ self.now.datatype }
    {
        optional_str(&self.datatype)
    }

    /// The constraint that it is about.
    pub fn constraint(&self) -> Option<&str>
        ensures { option_map (λ text. text.now) result ≡ self.now.constraint }
    {
        optional_str(&self.constraint)
    }

    /// The file of the server's source that told the error.
    pub fn file(&self) -> Option<&str>
        ensures { option_map (λ text. text.now) result ≡ self.now.file }
    {
        optional_str(&self.file)
    }

    /// The line of that file, from 1.
    pub fn line(&self) -> Option<u32>
        ensures { result ≡ self.now.line }
    {
        self.line
    }

    /// The routine of that file.
    pub fn routine(&self) -> Option<&str>
        ensures { option_map (λ text. text.now) result ≡ self.now.routine }
    {
        optional_str(&self.routine)
    }

    /// The text of a field, as bytes, by its letter in the manual (PostgreSQL documentation, "Error and
    /// Notice Message Fields"). The fields P, p and L are numbers: `position` and `line` give them.
    pub fn field(&self, letter: u8) -> Option<&[u8]>
        ensures { option_map (λ text. text.now) result ≡ text_of_field letter self.now }
    {
        match self.text_of(letter) {
            Some(text) => Some(text.as_bytes()),
            None => None,
        }
    }

    fn text_of(&self, letter: u8) -> Option<&str>
        ensures { option_map (λ text. text.now) result ≡ text_of_field letter self.now }
    {
        match letter {
            b'S' => Some(self.severity()),
            b'V' => self.severity_name(),
            b'C' => Some(self.code.code()),
            b'M' => Some(self.message()),
            b'D' => self.detail(),
            b'H' => self.hint(),
            b'W' => self.where_(),
            b's' => self.schema(),
            b't' => self.table(),
            b'c' => self.column(),
            b'd' => self.datatype(),
            b'n' => self.constraint(),
            b'F' => self.file(),
            b'R' => self.routine(),
            b'q' => self.query(),
            _ => None,
        }
    }

    /// The name of the severity that isn't translated.
    fn severity_name(&self) -> Option<&str>
        ensures { option_map (λ text. text.now) result ≡ option_map severity_name self.now.parsed_severity }
    {
        match self.parsed_severity {
            Some(severity) => Some(severity.name()),
            None => None,
        }
    }

    /// The query that the server made, where the error lies in one.
    fn query(&self) -> Option<&str>
        ensures { option_map (λ text. text.now) result ≡ option_and_then query_in self.now.position }
    {
        match &self.position {
            Some(ErrorPosition::Internal { query, .. }) => Some(query.as_str()),
            _ => None,
        }
    }

    /// An equal error.
    pub fn copy(&self, alloc: Global) -> Result<DbError, OutOfMemory>
        ensures { IfOk result (λ e. e ≡ self.now) }
    {
        let words = self.words(alloc)?;
        let places = self.places(alloc)?;
        let origin = self.origin(alloc)?;
        Ok(DbError {
            severity: words.severity,
            parsed_severity: self.parsed_severity,
            code: words.code,
            message: words.message,
            detail: words.detail,
            hint: words.hint,
            position: places.position,
            where_: places.where_,
            schema: places.schema,
            table: places.table,
            column: places.column,
            datatype: origin.datatype,
            constraint: origin.constraint,
            file: origin.file,
            line: self.line,
            routine: origin.routine,
        })
    }

    /// A copy of what it says.
    fn words(&self, alloc: Global) -> Result<Words, OutOfMemory>
        ensures { IfOk result (λ w. (w.severity ≡ self.now.severity) × (w.code ≡ self.now.code) × (w.message ≡ self.now.message) × (w.detail ≡ self.now.detail) × (w.hint ≡ self.now.hint)) }
    {
        Ok(Words {
            severity: self.severity.copy(alloc)?,
            code: self.code.copy(alloc)?,
            message: self.message.copy(alloc)?,
            detail: copy_optional(alloc, &self.detail)?,
            hint: copy_optional(alloc, &self.hint)?,
        })
    }

    /// A copy of where the error lies, and of what it is about.
    fn places(&self, alloc: Global) -> Result<Places, OutOfMemory>
        ensures { IfOk result (λ p. (p.position ≡ self.now.position) × (p.where_ ≡ self.now.where_) × (p.schema ≡ self.now.schema) × (p.table ≡ self.now.table) × (p.column ≡ self.now.column)) }
    {
        Ok(Places {
            position: copy_position(alloc, &self.position)?,
            where_: copy_optional(alloc, &self.where_)?,
            schema: copy_optional(alloc, &self.schema)?,
            table: copy_optional(alloc, &self.table)?,
            column: copy_optional(alloc, &self.column)?,
        })
    }

    /// A copy of the rest.
    fn origin(&self, alloc: Global) -> Result<Origin, OutOfMemory>
        ensures { IfOk result (λ o. (o.datatype ≡ self.now.datatype) × (o.constraint ≡ self.now.constraint) × (o.file ≡ self.now.file) × (o.routine ≡ self.now.routine)) }
    {
        Ok(Origin {
            datatype: copy_optional(alloc, &self.datatype)?,
            constraint: copy_optional(alloc, &self.constraint)?,
            file: copy_optional(alloc, &self.file)?,
            routine: copy_optional(alloc, &self.routine)?,
        })
    }
}

/// What an error says, copied.
#[derive(Drop)]
struct Words {
    severity: Text,
    code: SqlState,
    message: Text,
    detail: Option<Text>,
    hint: Option<Text>,
}

/// Where it lies and what it is about, copied.
#[derive(Drop)]
struct Places {
    position: Option<ErrorPosition>,
    where_: Option<Text>,
    schema: Option<Text>,
    table: Option<Text>,
    column: Option<Text>,
}

/// The rest, copied.
#[derive(Drop)]
struct Origin {
    datatype: Option<Text>,
    constraint: Option<Text>,
    file: Option<Text>,
    routine: Option<Text>,
}

fn copy_position(
    alloc: Global,
    position: &Option<ErrorPosition>,
) -> Result<Option<ErrorPosition>, OutOfMemory>
    ensures { IfOk result (λ copy. copy ≡ position.now) }
{
    match position {
        Some(position) => Ok(Some(position.copy(alloc)?)),
        None => Ok(None),
    }
}

impl ErrorPosition {
    /// An equal place.
    pub fn copy(&self, alloc: Global) -> Result<ErrorPosition, OutOfMemory>
        ensures { IfOk result (λ p. p ≡ self.now) }
    {
        match self {
            ErrorPosition::Original(place) => Ok(ErrorPosition::Original(*place)),
            ErrorPosition::Internal { position, query } => Ok(ErrorPosition::Internal {
                position: *position,
                query: query.copy(alloc)?,
            }),
        }
    }
}

impl fmt::Display for DbError {
    fn fmt<W: fmt::Write>(&self, f: &mut fmt::Formatter<W>) -> fmt::Result {
        let severity = self.severity();
        let message = self.message();
        write!(f, "{severity}: {message}")?;
        if let Some(detail) = self.detail() {
            write!(f, "\nDETAIL: {detail}")?;
        }
        if let Some(hint) = self.hint() {
            write!(f, "\nHINT: {hint}")?;
        }
        Ok(())
    }
}
