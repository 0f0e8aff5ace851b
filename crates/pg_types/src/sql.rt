//! The text of a statement.

ghost use Rattle.std.specs.Prelude.{◌≡◌};
ghost use Rattle.pg_types.specs.Texts.{sql_text};

use crate::Text;

/// The text of a statement: borrowed, or owned where nothing can be borrowed for so long.
#[derive(Drop)]
pub enum Sql<'a> {
    Borrowed(&'a str),
    Owned(Text),
}

impl<'a> Sql<'a> {
    /// The text.
    pub fn as_str(&self) -> &str
        ensures { result.now ≡ sql_text self.now }
    {
        match self {
            Sql::Borrowed(text) => *text,
            Sql::Owned(text) => text.as_str(),
        }
    }
}
