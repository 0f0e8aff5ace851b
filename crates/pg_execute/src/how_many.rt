//! How many rows a query may have.

ghost use Rattle.std.specs.Prelude.{◌≡◌};
ghost use Rattle.pg_execute.specs.Rows.{is_enough, may_have};

/// How many rows a query may have.
#[derive(Clone, Copy, Debug, PartialEq, Eq, Drop)]
pub enum HowMany {
    Any,
    AtMostOne,
    One,
}

impl HowMany {
    /// There may be so many rows, and more may come.
    pub fn may_have(self, rows: usize) -> bool
        ensures { result ≡ may_have self rows }
    {
        match self {
            HowMany::Any => true,
            HowMany::AtMostOne | HowMany::One => rows <= 1,
        }
    }

    /// So many rows are enough.
    pub fn is_enough(self, rows: usize) -> bool
        ensures { result ≡ is_enough self rows }
    {
        match self {
            HowMany::Any | HowMany::AtMostOne => true,
            HowMany::One => rows == 1,
        }
    }
}
