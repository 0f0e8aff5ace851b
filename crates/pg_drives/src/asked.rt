//! The call of a case: what it hands in, and the connection that it is driven over.

use crate::case::Case;
use crate::session::ask;
use pg_asking::{Given, Told};
use std::alloc::{AllocError, AllocGlobal};
use std::random::RandomSource;
use std::sync::Wait;
use tokio_postgres::types::{Type, Value};
use tokio_postgres::{Client, Hub, Line, Link, Polled, Stamp};

/// The call of a case.
#[derive(Drop)]
pub(crate) struct Asked<'s, 'a, R, L> {
    pub(crate) rt: &'s R,
    pub(crate) client: &'s Client,
    pub(crate) case: &'s Case<'a>,
    pub(crate) given: &'s Given,
    pub(crate) line: Line<L, Hub>,
}

/// A connection behind a call.
pub(crate) type Left<L> = Result<Line<L, Hub>, AllocError>;

impl<'s, 'a, R: Wait + RandomSource + AllocGlobal, L: Link + Drop> Asked<'s, 'a, R, L> {
    /// Its text.
    pub(crate) fn text(&self) -> &'a str {
        self.case.text
    }

    /// Its values.
    pub(crate) fn values(&self) -> &'s [Value] {
        self.given.values.as_slice()
    }

    /// Types of its values.
    pub(crate) fn types(&self) -> &'s [Type] {
        self.given.types.as_slice()
    }

    /// Drives its state to its answer, and tells that.
    pub(crate) fn ask<T: Told, S: Polled<Output = T> + Drop>(
        self,
        state: S,
        out: &mut String,
    ) -> Left<L>
        requires { S.is_live state }
    {
        ask(self.rt, state, Stamp::new(0, 0, 0), self.line, out)
    }
}
