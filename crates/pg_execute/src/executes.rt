//! A statement that is executed with values.

use crate::form::Form;
use crate::request::{execute_request, read_reply};
use pg_core::Go;
use pg_desk::Statement;
use pg_query::{Reading, SingleRequest};
use pg_types::Params;
use std::alloc::{AllocError, Global};

/// Executes a statement with these values.
#[derive(Drop)]
pub struct Executes<F, P> {
    pub form: F,
    pub values: P,
}

impl<F: Form, P: Params + Drop> Go for Executes<F, P> {
    ghost use Rattle.pg_execute.specs.Executes.{executes};
    ghost use Rattle.pg_execute.specs.Parameters.{params};

    type Input = Statement;

    type Next = SingleRequest<F::Reading, <F::Reading as Reading>::Output>;

    ghost to = { λ k s. executes (F.stops k.form) (F.reads k.form s) s (params (P.count k.values) (P.gives_at k.values)) };

    ghost most = { λ _. 2 };

    fn go(
        self,
        alloc: Global,
        statement: Statement,
    ) -> Result<SingleRequest<F::Reading, <F::Reading as Reading>::Output>, AllocError> {
        let request = execute_request(alloc, &statement, &self.values)?;
        let stops = self.form.stops_at_value();
        let reading = self.form.reading(alloc, statement);
        Ok(read_reply(stops, reading, request))
    }
}
