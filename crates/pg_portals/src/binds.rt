//! A statement that is bound to values.

ghost use Rattle.std.specs.Prelude.{◌≡◌, ◌≤◌, IfOk};
ghost use Rattle.pg_query.specs.SingleRequests.{dialogue_of, steps_of};
ghost use Rattle.pg_execute.specs.Parameters.{params};
ghost use Rattle.pg_portals.specs.Portals.{asks_bind};
ghost use Rattle.pg_portals.specs.Reading.{reading_of_bound};

use crate::bound::Bound;
use crate::draws_portal::DrawsPortal;
use crate::portal::Portal;
use crate::requests::bind_request;
use pg_core::{Go, Maybe, OrAnswer, Then};
use pg_desk::Statement;
use pg_query::SingleRequest;
use pg_types::Params;
use std::alloc::{AllocError, Global};

/// Binds a portal to these values.
fn ask_bind<P: Params>(
    alloc: Global,
    portal: Portal,
    values: &P,
) -> Result<SingleRequest<Bound, Portal>, AllocError>
    ensures asks { IfOk result (λ one. dialogue_of reading_of_bound one ≡ asks_bind (params (P.count values.now) (P.gives_at values.now)) portal) }
    ensures steps { IfOk result (λ one. steps_of one ≤ 2) }
{
    let request = bind_request(alloc, &portal, values)?;
    let reading = Bound { portal };
    match request {
        Ok(request) => Ok(SingleRequest::new(reading, request, true)),
        Err(error) => Ok(SingleRequest::refused(reading, error)),
    }
}

/// Binds a statement to values under the number that was drawn for it.
#[derive(Drop)]
pub struct BindsAt<P> {
    statement: Statement,
    values: P,
    closes: bool,
}

impl<P: Params + Drop> Go for BindsAt<P> {
    ghost use Rattle.pg_execute.specs.Parameters.{params};
    ghost use Rattle.pg_portals.specs.Portals.{asks_bind, portal_of};

    type Input = u32;

    type Next = SingleRequest<Bound, Portal>;

    ghost to = { λ k n. asks_bind (params (P.count k.values) (P.gives_at k.values)) (portal_of k.closes k.statement n) };

    ghost most = { λ _. 2 };

    fn go(self, alloc: Global, number: u32) -> Result<SingleRequest<Bound, Portal>, AllocError> {
        let BindsAt {
            statement,
            values,
            closes,
        } = self;
        let portal = Portal {
            number,
            statement,
            closes,
        };
        let one = ask_bind(alloc, portal, &values);
        drop(values);
        one
    }
}

/// A number is drawn, and then a statement is bound to values.
pub type Binding<P> = Then<
    DrawsPortal,
    OrAnswer<BindsAt<P>>,
    Maybe<Portal, SingleRequest<Bound, Portal>>,
>;

/// Binds a statement to these values.
#[derive(Drop)]
pub struct Binds<P> {
    pub values: P,
    /// The statement is closed with its portal.
    pub closes: bool,
}

impl<P: Params + Drop> Go for Binds<P> {
    ghost use Rattle.pg_execute.specs.Parameters.{params};
    ghost use Rattle.pg_portals.specs.Portals.{binds};

    type Input = Statement;

    type Next = Binding<P>;

    ghost to = { λ k s. binds k.closes (params (P.count k.values) (P.gives_at k.values)) s };

    ghost most = { λ _. 3 };

    fn go(self, alloc: Global, statement: Statement) -> Result<Binding<P>, AllocError> {
        let Binds { values, closes } = self;
        let go = BindsAt {
            statement,
            values,
            closes,
        };
        Ok(Then::First(DrawsPortal::new(), OrAnswer { go }))
    }
}
