//! The types of columns, where all of them are known, while the request of their rows is read.

ghost use Rattle.std.specs.Prelude.{Bool, List, Option};
ghost use Rattle.pg_spec.specs.RawMessages.{RawMessage};
ghost use Rattle.pg_spec.specs.declared.stamps.Stamp.{Stamp};
ghost use Rattle.pg_types.specs.declared.pg_type.PgType.{PgType};
ghost use Rattle.pg_query.specs.Dialogue.{Dialogue};
ghost use Rattle.pg_streams.specs.Hearing.{First};
ghost use Rattle.pg_streams.specs.Known.{KnowsAll, KnowsOne};
ghost use Rattle.pg_streams.specs.TypedRaw.{Asked};

use crate::taking::fail;
use pg_desk::Desk;
use pg_errors::Error;
use pg_query::error_of;
use pg_types::{List, Oid, Type};
use std::alloc::Global;
use std::collections::VecDeque;

/// The type of an oid, where it is built in or kept by the desk. Where the desk refuses to tell, the request of this number is hung
/// up.
fn known<D: Desk>(alloc: Global, desk: &mut D, id: u64, oid: Oid) -> Result<Option<Type>, Error>
    ensures { (rows : Bool) (stamp : Stamp) (ms : List RawMessage) (first : List RawMessage → First (Unit {0}) (Unit {0})) (next : Option PgType → Dialogue (Asked rows)) → KnowsOne D.becomes stamp desk.old ms id first next oid desk.new result }
{
    match Type::from_oid(alloc, oid) {
        Ok(Some(ty)) => return Ok(Some(ty)),
        Ok(None) => {}
        Err(_) => return Err(Error::OutOfMemory),
    }
    match desk.type_(alloc, oid) {
        Ok(found) => Ok(found),
        Err(fault) => Err(fail(desk, id, error_of(fault))),
    }
}

/// The types of these oids, up to the first that isn't known: then there are none.
pub(crate) fn all_known<D: Desk>(
    alloc: Global,
    desk: &mut D,
    id: u64,
    oids: VecDeque<Oid>,
) -> Result<Option<List<Type>>, Error>
    ensures { (rows : Bool) (stamp : Stamp) (ms : List RawMessage) (first : List RawMessage → First (Unit {0}) (Unit {0})) (later : Dialogue (Asked rows)) (next : List PgType → Dialogue (Asked rows)) → KnowsAll D.becomes stamp desk.old ms id first later next oids.items desk.new result }
{
    let mut oids = oids;
    let mut found = List::empty(alloc);
    while let Some(oid) = oids.pop_front() {
        let Some(ty) = known(alloc, desk, id, oid)? else {
            return Ok(None);
        };
        found.push(ty)?;
    }
    Ok(Some(found))
}
