//! How large a type may be that a lookup builds, and how much a search may hold.

ghost use Rattle.std.specs.Prelude.{◌<◌, ◌≤◌, IfOk, IfSome};

use pg_types::{Field, Kind, Type};
use std::alloc::AllocError;

/// A type is built of at most so many types, itself among them. All types that a search holds are built of no more
/// together.
pub(crate) const MOST_TYPES: u32 = 1_048_576;

/// Those of one type stand in at most so many levels.
const MOST_LEVELS: u32 = 1_024;

/// Whether a type is no larger.
pub(crate) fn is_small(ty: &Type) -> bool {
    room_behind(ty, MOST_LEVELS, MOST_TYPES).is_some()
}

/// For how many types there is room once this one is held. Its error is want of memory: there was no room for it.
pub(crate) fn room_once_held(ty: &Type, room: u32) -> Result<u32, AllocError>
    ensures { IfOk result (λ left. left < room) }
{
    match room_behind(ty, MOST_LEVELS, room) {
        Some(left) => Ok(left),
        None => Err(AllocError),
    }
}

/// For how many types there is room behind this one and all that it is made of. None: it has more levels, or
/// more types.
#[cycle(size)]
fn room_behind(ty: &Type, levels: u32, room: u32) -> Option<u32>
    ensures { IfSome result (λ left. left < room) }
{
    if levels == 0 || room == 0 {
        return None;
    }
    room_behind_kind(ty.kind(), levels - 1, room - 1)
}

/// The same behind the types that a type is made of.
#[cycle(size)]
fn room_behind_kind(kind: &Kind, levels: u32, room: u32) -> Option<u32>
    ensures { IfSome result (λ left. left ≤ room) }
{
    match kind {
        Kind::Simple | Kind::Pseudo | Kind::Enum(_) => Some(room),
        Kind::Array(ty) | Kind::Range(ty) | Kind::Domain(ty) => room_behind(ty, levels, room),
        Kind::Composite(fields) => room_behind_fields(fields.as_slice(), levels, room),
    }
}

/// The same behind the types of fields.
#[cycle(size)]
fn room_behind_fields(fields: &[Field], levels: u32, room: u32) -> Option<u32>
    ensures { IfSome result (λ left. left ≤ room) }
{
    let mut left = room;
    for field in fields {
        match room_behind(field.type_(), levels, left) {
            Some(less) => left = less,
            None => return None,
        }
    }
    Some(left)
}
