//! Lists that grow.

use pg_types::{List, OutOfMemory};

/// Adds an item.
pub(crate) fn push<T: Drop>(list: &mut List<T>, item: T) -> Result<(), OutOfMemory> {
    match list.push(item) {
        Ok(()) => Ok(()),
        Err(_) => Err(OutOfMemory),
    }
}
