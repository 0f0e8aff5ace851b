//! What a script keeps between its commands.

ghost use Rattle.std.specs.Prelude.{◌≡◌};
ghost use Rattle.pg_table.specs.Own.{nothing_kept};

use crate::levels::Levels;
use crate::slots::Slots;
use std::alloc::Global;

/// What a script keeps between its commands: its prepared statements, and the levels of its transaction that are open.
#[derive(Drop)]
pub struct Own {
    pub slots: Slots,
    pub levels: Levels,
}

impl Own {
    /// What a script keeps before its first command. It takes no memory.
    pub fn new(alloc: Global) -> Own
        ensures { result ≡ nothing_kept }
    {
        Own {
            slots: Slots::new(alloc),
            levels: Levels::new(alloc),
        }
    }
}
