//! Why there is no value.

use pg_types::ValueFault;
use std::alloc::AllocError;

/// Why a value isn't written or read.
pub(crate) fn tell(fault: ValueFault, out: &mut String) -> Result<(), AllocError> {
    write!(out, " refused {fault:?}")
}
