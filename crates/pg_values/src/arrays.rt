//! The front of an array.

ghost use Rattle.std.specs.Prelude.{◌≡◌, ◌↔◌, IsTrue, ◌++◌, ◌<◌, ◌≤◌, List, ℕ, length, flat_map, MatchOption, ◌*◌, ◌+◌, drop};
ghost use Rattle.std.specs.List.{AllByRecursion};
ghost use Rattle.pg_values.specs.Spelling.{IsDim, dim_bytes, count_of, product, IsFront, array_front, StandsInFront, AreDims};
ghost use Rattle.pg_values.specs.Reading.{ReadsAs};
ghost use Rattle.pg_values.specs.declared.datum.Dim.{Dim};

use crate::datum::Dim;
use crate::lists::push;
use crate::parts::{int, word};
use pg_types::{List, Oid, ValueFault};
use std::alloc::Global;

/// The most items that an array may have.
const MOST: u64 = 16_777_216;

/// The dimension in front, and what is behind it. None: there is none.
fn read_dim(bytes: &[u8]) -> Option<(Dim, &[u8])>
    ensures { MatchOption result
        ((dim : Dim) (rest : List ℕ) → IsDim dim → bytes.now ≡ dim_bytes dim ++ rest → ⊥)
        (λ found. IsDim found.0 × (bytes.now ≡ dim_bytes found.0 ++ found.1.now)) }
{
    let (len, rest) = int(bytes)?;
    let (lower, rest) = int(rest)?;
    if len < 1 {
        return None;
    }
    Some((Dim { len, lower }, rest))
}

/// So many dimensions.
fn read_dims(alloc: Global, count: u32, bytes: &[u8]) -> Result<List<Dim>, ValueFault>
    ensures { ReadsAs (λ dims. AreDims count dims bytes.now) result }
{
    let mut dims = List::empty(alloc);
    let mut rest = bytes;
    for _ in 0..count {
        let Some((dim, behind)) = read_dim(rest) else {
            return Err(ValueFault::BadValue);
        };
        push(&mut dims, dim)?;
        rest = behind;
    }
    Ok(dims)
}

/// How many items an array of these dimensions has. None: more than 16,777,216.
pub(crate) fn count_of(dims: &[Dim]) -> Option<usize>
    requires { AllByRecursion IsDim dims.now }
    ensures { MatchOption result (16777216 < count_of dims.now)
        (λ n. (n ≡ count_of dims.now) × (n ≤ 16777216)) }
{
    if dims.is_empty() {
        return Some(0);
    }
    let mut count: u64 = 1;
    for dim in dims {
        count *= dim.len as u64;
        if count > MOST {
            return None;
        }
    }
    Some(count as usize)
}

/// Whether a dimension has an item.
fn is_dim(dim: Dim) -> bool
    ensures { IsTrue result ↔ IsDim dim }
{
    dim.len >= 1
}

/// Whether each dimension has an item.
pub(crate) fn are_dims(dims: &[Dim]) -> bool
    ensures { IsTrue result ↔ AllByRecursion IsDim dims.now }
{
    for dim in dims {
        if !is_dim(*dim) {
            return false;
        }
    }
    true
}

/// The dimensions that the front of an array has.
pub(crate) fn read_front(alloc: Global, element: Oid, raw: &[u8]) -> Result<List<Dim>, ValueFault>
    ensures { ReadsAs (λ dims. StandsInFront element dims raw.now) result }
{
    let Some((len, rest)) = word(raw) else {
        return Err(ValueFault::BadValue);
    };
    let Some((flag, rest)) = word(rest) else {
        return Err(ValueFault::BadValue);
    };
    let Some((oid, rest)) = word(rest) else {
        return Err(ValueFault::BadValue);
    };
    if len > 6 || flag > 1 || oid != element {
        return Err(ValueFault::BadValue);
    }
    let dims = read_dims(alloc, len, rest)?;
    if count_of(dims.as_slice()).is_none() {
        return Err(ValueFault::BadValue);
    }
    Ok(dims)
}

/// What is behind the front of an array of these dimensions. None: there are fewer bytes.
pub(crate) fn behind_front<'a>(dims: &[Dim], raw: &'a [u8]) -> Option<&'a [u8]>
    ensures { MatchOption result (length raw.now < 12 + 8 * length dims.now)
        (λ rest. rest.now ≡ drop (12 + 8 * length dims.now) raw.now) }
{
    let front = 12 + 8 * dims.len();
    if raw.len() < front {
        return None;
    }
    Some(&raw[front..])
}
