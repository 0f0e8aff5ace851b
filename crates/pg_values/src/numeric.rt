//! Numbers of any scale, read.

ghost use Rattle.std.specs.Prelude.{◌≡◌, ◌<◌, ◌≤◌, ◌+◌, ◌-◌, ◌*◌, ◌^◌, ℕ, List, length, false, flat_map, MatchOption, pos, ◌≤ℤ◌};
ghost use Rattle.std.specs.Int.{w16, to_be_bytes};
ghost use Rattle.std.specs.List.{AllByRecursion};
ghost use Rattle.pg_values.specs.Numerics.{SpellsNumeric, IsNumericOf, AreDigitsOf, AreDigits, IsValueOf, digits_value, top, shift};
ghost use Rattle.pg_values.specs.Reading.{ReadsAs};

use crate::datum::Datum;
use crate::lists::push;
use crate::parts::{half, short};
use crate::wide::Wide;
use pg_types::{List, ValueFault};
use std::alloc::Global;

/// A numeric as it stands in its bytes.
#[derive(Drop)]
struct Form {
    sign: u16,
    scale: u16,
    weight: i16,
    digits: List<u16>,
}

/// What a digit is below.
const BASE: u16 = 10_000;

/// The digits that bytes spell.
fn read_digits(alloc: Global, bytes: &[u8]) -> Result<List<u16>, ValueFault>
    ensures { ReadsAs (λ digits. AreDigits digits bytes.now) result }
{
    let mut digits = List::empty(alloc);
    let mut rest = bytes;
    while let Some((digit, behind)) = half(rest) {
        if digit >= BASE {
            return Err(ValueFault::BadValue);
        }
        push(&mut digits, digit)?;
        rest = behind;
    }
    if !rest.is_empty() {
        return Err(ValueFault::BadValue);
    }
    Ok(digits)
}

/// The numeric that bytes spell, as it stands in them.
fn read_form(alloc: Global, raw: &[u8]) -> Result<Form, ValueFault>
    ensures { ReadsAs (λ form. IsNumericOf false form.sign form.scale form.weight form.digits raw.now) result }
{
    let Some((count, rest)) = half(raw) else {
        return Err(ValueFault::BadValue);
    };
    let Some((weight, rest)) = short(rest) else {
        return Err(ValueFault::BadValue);
    };
    let Some((sign, rest)) = half(rest) else {
        return Err(ValueFault::BadValue);
    };
    let Some((scale, rest)) = half(rest) else {
        return Err(ValueFault::BadValue);
    };
    let digits = read_digits(alloc, rest)?;
    if count >= 32_768 || digits.as_slice().len() != count as usize {
        return Err(ValueFault::BadValue);
    }
    Ok(Form {
        sign,
        scale,
        weight,
        digits,
    })
}

/// Ten to a power.
pub(crate) fn power(k: u32) -> u128
    requires { k ≤ 38 }
    ensures { result ≡ 10 ^ k }
{
    let mut n: u128 = 1;
    for _ in 0..k {
        n *= 10;
    }
    n
}

/// A digit times ten to the power of `up`, divided by ten to the power of `down`. None: it is no number of at most 38 decimals,
/// whatever smaller is added.
fn term(digit: u16, up: u32, down: u32) -> Option<u128>
    ensures { MatchOption result
        ((t low : ℕ) → t < 10 ^ 38 → low < 10 ^ up → digit * 10 ^ up + low ≡ t * 10 ^ down → ⊥)
        (λ t. (t < 10 ^ 38) × (digit * 10 ^ up ≡ t * 10 ^ down)) }
{
    if digit == 0 {
        return Some(0);
    }
    let n = digit as u128;
    if up < down {
        let k = down - up;
        if k > 4 || n % power(k) != 0 {
            return None;
        }
        return Some(n / power(k));
    }
    let k = up - down;
    if k > 38 || n >= power(38 - k) {
        return None;
    }
    Some(n * power(k))
}

/// The number of these digits, the first of the power `top`, times ten to the power of `scale` and divided by 10,000 to the power of
/// `shift`. None: it is no number of at most 38 decimals.
fn total(digits: &[u16], top: u32, scale: u32, shift: u32) -> Option<u128>
    requires room { length digits.now ≤ top + 1 }
    requires few { (top < 2 ^ 16) × (scale < 2 ^ 16) × (shift < 2 ^ 17) }
    requires below { AllByRecursion (λ digit. digit < 10000) digits.now }
    ensures { MatchOption result
        ((u : ℕ) → u < 10 ^ 38 → digits_value top digits.now * 10 ^ scale ≡ u * 10000 ^ shift → ⊥)
        (λ u. (u < 10 ^ 38) × (digits_value top digits.now * 10 ^ scale ≡ u * 10000 ^ shift)) }
{
    let mut sum: u128 = 0;
    for (j, digit) in digits.iter().enumerate() {
        sum += term(*digit, 4 * (top - j as u32) + scale, 4 * shift)?;
        if sum >= 100_000_000_000_000_000_000_000_000_000_000_000_000 {
            return None;
        }
    }
    Some(sum)
}

/// The number without its point and sign. None: it has more than 38 decimals behind its point or in all.
fn unscaled(form: &Form) -> Option<u128>
    requires few { length form.now.digits < 2 ^ 15 }
    requires below { AllByRecursion (λ digit. digit < 10000) form.now.digits }
    ensures { MatchOption result
        ((u : ℕ) → u < 10 ^ 38 → AreDigitsOf u form.now.scale form.now.weight form.now.digits → ⊥)
        (λ u. (u < 10 ^ 38) × AreDigitsOf u form.now.scale form.now.weight form.now.digits) }
{
    let digits = form.digits.as_slice();
    let last = digits.len().saturating_sub(1) as u32;
    let scale = form.scale as u32;
    if form.weight < 0 {
        let below = -(form.weight as i32) - 1;
        return total(digits, last, scale, digits.len() as u32 + below as u32);
    }
    let weight = form.weight as u32;
    total(digits, weight.max(last), scale, last.saturating_sub(weight))
}

/// The sign of a number that isn't below zero.
pub(crate) const PLUS: u16 = 0;

/// The sign of a number that isn't above zero.
pub(crate) const MINUS: u16 = 0x4000;

/// The sign of NaN.
pub(crate) const NAN: u16 = 0xc000;

/// The value of a numeric. None: it has none here.
fn value_of(form: &Form) -> Option<Datum>
    requires few { length form.now.digits < 2 ^ 15 }
    requires below { AllByRecursion (λ digit. digit < 10000) form.now.digits }
    ensures { IsValueOf form.now.sign form.now.scale form.now.weight form.now.digits result }
{
    if form.sign == NAN {
        return Some(Datum::NotANumber);
    }
    if form.scale > 38 || form.sign != PLUS && form.sign != MINUS {
        return None;
    }
    let number = unscaled(form)? as i128;
    let unscaled = if form.sign == MINUS { -number } else { number };
    Some(Datum::Numeric {
        unscaled: Wide::new(unscaled),
        scale: form.scale,
    })
}

/// A numeric.
pub(crate) fn read_numeric(alloc: Global, raw: &[u8]) -> Result<Datum, ValueFault>
    ensures { ReadsAs (λ v. SpellsNumeric false v raw.now) result }
{
    let form = read_form(alloc, raw)?;
    match value_of(&form) {
        Some(value) => Ok(value),
        None => Err(ValueFault::BadValue),
    }
}
