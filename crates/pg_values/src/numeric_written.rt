//! Numbers of any scale, written.

ghost use Rattle.std.specs.Int.{w16};
ghost use Rattle.std.specs.Prelude.{FitsSigned, pos, ◌+ℤ◌, ◌+◌, ◌≡◌, ◌≢◌, ◌↔◌, IsTrue, ◌<◌, ◌≤◌, ◌-◌, ◌*◌, ◌^◌, true, false};
ghost use Rattle.pg_values.specs.Groups.{AreGroups, AreDigitsIn, IsWrittenNumber, IsSignOf, head_bytes};
ghost use Rattle.pg_values.specs.Numerics.{SpellsNumeric};
ghost use Rattle.pg_values.specs.Sending.{numeric_send};
ghost use Rattle.pg_values.specs.Writing.{WritesAs, WritesSent, Fills};
ghost use Rattle.pg_values.specs.declared.datum.Datum as d;

use crate::datum::Datum;
use crate::numeric::{MINUS, NAN, PLUS, power};
use crate::put::put;
use bytes::BytesMut;
use pg_types::ValueFault;

/// A number above zero in base 10,000: 10,000 to the power of `zeros`, times the sum of `last` and 10,000 times `front`.
#[derive(Clone, Copy, Drop)]
struct Groups {
    front: u128,
    /// Not zero.
    last: u16,
    zeros: u16,
}

/// What a digit is below.
const BASE: u128 = 10_000;

/// A number times ten to the power of `pad`, in base 10,000.
fn groups_of(number: u128, pad: u32) -> Groups
    requires some { number ≢ 0 }
    requires few { number < 10 ^ 38 }
    requires pad { pad ≤ 3 }
    ensures { AreGroups (number * 10 ^ pad) result.front result.last result.zeros }
{
    let unit = power(4 - pad);
    let mut front = number / unit;
    let mut last = number % unit * power(pad);
    for zeros in 0..11 {
        if last != 0 {
            return Groups {
                front,
                last: last as u16,
                zeros,
            };
        }
        last = front % BASE;
        front /= BASE;
    }
    Groups {
        front,
        last: last as u16,
        zeros: 11,
    }
}

/// How many digits in base 10,000 a number has, none for 0.
fn digits_len(number: u128) -> u16
    requires { number < 10 ^ 38 }
    ensures few { result ≤ 10 }
    ensures below { number < 10000 ^ result }
    ensures least { 0 < result → 10000 ^ (result - 1) ≤ number }
{
    let mut unit: u128 = 1;
    for len in 0..9 {
        if number < unit {
            return len;
        }
        unit *= BASE;
    }
    if number < unit { 9 } else { 10 }
}

/// Appends so many digits of a number.
fn put_digits(number: u128, len: u16, out: &mut BytesMut) -> Result<(), ValueFault>
    requires few { len ≤ 10 }
    requires below { number < 10000 ^ len }
    ensures { Fills (AreDigitsIn number len) out.old.items out.new.items result }
{
    let mut rest = number;
    for place in 0..len {
        let unit = power(4 * (len - 1 - place) as u32);
        put(&((rest / unit) as u16).to_be_bytes(), out)?;
        rest %= unit;
    }
    Ok(())
}

/// Appends what stands in front of the digits.
fn put_head(
    len: u16,
    weight: i16,
    sign: u16,
    scale: u16,
    out: &mut BytesMut,
) -> Result<(), ValueFault>
    ensures { Fills (λ b. b ≡ head_bytes len weight sign scale) out.old.items out.new.items result }
{
    let [a, b] = len.to_be_bytes();
    let [c, d] = weight.to_be_bytes();
    let [e, f] = sign.to_be_bytes();
    let [g, h] = scale.to_be_bytes();
    put(&[a, b, c, d, e, f, g, h], out)
}

/// The weight of the first of so many digits and one more, behind which so many zeros stand, so many places behind the point.
fn weight_of(front: u16, zeros: u16, places: u16) -> i16
    requires { (front ≤ 10) × (zeros ≤ 11) × (places ≤ 10) }
    ensures value { result +ℤ pos places ≡ pos (front + zeros) }
    ensures fits { FitsSigned w16 result }
{
    (front + zeros) as i16 - places as i16
}

/// Appends a number that isn't zero, and has this sign.
fn put_number(number: u128, sign: u16, scale: u16, out: &mut BytesMut) -> Result<(), ValueFault>
    requires some { number ≢ 0 }
    requires few { number < 10 ^ 38 }
    requires scale { scale ≤ 38 }
    ensures { Fills (IsWrittenNumber number sign scale) out.old.items out.new.items result }
{
    let places = (scale + 3) / 4;
    let groups = groups_of(number, (4 * places - scale) as u32);
    let front = digits_len(groups.front);
    let weight = weight_of(front, groups.zeros, places);
    put_head(front + 1, weight, sign, scale, out)?;
    put_digits(groups.front, front, out)?;
    put(&groups.last.to_be_bytes(), out)
}

/// The sign that a number is written with.
fn sign_of(number: i128) -> u16
    ensures { IsSignOf number result }
{
    if number < 0 { MINUS } else { PLUS }
}

/// Whether a number may be that large, and have so many decimals behind its point.
fn may_be(number: u128, scale: u16) -> bool
    ensures { IsTrue result ↔ ((scale ≤ 38) × (number < 10 ^ 38)) }
{
    scale <= 38 && number < 100_000_000_000_000_000_000_000_000_000_000_000_000
}

/// A number.
fn write_number(unscaled: i128, scale: u16, out: &mut BytesMut) -> Result<(), ValueFault>
    ensures { WritesAs (SpellsNumeric true (d.Numeric unscaled scale)) (SpellsNumeric false (d.Numeric unscaled scale))
        out.old.items out.new.items result }
{
    let number = unscaled.unsigned_abs();
    if !may_be(number, scale) {
        return Err(ValueFault::BadValue);
    }
    if number == 0 {
        return put_head(0, 0, PLUS, scale, out);
    }
    put_number(number, sign_of(unscaled), scale, out)
}

/// A numeric.
pub(crate) fn write_numeric(value: &Datum, out: &mut BytesMut) -> Result<(), ValueFault>
    ensures { WritesSent (numeric_send value.now) out.old.items out.new.items result }
{
    write_form(value, out)
}

/// A numeric in its written form.
fn write_form(value: &Datum, out: &mut BytesMut) -> Result<(), ValueFault>
    ensures { WritesAs (SpellsNumeric true value.now) (SpellsNumeric false value.now) out.old.items out.new.items result }
{
    match value {
        Datum::NotANumber => put_head(0, 0, NAN, 0, out),
        Datum::Numeric { unscaled, scale } => write_number(unscaled.get(), *scale, out),
        _ => Err(ValueFault::BadValue),
    }
}
