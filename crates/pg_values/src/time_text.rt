//! Dates and timestamps in text, in the style ISO (PostgreSQL source, datetime.c).

ghost use Rattle.std.specs.Prelude.{◌<◌, ◌≤ℤ◌, ◌+ℤ◌, ◌^◌, pos};

use std::fmt;

/// A day of the calendar.
#[derive(Clone, Copy, Drop)]
struct Day {
    /// The year, 0 for the one before the year 1.
    year: i64,
    month: u32,
    day: u32,
}

/// Whether days from 2000-01-01 are a day, and not infinity.
fn is_day(days: i32) -> bool {
    days != i32::MIN && days != i32::MAX
}

/// Whether microseconds from 2000-01-01 are a moment, and not infinity.
pub(crate) fn is_moment(microseconds: i64) -> bool {
    microseconds != i64::MIN && microseconds != i64::MAX
}

/// The year that a day lies in of 400 years, both counted from 0. They have 146,097 days.
fn year_of(day: u32) -> u32
    requires { day < 146097 }
    ensures { result < 400 }
{
    (day - day / 1460 + day / 36_524 - day / 146_096) / 365
}

/// The day that a year of 400 begins with.
fn first_of(year: u32) -> u32
    requires { year < 400 }
    ensures { result < 146097 }
{
    365 * year + year / 4 - year / 100
}

/// The month, counted from March on, and the day of it, of a day of a year.
fn month_of(day: u32) -> (u32, u32)
    requires { day < 146097 }
    ensures { result.0 < 5000 }
{
    let month = (5 * day + 2) / 153;
    (month, day + 1 - (153 * month + 2) / 5)
}

/// The day so many days after 2000-01-01. Years are counted from March on, so that a leap day is the last day of its year.
fn day_after(days: i64) -> Day
    requires low { pos 0 ≤ℤ (days +ℤ pos (2 ^ 40)) }
    requires high { days ≤ℤ pos (2 ^ 40) }
{
    let from_march = days + 730_425;
    let day = from_march.rem_euclid(146_097) as u32;
    let year = year_of(day);
    let (month, day) = month_of(day.saturating_sub(first_of(year)));
    let cycle = from_march.div_euclid(146_097);
    if month < 10 {
        return Day {
            year: cycle * 400 + year as i64,
            month: month + 3,
            day,
        };
    }
    Day {
        year: cycle * 400 + (year + 1) as i64,
        month: month - 9,
        day,
    }
}

/// Whether the text of a date has a blank: it lies before the year 1.
pub(crate) fn is_date_odd(days: i32) -> bool {
    is_day(days) && day_after(days as i64).year < 1
}

/// The day, without a word on its era.
fn put_day<W: fmt::Write>(day: Day, f: &mut fmt::Formatter<W>) -> fmt::Result {
    let year = if day.year < 1 {
        1i64.wrapping_sub(day.year)
    } else {
        day.year
    };
    write!(f, "{:04}-{:02}-{:02}", year, day.month, day.day)
}

/// The era, where the day lies before the year 1.
fn put_era<W: fmt::Write>(day: Day, f: &mut fmt::Formatter<W>) -> fmt::Result {
    if day.year < 1 {
        f.write_str(" BC")
    } else {
        Ok(())
    }
}

/// Decimals behind the point, without zeros at their end; none for 0.
fn put_fraction<W: fmt::Write>(microseconds: i64, f: &mut fmt::Formatter<W>) -> fmt::Result {
    let mut rest = microseconds;
    if rest > 0 {
        f.write_char('.')?;
    }
    for _ in 0..6 {
        if rest > 0 {
            let tenfold = rest % 1_000_000 * 10;
            write!(f, "{}", tenfold / 1_000_000)?;
            rest = tenfold % 1_000_000;
        }
    }
    Ok(())
}

/// The time of a day, in microseconds from its begin.
fn put_time<W: fmt::Write>(microseconds: i64, f: &mut fmt::Formatter<W>) -> fmt::Result {
    let seconds = microseconds / 1_000_000;
    write!(
        f,
        " {:02}:{:02}:{:02}",
        seconds / 3600,
        seconds / 60 % 60,
        seconds % 60
    )?;
    put_fraction(microseconds % 1_000_000, f)
}

/// Days from 2000-01-01.
pub(crate) fn put_date<W: fmt::Write>(days: i32, f: &mut fmt::Formatter<W>) -> fmt::Result {
    if !is_day(days) {
        return f.write_str(if days < 0 { "-infinity" } else { "infinity" });
    }
    let day = day_after(days as i64);
    put_day(day, f)?;
    put_era(day, f)
}

/// Microseconds from the begin of 2000-01-01.
pub(crate) fn put_timestamp<W: fmt::Write>(
    microseconds: i64,
    f: &mut fmt::Formatter<W>,
) -> fmt::Result {
    if !is_moment(microseconds) {
        return f.write_str(if microseconds < 0 {
            "-infinity"
        } else {
            "infinity"
        });
    }
    let day = day_after(microseconds.div_euclid(86_400_000_000));
    put_day(day, f)?;
    put_time(microseconds.rem_euclid(86_400_000_000), f)?;
    put_era(day, f)
}
