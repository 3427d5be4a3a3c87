// Dates from seconds since the beginning of 1970, in UTC.
#![tactic(auto)]

ghost use Rattle.std.specs.Prelude.{◌≡◌, ◌+◌, ◌-◌, ◌*◌, ◌/◌, ◌%◌, ◌<◌, ◌≤◌};
ghost use Rattle.calendar.specs.Days.{leap as leap_of, year_days, month_days, years, months};

use std::fmt;

#[derive(Clone, Copy, Debug, PartialEq, Eq)]
pub struct Date {
    pub year: u32,
    // 1 for January
    pub month: u32,
    // from 1 on
    pub day: u32,
    pub hour: u32,
    pub minute: u32,
    pub second: u32,
}

fn is_leap(year: u32) -> bool
    ensures value { result ≡ leap_of year }
{
    year % 4 == 0 && (year % 100 != 0 || year % 400 == 0)
}

fn year_days(year: u32) -> u32
    ensures value { result ≡ year_days year }
{
    if is_leap(year) { 366 } else { 365 }
}

// The days of a month, from 0 for January to 11.
fn month_days(year: u32, month: u32) -> u32
    ensures value { result ≡ month_days year month }
{
    match month {
        1 => { if is_leap(year) { 29 } else { 28 } }
        3 | 5 | 8 | 10 => 30,
        _ => 31,
    }
}

// The year of a day, days being counted from 1970 on, and the days of that year before it.
fn year_of(days: u32) -> (u32, u32)
    requires { days < 50000 }
    ensures sum { years (result.0 - 1970) + result.1 ≡ days }
    ensures rest { result.1 < year_days result.0 }
    ensures few { (1970 ≤ result.0) × (result.0 ≤ 1970 + days) }
{
    let mut rest = days;
    let mut year = 1970;
    while rest >= year_days(year) {
        rest -= year_days(year);
        year += 1;
    }
    (year, rest)
}

// The month of a day of a year, and the days of that month before it.
fn month_of(year: u32, days: u32) -> (u32, u32)
    requires { days < year_days year }
    ensures sum { months year result.0 + result.1 ≡ days }
    ensures rest { result.1 < month_days year result.0 }
    ensures few { result.0 < 12 }
{
    let mut rest = days;
    for month in 0..11 {
        let length = month_days(year, month);
        if rest < length {
            return (month, rest);
        }
        rest -= length;
    }
    (11, rest)
}

pub fn date_of(seconds: u32) -> Date
    ensures days { years (result.year - 1970) + months result.year (result.month - 1) + (result.day - 1) ≡ seconds / 86400 }
    ensures year { 1970 ≤ result.year }
    ensures month { (1 ≤ result.month) × (result.month ≤ 12) }
    ensures day { (1 ≤ result.day) × (result.day ≤ month_days result.year (result.month - 1)) }
    ensures time { result.hour * 3600 + result.minute * 60 + result.second ≡ seconds % 86400 }
    ensures clock { (result.hour < 24) × (result.minute < 60) × (result.second < 60) }
{
    let (year, rest) = year_of(seconds / 86400);
    let (month, day) = month_of(year, rest);
    let time = seconds % 86400;
    Date {
        year,
        month: month + 1,
        day: day + 1,
        hour: time / 3600,
        minute: time / 60 % 60,
        second: time % 60,
    }
}

impl fmt::Display for Date {
    fn fmt<W: fmt::Write>(&self, f: &mut fmt::Formatter<W>) -> fmt::Result {
        let Date {
            year,
            month,
            day,
            hour,
            minute,
            second,
        } = *self;
        write!(
            f,
            "{year:04}-{month:02}-{day:02} {hour:02}:{minute:02}:{second:02}"
        )
    }
}

#[cfg(test)]
mod tests {
    use super::*;
    use std::test::Fail;

    #[test]
    fn dates_as_others_write_them(rt: HostRuntime) -> Result<(), Fail> {
        let heap = rt.alloc();
        let rows = [
            (0, "1970-01-01 00:00:00"),
            (951782400, "2000-02-29 00:00:00"),
            (1709251199, "2024-02-29 23:59:59"),
            (1709251200, "2024-03-01 00:00:00"),
            (u32::MAX, "2106-02-07 06:28:15"),
        ];
        for (seconds, text) in rows {
            let date = date_of(seconds).to_string(heap)?;
            assert!(rt; date.as_str() == text);
        }
        Ok(())
    }
}
