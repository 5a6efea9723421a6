//! Moments in whole seconds, and their one text.
ghost use Rattle.std.specs.Prelude.{◌≡◌, ℕ, ℤ, List, ◌+◌, ◌/◌, ◌%◌, ◌&&◌, ◌<◌, ◌↔◌, length, IsTrue, IfOk, encode_utf8_all, if◌then◌else◌, Some, None, true, false, MatchOption};
ghost use Rattle.dv_value.specs.Moment.{IsMoment, is_civil_date, is_civil_time, seconds_of, civil_text, pair_at, civil_of, moment_of, IsNear, IsDateOf, IsCivilAt, IsTextOf};

use crate::text::Text;
use jiff_core::civil::Date;
use std::alloc::{AllocError, Global};

// 0001-01-01T00:00:00Z.
const FIRST: i64 = -62_135_596_800;

// 9999-12-31T23:59:59Z.
const LAST: i64 = 253_402_300_799;

const SECONDS_OF_DAY: i64 = 86_400;

// From -9999-01-01, the first date of the calendar that computes, to 1970-01-01.
const DAYS_BEFORE: i64 = 4_371_587;

/// Whether a number of seconds lies in the years 0001 to 9999, which a clock's moments do.
pub fn is_moment(seconds: i64) -> bool
    ensures { IsTrue result ↔ IsMoment seconds }
{
    FIRST <= seconds && seconds <= LAST
}

/// Reads `YYYY-MM-DDTHH:MM:SSZ`, a date of the proleptic Gregorian calendar in the years 0001 to 9999 and a time
/// of day in UTC, as seconds since 1970-01-01T00:00:00Z. None for any other text.
#[tactic(auto, unfolding(crate::specs::Moment::moment_of))]
pub fn read_moment(text: &str) -> Option<i64>
    ensures { result ≡ moment_of text.now }
{
    let text = text.as_bytes();
    if text.len() != 20 {
        return None;
    }
    let civil = Civil::from_text(text);
    if civil.to_text().as_slice() != text {
        return None;
    }
    civil.seconds()
}

/// The text of a moment, `YYYY-MM-DDTHH:MM:SSZ`.
pub fn print_moment(alloc: Global, seconds: i64) -> Result<Text, AllocError>
    requires { IsMoment seconds }
    ensures text { IfOk result (λ text. IsTextOf text seconds) }
    ensures read_again { IfOk result (λ text. moment_of (encode_utf8_all text) ≡ Some seconds) }
{
    let civil = Civil::at(seconds);
    civil.print(alloc)
}

/// A moment has one text, and a text is read as the moment whose text it is, of which there is one at most. The call
/// does nothing: what it ensures is the law.
pub fn a_moment_has_one_text()
    ensures one_text { (a : List ℕ) (b : List ℕ) (seconds : ℤ)
        → IsTextOf a seconds → IsTextOf b seconds → a ≡ b }
    ensures one_moment { (text : List ℕ) (a : ℤ) (b : ℤ)
        → IsTextOf text a → IsTextOf text b → a ≡ b }
    ensures reads { (text : List ℕ) (seconds : ℤ)
        → (moment_of text ≡ Some seconds) ↔ IsTextOf text seconds }
{}

// A date and a time of day in UTC, as a text spells them, whether the calendar has them or not.
#[derive(Clone, Copy)]
struct Civil {
    year: u32,
    month: u32,
    day: u32,
    hour: u32,
    minute: u32,
    second: u32,
}

impl Civil {
    // The date and the time of day of a moment.
    fn at(seconds: i64) -> Civil
        requires { IsMoment seconds }
        ensures { IsCivilAt result seconds }
    {
        let total = (seconds + DAYS_BEFORE * SECONDS_OF_DAY) as u64;
        let date = Date::from_days_since_min((total / 86_400) as u32);
        let time = (total % 86_400) as u32;
        Civil {
            year: date.year as u32,
            month: u32::from(date.month),
            day: u32::from(date.day),
            hour: time / 3600,
            minute: time / 60 % 60,
            second: time % 60,
        }
    }

    // The text, as characters.
    fn print(&self, alloc: Global) -> Result<Text, AllocError>
        ensures { IfOk result (λ text. text ≡ civil_text self.now) }
    {
        match str::from_utf8(&self.to_text()) {
            Ok(text) => Ok(Text::from_str(alloc, text)?),
            Err(_) => unreachable!(),
        }
    }

    // What the digits of a text say, at the places where a moment's text has them.
    #[tactic(auto, unfolding(crate::specs::Moment::civil_of))]
    fn from_text(text: &[u8]) -> Civil
        requires { length text.now ≡ 20 }
        ensures { result ≡ civil_of text.now }
    {
        Civil {
            year: pair(text, 0) * 100 + pair(text, 2),
            month: pair(text, 5),
            day: pair(text, 8),
            hour: pair(text, 11),
            minute: pair(text, 14),
            second: pair(text, 17),
        }
    }

    // The text, with the last digits of each number.
    #[tactic(auto, unfolding(crate::specs::Moment::civil_text, crate::specs::Digits::places))]
    fn to_text(&self) -> [u8; 20]
        ensures { result ≡ civil_text self.now }
    {
        [
            digit(self.year, 1000),
            digit(self.year, 100),
            digit(self.year, 10),
            digit(self.year, 1),
            b'-',
            digit(self.month, 10),
            digit(self.month, 1),
            b'-',
            digit(self.day, 10),
            digit(self.day, 1),
            b'T',
            digit(self.hour, 10),
            digit(self.hour, 1),
            b':',
            digit(self.minute, 10),
            digit(self.minute, 1),
            b':',
            digit(self.second, 10),
            digit(self.second, 1),
            b'Z',
        ]
    }

    // Seconds since 1970-01-01T00:00:00Z, where the calendar and the day have this date and time.
    fn seconds(&self) -> Option<i64>
        ensures { result ≡ (if is_civil_date self.now && is_civil_time self.now
            then Some (seconds_of self.now) else None) }
    {
        let date = match self.date() {
            Some(date) => date,
            None => return None,
        };
        if !self.is_time() {
            return None;
        }
        let time = self.hour * 3600 + self.minute * 60 + self.second;
        Some(i64::from(date.to_unix_epoch_day()) * SECONDS_OF_DAY + i64::from(time))
    }

    // Whether a day has the time.
    #[tactic(auto, unfolding(crate::specs::Moment::is_civil_time))]
    fn is_time(&self) -> bool
        ensures { result ≡ is_civil_time self.now }
    {
        self.hour <= 23 && self.minute <= 59 && self.second <= 59
    }

    // The date, where the calendar has it, in the years 1 to 9999.
    fn date(&self) -> Option<Date>
        ensures { MatchOption result (is_civil_date self.now ≡ false) (IsDateOf self.now) }
    {
        if !self.is_near() {
            return None;
        }
        match Date::new(self.year as i16, self.month as i8, self.day as i8) {
            Ok(date) => Some(date),
            Err(_) => None,
        }
    }

    // Whether the year is from 1 to 9999, and the month and the day may be some.
    fn is_near(&self) -> bool
        ensures { IsTrue result ↔ IsNear self.now }
    {
        1 <= self.year && self.year <= 9999 && self.month <= 12 && self.day <= 31
    }
}

// The number that the two digits at a place say.
fn pair(text: &[u8], place: usize) -> u32
    requires { place + 1 < length text.now }
    ensures value { result ≡ pair_at text.now place }
    ensures small { result < 10000 }
{
    u32::from(text[place].saturating_sub(b'0')) * 10
        + u32::from(text[place + 1].saturating_sub(b'0'))
}

// The digit that counts a unit.
fn digit(number: u32, unit: u32) -> u8
    requires { 0 < unit }
    ensures { result ≡ 48 + number / unit % 10 }
{
    b'0' + (number / unit % 10) as u8
}
