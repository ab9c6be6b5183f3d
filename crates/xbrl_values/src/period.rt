//! Date-times and periods.
ghost use Rattle.std.specs.Prelude.{◌≡◌, ◌+◌, ◌<◌, ◌&&◌, length, is_some, IfSome, MatchOption, false, true};
ghost use Rattle.xbrl_values.specs.Period.{has_date_time_form as has_date_time_form_lem, is_on_calendar, is_on_clock};
ghost use Rattle.xbrl_values.specs.Period.{is_date_time, two_digits as two_digits_lem};
ghost use Rattle.xbrl_values.specs.Period.{are_two_digits as are_two_digits_lem, is_period};
ghost use Rattle.xbrl_values.specs.Period.{is_backward as is_backward_lem, is_slash};
ghost use Rattle.xbrl_values.specs.Moment.{IsMoment, IsMomentOf, IsPeriodOf};
ghost use Rattle.std.specs.List.{list_any, before_first, after_first};

use jiff::civil::DateTime;

/// A moment, or the span from a moment to another.
#[derive(Drop)]
pub enum Period {
    At(DateTime),
    Span(DateTime, DateTime),
}

/// The period that a text writes, if it writes one (OIM 1.0, period core dimension): `YYYY-MM-DDThh:mm:ss`, or two of
/// these joined by a slash, each a day of the Gregorian calendar and a time of a clock without leap seconds. By a rule
/// of this profile it has no zone and no fraction of a second. The order of the two is not checked.
pub fn read_period(text: &str) -> Option<Period>
    ensures form { is_some result ≡ is_period text.now }
    ensures value { IfSome result (IsPeriodOf text.now) }
{
    if let Some(moment) = read_date_time(text) {
        return Some(Period::At(moment));
    }
    let (from, to) = split_at_slash(text)?;
    Some(Period::Span(read_date_time(from)?, read_date_time(to)?))
}

/// Whether a text that is a period writes two date-times of which the first isn't before the second (OIM 1.0, period
/// core dimension: a duration's start is before its end). They are compared by the byte order of their texts.
#[tactic(auto, unfolding(crate::specs::Period::is_backward))]
pub fn is_backward(text: &str) -> bool
    requires { is_period text.now ≡ true }
    ensures { result ≡ is_backward_lem text.now }
{
    match split_at_slash(text) {
        None => false,
        Some((from, to)) => !from.cmp(to).is_lt(),
    }
}

/// What stands before the first slash of a text and after it, either of which may be empty. `None` if the text has no
/// slash. This separates the two ends of a period, and the two sides of a unit (xBRL-JSON 1.0).
pub fn split_at_slash(text: &str) -> Option<(&str, &str)>
    ensures { MatchOption result (list_any is_slash text.now ≡ false)
        (λ parts. (list_any is_slash text.now ≡ true)
        × (parts.0.now ≡ before_first is_slash text.now) × (parts.1.now ≡ after_first is_slash text.now)) }
{
    text.split_once('/')
}

/// The date-time that a text writes, if it writes one.
fn read_date_time(text: &str) -> Option<DateTime>
    ensures form { is_some result ≡ is_date_time text.now }
    ensures value { IfSome result (IsMomentOf text.now) }
{
    let bytes = text.as_bytes();
    if has_date_time_form(bytes) {
        written_moment(bytes)
    } else {
        None
    }
}

// The date-time that the digits of a text of the form `YYYY-MM-DDThh:mm:ss` write, if that day and that time exist.
#[tactic(auto, using(crate::proofs::Calendar::form))]
fn written_moment(bytes: &[u8]) -> Option<DateTime>
    requires { has_date_time_form_lem bytes.now ≡ true }
    ensures form { is_some result ≡ is_date_time bytes.now }
    ensures value { IfSome result (IsMomentOf bytes.now) }
{
    let year = u16::from(two_digits(bytes, 0)) * 100 + u16::from(two_digits(bytes, 2));
    date_time(
        year,
        two_digits(bytes, 5),
        two_digits(bytes, 8),
        two_digits(bytes, 11),
        two_digits(bytes, 14),
        two_digits(bytes, 17),
    )
}

// The calendar and the clock are jiff's.
fn date_time(year: u16, month: u8, day: u8, hour: u8, minute: u8, second: u8) -> Option<DateTime>
    requires year { year < 10000 }
    requires month { month < 100 }
    requires day { day < 100 }
    requires hour { hour < 100 }
    requires minute { minute < 100 }
    requires second { second < 100 }
    ensures form { is_some result ≡ (is_on_calendar year month day && is_on_clock hour minute second) }
    ensures value { IfSome result (IsMoment year month day hour minute second) }
{
    DateTime::new(
        year as i16,
        month as i8,
        day as i8,
        hour as i8,
        minute as i8,
        second as i8,
        0,
    )
    .ok()
}

fn two_digits(bytes: &[u8], at: usize) -> u8
    requires within { at + 1 < length bytes.now }
    requires digits { are_two_digits_lem bytes.now at ≡ true }
    ensures value { result ≡ two_digits_lem bytes.now at }
    ensures small { result < 100 }
{
    (bytes[at] - b'0') * 10 + (bytes[at + 1] - b'0')
}

#[tactic(auto, unfolding(crate::specs::Period::has_date_time_form))]
fn has_date_time_form(bytes: &[u8]) -> bool
    ensures { result ≡ has_date_time_form_lem bytes.now }
{
    bytes.len() == 19
        && bytes[4] == b'-'
        && bytes[7] == b'-'
        && bytes[10] == b'T'
        && bytes[13] == b':'
        && bytes[16] == b':'
        && are_two_digits(bytes, 0)
        && are_two_digits(bytes, 2)
        && are_two_digits(bytes, 5)
        && are_two_digits(bytes, 8)
        && are_two_digits(bytes, 11)
        && are_two_digits(bytes, 14)
        && are_two_digits(bytes, 17)
}

fn are_two_digits(bytes: &[u8], at: usize) -> bool
    requires { at + 1 < length bytes.now }
    ensures { result ≡ are_two_digits_lem bytes.now at }
{
    bytes[at].is_ascii_digit() && bytes[at + 1].is_ascii_digit()
}
