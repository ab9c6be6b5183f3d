//! What the comma-separated parts of a field say together: a word among them, or one number.
ghost use Rattle.std.specs.Prelude.{◌≡◌, ◌==◌, ◌+◌, ◌&&◌, min, bytes_eq};
ghost use Rattle.std.specs.List.{list_any, list_all};
ghost use Rattle.std.specs.Char.{is_ascii_digit};
ghost use Rattle.std.specs.Str.Parse.{digits_value};
ghost use Rattle.httparse.specs.Grammar.{AllPass};
ghost use Rattle.http_messages.specs.Head.{is_number, same_name};
ghost use Rattle.http_messages.specs.Lists.{IsAgreed, significant};
ghost use Rattle.http_messages.specs.PartsLeft.{parts_left};
ghost use Rattle.http_messages.specs.Response.{max_content_len};

use crate::parts::Parts;

/// The most bytes of the content of any message. An own rule.
pub(crate) const MAX_CONTENT_LEN: usize = 8_388_608;

/// Whether one of the parts is this word, in any case.
pub(crate) fn has_word(mut parts: Parts, word: &[u8]) -> bool
    ensures { result ≡ list_any (λ part. same_name part word.now) (parts_left parts.entry) }
{
    parts.any(|part| is_same_name(part, word))
}

fn is_same_name(a: &[u8], b: &[u8]) -> bool
    ensures { result ≡ same_name a.now b.now }
{
    a.eq_ignore_ascii_case(b)
}

/// The number that all parts write, or 8,388,609 in place of a larger one; 0 without parts, `None` if they don't agree
/// (RFC 9112, section 6.3).
pub(crate) fn agreed_length(mut parts: Parts) -> Option<usize>
    ensures { IsAgreed (parts_left parts.entry) result }
{
    let Some(first) = parts.next() else {
        return Some(0);
    };
    let digits = significant_digits(first);
    if is_number(first) && are_numbers_of(parts, digits) {
        Some(bounded_value(digits))
    } else {
        None
    }
}

/// Whether all parts are numbers with these digits, apart from leading zeros.
fn are_numbers_of(mut parts: Parts, digits: &[u8]) -> bool
    ensures { result ≡ list_all (λ part. is_number part && bytes_eq (significant part) digits.now)
        (parts_left parts.entry) }
{
    parts.all(|part| is_number_of(part, digits))
}

fn is_number_of(part: &[u8], digits: &[u8]) -> bool
    ensures { result ≡ (is_number part.now && bytes_eq (significant part.now) digits.now) }
{
    is_number(part) && significant_digits(part) == digits
}

fn is_number(part: &[u8]) -> bool
    ensures { result ≡ is_number part.now }
{
    !part.is_empty() && are_digits(part)
}

fn are_digits(part: &[u8]) -> bool
    ensures { result ≡ list_all is_ascii_digit part.now }
{
    part.iter().all(u8::is_ascii_digit)
}

/// The digits of a number without its leading zeros.
fn significant_digits(part: &[u8]) -> &[u8]
    ensures { result.now ≡ significant part.now }
{
    let mut digits = part;
    while let Some((first, rest)) = digits.split_first() {
        if *first != b'0' {
            return digits;
        }
        digits = rest;
    }
    digits
}

/// The number that the digits write, or 8,388,609 in place of a larger one.
fn bounded_value(digits: &[u8]) -> usize
    requires { AllPass is_ascii_digit digits.now }
    ensures { result ≡ min (digits_value 10 digits.now) (max_content_len + 1) }
{
    let mut value = 0;
    for digit in digits {
        value = (value * 10 + usize::from(digit - b'0')).min(MAX_CONTENT_LEN + 1);
    }
    value
}
