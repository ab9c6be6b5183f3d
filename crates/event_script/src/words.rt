//! The words of a line, and the numbers that words write.

ghost use Rattle.std.specs.Prelude.{◌≡◌, map, IfOk};
ghost use Rattle.std.specs.Char.{is_ascii_digit};
ghost use Rattle.std.specs.List.{list_all};
ghost use Rattle.event_script.specs.Words.{words, has_leading_zero, is_decimal, number_up_to, number, filing_number};
ghost use Rattle.event_script.specs.Words.{arrival_number, amount};

use std::alloc::{AllocError, Global};

/// The greatest number in a script, unless another limit is given.
const MAX_NUMBER: u64 = (1 << 63) - 1;

/// The greatest number of an arrival to stop at.
const MAX_ARRIVAL: u64 = (1 << 32) - 1;

/// The words, each two parted by one space.
pub(crate) fn split_words(alloc: Global, line: &str) -> Result<Vec<&str>, AllocError>
    ensures { IfOk result (λ list. map (λ word. word.now) list.items ≡ words line.now) }
{
    line.split(' ').collect(alloc)
}

/// The number that a word writes in decimal, without leading zeros.
#[tactic(auto, unfolding(crate::specs::Words::number_up_to))]
pub(crate) fn read_number_up_to(greatest: u64, word: &str) -> Option<u64>
    ensures { result ≡ number_up_to greatest word.now }
{
    if !is_decimal(word) {
        return None;
    }
    match word.parse() {
        Ok(number) if number <= greatest => Some(number),
        _ => None,
    }
}

/// The number of an outbox, an entry, an item or an output.
pub(crate) fn read_number(word: &str) -> Option<u64>
    ensures { result ≡ number word.now }
{
    read_number_up_to(MAX_NUMBER, word)
}

/// The number of a filing, from 1 on.
pub(crate) fn read_filing_number(word: &str) -> Option<u64>
    ensures { result ≡ filing_number word.now }
{
    read_number(word).filter(|number| *number >= 1)
}

/// The number of an arrival to stop at.
pub(crate) fn read_arrival(word: &str) -> Option<u32>
    ensures { result ≡ arrival_number word.now }
{
    let number = read_number_up_to(MAX_ARRIVAL, word)?;
    u32::try_from(number).ok()
}

/// How many bytes come: as many as a number says, or all that there are.
pub(crate) fn read_amount(word: &str) -> Option<usize>
    ensures { result ≡ amount word.now }
{
    if word == "all" {
        return Some(usize::MAX);
    }
    let number = read_number(word)?;
    usize::try_from(number).ok()
}

/// Whether the word has one digit or more, and no leading zero.
fn is_decimal(word: &str) -> bool
    ensures { result ≡ is_decimal word.now }
{
    !word.is_empty() && are_digits(word.as_bytes()) && !has_leading_zero(word.as_bytes())
}

fn has_leading_zero(bytes: &[u8]) -> bool
    ensures { result ≡ has_leading_zero bytes.now }
{
    matches!(bytes, [b'0', _, ..])
}

fn are_digits(bytes: &[u8]) -> bool
    ensures { result ≡ list_all is_ascii_digit bytes.now }
{
    bytes.iter().all(u8::is_ascii_digit)
}
