//! The comma-separated parts of field values, without the white space around them (RFC 9110, sections
//! 5.6.1 and 5.6.3).
ghost use Rattle.std.specs.Prelude.{◌≡◌, reverse};
ghost use Rattle.std.specs.List.{flat_map};
ghost use Rattle.httparse.specs.Grammar.{trim_ows, skip_ows, is_ows};
ghost use Rattle.http_messages.specs.Head.{comma_parts};
ghost use Rattle.http_messages.specs.FieldsNamed.{values_left};

use crate::fields::FieldsNamed;
use crate::split::split_at_first;

/// The parts of the values of one field, in order, without the white space around them.
#[derive(Clone, Copy)]
pub(crate) struct Parts<'h> {
    values: FieldsNamed<'h>,
    rest: Option<&'h [u8]>,
}

impl<'h> Parts<'h> {
    ghost use Rattle.http_messages.specs.PartsLeft.{parts_left};

    pub(crate) fn new(values: FieldsNamed<'h>) -> Parts<'h>
        ensures { parts_left result ≡ flat_map comma_parts (values_left values.entry) }
    {
        Parts { values, rest: None }
    }
}

impl<'h> Iterator for Parts<'h> {
    ghost use Rattle.std.specs.Iterator.{YieldsFirstRef, item_count};
    ghost use Rattle.http_messages.specs.PartsLeft.{parts_left};

    type Item = &'h [u8];

    ghost next_gives = { YieldsFirstRef parts_left };

    ghost remaining = { item_count parts_left };

    fn next(&mut self) -> Option<&'h [u8]> {
        let value = match self.rest {
            Some(rest) => rest,
            None => self.values.next()?,
        };
        let (part, rest) = split_at_first(value, b',');
        self.rest = rest;
        Some(trim_ows(part))
    }
}

/// The value without the spaces and tabs at its ends.
pub(crate) fn trim_ows(value: &[u8]) -> &[u8]
    ensures { result.now ≡ trim_ows value.now }
{
    trim_ows_end(trim_ows_start(value))
}

fn trim_ows_start(bytes: &[u8]) -> &[u8]
    ensures { result.now ≡ skip_ows bytes.now }
{
    let mut rest = bytes;
    while let Some((first, after)) = rest.split_first() {
        if !is_ows(*first) {
            return rest;
        }
        rest = after;
    }
    rest
}

fn trim_ows_end(bytes: &[u8]) -> &[u8]
    ensures { reverse result.now ≡ skip_ows (reverse bytes.now) }
{
    let mut rest = bytes;
    while let Some((last, before)) = rest.split_last() {
        if !is_ows(*last) {
            return rest;
        }
        rest = before;
    }
    rest
}

fn is_ows(byte: u8) -> bool
    ensures { result ≡ is_ows byte }
{
    matches!(byte, b' ' | b'\t')
}
