//! The values of the fields of one name in a head (RFC 9110, sections 5.1 and 5.3).
ghost use Rattle.std.specs.Prelude.{◌≡◌, ◌≤◌, All, length, map};
ghost use Rattle.httparse.specs.Spans.{IsHeaderWithin, header_bytes};
ghost use Rattle.http_messages.specs.Head.{values_named};
ghost use Rattle.http_messages.specs.Spans.{parts_at, IsHeadWithin};

use crate::head::HeadSpans;
use httparse::spans::HeaderSpan;

/// The values of the fields of one name, in order, without the white space around them. Names are
/// compared without case.
#[derive(Clone, Copy)]
pub struct FieldsNamed<'h> {
    block: &'h [u8],
    spans: &'h [HeaderSpan],
    name: &'h [u8],
    ghost within: { All (IsHeaderWithin (length block.now)) spans.now },
}

impl<'h> FieldsNamed<'h> {
    ghost use Rattle.http_messages.specs.FieldsNamed.{values_left};

    pub(crate) fn new(block: &'h [u8], spans: &'h HeadSpans, name: &'h [u8]) -> FieldsNamed<'h>
        requires { IsHeadWithin block.now spans.now }
        ensures values { values_left result ≡ values_named name.now (parts_at block.now spans.now).fields }
        ensures few { length (values_left result) ≤ 64 }
    {
        FieldsNamed::of(block, &spans.fields, name)
    }

    /// The values of the fields of one name, among fields of which no head is known.
    pub(crate) fn of(block: &'h [u8], spans: &'h [HeaderSpan], name: &'h [u8]) -> FieldsNamed<'h>
        requires { All (IsHeaderWithin (length block.now)) spans.now }
        ensures { values_left result ≡ values_named name.now (map (header_bytes block.now) spans.now) }
    {
        FieldsNamed { block, spans, name }
    }
}

impl<'h> Iterator for FieldsNamed<'h> {
    ghost use Rattle.std.specs.Iterator.{YieldsFirstRef, item_count};
    ghost use Rattle.http_messages.specs.FieldsNamed.{values_left};

    type Item = &'h [u8];

    ghost next_gives = { YieldsFirstRef values_left };

    ghost remaining = { item_count values_left };

    fn next(&mut self) -> Option<&'h [u8]> {
        while let Some((field, rest)) = self.spans.split_first() {
            self.spans = rest;
            if field.name.of(self.block).eq_ignore_ascii_case(self.name) {
                return Some(field.value.of(self.block));
            }
        }
        None
    }
}
