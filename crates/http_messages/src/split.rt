//! Where a byte first stands in a text, and what lies on either side of it.
ghost use Rattle.std.specs.Prelude.{◌≡◌, ◌==◌, ◌∷◌, ◌+◌, position, option_copied, nat_eq, length, drop, None, Some};
ghost use Rattle.std.specs.Prelude.{if◌then◌else◌};
ghost use Rattle.std.specs.List.{slice_split};
ghost use Rattle.http_uri.specs.ByteClasses.{split_once_front};
ghost use Rattle.http_messages.specs.Parts.{later_parts};

/// What lies before the first such byte, and what lies after it. Without such a byte, all of the text lies before.
pub fn split_at_first(text: &[u8], stop: u8) -> (&[u8], Option<&[u8]>)
    ensures before { result.0.now ≡ split_once_front stop text.now }
    ensures after { option_copied result.1
        ≡ (if nat_eq (length result.0.now) (length text.now) then None else Some
        (drop (length result.0.now + 1) text.now)) }
    ensures parts { slice_split (λ byte. byte == stop) text.now ≡ result.0.now ∷ later_parts stop
        (option_copied result.1) }
{
    match index_of(text, stop) {
        Some(at) => (&text[..at], Some(&text[at + 1..])),
        None => (text, None),
    }
}

fn index_of(text: &[u8], wanted: u8) -> Option<usize>
    ensures { result ≡ position (λ byte. byte == wanted) text.now }
{
    text.iter().position(|byte| *byte == wanted)
}
