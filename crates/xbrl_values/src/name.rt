//! Qualified names and entities.
ghost use Rattle.std.specs.Prelude.{◌≡◌, [], false, true, MatchOption};
ghost use Rattle.xbrl_values.specs.QName.{is_qname, is_entity, is_name_byte as is_name_byte_lem};
ghost use Rattle.xbrl_values.specs.QName.{is_name_part as is_name_part_lem, prefix_of, local_of};

/// The prefix and the local name of a qualified name (xBRL-JSON 1.0): one colon, and on each side of it a text that
/// isn't empty and has no ASCII white space or control character. `None` if the text is no such name.
pub fn split_qname(text: &str) -> Option<(&str, &str)>
    ensures { MatchOption result (is_qname text.now ≡ false)
        (λ parts. (is_qname text.now ≡ true)
        × (parts.0.now ≡ prefix_of text.now) × (parts.1.now ≡ local_of text.now)) }
{
    let (prefix, local) = split_at_colon(text)?;
    if is_name_part(prefix) && is_name_part(local) {
        Some((prefix, local))
    } else {
        None
    }
}

/// The prefix of its scheme and the identifier of an entity (xBRL-JSON 1.0): what stands before the first colon and
/// after it, neither empty. `None` if the text is no entity.
pub fn split_entity(text: &str) -> Option<(&str, &str)>
    ensures { MatchOption result (is_entity text.now ≡ false)
        (λ parts. (is_entity text.now ≡ true)
        × (parts.0.now ≡ prefix_of text.now) × (parts.1.now ≡ local_of text.now)) }
{
    let (prefix, identifier) = split_at_colon(text)?;
    if prefix.is_empty() || identifier.is_empty() {
        None
    } else {
        Some((prefix, identifier))
    }
}

fn split_at_colon(text: &str) -> Option<(&str, &str)>
    ensures { MatchOption result (local_of text.now ≡ [])
        (λ parts. (parts.0.now ≡ prefix_of text.now) × (parts.1.now ≡ local_of text.now)) }
{
    text.split_once(':')
}

fn is_name_part(text: &str) -> bool
    ensures { result ≡ is_name_part_lem text.now }
{
    !text.is_empty() && text.bytes().all(is_name_byte)
}

fn is_name_byte(byte: u8) -> bool
    ensures { result ≡ is_name_byte_lem byte }
{
    byte > b' ' && byte != 0x7f && byte != b':'
}
