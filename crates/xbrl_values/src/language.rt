//! Languages.
ghost use Rattle.std.specs.Prelude.{◌≡◌};
ghost use Rattle.xbrl_values.specs.Language.{is_language as is_language_lem, is_language_byte as is_language_byte_lem};

/// Whether a text has the form of a language (OIM 1.0, language core dimension): one or more ASCII letters, digits and
/// hyphens, and nothing else. By a rule of this profile, no more of BCP 47 is checked.
#[tactic(auto, unfolding(crate::specs::Language::is_language))]
pub fn is_language(text: &str) -> bool
    ensures { result ≡ is_language_lem text.now }
{
    !text.is_empty() && text.bytes().all(is_language_byte)
}

fn is_language_byte(byte: u8) -> bool
    ensures { result ≡ is_language_byte_lem byte }
{
    byte.is_ascii_alphanumeric() || byte == b'-'
}
