//! The codes of filers.

ghost use Rattle.std.specs.Prelude.{◌≡◌, true, false, MatchOption};
ghost use Rattle.std.specs.List.{list_all};
ghost use Rattle.key_string.specs.Filer.{is_filer, is_filer_byte};

const MAX_FILER_LEN: usize = 64;

/// Whether the text is a filer code: 1 to 64 ASCII letters, digits, `.`, `_` or `-` (own rule).
#[tactic(auto, unfolding(crate::specs::Filer::is_filer))]
pub fn is_filer(text: &str) -> bool
    ensures { result ≡ is_filer text.now }
{
    !text.is_empty() && text.len() <= MAX_FILER_LEN && are_filer_bytes(text.as_bytes())
}

/// The filer code that the bytes are; `None` if they are no filer code (own rule, as for `is_filer`).
pub fn read_filer(bytes: &[u8]) -> Option<&str>
    ensures { MatchOption result (is_filer bytes.now ≡ false) (λ filer.
        (filer.now ≡ bytes.now) × (is_filer bytes.now ≡ true)) }
{
    match str::from_utf8(bytes) {
        Ok(text) => is_filer(text).then_some(text),
        Err(_) => None,
    }
}

fn are_filer_bytes(bytes: &[u8]) -> bool
    ensures { result ≡ list_all is_filer_byte bytes.now }
{
    bytes.iter().all(is_filer_byte)
}

fn is_filer_byte(byte: &u8) -> bool
    ensures { result ≡ is_filer_byte byte.now }
{
    byte.is_ascii_alphanumeric() || matches!(byte, b'.' | b'_' | b'-')
}
