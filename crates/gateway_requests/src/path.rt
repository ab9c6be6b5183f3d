//! What the path of a request names.

ghost use Rattle.std.specs.Prelude.{◌≡◌, true, Some, option_map, IfSome};
ghost use Rattle.std.specs.Char.{is_ascii_digit};
ghost use Rattle.std.specs.List.{list_all};
ghost use Rattle.key_string.specs.Filer.{is_filer};
ghost use Rattle.http_messages.specs.Posting.{IsTarget};
ghost use Rattle.filing_model.specs.Text.{target_in, resource_in, resource_of_path};
ghost use Rattle.gateway_requests.specs.Path.{view_path, is_decimal};

use filing_model::MAX_FILING_NUMBER;
use http_wire::split_at_first;
use key_string::read_filer;

const FILINGS: &[u8] = b"/filings/";

/// What a path has behind `/filings/`: a filer's code, and the number of a filing if there is one.
#[derive(Clone, Copy)]
pub(crate) struct FilingsPath<'a> {
    pub(crate) filer: &'a str,
    pub(crate) number: Option<u64>,
}

/// What the path names, if it is one of filings.
pub(crate) fn read_path(path: &[u8]) -> Option<FilingsPath<'_>>
    ensures value { option_map view_path result ≡ resource_of_path path.now }
    ensures filer { IfSome result (λ named. is_filer named.filer.now ≡ true) }
    ensures number { IfSome result (λ named. IsTarget named.number) }
{
    read_behind(path.strip_prefix(FILINGS)?)
}

/// A filer's code alone, or with a slash and a number behind it.
fn read_behind(text: &[u8]) -> Option<FilingsPath<'_>>
    ensures value { option_map view_path result ≡ resource_in text.now }
    ensures filer { IfSome result (λ named. is_filer named.filer.now ≡ true) }
    ensures number { IfSome result (λ named. IsTarget named.number) }
{
    let (code, behind) = split_at_first(text, b'/');
    let filer = read_filer(code)?;
    match behind {
        None => Some(FilingsPath {
            filer,
            number: None,
        }),
        Some(number) => read_numbered(filer, number),
    }
}

/// The filing of this filer whose number the text is.
fn read_numbered<'a>(filer: &'a str, text: &[u8]) -> Option<FilingsPath<'a>>
    requires { is_filer filer.now ≡ true }
    ensures value { option_map view_path result ≡ option_map (λ n. (filer.now, Some n)) (target_in text.now) }
    ensures filer { IfSome result (λ named. is_filer named.filer.now ≡ true) }
    ensures number { IfSome result (λ named. IsTarget named.number) }
{
    let number = read_number(text)?;
    Some(FilingsPath {
        filer,
        number: Some(number),
    })
}

/// The number of a filing, from 1 to 2^63 - 1, in decimal without leading zeros.
fn read_number(text: &[u8]) -> Option<u64>
    ensures value { result ≡ target_in text.now }
    ensures number { IsTarget result }
{
    if !is_decimal(text) {
        return None;
    }
    let Ok(digits) = str::from_utf8(text) else {
        return None;
    };
    match digits.parse() {
        Ok(number) if number <= MAX_FILING_NUMBER => Some(number),
        _ => None,
    }
}

/// Whether the text is digits, the first of them not 0.
fn is_decimal(text: &[u8]) -> bool
    ensures { result ≡ is_decimal text.now }
{
    !text.is_empty() && text[0] != b'0' && are_digits(text)
}

fn are_digits(text: &[u8]) -> bool
    ensures { result ≡ list_all is_ascii_digit text.now }
{
    text.iter().all(u8::is_ascii_digit)
}
