//! Reads a digest that was published.

ghost use Rattle.std.specs.Prelude.{◌≡◌, [], MatchOption};
ghost use Rattle.std.specs.Result.{result_ok};
ghost use Rattle.hex.specs.Hex.{decode_sized};
ghost use Rattle.intake_commands.specs.Words.{before_colon, after_colon, published_in};

use command_line::read_number;
use hex::FromHex;
use intake_process::Published;

/// The digest that a text `N:HEX` writes, of N requests: N in decimal digits, and HEX as 64 hexadecimal digits, in
/// either case. `None` for any other text.
pub(crate) fn read_published(text: &str) -> Option<Published>
    ensures { result ≡ published_in text.now }
{
    let (count, digits) = split_at_colon(text)?;
    let count = read_number(count)?;
    let bytes = read_bytes(digits)?;
    Some(Published { count, bytes })
}

/// What stands before the first colon and behind it.
fn split_at_colon(text: &str) -> Option<(&str, &str)>
    ensures { MatchOption result (after_colon text.now ≡ [])
        (λ parts. (parts.0.now ≡ before_colon text.now) × (parts.1.now ≡ after_colon text.now)) }
{
    text.split_once(':')
}

/// The 32 bytes of 64 hexadecimal digits.
fn read_bytes(digits: &str) -> Option<[u8; 32]>
    ensures { result ≡ result_ok (decode_sized digits.now 32) }
{
    <[u8; 32] as FromHex>::from_hex(digits).ok()
}
