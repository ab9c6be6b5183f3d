//! Where the head of a message ends (RFC 9112, sections 2.1 and 2.2).
ghost use Rattle.std.specs.Prelude.{◌≡◌, ◌≤◌, ◌++◌, ℕ, List, length, MatchOption};
ghost use Rattle.http_messages.specs.Block.{max_block_len, skipped_len, from_block, HasNoEndUpTo, BeginsBlock, IsBlock};
ghost use Rattle.http_messages.specs.Feeds.{HasNoFeedFrom, IsNextFeed};

use memchr::memchr;

/// The most bytes of a block, a skipped CRLF not counted. An own rule.
const MAX_BLOCK_LEN: usize = 16_384;

const CRLF: &[u8] = b"\r\n";

const BLOCK_END: &[u8] = b"\r\n\r\n";

/// What stands at the front of the bytes that were read so far. A block is a head with the empty
/// line that ends it. A CRLF before it is skipped, unless another CRLF follows at once.
#[derive(Clone, Copy, Debug, PartialEq, Eq)]
pub enum Block {
    /// A block, which ends after so many bytes, the skipped CRLF among them.
    End(usize),
    /// 16,384 bytes after the skipped CRLF hold no end of a block.
    TooLong,
    /// No whole block yet, and room for more of it.
    More,
}

/// Where the block at the front of the bytes ends.
pub fn find_block(bytes: &[u8]) -> Block
    ensures { IsBlock bytes.now result }
{
    find_block_from(bytes, 0)
}

/// Where the block at the front of the bytes ends, as `find_block` answers, if its first `searched` bytes hold no end.
/// A skipped CRLF is not counted. So a search goes on where the last one stopped.
pub fn find_block_from(bytes: &[u8], searched: usize) -> Block
    requires { HasNoEndUpTo (from_block bytes.now) searched }
    ensures { IsBlock bytes.now result }
{
    let skipped = skipped_len(bytes);
    let text = &bytes[skipped..];
    match find_end(text, searched) {
        Some(len) => Block::End(skipped + len),
        None if text.len() < MAX_BLOCK_LEN => Block::More,
        None => Block::TooLong,
    }
}

/// How many bytes of the block are known to hold no end, if the bytes hold none: all that are there, once there are
/// four. A search by `find_block_from` goes on behind them.
pub fn searched_len(bytes: &[u8]) -> usize
    requires { IsBlock bytes.now Block.More }
    ensures unended { (more : List ℕ) → HasNoEndUpTo (from_block (bytes.now ++ more)) result }
    ensures all { 4 ≤ length bytes.now → result ≡ length (from_block bytes.now) }
{
    if bytes.len() < 4 {
        0
    } else {
        bytes.len() - skipped_len(bytes)
    }
}

/// How many bytes stand before the block: 2 for a skipped CRLF (RFC 9112, section 2.2), else 0.
pub fn skipped_len(bytes: &[u8]) -> usize
    ensures value { result ≡ skipped_len bytes.now }
    ensures within { result ≤ length bytes.now }
{
    if bytes.starts_with(CRLF) && !bytes.starts_with(BLOCK_END) {
        CRLF.len()
    } else {
        0
    }
}

/// The length of the block that the text begins with, of which `searched` bytes hold no end.
fn find_end(text: &[u8], searched: usize) -> Option<usize>
    requires { HasNoEndUpTo text.now searched }
    ensures { MatchOption result (HasNoEndUpTo text.now max_block_len) (BeginsBlock text.now) }
{
    let mut from = searched.max(BLOCK_END.len() - 1);
    'feeds: while let Some(at) = next_feed(text, from) {
        if at >= MAX_BLOCK_LEN {
            return None;
        }
        if &text[at + 1 - BLOCK_END.len()..at + 1] == BLOCK_END {
            return Some(at + 1);
        }
        from = at + 1;
    }
    None
}

/// Where the first LF stands, from this index on.
pub(crate) fn next_feed(text: &[u8], from: usize) -> Option<usize>
    ensures { MatchOption result (HasNoFeedFrom text.now from) (IsNextFeed text.now from) }
{
    if from >= text.len() {
        return None;
    }
    match memchr(b'\n', &text[from..]) {
        Some(at) => Some(from + at),
        None => None,
    }
}
