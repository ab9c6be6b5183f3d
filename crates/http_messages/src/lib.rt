//! HTTP/1.1 messages between a filer and the intake, as bytes: heads, bodies, requests and replies.
//! What may live here: which bytes are a request, a reply or neither, what is read in them, how a
//! request and a reply are written, the laws of both, and the words for what goes wrong. No reader and
//! no writer is known here.
#![tactic(auto)]

mod block;
mod coding;
mod fields;
mod framing;
mod head;
pub mod laws;
mod lists;
mod parts;
mod posting;
mod refusal;
mod reply;
mod response;
mod split;
mod target;

pub use block::{Block, find_block, find_block_from, searched_len, skipped_len};
pub use coding::has_content_coding;
pub use fields::FieldsNamed;
pub use head::{
    Framing, Head, HeadFault, HeadSpans, HeldSpans, MAX_BODY_LEN, read_head, read_parts,
};
pub use posting::append_request;
pub use refusal::{ConnFault, Refusal, ReplyFault};
pub use reply::{Kind, Reply, append_reply, phrase, reply_text};
pub use response::{ResponseHead, read_response};
pub use split::split_at_first;
