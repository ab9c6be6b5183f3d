//! HTTP/1.1 messages, read from a reader and written to a writer: the requests of a connection, and
//! one reply. What may live here: what is read, held and written, in how many pieces, and why a call
//! fails. Which bytes are a message, and how one is written, is known by `http_messages`.
#![tactic(auto)]

mod conn;
mod device;
mod inbox;
pub mod laws;
mod memory;
mod read;
mod reading;
mod received;
mod reply_reader;
mod write;

pub use conn::Conn;
pub use device::{Device, DeviceFailed, Sink, Source};
pub use http_connection::Request as Message;
pub use http_messages::{
    Block, ConnFault, FieldsNamed, Head, HeadFault, Kind, MAX_BODY_LEN, Refusal, Reply, ReplyFault,
    append_reply, append_request, find_block, has_content_coding, phrase, read_head,
    split_at_first,
};
pub use inbox::{Inbox, Next};
pub use memory::{MemoryReader, MemoryWriter};
pub use read::MAX_READS;
pub use reply_reader::read_reply;
pub use write::{write_all, write_reply};
