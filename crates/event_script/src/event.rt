//! The events of a schedule.

use key_string::KeyText;

/// Where an end stops while it handles an event. The requests of a delivery are counted from 1, and 0 acts as 1; while
/// a reply is handed over, there is one point to stop at, whatever the number.
#[derive(Clone, Copy, Debug, PartialEq, Eq)]
pub enum Crash {
    /// The end does not stop.
    No,
    /// The end stops before anything is kept for this request, or before a reply is taken.
    Before(u32),
    /// The end stops after what this request, or a reply, changes is kept, and before a byte of an answer is written.
    After(u32),
}

/// What may happen. Outboxes, entries, sent items and outputs are named by their numbers, from 1 on. A delivery and a
/// reply that is handed over give so many bytes, or all if there are fewer.
#[derive(Drop)]
pub enum Event {
    /// A report is put into an outbox under a key; it may be to replace the filing of a number, from 1 to 2^63 - 1.
    Put {
        outbox: u64,
        key: KeyText,
        target: Option<u64>,
        body: Vec<u8>,
    },
    /// The request of an entry is sent.
    Send {
        outbox: u64,
        entry: u64,
    },
    /// Somebody else sends bytes.
    Stranger {
        bytes: Vec<u8>,
    },
    /// The first bytes of a sent item come to the intake on a connection of their own.
    Deliver {
        item: u64,
        bytes: usize,
        crash: Crash,
    },
    /// The first bytes of an output come to the outbox whose entry was sent.
    Hand {
        output: u64,
        bytes: usize,
        crash: Crash,
    },
    /// The intake is opened again.
    RestartServer,
    /// An outbox is opened again.
    RestartOutbox {
        outbox: u64,
    },
}
