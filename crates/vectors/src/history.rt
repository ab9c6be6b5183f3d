//! Connections to an intake as data, and what runs them.

use crate::examples::repeated;
use crate::refusal::answer;
use example_texts::Giving;
use gateway_server::{Ended, Mark, Served, serve};
use http_wire::{ConnFault, Device};
use intake_core::Intake;
use register_store::{CreateFault, Store, StoreFault};
use sqlite::{Alter, MemStore};
use std::alloc::{AllocError, Global};
use std::io::{Read, Write};

/// A part of what is given on a connection.
#[derive(Clone, Copy)]
pub(crate) enum Part<'a> {
    Text(&'a str),
    /// A character so many times.
    Repeated(char, u32),
    /// The request that files a body: its path after `/filings/`, its key, and the body.
    Filing(&'a str, &'a str, &'a str),
}

/// What is given to an intake on one connection, part by part, and the expected result, text by text.
#[derive(Clone, Copy)]
pub(crate) struct Connection<'a> {
    pub(crate) given: &'a [Part<'a>],
    pub(crate) written: &'a [&'a str],
    /// A mark for each request that came, in order.
    pub(crate) marks: &'a [Mark],
    pub(crate) ended: Ended,
}

/// The connections of an intake that is empty at first, one after another, and what it keeps in the end.
#[derive(Clone, Copy)]
pub(crate) struct History<'a> {
    /// How many keys the intake may keep.
    pub(crate) limit: u32,
    /// How many bytes a read gives at most.
    pub(crate) piece: usize,
    pub(crate) connections: &'a [Connection<'a>],
    /// How many requests are kept.
    pub(crate) kept: u64,
    /// How many of these are registered.
    pub(crate) filings: u64,
}

/// How many keys an intake may keep if a vector names no other limit.
pub(crate) const LIMIT: u32 = 1_000_000;

/// How many bytes a read gives at most if a vector names no other number.
pub(crate) const PIECE: usize = 4096;

impl<'a> History<'a> {
    /// Connections that leave this many requests and filings, under the usual limits.
    pub(crate) fn of(connections: &'a [Connection<'a>], kept: u64, filings: u64) -> History<'a> {
        History {
            limit: LIMIT,
            piece: PIECE,
            connections,
            kept,
            filings,
        }
    }

    /// Whether every reply is the expected one, and the register holds as much as expected.
    pub(crate) fn holds(&self, alloc: Global) -> Result<bool, AllocError> {
        match self.run(alloc)? {
            Some(store) => self.leaves(&store),
            None => Ok(false),
        }
    }

    /// The register after the connections, if each went as expected.
    pub(crate) fn run(&self, alloc: Global) -> Result<Option<Store<MemStore>>, AllocError> {
        let Some(mut intake) = empty_intake(alloc, self.limit)? else {
            return Ok(None);
        };
        let goes = self.goes(alloc, &mut intake)?;
        Ok(goes.then_some(register_of(intake)))
    }

    /// Whether each connection goes as expected.
    fn goes<S: Alter>(&self, alloc: Global, intake: &mut Intake<S>) -> Result<bool, AllocError> {
        for connection in self.connections {
            if !connection.goes(alloc, intake, self.piece)? {
                return Ok(false);
            }
        }
        Ok(true)
    }

    /// Whether the register holds as much as expected.
    pub(crate) fn leaves<S: Alter>(&self, store: &Store<S>) -> Result<bool, AllocError> {
        let kept = answer(store.kept_count(), StoreFault::Memory)?;
        let filings = answer(store.filing_count(), StoreFault::Memory)?;
        Ok(kept == Ok(self.kept) && filings == Ok(self.filings))
    }
}

/// An intake that keeps nothing yet.
fn empty_intake(alloc: Global, limit: u32) -> Result<Option<Intake<MemStore>>, AllocError> {
    let made = Intake::in_memory(alloc, u64::from(limit));
    Ok(answer(made, CreateFault::Memory)?.ok())
}

/// The register of an intake.
fn register_of<S: Alter>(intake: Intake<S>) -> Store<S> {
    intake.into_store()
}

impl Connection<'_> {
    /// Whether the intake answers as expected if a read gives at most this many bytes.
    pub(crate) fn goes<S: Alter>(
        &self,
        alloc: Global,
        intake: &mut Intake<S>,
        piece: usize,
    ) -> Result<bool, AllocError> {
        let given = self.text(alloc)?;
        let mut output = Vec::new(alloc);
        let pieces = Giving {
            rest: given.as_bytes(),
            most: piece,
            fails: None,
        };
        let served = served(alloc, intake, pieces, &mut output);
        self.is_so(&served, &output)
    }

    /// What is given, as one text.
    fn text(&self, alloc: Global) -> Result<String, AllocError> {
        let mut text = String::new(alloc);
        for part in self.given {
            append(alloc, &mut text, *part)?;
        }
        Ok(text)
    }

    /// Whether the connection had this result. A writer in memory fails only if memory runs out.
    fn is_so(&self, served: &Served, output: &[u8]) -> Result<bool, AllocError> {
        match served.ended {
            Ended::Fault(ConnFault::Memory | ConnFault::Write { .. }) => Err(AllocError),
            ended => Ok(
                ended == self.ended
                    && served.marks.as_slice() == self.marks
                    && is_joined(output, self.written),
            ),
        }
    }
}

/// Appends a part.
fn append(alloc: Global, text: &mut String, part: Part<'_>) -> Result<(), AllocError> {
    match part {
        Part::Text(more) => text.push_str(more)?,
        Part::Repeated(character, count) => text.push_str(&repeated(alloc, character, count)?)?,
        Part::Filing(path, key, body) => text.push_str(&filing(alloc, path, key, body)?)?,
    }
    Ok(())
}

/// The request that files a body under a key.
fn filing(alloc: Global, path: &str, key: &str, body: &str) -> Result<String, AllocError> {
    let length = body.len();
    format!(in alloc;
        "POST /filings/{path} HTTP/1.1\r\nHost: localhost\r\nIdempotency-Key: \"{key}\"\r\nContent-Length: {length}\r\n\r\n{body}"
    )
}

/// Whether these bytes are the texts, one after another.
fn is_joined(bytes: &[u8], texts: &[&str]) -> bool {
    let mut rest = bytes;
    for text in texts {
        match rest.strip_prefix(text.as_bytes()) {
            Some(after) => rest = after,
            None => return false,
        }
    }
    rest.is_empty()
}

/// Serves what this reader gives as one connection, and writes what the intake answers.
fn served<R: Read + Drop, W: Write + Drop, S: Alter>(
    alloc: Global,
    intake: &mut Intake<S>,
    reader: R,
    writer: W,
) -> Served {
    let mut reader = Device::new(reader);
    let mut writer = Device::new(writer);
    serve(alloc, &mut reader, &mut writer, intake)
}
