//! Tests of an input that is read whole, up to a length.

use command_line::{ReadFault, read_whole};
use example_texts::Giving;
use http_wire::Device;
use std::alloc::Global;

/// How many bytes of a reader that has `len` are read, if it may have `most`. Each read gets `piece` of them at most,
/// and one read may fail, before which so many don't.
fn read_len(
    alloc: Global,
    (len, piece): (usize, usize),
    fails: Option<usize>,
    most: u32,
) -> Result<usize, ReadFault> {
    let mut text = Vec::new(alloc);
    text.resize(len, b' ')?;
    let mut reader = Device::new(Giving {
        rest: text.as_slice(),
        most: piece,
        fails,
    });
    let bytes = read_whole(alloc, &mut reader, most as usize)?;
    Ok(bytes.len())
}

/// Whether so many bytes were read, or `None` if there were more than there may be.
fn is_read(read: &Result<usize, ReadFault>, len: Option<usize>) -> bool {
    match read {
        Ok(read) => len == Some(*read),
        Err(ReadFault::TooLarge) => len.is_none(),
        Err(_) => false,
    }
}

/// Reports, of which one may have 1,048,576 bytes, by their length and the bytes that a read gets at most; and how many
/// are read.
const REPORTS: &[((usize, usize), Option<usize>)] = &[
    ((0, 16_384), Some(0)),
    ((1_048_576, 16_384), Some(1_048_576)),
    ((1_048_576, 1_000), Some(1_048_576)),
    ((1_048_577, 16_384), None),
    ((1_048_577, 1_000), None),
];

#[test]
fn as_long_as_a_report(rt: HostRuntime) {
    for &((len, piece), read) in REPORTS {
        let given = read_len(rt.alloc(), (len, piece), None, 1_048_576);
        assert!(rt; is_read(&given, read), "{len} in {piece}: {given:?}");
    }
}

/// A script may have 8,388,608 bytes, and take 4,194,304 reads, however many bytes these give.
#[test]
fn more_bytes_than_reads(rt: HostRuntime) {
    let read = read_len(rt.alloc(), (6_000_000, 16_384), None, 8_388_608);
    assert!(rt; is_read(&read, Some(6_000_000)));
}

#[test]
fn behind_bytes_that_are_too_many(rt: HostRuntime) {
    assert!(rt; is_read(&read_len(rt.alloc(), (1, 1), None, 0), None));
    assert!(rt; is_read(&read_len(rt.alloc(), (2, 1), Some(2), 1), None));
}

#[test]
fn a_reader_that_fails(rt: HostRuntime) {
    let at_once = read_len(rt.alloc(), (0, 1), Some(0), 9);
    assert!(rt; matches!(at_once, Err(ReadFault::Read)));
    let later = read_len(rt.alloc(), (9, 2), Some(5), 9);
    assert!(rt; matches!(later, Err(ReadFault::Read)));
}
