ghost use Rattle.std.specs.Prelude.{◌≤◌, IfOk};

use http_wire::{Device, DeviceFailed, Sink, Source, write_all};
use std::io::{self, Read, Write};

/// Fails its first call, takes or gives one byte in its second, and nothing in the later ones.
#[derive(Drop)]
struct Weak(usize);

impl Weak {
    fn call(&mut self, most: usize) -> io::Result<usize>
        ensures { IfOk result (λ count. count ≤ most) }
    {
        self.0 = self.0.saturating_add(1);
        match self.0 {
            1 => Err(io::Error::from(io::ErrorKind::Interrupted)),
            2 => Ok(most.min(1)),
            _ => Ok(0),
        }
    }
}

impl Read for Weak {
    fn read(&mut self, room: &mut [u8]) -> io::Result<usize> {
        let count = self.call(room.len())?;
        room[..count].fill(b'x');
        Ok(count)
    }
}

impl Write for Weak {
    fn write(&mut self, text: &[u8]) -> io::Result<usize> {
        self.call(text.len())
    }

    fn flush(&mut self) -> io::Result<()> {
        Ok(())
    }
}

const READS: &[Result<usize, DeviceFailed>] = &[Err(DeviceFailed), Ok(1), Ok(0)];

#[test]
fn a_reader_that_fails_once(rt: HostRuntime) {
    let mut reader = Device::new(Weak(0));
    let mut room = [0; 2];
    for count in READS {
        assert_eq!(rt; Source::read(&mut reader, &mut room), *count);
    }
    assert_eq!(rt; room, [b'x', 0]);
}

const WRITES: &[(&[u8], Result<usize, DeviceFailed>)] = &[
    (b"ab", Err(DeviceFailed)),
    (b"ab", Ok(1)),
    (b"b", Err(DeviceFailed)),
    (b"", Ok(0)),
];

#[test]
fn a_writer_that_fails_once(rt: HostRuntime) {
    let mut writer = Device::new(Weak(0));
    for (text, count) in WRITES {
        assert_eq!(rt; Sink::write(&mut writer, text), *count);
    }
}

#[test]
fn a_text_that_is_written_in_part(rt: HostRuntime) {
    let mut writer = Device::new(Weak(1));
    assert_eq!(rt; write_all(&mut writer, b"ab"), Err(1));
}
