//! The model of a disk, read off what its file held as it was opened, and the record of its calls.

ghost use Rattle.std.specs.Prelude.{◌≡◌, refl, true, [], ◌∷◌};
ghost use Rattle.std.proofs.Common.{inl};
ghost use Rattle.sqlite_disk.specs.History.{MayLeave};
ghost use Rattle.sqlite_disk.specs.Events.{replay, settled, raised};
ghost use Rattle.sqlite_disk.specs.Refusal.{finds_no_room};
ghost use Rattle.sqlite_disk.specs.Fair.{fair_if_honest};
ghost use Rattle.found_files.specs.Held.{held_at};

use crate::openings::Found;
use sqlite_disk::{Calls, Disk, Tally, digest_of, is_no_room};
use std::io;

/// A file that held, as it was opened, what the opening of its number found. After a torn write each byte is supposed
/// to be old or new, as `Unknown` of the kit has it; otherwise this is the kit's `Modelled`, of which each value has
/// its own first bytes, and not each type. So one program can open a file, leave it and open it again.
#[derive(Drop)]
pub struct FoundFile<'r, C: Calls> {
    calls: C,
    found: &'r Found,
    nth: u64,
    is_log: bool,
    key: u64,
    tally: Tally,
    is_usable: bool,
    ghost keyed: { key ≡ (replay (held_at found.now.items nth is_log) (C.Calls.history calls)).key },
    ghost caught: { tally.caught ≡ (replay (held_at found.now.items nth is_log) (C.Calls.history calls)).caught },
    ghost refused: { tally.refused ≡ (replay (held_at found.now.items nth is_log) (C.Calls.history calls)).refused },
    ghost usable: { is_usable ≡ (replay (held_at found.now.items nth is_log) (C.Calls.history calls)).is_usable },
}

fn count<T>(refused: &mut u64, outcome: io::Result<T>) -> io::Result<T>
    ensures same { result ≡ outcome }
    ensures counted { refused.new ≡ raised (finds_no_room outcome) refused.old }
{
    match outcome {
        Ok(answer) => Ok(answer),
        Err(error) => {
            if is_no_room(&error) {
                *refused = refused.saturating_add(1);
            }
            Err(error)
        }
    }
}

impl<'r, C: Calls> FoundFile<'r, C> {
    ghost use Rattle.found_files.specs.Found.{IsNew};

    /// A file that got its key, and of which nothing was asked since.
    pub(crate) fn new(
        calls: C,
        found: &'r Found,
        nth: u64,
        is_log: bool,
        key: u64,
    ) -> FoundFile<'r, C>
        requires { C.Calls.history calls ≡ settled key ∷ [] }
        ensures { IsNew (held_at found.now.items nth is_log) result }
    {
        FoundFile {
            calls,
            found,
            nth,
            is_log,
            key,
            tally: Tally {
                caught: 0,
                refused: 0,
            },
            is_usable: true,
        }
    }
}

impl<'r, C: Calls> Disk for FoundFile<'r, C> {
    ghost use Rattle.found_files.specs.Found.{model};

    ghost seen = { λ f. (model (C.Calls.history f.calls) f).seen };

    ghost may_leave = { λ f. let m = model (C.Calls.history f.calls) f in MayLeave true m.seen m.synced m.steps };

    ghost is_usable = { λ f. (model (C.Calls.history f.calls) f).is_usable };

    ghost is_clean = { λ f. (model (C.Calls.history f.calls) f).is_honest };

    ghost faults = { λ f. (model (C.Calls.history f.calls) f).faults };

    ghost tally_of = { λ f. let m = model (C.Calls.history f.calls) f in
        record { caught = m.caught; refused = m.refused } };

    ghost key_of = { λ f. (model (C.Calls.history f.calls) f).key };

    ghost is_fair = { λ f. (model (C.Calls.history f.calls) f).is_fair };

    ghost fair_if_clean = { λ f. fair_if_honest (held_at f.found.now.items f.nth f.is_log) (C.Calls.history f.calls) };

    ghost seen_may_stay = { λ f. inl refl };

    ghost is_mixing = { λ _. true };

    fn mixes(&self) -> bool {
        true
    }

    fn key(&self) -> u64 {
        self.key
    }

    fn tally(&self) -> Tally {
        self.tally
    }

    fn may_be_used(&self) -> bool {
        self.is_usable
    }

    fn len(&mut self) -> io::Result<usize> {
        self.calls.len()
    }

    fn read_at(&mut self, at: usize, buf: &mut [u8]) -> io::Result<()> {
        let mut done = 0;
        while done < buf.len() {
            done += self
                .calls
                .read_some(at.saturating_add(done), &mut buf[done..])?;
        }
        Ok(())
    }

    fn read_checked(&mut self, key: u64, want: u64, at: usize, buf: &mut [u8]) -> io::Result<()> {
        if self.calls.read_under(key, want, at, buf)? != buf.len() {
            return Err(io::ErrorKind::UnexpectedEof.into());
        }
        if digest_of(key, buf) != want {
            self.tally.caught = self.tally.caught.saturating_add(1);
            return Err(io::ErrorKind::InvalidData.into());
        }
        Ok(())
    }

    fn write_at(&mut self, at: usize, bytes: &[u8]) -> io::Result<()> {
        let mut done = 0;
        while done < bytes.len() {
            let put = self
                .calls
                .write_some(at.saturating_add(done), &bytes[done..]);
            done += count(&mut self.tally.refused, put)?;
        }
        Ok(())
    }

    fn set_len(&mut self, len: usize) -> io::Result<()> {
        let outcome = self.calls.resize(len);
        count(&mut self.tally.refused, outcome)
    }

    fn sync(&mut self) -> io::Result<()> {
        let outcome = self.calls.sync();
        self.is_usable = self.is_usable && outcome.is_ok();
        count(&mut self.tally.refused, outcome)
    }
}
