//! The folder in which receipts are kept.

ghost use Rattle.std.specs.Prelude.{◌≡◌, IfOk};

use crate::fault::ReceiptFault;
use crate::name::{is_receipt_of, name_of};
use crate::receipt::Receipt;
use hex::encode;
use std::alloc::Global;
use std::fs::{self, File, OpenFile};
use std::io::{self, ErrorKind, Read, Write};
use std::random::RandomSource;
use std::rt::Files;

/// A folder of receipts.
#[derive(Drop)]
pub struct ReceiptFolder<'a, F> {
    rt: &'a F,
    alloc: Global,
    path: &'a str,
}

impl<'a, F: Files + RandomSource> ReceiptFolder<'a, F> {
    /// The folder of this path, in which files can be made: one was, and is removed again.
    pub fn open(rt: &'a F, alloc: Global, path: &'a str) -> io::Result<ReceiptFolder<'a, F>>
        ensures { IfOk result (λ folder. folder.path ≡ path.entry) }
    {
        let folder = ReceiptFolder { rt, alloc, path };
        let probe = folder.new_path("probe")?;
        File::create_new(rt, probe.as_str())?;
        fs::remove_file(rt, probe.as_str())?;
        Ok(folder)
    }

    /// Keeps a receipt under the name of its entry, in the place of an earlier one of that entry and of nothing else.
    /// It is written under a name of its own first, so that the file is never there in part.
    pub fn keep(&self, receipt: &Receipt) -> Result<(), ReceiptFault> {
        let name = name_of(self.alloc, receipt)?;
        let whole = format!(in self.alloc; "{path}/{name}", path = self.path)?;
        if !self.is_free_for(whole.as_str(), receipt)? {
            return Err(ReceiptFault::Taken { name });
        }
        let part = self.new_path("part")?;
        let written = self.write_by_part(part.as_str(), whole.as_str(), receipt.text.as_str());
        if written.is_err() {
            // If the part can't be removed either, it does no harm.
            let _ = fs::remove_file(self.rt, part.as_str());
        }
        Ok(written?)
    }

    /// A path in the folder that nobody can guess, with this at its end.
    fn new_path(&self, end: &str) -> io::Result<String> {
        let mut bytes = [0u8; 16];
        self.rt.fill_bytes(&mut bytes)?;
        let word = encode(self.alloc, bytes.as_slice())?;
        Ok(format!(in self.alloc; "{path}/{word}.{end}", path = self.path)?)
    }

    /// Whether this path has no file, or an earlier receipt of the same entry.
    fn is_free_for(&self, path: &str, receipt: &Receipt) -> io::Result<bool> {
        match fs::symlink_metadata(self.rt, path) {
            Ok(found) if found.is_file() => {
                // By name alone, two keys with the same eight digits would replace each other.
                let mut text = Vec::new(self.alloc);
                File::open(self.rt, path)?.read_to_end(&mut text)?;
                Ok(is_receipt_of(self.alloc, text.as_slice(), receipt)?)
            }
            Ok(_) => Ok(false),
            Err(error) if error.kind() == ErrorKind::NotFound => Ok(true),
            Err(error) => Err(error),
        }
    }

    /// Writes the text to a new file, gives that its name, and waits until the disk has both.
    fn write_by_part(&self, part: &str, whole: &str, text: &str) -> io::Result<()> {
        // A file that is made anew follows no link in a folder that others may write to.
        let mut file = File::create_new(self.rt, part)?;
        file.write_all(text.as_bytes())?;
        file.sync_all()?;
        fs::rename(self.rt, part, whole)?;
        File::open(self.rt, self.path)?.sync_all()
    }
}
