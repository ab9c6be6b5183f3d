//! A folder of the file system.

ghost use Rattle.std.specs.Prelude.{◌≡◌, None};

use register_pages::{Folder, Markup, NotWritten};
use std::alloc::AllocError;
use std::fs::{self, File, OpenOptions};
use std::hash::{BuildHasher, RandomState};
use std::io::{self, Write};
use terminal_text::OneLine;
use thiserror::Error;

/// Why a file was not written.
#[derive(Debug, Drop, Error)]
pub enum PageFault {
    #[error("{file}: {error}", file = OneLine(.path.as_str()))]
    File { path: String, error: io::Error },
    #[error("out of memory")]
    Memory,
}

impl From<AllocError> for PageFault {
    fn from(_error: AllocError) -> PageFault {
        PageFault::Memory
    }
}

/// A folder that knows why the first file was not written that was not.
pub(crate) trait SiteFolder: Folder {
    /// Hands out why the first file was not written of those that were not, if there is one.
    fn take_fault(&mut self) -> PageFault
        ensures { Self.Folder.pages self.new ≡ Self.Folder.pages self.old };
}

/// A folder of the file system. A file is written under another name first, so that no part of one is left under its
/// own. Nobody can guess that name, and a link that has it is not followed.
#[derive(Drop)]
pub(crate) struct SystemFolder<'r, 'a> {
    rt: &'r HostRuntime,
    path: &'a str,
    fault: Option<PageFault>,
}

impl<'r, 'a> SystemFolder<'r, 'a> {
    /// The folder with this path.
    pub(crate) fn new(rt: &'r HostRuntime, path: &'a str) -> SystemFolder<'r, 'a>
        ensures { result.path ≡ path.entry }
    {
        SystemFolder {
            rt,
            path,
            fault: None,
        }
    }

    /// Writes a file, or keeps why it was not written, if it is the first one that was not.
    fn put(&mut self, name: &str, bytes: &[u8]) -> Result<(), NotWritten> {
        match self.try_put(name, bytes) {
            Ok(()) => Ok(()),
            Err(fault) => {
                if self.fault.is_none() {
                    self.fault = Some(fault);
                }
                Err(NotWritten)
            }
        }
    }

    /// Writes a file.
    fn try_put(&self, name: &str, bytes: &[u8]) -> Result<(), PageFault> {
        let folder = self.path;
        let path = format!(in self.rt.alloc(); "{folder}/{name}")?;
        match write_whole(self.rt, folder, name, path.as_str(), bytes) {
            Ok(()) => Ok(()),
            Err(error) => Err(PageFault::File { path, error }),
        }
    }
}

impl Folder for SystemFolder<'_, '_> {
    ghost pages = { λ _. None };

    fn write(&mut self, name: &str, page: &Markup) -> Result<(), NotWritten> {
        self.put(name, page.as_bytes())
    }

    fn write_report(&mut self, name: &str, report: &[u8]) -> Result<(), NotWritten> {
        self.put(name, report)
    }
}

impl SiteFolder for SystemFolder<'_, '_> {
    fn take_fault(&mut self) -> PageFault {
        match self.fault.take() {
            Some(fault) => fault,
            None => PageFault::Memory,
        }
    }
}

/// Writes a file of a folder whole, which has this path: first under the name of its draft. If it fails, no draft is
/// left. At the end the disk has the file and its name.
fn write_whole(
    rt: &HostRuntime,
    folder: &str,
    name: &str,
    path: &str,
    bytes: &[u8],
) -> io::Result<()> {
    let number = RandomState::new(rt)?.hash_one(&0u8);
    let draft = format!(in rt.alloc(); "{folder}/.{name}.{number}.new")?;
    let mut file = OpenOptions::new()
        .write(true)
        .create_new(true)
        .open(rt, draft.as_str())?;
    let written = write_by_draft(rt, &mut file, draft.as_str(), path, bytes);
    if written.is_err() {
        // Nothing is left to be done if it can't be removed either.
        let _ = fs::remove_file(rt, draft.as_str());
    }
    written?;
    File::open(rt, folder)?.sync_all()
}

/// Writes the draft of a file, and then gives it its own name.
fn write_by_draft(
    rt: &HostRuntime,
    file: &mut File,
    draft: &str,
    path: &str,
    bytes: &[u8],
) -> io::Result<()> {
    file.write_all(bytes)?;
    file.sync_all()?;
    fs::rename(rt, draft, path)
}
