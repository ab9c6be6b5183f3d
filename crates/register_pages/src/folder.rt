//! A folder in which pages and reports are written.

ghost use Rattle.std.specs.Prelude.{◌≡◌, ◌≢◌, ◌∷◌, [], ℕ, List, None, Option, string_bytes, IfOk, OnErr, OnOk};
ghost use Rattle.register_pages.specs.Pages.{Adds, File, Page, Report, Writes};

use crate::Markup;
use crate::fault::Missed;
use std::alloc::AllocError;

/// A file was not written. The folder knows why.
#[derive(Clone, Copy, Debug, PartialEq, Eq)]
pub struct NotWritten;

/// A folder. A page that is written into it is HTML: a text of a report becomes that by `Markup::text` alone. A report
/// is written as it was sent.
pub trait Folder {
    // The files that were written into the folder, in that order, if they are known.
    ghost pages: { Self → Option (List File) };

    /// Writes a page whole, or leaves the file of this name as it was. The name has no slash.
    fn write(&mut self, name: &str, page: &Markup) -> Result<(), NotWritten>
        ensures written { OnOk result (Adds (pages self.old) (pages self.new) (Page name.now ∷ [])) }
        ensures failed { OnErr result (pages self.new ≡ pages self.old) };

    /// Writes the bytes of a report whole, or leaves the file of this name as it was. The name has no slash.
    fn write_report(&mut self, name: &str, report: &[u8]) -> Result<(), NotWritten>
        ensures written { OnOk result (Adds (pages self.old) (pages self.new) (Report name.now report.now ∷ [])) }
        ensures failed { OnErr result (pages self.new ≡ pages self.old) };
}

/// Writes a page that was made under a name that was made.
fn write<F: Folder>(
    folder: &mut F,
    name: Result<String, AllocError>,
    page: Result<Markup, AllocError>,
) -> Result<(), Missed>
    ensures { (wanted : List ℕ) → IfOk name (λ text. string_bytes text ≡ wanted)
        → OnOk result (Adds (F.pages folder.old) (F.pages folder.new) (Page wanted ∷ [])) }
{
    let name = name?;
    let page = page?;
    folder.write(name.as_str(), &page)?;
    Ok(())
}

/// Keeps the first of two faults.
fn miss(missed: &mut Option<Missed>, fault: Missed)
    ensures { missed.new ≢ None }
{
    if missed.is_none() {
        *missed = Some(fault);
    }
}

/// Writes a page, or keeps why it was missed, if it is the first that is.
pub(crate) fn put<F: Folder>(
    folder: &mut F,
    missed: &mut Option<Missed>,
    name: Result<String, AllocError>,
    page: Result<Markup, AllocError>,
)
    ensures { (wanted : List ℕ) → IfOk name (λ text. string_bytes text ≡ wanted)
        → Writes missed.old missed.new (F.pages folder.old) (F.pages folder.new) (Page wanted ∷ []) }
{
    if let Err(fault) = write(folder, name, page) {
        miss(missed, fault);
    }
}

/// Writes a report under a name that was made.
fn write_report<F: Folder>(
    folder: &mut F,
    name: Result<String, AllocError>,
    report: &[u8],
) -> Result<(), Missed>
    ensures { (wanted : List ℕ) → IfOk name (λ text. string_bytes text ≡ wanted)
        → OnOk result (Adds (F.pages folder.old) (F.pages folder.new) (Report wanted report.now ∷ [])) }
{
    let name = name?;
    folder.write_report(name.as_str(), report)?;
    Ok(())
}

/// Writes a report, or keeps why it was missed, if it is the first file that is.
pub(crate) fn put_report<F: Folder>(
    folder: &mut F,
    missed: &mut Option<Missed>,
    name: Result<String, AllocError>,
    report: &[u8],
)
    ensures { (wanted : List ℕ) → IfOk name (λ text. string_bytes text ≡ wanted)
        → Writes missed.old missed.new (F.pages folder.old) (F.pages folder.new) (Report wanted report.now ∷ []) }
{
    if let Err(fault) = write_report(folder, name, report) {
        miss(missed, fault);
    }
}
