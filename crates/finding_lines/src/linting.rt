//! Prints what is wrong with reports.

ghost use Rattle.std.specs.Prelude.{map};
ghost use Rattle.finding_lines.specs.Linting.{FindsIn, LintsFile, LintsFiles, LintsReports};

use crate::form::Form;
use crate::telling::lines;
use command_line::{CommandFault, DONE, report, show};
use key_string::is_filer;
use std::alloc::Global;
use std::io::Write;
use xbrl_report::{Judged, judge};

/// The status if a report has a finding.
const FOUND: u8 = 1;

/// What came of a look at the reports in some files.
#[derive(Debug, Drop)]
struct Linted<'a> {
    /// Whether a report that was read has a finding.
    is_found: bool,
    /// Why the others were not read, in the order of their files.
    unread: Vec<CommandFault<'a>>,
}

impl Linted<'_> {
    ghost use Rattle.std.specs.Prelude.{◌≡◌};
    ghost use Rattle.finding_lines.specs.Linting.{lint_status};

    /// The status of the program: the greatest of 1 if there is a finding, of the status of each fault, and of 0.
    fn status(&self) -> u8
        ensures { result ≡ lint_status self.now.is_found self.now.unread.items }
    {
        let mut status = if self.is_found { FOUND } else { DONE };
        for fault in self.unread.as_slice() {
            status = status.max(fault.status());
        }
        status
    }
}

/// Prints a line for each finding of the report of this filer in the file of this name, and answers whether there is
/// one.
pub(crate) fn lint<'a, O: Write>(
    alloc: Global,
    form: Form,
    filer: &str,
    file: &str,
    body: &[u8],
    output: &mut O,
) -> Result<bool, CommandFault<'a>>
    ensures { FindsIn form filer.now file.now body.now (O.contents output.old) (O.contents output.new) result }
{
    match judge(alloc, filer, body)? {
        Judged::Valid(_) => Ok(false),
        Judged::Refused(findings) => {
            let lines = lines(alloc, form, file, body, findings.list())?;
            show(output, &lines)?;
            Ok(true)
        }
    }
}

/// Prints a line for each finding of the report in the file of this name, and notes whether there is one, or why the
/// report was not read.
fn lint_file<'a, O: Write>(
    rt: &HostRuntime,
    form: Form,
    filer: &str,
    file: &'a str,
    linted: &mut Linted<'a>,
    output: &mut O,
) -> Result<(), CommandFault<'a>>
    ensures { LintsFile form filer.now file.now (O.contents output.old) (O.contents output.new) linted.old linted.new
        result }
{
    match report(rt, file) {
        Ok(body) => {
            let is_found = lint(rt.alloc(), form, filer, file, &body, output)?;
            linted.is_found = linted.is_found || is_found;
            Ok(())
        }
        Err(fault) => match linted.unread.push(fault) {
            Ok(()) => Ok(()),
            Err(_) => Err(CommandFault::Memory),
        },
    }
}

/// Prints a line for each finding of the reports in the files of these names. A report that cannot be read is noted,
/// and the others are looked at all the same.
fn lint_files<'a, O: Write>(
    rt: &HostRuntime,
    form: Form,
    filer: &str,
    files: &[&'a str],
    output: &mut O,
) -> Result<Linted<'a>, CommandFault<'a>>
    ensures { LintsFiles form filer.now (map (λ file. file.now) files.now) (O.contents output.old)
        (O.contents output.new) result }
{
    let mut linted = Linted {
        is_found: false,
        unread: Vec::new(rt.alloc()),
    };
    for &file in files {
        lint_file(rt, form, filer, file, &mut linted, output)?;
    }
    Ok(linted)
}

/// Prints a line for each finding of the reports of the filer with this code in the files of these names, and answers
/// the status. A report that cannot be read is reported to `errors`, with the name of the program, and the others are
/// looked at all the same. Only if the output or memory fails are the reports after that left out.
pub fn lint_reports<'a, O: Write, E: Write>(
    rt: &HostRuntime,
    program: &str,
    form: Form,
    filer: &str,
    files: &[&'a str],
    output: &mut O,
    errors: &mut E,
) -> Result<u8, CommandFault<'a>>
    ensures { LintsReports form filer.now (map (λ file. file.now) files.now) (O.contents output.old)
        (O.contents output.new) result }
{
    if !is_filer(filer) {
        return Err(CommandFault::Filer);
    }
    match lint_files(rt, form, filer, files, output) {
        Ok(linted) => {
            for fault in linted.unread.as_slice() {
                // Nothing is left to be done if this text can't be written either.
                let _ = writeln!(errors, "{program}: {fault}");
            }
            Ok(linted.status())
        }
        Err(fault) => Err(fault),
    }
}
