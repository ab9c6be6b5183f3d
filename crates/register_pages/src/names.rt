//! The names of the files.

ghost use Rattle.std.specs.Prelude.{◌≡◌, ◌++◌, codes, string_bytes, IfOk, OnOk};
ghost use Rattle.register_pages.specs.Pages.{file_code as file_code_lem, file_letter, filing_page};
ghost use Rattle.register_pages.specs.Pages.{page_number as page_number_lem, report_file, request_file};

use std::alloc::{AllocError, Global};

/// Appends a letter of a filer's code.
fn append_letter(code: &mut Vec<u8>, letter: u8) -> Result<(), AllocError>
    ensures { OnOk result (code.new.items ≡ code.old.items ++ file_letter letter) }
{
    if matches!(letter, b'a'..=b'z') {
        code.push(b'~')?;
    }
    code.push(letter)?;
    Ok(())
}

/// A filer's code in the name of a file, with a tilde before each small letter. So two filers have two files on a disk
/// too that does not tell small letters from capital ones.
fn file_code(alloc: Global, filer: &[u8]) -> Result<Vec<u8>, AllocError>
    ensures { IfOk result (λ code. code.items ≡ file_code_lem filer.now) }
{
    let mut code = Vec::new(alloc);
    for letter in filer {
        append_letter(&mut code, *letter)?;
    }
    Ok(code)
}

/// Which page of several it is. Nothing is said of the first one.
fn page_number(alloc: Global, number: usize) -> Result<String, AllocError>
    ensures { IfOk result (λ text. string_bytes text ≡ page_number_lem number) }
{
    if number <= 1 {
        return Ok(String::new(alloc));
    }
    format!(in alloc; "~{number}")
}

/// A name of these four parts, in UTF-8.
fn joined(
    alloc: Global,
    kind: &'static str,
    whose: &[u8],
    number: usize,
) -> Result<String, AllocError>
    ensures { IfOk result (λ name.
        string_bytes name ≡ kind.now ++ whose.now ++ page_number_lem number ++ codes ".html") }
{
    let mut name = Vec::new(alloc);
    name.extend_from_slice(kind.as_bytes())?;
    name.extend_from_slice(whose)?;
    let number = page_number(alloc, number)?;
    name.extend_from_slice(number.as_bytes())?;
    name.extend_from_slice(b".html")?;
    // What comes of a code is UTF-8 again.
    String::from_utf8(name).map_err(|_| AllocError)
}

/// The page of this number of a filer's: of the filings if the kind is `filer-`, and of the refused reports if it is
/// `refused-`.
pub(crate) fn of_filer(
    alloc: Global,
    kind: &'static str,
    filer: &str,
    number: usize,
) -> Result<String, AllocError>
    ensures { IfOk result (λ name.
        string_bytes name ≡ kind.now ++ file_code_lem filer.now ++ page_number_lem number ++ codes ".html") }
{
    let code = file_code(alloc, filer.as_bytes())?;
    joined(alloc, kind, &code, number)
}

/// The page of this number of a filing's.
pub(crate) fn of_filing(alloc: Global, filing: u64, number: usize) -> Result<String, AllocError>
    ensures { IfOk result (λ name. string_bytes name ≡ filing_page filing number) }
{
    let digits = format!(in alloc; "{filing}")?;
    joined(alloc, "filing-", digits.as_bytes(), number)
}

/// The file of a filing's report.
pub(crate) fn of_report(alloc: Global, filing: u64) -> Result<String, AllocError>
    ensures { IfOk result (λ name. string_bytes name ≡ report_file filing) }
{
    format!(in alloc; "filing-{filing}.json")
}

/// The file of the report of the refused request at this place.
pub(crate) fn of_request(alloc: Global, place: u64) -> Result<String, AllocError>
    ensures { IfOk result (λ name. string_bytes name ≡ request_file place) }
{
    format!(in alloc; "request-{place}.json")
}
