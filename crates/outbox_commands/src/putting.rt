//! Puts the reports of some files into an outbox, one after another.

ghost use Rattle.std.specs.Prelude.{◌≡◌, None, map, IfOk, IfErr, IsSome};
ghost use Rattle.outbox_process.specs.Process.{parts};
ghost use Rattle.outbox_commands.specs.Puts.{IsKeyFor, IsNoKeyFor, IsNotRead, IsReadFor, AreReadFor, put_of};
ghost use Rattle.outbox_commands.specs.Puts.{is_json, IsFit, IsUnfit, AreFit, IsNotTaken};
ghost use Rattle.outbox_commands.specs.Puts.{PutsOne, EndsTurns, PutsReports, is_for_one};
ghost use Rattle.outbox_commands.specs.Status.{status_of, status_by, why_status};

use crate::errand::{close, open, tell_same};
use crate::fault::NotDone;
use crate::network::Network;
use command_line::{CommandFault, report};
use database_places::Place;
use key_string::KeyText;
use outbox_core::key_of;
use outbox_process::{Beginning, Errand, OutboxProcess, Target, Why};
use rand::make_rng;
use rand::rngs::StdRng;
use serde_json::Value;
use sqlite_disk::Disk;
use std::alloc::{AllocError, Global};
use std::io::Write;
use terminal_text::OneLine;
use uuid::Uuid;

/// A report that was read in the file of this name, and its key.
#[derive(Drop)]
pub struct ReportFile<'a> {
    file: &'a str,
    key: KeyText,
    body: Vec<u8>,
}

/// A version 4 UUID from the system's random bytes.
fn random_key<'a>(rt: &HostRuntime) -> Result<KeyText, NotDone<'a>>
    ensures { IfErr result (IsNoKeyFor None) }
{
    let mut generator: StdRng = match make_rng(rt) {
        Ok(generator) => generator,
        Err(error) => return Err(NotDone::Random(error)),
    };
    match key_of(rt.alloc(), Uuid::new_v4(&mut generator)) {
        Ok(key) => Ok(key),
        Err(_) => Err(NotDone::Command(CommandFault::Memory)),
    }
}

/// The key that was given, or one at random.
fn key<'a>(rt: &HostRuntime, text: Option<&str>) -> Result<KeyText, NotDone<'a>>
    ensures given { IfOk result (IsKeyFor text.entry) }
    ensures refused { IfErr result (IsNoKeyFor text.entry) }
{
    let Some(text) = text else {
        return random_key(rt);
    };
    match KeyText::new(rt.alloc(), text) {
        Ok(key) => Ok(key),
        Err(fault) => Err(NotDone::Key(fault)),
    }
}

/// Whether a body can be read as JSON.
fn is_json(alloc: Global, body: &[u8]) -> Result<bool, AllocError>
    ensures { IfOk result (λ is. is ≡ is_json body.now) }
{
    match Value::from_slice(alloc, body) {
        Ok(_) => Ok(true),
        Err(error) if error.is_memory() => Err(AllocError),
        Err(_) => Ok(false),
    }
}

/// Reports on the standard error that the report of this file is no JSON.
fn tell_no_json<E: Write>(file: &str, errors: &mut E) {
    // Nothing is left to be done if this text can't be written either.
    let _ = writeln!(
        errors,
        "outbox: {}: not JSON, so a register refuses it; with --strict no report would be put in",
        OneLine(file)
    );
}

/// Looks whether the body of the report in the file of this name is JSON. If not, that is a fault if it is strict, and
/// is reported on the standard error otherwise.
fn look_at<'a, E: Write>(
    alloc: Global,
    file: &'a str,
    body: &[u8],
    is_strict: bool,
    errors: &mut E,
) -> Result<(), NotDone<'a>>
    ensures fit { IfOk result (λ _. IsFit is_strict body.now) }
    ensures refused { IfErr result (IsUnfit is_strict) }
{
    if !is_json(alloc, body)? {
        if is_strict {
            return Err(NotDone::NotJson { name: file });
        }
        tell_no_json(file, errors);
    }
    Ok(())
}

/// The report in the file of this name, with the key that was given or one at random.
fn read_report<'a, E: Write>(
    rt: &HostRuntime,
    file: &'a str,
    key_text: Option<&str>,
    is_strict: bool,
    errors: &mut E,
) -> Result<ReportFile<'a>, NotDone<'a>>
    ensures read { IfOk result (IsReadFor key_text.entry file.entry) }
    ensures fit { IfOk result (λ report. IsFit is_strict report.body.items) }
    ensures refused { IfErr result (IsNotTaken is_strict key_text.entry) }
{
    let key = key(rt, key_text)?;
    match report(rt, file) {
        Ok(body) => {
            look_at(rt.alloc(), file, body.as_slice(), is_strict, errors)?;
            Ok(ReportFile { file, key, body })
        }
        Err(fault) => Err(NotDone::Command(fault)),
    }
}

/// The reports in the files of these names, in order, each with the key that was given or one at random. It ends at the
/// first that cannot be read or, if it is strict, is no JSON.
fn read_each<'a, E: Write>(
    rt: &HostRuntime,
    files: &[&'a str],
    key_text: Option<&str>,
    is_strict: bool,
    errors: &mut E,
) -> Result<Vec<ReportFile<'a>>, NotDone<'a>>
    ensures read { IfOk result (λ reports. AreReadFor key_text.entry files.now reports.items) }
    ensures fit { IfOk result (λ reports. AreFit is_strict reports.items) }
    ensures refused { IfErr result (IsNotTaken is_strict key_text.entry) }
{
    let mut reports = Vec::new(rt.alloc());
    for &file in files {
        let report = read_report(rt, file, key_text, is_strict, errors)?;
        if reports.push(report).is_err() {
            return Err(NotDone::Command(CommandFault::Memory));
        }
    }
    Ok(reports)
}

/// Puts a report into the outbox of this process, which is open. If its key was drawn at random, it is reported on the
/// standard error if one of the last entries has the same report, with this name of its file, if there is one.
fn put_one<'a, D: Disk + Drop, P: Place<D> + Drop, N: Network, O: Write, E: Write>(
    alloc: Global,
    process: &mut OutboxProcess<D, P>,
    network: &mut N,
    report: ReportFile<'a>,
    target: Target,
    is_random: bool,
    named: Option<&str>,
    output: &mut O,
    errors: &mut E,
) -> Result<(), Why>
    requires { IsSome process.old.outbox }
    ensures puts { PutsOne (put_of target report.entry) (N.traffic network.old) (O.contents output.old)
        (O.contents output.new) (parts P.lying process.old) (parts P.lying process.new) result }
    ensures traffic { N.traffic network.new ≡ N.traffic network.old }
    ensures stays_open { IsSome process.new.outbox }
{
    let ReportFile { key, body, .. } = report;
    let came = process.perform(alloc, network, Errand::Put { key, target, body }, output);
    if is_random {
        tell_same(process, &came, named, errors);
    }
    match came {
        Ok(_) => Ok(()),
        Err(why) => Err(why),
    }
}

/// Why the report of a file was the last that was put into the outbox of the file with this name, or was not put in. If
/// it is one of several, its file is named too.
fn fault_of_put<'a>(why: Why, name: &'a str, named: Option<&'a str>) -> NotDone<'a>
    ensures { status_of result ≡ why_status why }
{
    match named {
        Some(name) => NotDone::Stopped { name, why },
        None => NotDone::of_errand(why, name),
    }
}

/// Puts reports into the outbox of this process, which is open, one after another. It ends at the first that is not put
/// in or whose id cannot be printed.
fn put_each<'a, D: Disk + Drop, P: Place<D> + Drop, N: Network, O: Write, E: Write>(
    alloc: Global,
    process: &mut OutboxProcess<D, P>,
    network: &mut N,
    name: &'a str,
    reports: Vec<ReportFile<'a>>,
    target: Target,
    is_random: bool,
    output: &mut O,
    errors: &mut E,
) -> Result<(), NotDone<'a>>
    requires { IsSome process.old.outbox }
    ensures puts { EndsTurns (map (put_of target) reports.entry.items) (N.traffic network.old)
        (O.contents output.old) (O.contents output.new) (parts P.lying process.old) (parts P.lying process.new)
        (status_by result) }
    ensures traffic { N.traffic network.new ≡ N.traffic network.old }
{
    let are_several = reports.len() > 1;
    // One transaction for all would lose reports whose ids were printed already.
    for report in reports {
        let named = if are_several { Some(report.file) } else { None };
        if let Err(why) = put_one(
            alloc, process, network, report, target, is_random, named, output, errors,
        ) {
            return Err(fault_of_put(why, name, named));
        }
    }
    Ok(())
}

/// Whether a key or a filing to be replaced, if one is given, is for this many reports.
fn is_for_one(count: usize, key_text: Option<&str>, target: Target) -> bool
    ensures { result ≡ is_for_one count key_text.entry target }
{
    // Several reports go in under random keys, and a filing is replaced once.
    count <= 1 || (key_text.is_none() && target.number.is_none())
}

/// Puts the reports of these files in, one after another. All are read, with their keys, before the outbox is opened.
pub(crate) fn put<'a, D: Disk + Drop, P: Place<D> + Drop, N: Network, O: Write, E: Write>(
    rt: &HostRuntime,
    process: &mut OutboxProcess<D, P>,
    network: &mut N,
    name: &'a str,
    files: &[&'a str],
    key_text: Option<&str>,
    target: Target,
    is_strict: bool,
    output: &mut O,
    errors: &mut E,
) -> Result<(), NotDone<'a>>
    requires { process.old.outbox ≡ None }
    ensures { PutsReports D.Disk is_strict files.now key_text.entry target (N.traffic network.old)
        (N.traffic network.new) (O.contents output.old) (O.contents output.new) (parts P.lying process.old)
        (parts P.lying process.new) result }
{
    if !is_for_one(files.len(), key_text, target) {
        return Err(NotDone::ForOne);
    }
    // If one file cannot be read, no report is put in.
    let reports = read_each(rt, files, key_text, is_strict, errors)?;
    let alloc = rt.alloc();
    if let Err(refusal) = open(alloc, process, Beginning::Found) {
        return Err(NotDone::of_refusal(refusal, name));
    }
    let done = put_each(
        alloc,
        process,
        network,
        name,
        reports,
        target,
        key_text.is_none(),
        output,
        errors,
    );
    close(process, name, errors);
    done
}
