//! Prints the facts of a filing.

ghost use Rattle.std.specs.Prelude.{◌≡◌, string_bytes, IfOk, IfErr};
ghost use Rattle.intake_process.specs.Showing.{fact_lines, shown_lines};
ghost use Rattle.register_store.specs.Calls.{KeepsStore};
ghost use Rattle.register_store.specs.Moments.{ForMoments};
ghost use Rattle.filing_model.specs.Register.{kept};
ghost use Rattle.register_extracts.specs.Faults.{IsReadingWhy};
ghost use Rattle.register_extracts.specs.Moments.{moment_of};
ghost use Rattle.intake_process.specs.Tasks.{AnswersQuestion};

use crate::tasks::dating::{moment_line, received};
use crate::tasks::errand::Question;
use crate::tasks::text::print;
use intake_core::fact_line;
use register_extracts::Why;
use register_store::Store;
use sqlite::Alter;
use std::alloc::{AllocError, Global};
use std::io::Write;
use terminal_text::OneLine;
use xbrl_report::Fact;

/// Prints the facts of the filing of this number, each as a line, and before them when it was received, if that is
/// asked for.
pub(crate) fn show<S: Alter, O: Write>(
    alloc: Global,
    store: &mut Store<S>,
    number: u64,
    moments: bool,
    output: &mut O,
) -> Result<(), Why>
    ensures { AnswersQuestion S.Store (Question.Show number moments) (O.contents output.old) (O.contents output.new)
        store.old store.new.conn result }
{
    let Some(facts) = store.facts(number)? else {
        return Err(Why::NoFiling { number });
    };
    let text = shown_lines(alloc, store, number, moments, &facts)?;
    print(output, text.as_bytes())
}

/// What is printed of the filing of this number, which has these facts.
fn shown_lines<S: Alter>(
    alloc: Global,
    store: &mut Store<S>,
    number: u64,
    moments: bool,
    facts: &[Fact],
) -> Result<String, Why>
    ensures lines { ForMoments S.Store store.old store.new (λ requests received. IfOk result (λ text.
        string_bytes text ≡ shown_lines moments number (moment_of (kept requests) received number) facts.now)) }
    ensures keeps { KeepsStore S.Store store.old store.new }
    ensures fails { IfErr result IsReadingWhy }
{
    if !moments {
        let text = fact_lines(alloc, facts)?;
        return Ok(text);
    }
    let received = received(store, number)?;
    let mut text = moment_line(alloc, number, received)?;
    let lines = fact_lines(alloc, facts)?;
    text.push_str(lines.as_str())?;
    Ok(text)
}

/// A line for each fact.
fn fact_lines(alloc: Global, facts: &[Fact]) -> Result<String, AllocError>
    ensures { IfOk result (λ text. string_bytes text ≡ fact_lines facts.now) }
{
    let mut text = String::new(alloc);
    for fact in facts {
        let line = fact_line(alloc, fact)?;
        // What is escaped is escaped as in JSON, so the line stays the same JSON.
        let shown = format!(in alloc; "{}\n", OneLine(line.as_str()))?;
        text.push_str(shown.as_str())?;
    }
    Ok(text)
}
