//! Units.
ghost use Rattle.std.specs.Prelude.{◌≡◌, true, false, map, option_map, unwrap_or, IfOk, MatchOption};
ghost use Rattle.std.specs.List.{list_any};
ghost use Rattle.xbrl_values.specs.Unit.{is_unit as is_unit_lem, is_side as is_side_lem, is_measure as is_measure_lem};
ghost use Rattle.xbrl_values.specs.Unit.{is_measure_list as is_measure_list_lem, is_unit_mark as is_unit_mark_lem};
ghost use Rattle.xbrl_values.specs.Unit.{inside as inside_lem, after_opening as after_opening_lem};
ghost use Rattle.xbrl_values.specs.Unit.{before_closing as before_closing_lem, over, under, measures_of};
ghost use Rattle.xbrl_values.specs.QName.{prefix_of};

use crate::name::split_qname;
use crate::period::split_at_slash;
use std::alloc::{AllocError, Global};

/// A unit: the measures that it multiplies, and those by which it divides, each as it is written.
#[derive(Drop)]
pub struct Unit<'a> {
    pub over: Vec<&'a str>,
    pub under: Vec<&'a str>,
}

/// The unit that a text writes, if it writes one (OIM 1.0, unit core dimension), as `is_unit` says. It fails if memory
/// runs out.
#[tactic(auto, unfolding(crate::specs::Unit::over, crate::specs::Unit::under))]
pub fn read_unit<'a>(alloc: Global, text: &'a str) -> Result<Option<Unit<'a>>, AllocError>
    ensures { IfOk result (λ unit. MatchOption unit (is_unit_lem text.now ≡ false)
        (λ u. (is_unit_lem text.now ≡ true)
        × (map (λ m. m.now) u.over.items ≡ over text.now)
        × (map (λ m. m.now) u.under.items ≡ under text.now))) }
{
    if !is_unit(text) {
        return Ok(None);
    }
    match split_at_slash(text) {
        None => {
            let over = measures(alloc, text)?;
            let under = Vec::new(alloc);
            Ok(Some(Unit { over, under }))
        }
        Some((over, under)) => {
            let over = measures(alloc, over)?;
            let under = measures(alloc, under)?;
            Ok(Some(Unit { over, under }))
        }
    }
}

fn measures<'a>(alloc: Global, side: &'a str) -> Result<Vec<&'a str>, AllocError>
    ensures { IfOk result (λ list. map (λ m. m.now) list.items ≡ measures_of side.now) }
{
    without_parentheses(side).split('*').collect(alloc)
}

/// Whether a text writes a unit (OIM 1.0, unit core dimension; xBRL-JSON 1.0): measures joined by asterisks, such a
/// list in parentheses, or two sides joined by a slash, each a measure or a list in parentheses.
#[tactic(auto, unfolding(crate::specs::Unit::is_unit))]
pub fn is_unit(text: &str) -> bool
    ensures { result ≡ is_unit_lem text.now }
{
    match split_at_slash(text) {
        None => is_measure_list(text) || inside(text).is_some_and(is_measure_list),
        Some((over, under)) => is_side(over) && is_side(under),
    }
}

#[tactic(auto, unfolding(crate::specs::Unit::is_side))]
fn is_side(text: &str) -> bool
    ensures { result ≡ is_side_lem text.now }
{
    is_measure(text) || inside(text).is_some_and(is_measure_list)
}

/// What stands between a parenthesis at the start of a text and one at its end, or the whole text if it has not both.
/// On a side of a unit, that is the list of measures.
pub fn without_parentheses(text: &str) -> &str
    ensures { result.now ≡ unwrap_or (inside_lem text.now) text.now }
{
    inside(text).unwrap_or(text)
}

#[tactic(auto, unfolding(crate::specs::Unit::inside))]
fn inside(text: &str) -> Option<&str>
    ensures { option_map (λ s. s.now) result ≡ inside_lem text.now }
{
    after_opening(text).and_then(before_closing)
}

fn after_opening(text: &str) -> Option<&str>
    ensures { option_map (λ s. s.now) result ≡ after_opening_lem text.now }
{
    text.strip_prefix('(')
}

fn before_closing(text: &str) -> Option<&str>
    ensures { option_map (λ s. s.now) result ≡ before_closing_lem text.now }
{
    text.strip_suffix(')')
}

fn is_measure_list(text: &str) -> bool
    ensures { result ≡ is_measure_list_lem text.now }
{
    text.split('*').all(is_measure)
}

fn is_measure(text: &str) -> bool
    ensures { result ≡ is_measure_lem text.now }
{
    measure_prefix(text).is_some()
}

/// The prefix of a measure, which is a qualified name that has, by a rule of this profile, no asterisk, slash or
/// parenthesis. `None` if the text is no measure.
#[tactic(auto, unfolding(crate::specs::Unit::is_measure))]
pub fn measure_prefix(text: &str) -> Option<&str>
    ensures { MatchOption result (is_measure_lem text.now ≡ false)
        (λ prefix. (is_measure_lem text.now ≡ true) × (prefix.now ≡ prefix_of text.now)) }
{
    let (prefix, _) = split_qname(text)?;
    if has_unit_mark(text) {
        None
    } else {
        Some(prefix)
    }
}

fn has_unit_mark(text: &str) -> bool
    ensures { result ≡ list_any is_unit_mark_lem text.now }
{
    text.bytes().any(is_unit_mark)
}

fn is_unit_mark(byte: u8) -> bool
    ensures { result ≡ is_unit_mark_lem byte }
{
    matches!(byte, b'*' | b'/' | b'(' | b')')
}
