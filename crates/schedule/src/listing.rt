//! The entries of all outboxes in one list.

ghost use Rattle.std.specs.Prelude.{◌≡◌, ◌≢◌, ◌<◌, ◌⊎◌, ◌++◌, ◌∷◌, [], suc, length, map, filter_map, slice_get, false};
ghost use Rattle.std.specs.Prelude.{Some, IfOk, OnOk, Err};
ghost use Rattle.filing_world.specs.Headline.{states_of, states_from, number_in};
ghost use Rattle.schedule.specs.OutboxListed.{listed};
ghost use Rattle.schedule.specs.Filers.{FilerParts, boxes, sleepers, takens};
ghost use Rattle.schedule.specs.Listed.{view_listed, are_up};
ghost use Rattle.schedule.specs.Played.{HasSleeper};

use crate::ends::honest::Honest;
use crate::filer::Filer;
use outbox_core::{State, StoreFault};
use std::alloc::{AllocError, Global};

fn are_up<D: Honest>(filers: &[Filer<D>]) -> bool
    ensures { result ≡ are_up (boxes filers.now) }
{
    filers.iter().all(|filer| filer.is_up())
}

/// Appends the entries of the outbox of this number.
fn append(
    list: &mut Vec<(u64, u64, State)>,
    outbox: u64,
    states: &[(u64, State)],
) -> Result<(), StoreFault>
    ensures list { OnOk result
        (map view_listed list.new.items ≡ map view_listed list.old.items ++ map (listed outbox) states.now) }
    ensures memory { result ≢ Err StoreFault.Store }
{
    for &(entry, state) in states {
        match list.reserve(1) {
            Ok(()) => list.push_reserved((outbox, entry, state)),
            Err(_) => return Err(StoreFault::Memory),
        }
    }
    Ok(())
}

/// Appends the entries of the outbox at this index. No outbox changes.
fn append_states<D: Honest>(
    filers: &mut Vec<Filer<D>>,
    at: usize,
    list: &mut Vec<(u64, u64, State)>,
) -> Result<(), StoreFault>
    requires { at < length filers.old.items }
    ensures list { OnOk result ((it : FilerParts) → slice_get filers.old.items at ≡ Some it
        → map view_listed list.new.items ≡ map view_listed list.old.items ++ states_of (suc at) 1 it.box.entries) }
    ensures same { boxes filers.new.items ≡ boxes filers.old.items }
    ensures stays { takens filers.new.items ≡ takens filers.old.items }
    ensures store { result ≡ Err StoreFault.Store → HasSleeper (sleepers filers.new.items) }
{
    let states = filers[at].states()?;
    append(list, at as u64 + 1, states.as_slice())
}

/// Every entry of every outbox with its state, by the numbers of the outbox and the entry, if all outboxes are up.
/// None of them changes.
fn states_of_all<D: Honest>(
    alloc: Global,
    filers: &mut Vec<Filer<D>>,
) -> Result<Vec<(u64, u64, State)>, StoreFault>
    ensures list { IfOk result (λ list. map view_listed list.items ≡ states_from 1 (boxes filers.old.items)) }
    ensures same { boxes filers.new.items ≡ boxes filers.old.items }
    ensures stays { takens filers.new.items ≡ takens filers.old.items }
    ensures store { result ≡ Err StoreFault.Store → HasSleeper (sleepers filers.new.items) }
{
    let mut list = Vec::new(alloc);
    for at in 0..filers.len() {
        append_states(filers, at, &mut list)?;
    }
    Ok(list)
}

/// Every entry of every outbox with its state, by the numbers of the outbox and the entry. No outbox changes. Answers
/// `Store` if one is down, and otherwise only if the database of one refused.
pub(crate) fn all_states<D: Honest>(
    alloc: Global,
    filers: &mut Vec<Filer<D>>,
) -> Result<Vec<(u64, u64, State)>, StoreFault>
    ensures list { IfOk result (λ list. map view_listed list.items ≡ states_from 1 (boxes filers.old.items)) }
    ensures down { are_up (boxes filers.old.items) ≡ false → result ≡ Err StoreFault.Store }
    ensures store { result ≡ Err StoreFault.Store
        → (are_up (boxes filers.old.items) ≡ false) ⊎ HasSleeper (sleepers filers.new.items) }
    ensures same { boxes filers.new.items ≡ boxes filers.old.items }
    ensures stays { takens filers.new.items ≡ takens filers.old.items }
{
    if are_up(filers.as_slice()) {
        states_of_all(alloc, filers)
    } else {
        Err(StoreFault::Store)
    }
}

/// Appends the entry with its number in the register, if it is confirmed.
fn append_confirmed(
    list: &mut Vec<(u64, u64, u64)>,
    entry: (u64, u64, State),
) -> Result<(), AllocError>
    ensures { OnOk result (list.new.items ≡ list.old.items ++ filter_map number_in (view_listed entry ∷ [])) }
{
    if let (outbox, entry, State::Confirmed(number)) = entry {
        list.reserve(1)?;
        list.push_reserved((outbox, entry, number));
    }
    Ok(())
}

/// The confirmed ones among these entries, with their numbers in the register.
pub(crate) fn confirmed_of(
    alloc: Global,
    states: &[(u64, u64, State)],
) -> Result<Vec<(u64, u64, u64)>, AllocError>
    ensures { IfOk result (λ list. list.items ≡ filter_map number_in (map view_listed states.now)) }
{
    let mut list = Vec::new(alloc);
    for entry in states {
        append_confirmed(&mut list, *entry)?;
    }
    Ok(list)
}
