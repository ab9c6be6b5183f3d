//! Tests of what no contract says, through the public calls of the crates below: bytes and texts (`formats`), what is
//! kept in tables (`stores`), an intake and its connections (`servers`), clients beside one another (`clients`), and
//! the exchanges of an outbox (`exchanges`). What may live here: tests alone, and what several of them use.
#![tactic(auto)]

#[cfg(test)]
mod clients;
#[cfg(test)]
mod databases;
#[cfg(test)]
mod exchanges;
#[cfg(test)]
mod formats;
#[cfg(test)]
mod servers;
#[cfg(test)]
mod stores;
