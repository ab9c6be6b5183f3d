//! Texts for a file that is no outbox of this version, by what its database holds.

use database_places::Holding;

/// Why a database that holds this is no outbox of this version.
pub(crate) fn unfit(held: Holding) -> &'static str {
    match held {
        Holding::Nothing => "it has no tables (outbox init makes an outbox)",
        Holding::Outbox | Holding::EarlierOutbox => {
            "this outbox has another version (outbox migrate upgrades an earlier one)"
        }
        Holding::Register | Holding::EarlierRegister => "this is a register",
        Holding::Others => "not an outbox",
    }
}

/// Why no outbox is made in a database that holds this.
pub(crate) fn taken(held: Holding) -> &'static str {
    match held {
        Holding::Outbox | Holding::EarlierOutbox => "it is an outbox already",
        Holding::Register | Holding::EarlierRegister => "this is a register",
        Holding::Nothing | Holding::Others => "the file has tables already",
    }
}
