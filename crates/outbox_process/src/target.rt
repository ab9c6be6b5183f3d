//! Which filing a report replaces.

ghost use Rattle.http_messages.specs.Posting.{IsTarget};
ghost use Rattle.outbox_process.specs.Targets.{IsTarget-prop};

/// The filing that a report replaces, if it replaces one.
#[derive(Clone, Copy)]
pub struct Target {
    pub number: Option<u64>,
    ghost fits: { IsTarget number } by { IsTarget-prop number },
}
