//! What was written on a connection, which only clauses read. It takes no memory, and its methods do nothing at run
//! time.
ghost use Rattle.std.specs.Prelude.{◌≡◌, ◌++◌, ℕ, List, []};
ghost use Rattle.std.specs.Borrow.{ftrue};

use std::marker::{Model, PhantomData};

/// The bytes so far.
#[derive(Drop)]
pub(crate) struct Written {
    marker: PhantomData<u8>,
    pub ghost bytes: { List ℕ },
}

impl Model for Written {
    ghost also_owns = { λ _. ftrue };
}

impl Written {
    /// Nothing was written yet.
    pub(crate) fn new() -> Written
        ensures { result.bytes ≡ [] }
    {
        Written {
            marker: PhantomData,
        }
    }

    /// Notes that these bytes were written.
    pub(crate) fn note(&mut self, _more: &[u8])
        ensures { self.new.bytes ≡ self.old.bytes ++ _more.now }
    {}
}
