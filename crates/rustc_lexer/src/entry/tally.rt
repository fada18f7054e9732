//! A count that only contracts can read.
ghost use Rattle.std.specs.Prelude.{◌≡◌, ◌+◌, ℕ};
ghost use base.Fml.{ftrue};

use std::marker::{Model, PhantomData};

/// A number that only contracts can read. It has size 0, and counting does nothing at run time.
#[derive(Drop)]
pub(crate) struct Tally {
    marker: PhantomData<()>,
    ghost count: { ℕ },
}

impl Model for Tally {
    ghost also_owns = { λ _. ftrue };
}

impl Tally {
    /// Creates a count of 0.
    pub(crate) fn new() -> Tally
        ensures { result.count ≡ 0 }
    {
        Tally {
            marker: PhantomData,
        }
    }

    /// Adds a number to the count.
    pub(crate) fn add(&mut self, _more: usize)
        ensures { self.new.count ≡ self.old.count + _more }
    {}
}
