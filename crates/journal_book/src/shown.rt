//! A value as clauses see it. It exists only in proofs, and takes no memory.
ghost use Rattle.std.specs.Prelude.{◌≡◌};
ghost use base.Fml.{ftrue};

use std::marker::{Model, PhantomData};

// Not the kit's `Snapshot`: of a struct with one and with entries, no check finds that it may go to another thread.
#[derive(Drop)]
pub struct Shown<T> {
    of: PhantomData<T>,
    pub ghost value: { T },
}

impl<T> Model for Shown<T> {
    ghost also_owns = { λ _. ftrue };
}

// It owns nothing.
unsafe impl<T> Send for Shown<T> {}

impl<T> Shown<T> {
    pub fn of(_it: &T) -> Shown<T>
        ensures { result.value ≡ _it.now }
    {
        Shown { of: PhantomData }
    }
}
