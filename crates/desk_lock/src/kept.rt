//! What a state has to tell, to lie on a desk.
ghost use Rattle.std.specs.Prelude.{◌≡◌, length};
ghost use Rattle.desk_lock.specs.Account.{Account};

/// A state that keeps a journal of what its streams did, and the calls that each has open.
pub trait Kept {
    /// An entry of the journal.
    ghost Entry: { Type 0 };

    /// A call that a stream has open, with all that has become of it.
    ghost OpenCall: { Type 0 };

    /// What no step changes.
    ghost Origin: { Type 0 };

    ghost account: { Account Self Entry OpenCall Origin };

    /// The length of the journal.
    fn length(&self) -> u64
        ensures { result ≡ length (account.journal self.now) };
}
