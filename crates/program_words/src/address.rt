ghost use Rattle.std.specs.Prelude.{◌≡◌, IfOk, nat_eq};
ghost use Rattle.std.specs.Cmp;
ghost use Rattle.std.specs.Cmp.Lexicographic.{pointwise, nat_list_eq_equiv};

use std::alloc::{AllocError, Global};
use std::marker::Model;

/// Where sessions are waited for: any text, which is the outside's to read. A contract sees it as the list of its bytes.
#[derive(Debug, Drop)]
pub struct Address {
    text: String,
}

impl Model for Address {
    ghost use Rattle.std.specs.Prelude.{List, ℕ, string_bytes};

    ghost Value = { List ℕ };

    ghost view = { λ a. string_bytes a.text };
}

impl Address {
    pub fn of(alloc: Global, text: &str) -> Result<Address, AllocError>
        ensures { IfOk result (λ address. address ≡ text.now) }
    {
        Ok(Address {
            text: String::from_str(alloc, text)?,
        })
    }

    pub fn as_str(&self) -> &str
        ensures { result.now ≡ self.now }
    {
        self.text.as_str()
    }
}

impl PartialEq for Address {
    ghost eq = { pointwise nat_eq };

    ghost laws = { Cmp.partial_equiv_from_equiv nat_list_eq_equiv };

    fn eq(&self, other: &Address) -> bool {
        self.as_str() == other.as_str()
    }
}

impl Eq for Address {
    ghost laws = { nat_list_eq_equiv };
}
