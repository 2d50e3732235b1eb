ghost use Rattle.std.specs.Prelude.{◌≡◌};
ghost use Rattle.std.specs.Result.{OkIff};
ghost use Rattle.vol_units.specs.Name.{IsSnapName};

use crate::chars::Chars;
use crate::error::BadName;
use std::fmt;
use std::marker::Model;

/// The name of a snapshot that a user takes. A contract sees it as the list of its bytes.
#[derive(Clone, Copy, PartialEq, Eq, PartialOrd, Ord)]
pub struct SnapName {
    chars: Chars,
}

impl Model for SnapName {
    ghost use Rattle.std.specs.Prelude.{List, ℕ};
    ghost use Rattle.vol_units.specs.Name.{IsSnapName};

    ghost Value = { List ℕ };

    ghost view = { λ n. n.chars };

    ghost invariant = { λ n. IsSnapName n.chars };

    ghost inverse = { λ bytes. record { chars = bytes } };
}

impl SnapName {
    pub fn read(bytes: &[u8]) -> Result<SnapName, BadName>
        ensures { OkIff result (IsSnapName bytes.now) bytes.now }
    {
        let chars = Chars::read(bytes)?;
        if bytes.starts_with(b"sys-") {
            return Err(BadName);
        }
        Ok(SnapName { chars })
    }

    pub fn as_bytes(&self) -> &[u8]
        ensures value { result.now ≡ self.now }
        ensures name { IsSnapName self.now }
    {
        self.chars.as_bytes()
    }

    pub fn as_str(&self) -> &str
        ensures { result.now ≡ self.now }
    {
        self.chars.as_str()
    }
}

impl fmt::Debug for SnapName {
    fn fmt<W: fmt::Write>(&self, f: &mut fmt::Formatter<W>) -> fmt::Result {
        fmt::Debug::fmt(&self.as_str(), f)
    }
}
