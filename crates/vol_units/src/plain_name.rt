ghost use Rattle.std.specs.Prelude.{◌≡◌};
ghost use Rattle.std.specs.Result.{OkIff};
ghost use Rattle.vol_units.specs.Name.{IsPlainName};

use crate::chars::Chars;
use crate::error::BadName;
use std::fmt;
use std::marker::Model;

/// The name of a volume or a backup. A contract sees it as the list of its bytes.
#[derive(Clone, Copy, PartialEq, Eq, PartialOrd, Ord)]
pub struct PlainName {
    chars: Chars,
}

impl Model for PlainName {
    ghost use Rattle.std.specs.Prelude.{List, ℕ};
    ghost use Rattle.vol_units.specs.Name.{IsPlainName};

    ghost Value = { List ℕ };

    ghost view = { λ n. n.chars };

    ghost invariant = { λ n. IsPlainName n.chars };

    ghost inverse = { λ bytes. record { chars = bytes } };
}

impl PlainName {
    pub fn read(bytes: &[u8]) -> Result<PlainName, BadName>
        ensures { OkIff result (IsPlainName bytes.now) bytes.now }
    {
        let chars = Chars::read(bytes)?;
        if !bytes[0].is_ascii_alphanumeric() {
            return Err(BadName);
        }
        Ok(PlainName { chars })
    }

    pub fn as_bytes(&self) -> &[u8]
        ensures value { result.now ≡ self.now }
        ensures name { IsPlainName self.now }
    {
        self.chars.as_bytes()
    }

    pub fn as_str(&self) -> &str
        ensures { result.now ≡ self.now }
    {
        self.chars.as_str()
    }
}

impl fmt::Debug for PlainName {
    fn fmt<W: fmt::Write>(&self, f: &mut fmt::Formatter<W>) -> fmt::Result {
        fmt::Debug::fmt(&self.as_str(), f)
    }
}
