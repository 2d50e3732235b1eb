ghost use Rattle.std.specs.Prelude.{◌≡◌, ◌↔◌, ◌++◌, ◌+◌, ◌≤◌, length, IsTrue};
ghost use Rattle.std.specs.Char.{is_ascii_digit};
ghost use Rattle.std.specs.Fmt.{decimal};
ghost use Rattle.std.specs.List.{list_all};
ghost use Rattle.std.specs.Result.{OkIff};
ghost use Rattle.vol_units.specs.Name.{IsLayerName, IsNameOfLayer, IsSysName, IsNumber, sys_name};

use crate::chars::Chars;
use crate::error::BadName;
use crate::snap_name::SnapName;
use std::fmt;
use std::marker::Model;

/// The name of a layer below the head: a snapshot that a user took, or one of the engine's own, as `sys-7`.
/// A contract sees it as the list of its bytes.
#[derive(Clone, Copy, PartialEq, Eq, PartialOrd, Ord, Hash)]
pub struct LayerName {
    chars: Chars,
}

impl Model for LayerName {
    ghost use Rattle.std.specs.Prelude.{List, ℕ};
    ghost use Rattle.vol_units.specs.Name.{IsNameOfLayer};

    ghost Value = { List ℕ };

    ghost view = { λ n. n.chars };

    ghost invariant = { λ n. IsNameOfLayer n.chars };

    ghost inverse = { λ bytes. record { chars = bytes } };
}

impl LayerName {
    /// Reads a name as texts give it: an engine's own name has at most ten digits there.
    pub fn read(bytes: &[u8]) -> Result<LayerName, BadName>
        ensures { OkIff result (IsLayerName bytes.now) bytes.now }
    {
        if is_sys_name(bytes) {
            return Ok(LayerName {
                chars: Chars::of(bytes),
            });
        }
        Ok(LayerName::from(SnapName::read(bytes)?))
    }

    /// The engine's own name for the snapshot that closes the head of that number.
    #[tactic(auto, using(crate::proofs::NameLemmas::decimals))]
    pub fn sys(number: u64) -> LayerName
        ensures { result ≡ sys_name number }
    {
        let mut chars = Chars::of(b"sys-");
        append_decimal(&mut chars, number);
        LayerName { chars }
    }

    pub fn as_bytes(&self) -> &[u8]
        ensures value { result.now ≡ self.now }
        ensures name { IsNameOfLayer self.now }
    {
        self.chars.as_bytes()
    }

    pub fn as_str(&self) -> &str
        ensures { result.now ≡ self.now }
    {
        self.chars.as_str()
    }
}

impl From<SnapName> for LayerName {
    ghost from_gives = { λ name layer. layer ≡ name };

    fn from(name: SnapName) -> LayerName {
        LayerName {
            chars: Chars::of(name.as_bytes()),
        }
    }
}

impl fmt::Debug for LayerName {
    fn fmt<W: fmt::Write>(&self, f: &mut fmt::Formatter<W>) -> fmt::Result {
        fmt::Debug::fmt(&self.as_str(), f)
    }
}

fn is_sys_name(bytes: &[u8]) -> bool
    ensures { IsTrue result ↔ IsSysName bytes.now }
{
    bytes.starts_with(b"sys-") && is_number(bytes.split_at(4).1)
}

fn is_number(text: &[u8]) -> bool
    ensures { IsTrue result ↔ IsNumber text.now }
{
    if text.is_empty() {
        return false;
    }
    if text.len() > 10 {
        return false;
    }
    if text[0] == b'0' {
        return text.len() == 1;
    }
    are_digits(text)
}

fn are_digits(text: &[u8]) -> bool
    ensures { result ≡ list_all is_ascii_digit text.now }
{
    text.iter().all(|byte| byte.is_ascii_digit())
}

#[tactic(auto, using(crate::proofs::NameLemmas::decimals))]
fn append_decimal(chars: &mut Chars, number: u64)
    requires { length chars.old + length (decimal number) ≤ 64 }
    ensures { chars.new ≡ chars.old ++ decimal number }
{
    if number < 10 {
        chars.append(&[b'0' + number as u8]);
        return;
    }
    append_decimal(chars, number / 10);
    chars.append(&[b'0' + (number % 10) as u8]);
}
