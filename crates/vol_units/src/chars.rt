ghost use Rattle.std.specs.Prelude.{◌≡◌, ◌+◌, ◌≤◌, ◌++◌, length, nat_eq, Some, refl};
ghost use Rattle.std.proofs.Common.{ap};
ghost use Rattle.std.specs.Hash as fed;
ghost use Rattle.std.specs.List.{list_all};
ghost use Rattle.std.specs.Result.{OkIff};
ghost use Rattle.std.specs.Ordering.{nat_cmp};
ghost use Rattle.std.specs.Cmp;
ghost use Rattle.std.specs.Cmp.Lexicographic.{pointwise, slice_cmp, bytes_decides, nat_list_eq_equiv, nat_list_cmp_total, texts_ties, texts_po};
ghost use Rattle.vol_units.specs.Name.{is_name_byte, IsName};

use crate::error::BadName;
use std::cmp::Ordering;
use std::hash::{Hash, Hasher};
use std::marker::Model;

/// The bytes of a name, in 64 places of its own. A contract sees them as a list.
#[derive(Clone, Copy)]
pub(crate) struct Chars {
    places: [u8; 64],
    len: u8,
}

impl Model for Chars {
    ghost use Rattle.std.specs.Prelude.{List, ℕ, length, take};
    ghost use Rattle.vol_units.specs.Chars.{IsPadded, padded, padded-take, length-take_padded};

    ghost Value = { List ℕ };

    ghost view = { λ c. take c.len c.places };

    ghost invariant = { λ c. IsPadded c.places c.len };

    ghost inverse = { λ bytes. record { places = padded bytes; len = length bytes } };

    ghost inverse_ok = { λ a h. λ i. record {
      places = padded-take a.places a.len h i;
      len = length-take_padded a.places a.len h i;
    } };
}

impl Chars {
    pub fn of(bytes: &[u8]) -> Chars
        requires { length bytes.now ≤ 64 }
        ensures { result ≡ bytes.now }
    {
        let mut chars = Chars {
            places: [0; 64],
            len: 0,
        };
        chars.append(bytes);
        chars
    }

    /// The bytes of a name of any kind.
    pub fn read(bytes: &[u8]) -> Result<Chars, BadName>
        ensures { OkIff result (IsName bytes.now) bytes.now }
    {
        if bytes.is_empty() || bytes.len() > 64 || !are_name_bytes(bytes) {
            return Err(BadName);
        }
        Ok(Chars::of(bytes))
    }

    pub fn append(&mut self, bytes: &[u8])
        requires { length self.old + length bytes.now ≤ 64 }
        ensures { self.new ≡ self.old ++ bytes.now }
    {
        let len = self.len as usize;
        let end = len + bytes.len();
        self.places[len..end].copy_from_slice(bytes);
        self.len = end as u8;
    }

    pub fn as_bytes(&self) -> &[u8]
        ensures { result.now ≡ self.now }
    {
        &self.places[..self.len as usize]
    }

    pub fn as_str(&self) -> &str
        requires { IsName self.now }
        ensures { result.now ≡ self.now }
    {
        str::from_utf8(self.as_bytes()).unwrap()
    }
}

fn are_name_bytes(bytes: &[u8]) -> bool
    ensures { result ≡ list_all is_name_byte bytes.now }
{
    bytes.iter().all(|byte| is_name_byte(*byte))
}

fn is_name_byte(byte: u8) -> bool
    ensures { result ≡ is_name_byte byte }
{
    byte.is_ascii_alphanumeric() || matches!(byte, b'.' | b'_' | b'-')
}

impl PartialEq for Chars {
    ghost eq = { pointwise nat_eq };

    ghost laws = { Cmp.partial_equiv_from_equiv nat_list_eq_equiv };

    fn eq(&self, other: &Chars) -> bool {
        self.as_bytes() == other.as_bytes()
    }
}

impl Eq for Chars {
    ghost laws = { nat_list_eq_equiv };
}

impl PartialOrd for Chars {
    ghost partial_cmp = { λ x y. Some (slice_cmp nat_cmp x y) };

    ghost laws = { texts_po };

    fn partial_cmp(&self, other: &Chars) -> Option<Ordering> {
        Some(self.cmp(other))
    }
}

impl Ord for Chars {
    ghost cmp = { slice_cmp nat_cmp };

    ghost total = { nat_list_cmp_total };

    ghost matches_partial_cmp = { λ x y. refl };

    ghost matches_eq = { texts_ties };

    fn cmp(&self, other: &Chars) -> Ordering {
        self.as_bytes().cmp(other.as_bytes())
    }
}

/// A name is hashed as a text of its bytes.
impl Hash for Chars {
    ghost hash_input = { fed.str };

    ghost respects_eq = { λ x y same. ap fed.str ((bytes_decides x y).0 same) };

    fn hash<H: Hasher>(&self, state: &mut H) {
        state.write(self.as_bytes());
        state.write_u8(0xff);
    }
}
