ghost use Rattle.std.specs.Prelude.{◌≡◌};
ghost use Rattle.std.specs.List.{list_all};
ghost use Rattle.std.specs.Option.{SomeIff};
ghost use Rattle.digest.specs.Digest.{digest_text, is_lower_digit, IsDigest};

use digest::Digest;
use std::marker::Model;

/// The checksum of a block. A contract sees it as the list of its 64 hexadecimal digits.
#[derive(Clone, Copy, Debug, PartialEq, Eq)]
pub struct Checksum {
    digits: [u8; 64],
}

impl Model for Checksum {
    ghost use Rattle.std.specs.Prelude.{List, ℕ};
    ghost use Rattle.digest.specs.Digest.{IsDigest};

    ghost Value = { List ℕ };

    ghost view = { λ c. c.digits };

    ghost invariant = { λ c. IsDigest c.digits };

    ghost inverse = { λ digits. record { digits = digits } };
}

impl Checksum {
    /// The checksum of bytes.
    pub fn of(bytes: &[u8]) -> Checksum
        ensures { result ≡ digest_text bytes.now }
    {
        let mut digest = Digest::new();
        digest.add(bytes);
        Checksum {
            digits: digest.text(),
        }
    }

    /// Reads a checksum: 64 hexadecimal digits in lower case.
    pub fn read(text: &[u8]) -> Option<Checksum>
        ensures { SomeIff result (IsDigest text.now) text.now }
    {
        if text.len() != 64 || !are_lower_digits(text) {
            return None;
        }
        let mut digits = [0; 64];
        digits.copy_from_slice(text);
        Some(Checksum { digits })
    }

    pub fn as_bytes(&self) -> &[u8]
        ensures value { result.now ≡ self.now }
        ensures digest { IsDigest self.now }
    {
        &self.digits
    }

    pub fn as_str(&self) -> &str
        ensures value { result.now ≡ self.now }
        ensures digest { IsDigest self.now }
    {
        str::from_utf8(self.as_bytes()).unwrap()
    }
}

fn are_lower_digits(text: &[u8]) -> bool
    ensures { result ≡ list_all is_lower_digit text.now }
{
    text.iter().all(|c| is_lower_digit(*c))
}

fn is_lower_digit(c: u8) -> bool
    ensures { result ≡ is_lower_digit c }
{
    c.is_ascii_digit() || (b'a' <= c && c <= b'f')
}
