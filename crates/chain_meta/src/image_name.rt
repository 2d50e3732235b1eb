ghost use Rattle.std.specs.Prelude.{◌≡◌, ◌≢◌, ◌↔◌, ℕ, ◌<◌, ◌^◌, ◌++◌, List, IsTrue, IfOk, MatchOption, decimal};
ghost use Rattle.std.specs.List.{list_all};
ghost use Rattle.std.specs.Option.{SomeIff};
ghost use Rattle.vol_units.specs.Name.{IsName, is_name_byte};
ghost use Rattle.chain_meta.specs.ImageNames.{IsHeadFile, IsSnapshotFile, IsImageName};
ghost use Rattle.chain_meta.specs.ImageNames.{head_file, head_digits, zeros_before, snapshot_file};

use crate::cut::{behind, between};
use decimal_text::read_decimal;
use itoa::Buffer;
use std::alloc::{AllocError, Global};
use std::marker::Model;

/// The largest number of a head that is opened.
pub const LARGEST_HEAD: u64 = 999_999;

/// The file name of an image. A contract sees it as the list of its bytes.
#[derive(Debug, Drop)]
pub struct ImageName {
    text: String,
}

impl Model for ImageName {
    ghost use Rattle.std.specs.Prelude.{List, ℕ, string_bytes};
    ghost use Rattle.chain_meta.specs.ImageNames.{IsImageName};

    ghost Value = { List ℕ };

    ghost view = { λ n. string_bytes n.text };

    ghost invariant = { λ n. IsImageName (string_bytes n.text) };
}

impl ImageName {
    /// The file of the head of that number.
    pub fn head(alloc: Global, number: u64) -> Result<ImageName, AllocError>
        ensures { IfOk result (λ n. n ≡ head_file number) }
    {
        let mut buffer = Buffer::new();
        let mut text = String::from_str(alloc, "volume-head-")?;
        text.push_str(zeros_before(number))?;
        text.push_str(buffer.format(number))?;
        text.push_str(".img")?;
        Ok(ImageName { text })
    }

    /// The file of the snapshot of that name.
    pub fn snapshot(alloc: Global, name: &str) -> Result<ImageName, AllocError>
        requires { IsName name.now }
        ensures { IfOk result (λ n. n ≡ snapshot_file name.now) }
    {
        let mut text = String::from_str(alloc, "volume-snap-")?;
        text.push_str(name)?;
        text.push_str(".img")?;
        Ok(ImageName { text })
    }

    /// The name, or none where the text is no file of an image.
    pub fn read(alloc: Global, text: &str) -> Result<Option<ImageName>, AllocError>
        ensures { IfOk result (λ name. SomeIff name (IsImageName text.now) text.now) }
    {
        if !is_image(text.as_bytes()) {
            return Ok(None);
        }
        Ok(Some(ImageName {
            text: String::from_str(alloc, text)?,
        }))
    }

    pub fn as_str(&self) -> &str
        ensures value { result.now ≡ self.now }
        ensures name { IsImageName self.now }
    {
        self.text.as_str()
    }
}

/// Whether that is the file of an image.
#[tactic(auto, using(crate::proofs::FileLemmas::images))]
pub fn is_image(file: &[u8]) -> bool
    ensures { IsTrue result ↔ IsImageName file.now }
{
    match head_number(file) {
        Some(_) => true,
        None => match snapshot_name(file) {
            Some(_) => true,
            None => false,
        },
    }
}

fn zeros_before(number: u64) -> &'static str
    ensures { result.now ≡ zeros_before number }
{
    if number < 10 {
        "00"
    } else if number < 100 {
        "0"
    } else {
        ""
    }
}

/// The number of the head whose file that is.
#[tactic(auto, using(crate::proofs::FileLemmas::no_head, crate::proofs::FileLemmas::other_digits))]
pub fn head_number(file: &[u8]) -> Option<u64>
    ensures { MatchOption result ((n : ℕ) → IsHeadFile n file.now → ⊥) (λ n. IsHeadFile n file.now) }
{
    match between(file, b"volume-head-", b".img") {
        None => None,
        Some(digits) => match number_in(digits) {
            None => None,
            Some(number) => Some(number),
        },
    }
}

/// The name of the snapshot whose file that is.
#[tactic(auto, using(crate::proofs::FileLemmas::no_snapshot, crate::proofs::FileLemmas::other_name))]
pub fn snapshot_name(file: &[u8]) -> Option<&[u8]>
    ensures { MatchOption result
        ((name : List ℕ) → IsSnapshotFile name file.now → ⊥) (λ name. IsSnapshotFile name.now file.now) }
{
    match between(file, b"volume-snap-", b".img") {
        None => None,
        Some(name) => { if is_name(name) { Some(name) } else { None } }
    }
}

fn is_name(name: &[u8]) -> bool
    ensures { IsTrue result ↔ IsName name.now }
{
    !name.is_empty() && name.len() <= 64 && are_name_bytes(name)
}

fn are_name_bytes(bytes: &[u8]) -> bool
    ensures { result ≡ list_all is_name_byte bytes.now }
{
    bytes.iter().all(|byte| is_name_byte(*byte))
}

fn is_name_byte(byte: u8) -> bool
    ensures { result ≡ is_name_byte byte }
{
    byte.is_ascii_alphanumeric() || matches!(byte, b'.' | b'_' | b'-')
}

/// The number that is written in three digits at least.
fn number_in(digits: &[u8]) -> Option<u64>
    ensures { MatchOption result
        ((n : ℕ) → n < 2 ^ 64 → digits.now ≢ head_digits n)
        (λ n. (n < 2 ^ 64) × (digits.now ≡ head_digits n)) }
{
    if let Some(number) = number_behind(digits, "00") {
        return Some(number);
    }
    if let Some(number) = number_behind(digits, "0") {
        return Some(number);
    }
    number_behind(digits, "")
}

/// The number behind these zeros, where it is written with just these.
fn number_behind(digits: &[u8], zeros: &str) -> Option<u64>
    ensures { MatchOption result
        ((n : ℕ) → n < 2 ^ 64 → zeros_before n ≡ zeros.now → digits.now ≢ zeros.now ++ decimal n)
        (λ n. (n < 2 ^ 64) × (zeros_before n ≡ zeros.now) × (digits.now ≡ zeros.now ++ decimal n)) }
{
    let rest = match behind(digits, zeros.as_bytes()) {
        None => return None,
        Some(rest) => rest,
    };
    let number = match read_decimal(rest) {
        None => return None,
        Some(number) => number,
    };
    if zeros_before(number) != zeros {
        return None;
    }
    Some(number)
}
