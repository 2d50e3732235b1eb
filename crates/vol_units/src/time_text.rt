ghost use Rattle.std.specs.Prelude.{◌≡◌, IfOk};
ghost use Rattle.std.specs.List.{list_all};
ghost use Rattle.std.specs.Option.{SomeIff};
ghost use Rattle.vol_units.specs.Time.{is_printed, IsTimeText};

use std::alloc::{AllocError, Global};
use std::marker::Model;

/// The most bytes of a text of time.
const LONGEST_TIME: usize = 40;

/// The text that a run writes as its time: at most 40 printed characters, and maybe none.
/// A contract sees it as the list of its bytes.
#[derive(Debug, Drop)]
pub struct TimeText {
    text: String,
}

impl Model for TimeText {
    ghost use Rattle.std.specs.Prelude.{List, ℕ, string_bytes};
    ghost use Rattle.vol_units.specs.Time.{IsTimeText};

    ghost Value = { List ℕ };

    ghost view = { λ t. string_bytes t.text };

    ghost invariant = { λ t. IsTimeText (string_bytes t.text) };
}

impl TimeText {
    /// The text, or none where it is no text of time.
    pub fn read(alloc: Global, text: &str) -> Result<Option<TimeText>, AllocError>
        ensures { IfOk result (λ time. SomeIff time (IsTimeText text.now) text.now) }
    {
        if text.len() > LONGEST_TIME || !are_printed(text.as_bytes()) {
            return Ok(None);
        }
        Ok(Some(TimeText {
            text: String::from_str(alloc, text)?,
        }))
    }

    pub fn as_str(&self) -> &str
        ensures value { result.now ≡ self.now }
        ensures time { IsTimeText self.now }
    {
        self.text.as_str()
    }
}

fn are_printed(text: &[u8]) -> bool
    ensures { result ≡ list_all is_printed text.now }
{
    text.iter().all(|byte| is_printed(*byte))
}

fn is_printed(byte: u8) -> bool
    ensures { result ≡ is_printed byte }
{
    0x20 <= byte && byte <= 0x7e
}
