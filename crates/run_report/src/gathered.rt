//! Words that are put before one another, from the end of a text on, so that one call appends them all.

ghost use Rattle.std.specs.Prelude.{◌≡◌, ◌+◌, ◌≤◌, ◌++◌, length, drop};
ghost use Rattle.std.specs.Fmt.{decimal, signed_decimal};
ghost use Rattle.run_report.specs.Lines.{word};

use itoa::write_digits;

/// How many bytes the longest number has.
pub const DIGITS: usize = 20;

/// The same with the space behind it, and for an offset its sign.
pub const NUMBER: usize = 21;

pub const OFFSET: usize = 22;

/// Puts a number before what begins at `end`, and says where it begins.
pub fn put_decimal(n: u64, text: &mut [u8], end: usize) -> usize
    requires room { DIGITS ≤ end }
    requires within { end ≤ length text.old }
    ensures start { (result ≤ end) × (end ≤ result + DIGITS) }
    ensures written { drop result text.new ≡ decimal n ++ drop end text.old }
{
    // Most numbers have one digit.
    if n < 10 {
        text[end - 1] = b'0' + n as u8;
        return end - 1;
    }
    write_digits(n, text, end)
}

/// Puts a number and a space there.
pub fn put_number(n: u64, text: &mut [u8], end: usize) -> usize
    requires room { NUMBER ≤ end }
    requires within { end ≤ length text.old }
    ensures start { (result ≤ end) × (end ≤ result + NUMBER) }
    ensures written { drop result text.new ≡ word (decimal n) ++ drop end text.old }
{
    text[end - 1] = b' ';
    put_decimal(n, text, end - 1)
}

/// Puts an offset and a space there.
pub fn put_offset(offset: i64, text: &mut [u8], end: usize) -> usize
    requires room { OFFSET ≤ end }
    requires within { end ≤ length text.old }
    ensures start { (result ≤ end) × (end ≤ result + OFFSET) }
    ensures written { drop result text.new ≡ word (signed_decimal offset) ++ drop end text.old }
{
    let start = put_number(offset.unsigned_abs(), text, end);
    if offset >= 0 {
        return start;
    }
    text[start - 1] = b'-';
    start - 1
}

/// Puts bytes there.
pub fn put_bytes(bytes: &[u8], text: &mut [u8], end: usize) -> usize
    requires room { length bytes.now ≤ end }
    requires within { end ≤ length text.old }
    ensures start { result + length bytes.now ≡ end }
    ensures written { drop result text.new ≡ bytes.now ++ drop end text.old }
{
    let start = end - bytes.len();
    text[start..end].copy_from_slice(bytes);
    start
}
