ghost use Rattle.std.specs.Prelude.{◌≡◌, ◌↔◌, ℕ, ◌+◌, ◌^◌, ◌<◌, ◌≤◌, IsTrue, MatchOption};
ghost use Rattle.image_maps.specs.Begun.{IsDigit, IsDigitOf, MayBegin, Reaches};

/// The digit whose byte that is.
pub fn digit_of(byte: u8) -> Option<u64>
    ensures { MatchOption result (IsDigit byte → ⊥) (IsDigitOf byte) }
{
    if !byte.is_ascii_digit() {
        return None;
    }
    Some(u64::from(byte - b'0'))
}

/// Whether the digits of a number may go on to those of one from `least` on and below `end`.
pub fn may_begin(number: u64, least: u64, end: u32) -> bool
    requires { number < 2 ^ 36 }
    ensures means { IsTrue result ↔ MayBegin number least end }
    ensures small { IsTrue result → number < end }
{
    if number == 0 {
        // No number but 0 itself begins with a zero.
        return zero_may_begin(least, end);
    }
    some_reaches(number, number + 1, least, end)
}

fn zero_may_begin(least: u64, end: u32) -> bool
    ensures means { IsTrue result ↔ MayBegin 0 least end }
    ensures small { IsTrue result → 0 < end }
{
    if least > 0 {
        return false;
    }
    0 < end
}

/// Whether a number from `least` on and below `end` is from `low` on and below `high`, or is so once it is cut by its
/// last digits.
fn some_reaches(low: u64, high: u64, least: u64, end: u32) -> bool
    requires low { 0 < low }
    requires high { low < high }
    requires most { high < 2 ^ 40 }
    ensures means { IsTrue result ↔ ((n : ℕ) × Reaches n low high × (least ≤ n) × (n < end)) }
    ensures small { IsTrue result → low < end }
{
    let last = u64::from(end);
    if low >= last {
        return false;
    }
    if least >= last {
        return false;
    }
    if least < high {
        return true;
    }
    some_reaches(low * 10, high * 10, least, end)
}
