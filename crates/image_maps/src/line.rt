ghost use Rattle.std.specs.Prelude.{ℕ, ◌≡◌, ◌<◌, ◌≤◌, ◌+◌, ◌^◌};
ghost use Rattle.image_maps.specs.Begun.{IsBegun, MayBegin, Steps};
ghost use Rattle.image_maps.specs.declared.line.BegunLine.TheVariants.{Empty, First, Blank, Count};

use crate::digits::{digit_of, may_begin};
use crate::span::BlockSpan;

/// What was read of a line.
#[derive(Clone, Copy, Debug, PartialEq, Eq)]
pub enum BegunLine {
    /// Nothing.
    Empty,
    /// Digits of the first block.
    First(u64),
    /// The first block, and the blank behind it.
    Blank(u64),
    /// The first block, the blank, and digits of the count.
    Count(u64, u64),
}

/// What one byte more makes of a line.
#[derive(Clone, Copy, Debug, PartialEq, Eq)]
pub enum Step {
    Grows(BegunLine),
    Ends(BlockSpan),
    /// No line of a run that fits begins so.
    Bad,
}

/// The line with a byte more, where its run may begin at block `least`.
pub fn next_step(line: BegunLine, byte: u8, least: u64, block_count: u32) -> Step
    requires { IsBegun least block_count line }
    ensures { Steps least block_count line byte result }
{
    match line {
        BegunLine::Empty => first_digit(byte, least, block_count),
        BegunLine::First(number) => behind_first(number, byte, least, block_count),
        BegunLine::Blank(first) => count_digit(first, byte, least, block_count),
        BegunLine::Count(first, count) => behind_count(first, count, byte, least, block_count),
    }
}

fn first_digit(byte: u8, least: u64, block_count: u32) -> Step
    ensures { Steps least block_count Empty byte result }
{
    let number = match digit_of(byte) {
        None => return Step::Bad,
        Some(digit) => digit,
    };
    if may_begin(number, least, block_count) {
        Step::Grows(BegunLine::First(number))
    } else {
        Step::Bad
    }
}

fn behind_first(number: u64, byte: u8, least: u64, block_count: u32) -> Step
    requires { IsBegun least block_count (First number) }
    ensures { Steps least block_count (First number) byte result }
{
    if byte == b' ' {
        return if least <= number {
            Step::Grows(BegunLine::Blank(number))
        } else {
            Step::Bad
        };
    }
    let digit = match digit_of(byte) {
        None => return Step::Bad,
        Some(digit) => digit,
    };
    // No number but 0 itself begins with a zero.
    if number == 0 {
        return Step::Bad;
    }
    let longer = number * 10 + digit;
    if may_begin(longer, least, block_count) {
        Step::Grows(BegunLine::First(longer))
    } else {
        Step::Bad
    }
}

fn count_digit(first: u64, byte: u8, least: u64, block_count: u32) -> Step
    requires { IsBegun least block_count (Blank first) }
    ensures { Steps least block_count (Blank first) byte result }
{
    let count = match digit_of(byte) {
        None => return Step::Bad,
        Some(digit) => digit,
    };
    // No count is 0, and none begins with a zero.
    if count == 0 {
        return Step::Bad;
    }
    if count <= u64::from(block_count) - first {
        Step::Grows(BegunLine::Count(first, count))
    } else {
        Step::Bad
    }
}

fn behind_count(first: u64, count: u64, byte: u8, least: u64, block_count: u32) -> Step
    requires { IsBegun least block_count (Count first count) }
    ensures { Steps least block_count (Count first count) byte result }
{
    if byte == b'\n' {
        return Step::Ends(BlockSpan {
            first: first as u32,
            count: count as u32,
        });
    }
    let digit = match digit_of(byte) {
        None => return Step::Bad,
        Some(digit) => digit,
    };
    let longer = count * 10 + digit;
    if longer <= u64::from(block_count) - first {
        Step::Grows(BegunLine::Count(first, longer))
    } else {
        Step::Bad
    }
}
