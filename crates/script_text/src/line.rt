ghost use Rattle.std.specs.Prelude.{◌≡◌, ◌==◌, ◌+◌, ◌<◌, ◌≤◌, length, take, drop, position, IfSome, IfNone};
ghost use Rattle.script_text.specs.Line.{IsCut, HasNoLine};
ghost use Rattle.script_head.specs.Limits.{longest_line, most_input};

use script_head::limits::LONGEST_LINE;

/// How many bytes the first line has, its line feed left out, if it is not too long.
pub(crate) fn line_length(input: &[u8]) -> Option<usize>
    requires { length input.now ≤ most_input }
    ensures cut { IfSome result (λ n. IsCut input.now (take n input.now) (drop (n + 1) input.now)) }
    ensures within { IfSome result (λ n. n < length input.now) }
    ensures none { IfNone result (HasNoLine input.now) }
{
    first_feed(input)
}

fn first_feed(input: &[u8]) -> Option<usize>
    ensures { result ≡ position (λ byte. byte == 10) (take longest_line input.now) }
{
    input
        .iter()
        .take(LONGEST_LINE)
        .position(|byte| *byte == b'\n')
}
