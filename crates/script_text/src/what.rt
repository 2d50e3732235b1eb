ghost use Rattle.std.specs.Prelude.{◌≡◌, ◌++◌, codes};
ghost use Rattle.script_text.specs.Words.{what_text, member_name};

use script_head::Member;

/// What of an input is no script.
#[derive(Clone, Copy, Debug, PartialEq, Eq)]
pub enum What {
    /// It is too long.
    Input,
    /// Its front has no line.
    Line,
    /// The first line is no object of JSON.
    Json,
    /// This member is missing or has another value than it may have.
    Member(Member),
    /// The streams do not end where the input ends.
    Rest,
    /// There are too many calls.
    Calls,
    /// A stream's bytes are no whole frames, or go on behind the frame that ends it.
    Frame,
}

impl What {
    /// The words for it in a note.
    pub fn text(self) -> &'static str
        ensures { result.now ≡ what_text self }
    {
        match self {
            What::Input => "input",
            What::Line => "line",
            What::Json => "json",
            What::Member(member) => member_text(member),
            What::Rest => "rest",
            What::Calls => "calls",
            What::Frame => "frame",
        }
    }
}

fn member_text(member: Member) -> &'static str
    ensures { result.now ≡ codes "member " ++ member_name member }
{
    match member {
        Member::Volume => "member volume",
        Member::Size => "member size",
        Member::Replicas => "member replicas",
        Member::Open => "member open",
        Member::Save => "member save",
        Member::Now => "member now",
        Member::Streams => "member streams",
        Member::Lines => "member lines",
    }
}
