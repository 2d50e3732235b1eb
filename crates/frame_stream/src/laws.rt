//! What follows for those that read frames. Each law is a contract.

ghost use Rattle.std.specs.Prelude.{◌≡◌, ◌≢◌, ◌<◌, ◌+◌, ◌↔◌, ℕ, List, length};
ghost use Rattle.frame_wire.specs.Spelling.{header_length};
ghost use Rattle.frame_stream.specs.declared.frame.Frame.{Frame};
ghost use Rattle.frame_stream.specs.declared.reader.Next.{Next};
ghost use Rattle.frame_stream.specs.declared.reader.Next.TheVariants as next;
ghost use Rattle.frame_stream.specs.Reading.{Fed, fed_more, GivesNext, StandsFirst};

/// What a reader gives is settled by what was fed to it.
pub fn a_reader_has_one_answer()
    ensures { (fed new other : Fed) (given also : Next) → GivesNext fed new given → GivesNext fed other also
        → (given ≡ also) × (new ≡ other) }
{}

/// A frame is given, and what is bad is bad at the same place, whatever is fed behind it.
pub fn more_bytes_change_no_answer()
    ensures { (fed new : Fed) (given : Next) (more : List ℕ) → given ≢ next.Short → GivesNext fed new given
        → GivesNext (fed_more fed more) (fed_more new more) given }
{}

/// Nothing but a frame is taken from what was fed, and what is bad is bad where the reader stands.
pub fn only_a_frame_is_taken()
    ensures short { (fed new : Fed) → GivesNext fed new next.Short → new ≡ fed }
    ensures bad { (fed new : Fed) (place : ℕ) → GivesNext fed new (next.Bad place)
        → (new ≡ fed) × (place ≡ fed.place) }
{}

/// A frame is given exactly where it stands whole before the bytes that are left, within the reader's limit.
pub fn a_frame_is_given_where_it_stands_first()
    ensures { (fed new : Fed) (f : Frame) → (GivesNext fed new (next.Frame f) ↔ StandsFirst fed new f) }
{}

/// Where more bytes are needed, less than a header and the data that a frame may have is left.
pub fn few_bytes_are_short()
    ensures { (fed new : Fed) → GivesNext fed new next.Short → length fed.left < header_length + fed.most }
{}
