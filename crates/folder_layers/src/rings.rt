ghost use Rattle.std.specs.Prelude.{◌<◌, ◌↔◌, length, IsTrue};
ghost use Rattle.folder_layers.specs.Rings.{ComesBack, Ends, AreMarked, IsWalk};

/// How walking up from a place goes.
pub(crate) enum Walk {
    Ends,
    ComesBack,
    /// It comes to a ring of others.
    GoesOn,
}

/// Whether walking up from a place comes back to it. The marks are of places from which that is
/// known to end, so that where none comes back, no step is taken often.
pub(crate) fn comes_back(parents: &[Option<usize>], marks: &mut [bool], place: usize) -> bool
    requires marked { AreMarked parents.now marks.old }
    requires within { place < length parents.now }
    ensures answer { IsTrue result ↔ ComesBack parents.now place }
    ensures marked { AreMarked parents.now marks.new }
{
    match walk_up(parents, marks, place) {
        Walk::Ends => {
            mark(parents, marks, place);
            false
        }
        Walk::ComesBack => true,
        Walk::GoesOn => false,
    }
}

/// Walks up from a place, as many steps as there are places: what comes back does so within that.
fn walk_up(parents: &[Option<usize>], marks: &[bool], place: usize) -> Walk
    requires marked { AreMarked parents.now marks.now }
    requires within { place < length parents.now }
    ensures { IsWalk parents.now place result }
{
    let mut at = place;
    for step in 0..parents.len() {
        let Some(parent) = parents[at] else {
            return Walk::Ends;
        };
        if parent == place {
            return Walk::ComesBack;
        }
        if marks[parent] {
            return Walk::Ends;
        }
        at = parent;
    }
    Walk::GoesOn
}

/// Marks a place from which walking up ends, and those above it.
fn mark(parents: &[Option<usize>], marks: &mut [bool], place: usize)
    requires marked { AreMarked parents.now marks.old }
    requires within { place < length parents.now }
    requires ends { Ends parents.now place }
    ensures { AreMarked parents.now marks.new }
{
    let mut at = place;
    for step in 0..parents.len() {
        if marks[at] {
            return;
        }
        marks[at] = true;
        let Some(parent) = parents[at] else {
            return;
        };
        at = parent;
    }
}
