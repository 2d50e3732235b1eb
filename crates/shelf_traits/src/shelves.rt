ghost use Rattle.std.specs.Prelude.{◌≡◌, ◌<◌, ◌≤◌, ◌+◌, ◌^◌, ℕ, Option, Some, None, length, map, take, string_bytes, IfOk, OnOk};
ghost use Rattle.std.specs.Option.{option_map};
ghost use Rattle.outer_traits.specs.Causes.{HasOuterCause};
ghost use Rattle.shelf_traits.specs.Failing.{FileOn, FailsAt, FailsNowhere};
ghost use Rattle.shelf_traits.specs.Files.{Files, Both, AllStay, OthersStay, Becomes, Lists, written, resized, from_place};

use outer_traits::Outer;

/// Where replicas are saved: a shelf of files for each.
pub trait Shelves {
    // What the files hold, where the shelves tell it.
    ghost holds: { Self → Option Files };

    // How often the shelves have failed.
    ghost faults: { Self → ℕ };

    // The file that the call that failed last was to change, where it was such a call and the shelves tell it.
    ghost failed_at: { Self → Option FileOn };

    /// The names of a shelf's files, each once.
    fn files(&mut self, shelf: u8) -> Outer<Vec<String>>
        ensures same { Both (holds self.old) (holds self.new) AllStay }
        ensures names { IfOk result (λ names.
            Both (holds self.old) (holds self.new) (λ old new. Lists shelf (map string_bytes names.items) old)) }
        ensures cause { HasOuterCause (faults self.old) (faults self.new) result }
        ensures fault { FailsNowhere (failed_at self.old) (failed_at self.new) result };

    /// How long a file is, or none where there is none.
    fn len(&mut self, shelf: u8, file: &str) -> Outer<Option<u64>>
        ensures same { Both (holds self.old) (holds self.new) AllStay }
        ensures len { IfOk result (λ n.
            Both (holds self.old) (holds self.new) (λ old new. n ≡ option_map length (old shelf file.now))) }
        ensures cause { HasOuterCause (faults self.old) (faults self.new) result }
        ensures fault { FailsNowhere (failed_at self.old) (failed_at self.new) result };

    /// Reads from a place on, as much as there is, and no more than there is room for. Of a file that is not there it
    /// reads nothing.
    fn read_at(&mut self, shelf: u8, file: &str, at: u64, into: &mut [u8]) -> Outer<usize>
        ensures bound { IfOk result (λ n. n ≤ length into.new) }
        ensures same { Both (holds self.old) (holds self.new) AllStay }
        ensures bytes { IfOk result (λ n. Both (holds self.old) (holds self.new) (λ old new.
            take n into.new ≡ take (length into.old) (from_place (old shelf file.now) at))) }
        ensures cause { HasOuterCause (faults self.old) (faults self.new) result }
        ensures fault { FailsNowhere (failed_at self.old) (failed_at self.new) result };

    /// Writes at a place. It makes the file where there is none, and fills a gap with zeros. After an error the file
    /// holds anything, or is gone.
    fn write_at(&mut self, shelf: u8, file: &str, at: u64, bytes: &[u8]) -> Outer<()>
        requires { at + length bytes.now < 2 ^ 63 }
        ensures ok { OnOk result (Both (holds self.old) (holds self.new) (λ old new.
            Becomes shelf file.now (Some (written (old shelf file.now) at bytes.now)) old new)) }
        ensures others { Both (holds self.old) (holds self.new) (OthersStay shelf file.now) }
        ensures cause { HasOuterCause (faults self.old) (faults self.new) result }
        ensures fault { FailsAt shelf file.now (failed_at self.old) (failed_at self.new) result };

    /// Cuts a file, or fills it with zeros. It makes the file where there is none. After an error the file holds
    /// anything, or is gone.
    fn set_len(&mut self, shelf: u8, file: &str, len: u64) -> Outer<()>
        requires { len < 2 ^ 63 }
        ensures ok { OnOk result (Both (holds self.old) (holds self.new) (λ old new.
            Becomes shelf file.now (Some (resized (old shelf file.now) len)) old new)) }
        ensures others { Both (holds self.old) (holds self.new) (OthersStay shelf file.now) }
        ensures cause { HasOuterCause (faults self.old) (faults self.new) result }
        ensures fault { FailsAt shelf file.now (failed_at self.old) (failed_at self.new) result };

    /// Removes a file, where there is one. After an error the file holds anything, or is gone.
    fn remove(&mut self, shelf: u8, file: &str) -> Outer<()>
        ensures ok { OnOk result
            (Both (holds self.old) (holds self.new) (Becomes shelf file.now None)) }
        ensures others { Both (holds self.old) (holds self.new) (OthersStay shelf file.now) }
        ensures cause { HasOuterCause (faults self.old) (faults self.new) result }
        ensures fault { FailsAt shelf file.now (failed_at self.old) (failed_at self.new) result };

    /// What was written to a shelf, and which files it has, stays so.
    fn sync(&mut self, shelf: u8) -> Outer<()>
        ensures same { Both (holds self.old) (holds self.new) AllStay }
        ensures cause { HasOuterCause (faults self.old) (faults self.new) result }
        ensures fault { FailsNowhere (failed_at self.old) (failed_at self.new) result };
}
