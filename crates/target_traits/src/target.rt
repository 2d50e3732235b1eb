ghost use Rattle.std.specs.Prelude.{◌≡◌, ℕ, Bool, true, Option, Some, None, map, take, string_bytes, IfOk, OnOk};
ghost use Rattle.std.specs.Option.{option_map};
ghost use Rattle.outer_traits.specs.Causes.{HasOuterCause};
ghost use Rattle.target_traits.specs.Objects.{Objects, OtherObjectsStay, ObjectBecomes, ListsObjects};

use outer_traits::Outer;

/// Where backups are kept: objects of bytes, by their names.
pub trait Target {
    // Whether targets of this type tell what they hold.
    ghost tells: { Bool };

    // What it holds. Where it does not tell, this is no object at all, whatever it holds.
    ghost holds: { Self → Objects };

    // How often it has failed.
    ghost faults: { Self → ℕ };

    /// The first bytes of an object, at most so many, or none where there is no such object.
    fn get(&mut self, name: &str, most: usize) -> Outer<Option<Vec<u8>>>
        ensures same { holds self.new ≡ holds self.old }
        ensures bytes { tells ≡ true → IfOk result (λ got.
            option_map (λ v. v.items) got ≡ option_map (take most) (holds self.old name.now)) }
        ensures cause { HasOuterCause (faults self.old) (faults self.new) result };

    /// Makes the object hold these bytes, whether or not it was there. After an error it holds anything, or is gone.
    fn put(&mut self, name: &str, bytes: &[u8]) -> Outer<()>
        ensures ok { tells ≡ true → OnOk result
            (ObjectBecomes name.now (Some bytes.now) (holds self.old) (holds self.new)) }
        ensures others { OtherObjectsStay name.now (holds self.old) (holds self.new) }
        ensures cause { HasOuterCause (faults self.old) (faults self.new) result };

    /// The names of the objects that begin with the prefix, each once.
    fn list(&mut self, prefix: &str) -> Outer<Vec<String>>
        ensures same { holds self.new ≡ holds self.old }
        ensures names { tells ≡ true → IfOk result (λ names.
            ListsObjects prefix.now (map string_bytes names.items) (holds self.old)) }
        ensures cause { HasOuterCause (faults self.old) (faults self.new) result };

    /// Removes an object, where there is one. After an error it holds anything, or is gone.
    fn remove(&mut self, name: &str) -> Outer<()>
        ensures ok { tells ≡ true → OnOk result
            (ObjectBecomes name.now None (holds self.old) (holds self.new)) }
        ensures others { OtherObjectsStay name.now (holds self.old) (holds self.new) }
        ensures cause { HasOuterCause (faults self.old) (faults self.new) result };
}
