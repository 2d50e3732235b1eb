ghost use Rattle.std.specs.Prelude.{◌≡◌, ◌++◌, ℕ, List, true, None, Some, map, string_bytes, IfOk, OnOk, OnErr};
ghost use Rattle.std.specs.Option.{option_map};
ghost use Rattle.target_traits.specs.Objects.{ObjectBecomes, ListsObjects};
ghost use Rattle.target_memory.specs.Kept.{objects_of, kept_if};

use std::alloc::{AllocError, Global};
use std::collections::BTreeMap;
use target_traits::{Outer, Target};

/// A target that keeps what it is given and never fails, though memory may run out.
#[derive(Debug, Drop)]
pub struct NoFaultTarget {
    /// What it holds.
    pub objects: BTreeMap<String, Vec<u8>>,
    alloc: Global,
}

impl NoFaultTarget {
    /// A target without objects.
    pub fn new(alloc: Global) -> Self
        ensures { (name : List ℕ) → objects_of result name ≡ None }
    {
        NoFaultTarget {
            objects: BTreeMap::new(alloc),
            alloc,
        }
    }

    /// What an object holds, or none where there is no such object.
    pub fn held(&self, name: &str) -> Option<&[u8]>
        ensures { option_map (λ bytes. bytes.now) result ≡ objects_of self.now name.now }
    {
        match self.objects.get(name) {
            None => None,
            Some(bytes) => Some(bytes.as_slice()),
        }
    }

    /// Makes an object hold these bytes, whatever it held. A test damages an object so.
    pub fn hold(&mut self, name: &str, bytes: &[u8]) -> Result<(), AllocError>
        ensures ok { OnOk result
            (ObjectBecomes name.now (Some bytes.now) (objects_of self.old) (objects_of self.new)) }
        ensures err { OnErr result (objects_of self.new ≡ objects_of self.old) }
    {
        let bytes = Vec::from_slice(self.alloc, bytes)?;
        let name = String::from_str(self.alloc, name)?;
        self.objects.insert(name, bytes)?;
        Ok(())
    }

    /// Takes an object away, where there is one.
    pub fn take_away(&mut self, name: &str)
        ensures { ObjectBecomes name.now None (objects_of self.old) (objects_of self.new) }
    {
        let _ = self.objects.remove(name);
    }

    /// The names of the objects that begin so.
    fn names(&self, prefix: &str) -> Result<Vec<String>, AllocError>
        ensures { IfOk result (λ names.
            ListsObjects prefix.now (map string_bytes names.items) (objects_of self.now)) }
    {
        let mut names = Vec::new(self.alloc);
        for name in self.objects.keys() {
            push_named(self.alloc, &mut names, name, prefix)?;
        }
        Ok(names)
    }
}

/// Pushes a name, where it begins so.
fn push_named(
    alloc: Global,
    names: &mut Vec<String>,
    name: &String,
    prefix: &str,
) -> Result<(), AllocError>
    ensures { IfOk result (λ _. map string_bytes names.new.items
        ≡ map string_bytes names.old.items ++ kept_if prefix.now (string_bytes name.now)) }
{
    if name.as_bytes().starts_with(prefix.as_bytes()) {
        names.push(String::from_str(alloc, name.as_str())?)?;
    }
    Ok(())
}

impl Target for NoFaultTarget {
    ghost tells = { true };

    ghost holds = { λ t. objects_of t };

    ghost faults = { λ _. 0 };

    fn get(&mut self, name: &str, most: usize) -> Outer<Option<Vec<u8>>> {
        match self.held(name) {
            None => Ok(None),
            Some(bytes) => {
                let front = &bytes[..bytes.len().min(most)];
                Ok(Some(Vec::from_slice(self.alloc, front)?))
            }
        }
    }

    fn put(&mut self, name: &str, bytes: &[u8]) -> Outer<()> {
        Ok(self.hold(name, bytes)?)
    }

    fn list(&mut self, prefix: &str) -> Outer<Vec<String>> {
        Ok(self.names(prefix)?)
    }

    fn remove(&mut self, name: &str) -> Outer<()> {
        self.take_away(name);
        Ok(())
    }
}
