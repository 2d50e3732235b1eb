ghost use Rattle.std.specs.Prelude.{◌≡◌, ◌≢◌, ◌↔◌, ◌++◌, ℕ, true, false, List, Contains, IfOk, IfErr, OnOk, MatchOption};
ghost use Rattle.std.specs.Prelude.{map, string_bytes};
ghost use Rattle.std.specs.Cmp.Lexicographic.{slice_cmp};
ghost use Rattle.std.specs.List.Sorted.{IsStrictlySortedBy};
ghost use Rattle.std.specs.Ordering.{nat_cmp};
ghost use Rattle.backup_units.specs.Faults.{HasFault};
ghost use Rattle.backup_restore.specs.Errors.{is_refusal, is_target_fault, is_write_fault};
ghost use Rattle.backup_restore.specs.Listed.{AreBackups};
ghost use Rattle.backup_restore.specs.Listing.{IsCfgName, AddsName, AreNamesIn};

use crate::cfg::error_of_target;
use crate::error::RestoreError;
use backup_units::cfg_prefix;
use std::alloc::{AllocError, Global};
use target_traits::Target;
use vol_units::PlainName;

/// The names of the volume's backups, in byte order.
pub(crate) fn backup_names<T: Target>(
    alloc: Global,
    target: &mut T,
    volume: &PlainName,
) -> Result<Vec<PlainName>, RestoreError>
    ensures names { T.tells ≡ true
        → IfOk result (λ names. AreBackups (T.holds target.old) volume.now names.items) }
    ensures same { T.holds target.new ≡ T.holds target.old }
    ensures cause { HasFault is_target_fault (T.faults target.old) (T.faults target.new) result }
    ensures no_refusal { IfErr result (λ e. (is_refusal e ≡ false) × (is_write_fault e ≡ false)) }
{
    let prefix = cfg_prefix(alloc, volume)?;
    match target.list(&prefix) {
        Err(fault) => Err(error_of_target(fault)),
        Ok(objects) => {
            let names = names_in(alloc, &prefix, &objects)?;
            Ok(sorted(names))
        }
    }
}

/// The names of the backups whose cfgs are among these objects. Other objects are passed over.
fn names_in(alloc: Global, prefix: &str, objects: &[String]) -> Result<Vec<PlainName>, AllocError>
    ensures { IfOk result (λ names. AreNamesIn prefix.now (map string_bytes objects.now) names.items) }
{
    let mut names = Vec::new(alloc);
    for object in objects {
        add_name(prefix, object, &mut names)?;
    }
    Ok(names)
}

/// Adds the name of the backup whose cfg the object is, if it is one.
fn add_name(prefix: &str, object: &str, names: &mut Vec<PlainName>) -> Result<(), AllocError>
    ensures { OnOk result (AddsName prefix.now object.now names.old.items names.new.items) }
{
    match backup_of(prefix, object) {
        None => Ok(()),
        Some(name) => Ok(names.push(name)?),
    }
}

/// The backup whose cfg the object of that name is, if it is one.
fn backup_of(prefix: &str, object: &str) -> Option<PlainName>
    ensures { MatchOption result
        ((name : List ℕ) → IsCfgName prefix.now name object.now → ⊥)
        (λ name. IsCfgName prefix.now name object.now) }
{
    match between(object.as_bytes(), prefix.as_bytes(), b".cfg") {
        None => None,
        Some(name) => PlainName::read(name).ok(),
    }
}

/// What stands between a front and a back.
fn between<'a>(text: &'a [u8], front: &[u8], back: &[u8]) -> Option<&'a [u8]>
    ensures { MatchOption result
        ((middle : List ℕ) → text.now ≢ front.now ++ (middle ++ back.now))
        (λ middle. text.now ≡ front.now ++ (middle.now ++ back.now)) }
{
    match text.strip_prefix(front) {
        None => None,
        Some(rest) => rest.strip_suffix(back),
    }
}

/// The names in byte order, each once.
fn sorted(names: Vec<PlainName>) -> Vec<PlainName>
    ensures same { (name : List ℕ) → Contains result.items name ↔ Contains names.items name }
    ensures ascending { IsStrictlySortedBy (slice_cmp nat_cmp) result.items }
{
    let mut names = names;
    names.sort_unstable();
    // A store that lists an object twice gets one line for it all the same.
    names.dedup();
    names
}
