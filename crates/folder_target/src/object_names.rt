ghost use Rattle.std.specs.Prelude.{◌≡◌, ◌↔◌, nat_eq, IsTrue, IfOk, string_bytes};
ghost use Rattle.std.specs.List.{starts_with};
ghost use Rattle.folder_target.specs.ObjectNames.{IsPart, IsPath, IsObjectName, beside_of, is_beside};

use std::alloc::{AllocError, Global};

/// The folder of all objects.
pub(crate) const STORE: &str = "backupstore";

/// What the name of an object begins with.
const FRONT: &str = "backupstore/";

/// What the name of the file beside an object ends in.
const BESIDE: &str = ".tmp";

/// Whether an object may have this name.
pub(crate) fn is_object(name: &str) -> bool
    ensures { IsTrue result ↔ IsObjectName name.now }
{
    begins(name, FRONT) && is_path(name) && !is_beside(name)
}

/// Whether no part of it leads out of its folder.
fn is_path(name: &str) -> bool
    ensures { IsTrue result ↔ IsPath name.now }
{
    let mut rest = name;
    while let Some(parts) = rest.split_once('/') {
        if !is_part(parts.0) {
            return false;
        }
        rest = parts.1;
    }
    is_part(rest)
}

fn is_part(part: &str) -> bool
    ensures { IsTrue result ↔ IsPart part.now }
{
    match part {
        "" | "." | ".." => false,
        _ => true,
    }
}

/// The name of the file beside an object, which is no object's.
pub(crate) fn beside_name(alloc: Global, name: &str) -> Result<String, AllocError>
    ensures named { IfOk result (λ beside. string_bytes beside ≡ beside_of name.now) }
    ensures free { IfOk result (λ beside. IsObjectName (string_bytes beside) → ⊥) }
{
    let mut beside = String::from_str(alloc, name)?;
    beside.push_str(BESIDE)?;
    Ok(beside)
}

/// Whether it may be the name of a file beside an object.
fn is_beside(name: &str) -> bool
    ensures { result ≡ is_beside name.now }
{
    name.as_bytes().ends_with(BESIDE.as_bytes())
}

/// Whether a text begins so.
pub(crate) fn begins(text: &str, front: &str) -> bool
    ensures { result ≡ starts_with nat_eq text.now front.now }
{
    text.as_bytes().starts_with(front.as_bytes())
}
