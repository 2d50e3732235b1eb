//! The members of an object, each missing or of the kind that it may have.

ghost use Rattle.std.specs.Prelude.{◌≡◌, ℕ, MatchOption, Some, option_map, option_and_then, codes};
ghost use Rattle.serde_json.specs.Find.{get, as_str};
ghost use Rattle.serde_json.specs.View.{view};
ghost use Rattle.chain_meta.specs.Answers.{Finds};
ghost use Rattle.chain_meta.specs.ImageNames.{parent_text, IsGoodParent};
ghost use Rattle.chain_meta.specs.Kinds.{HasKind, IsFlag, IsImage, IsParent, IsHead, IsSize, HasCreated, HasError};
ghost use Rattle.chain_meta.specs.Kinds.{HasFlagOrFalse, are_labels, is_filled, has_backing};

use crate::error::MetaError;
use crate::image_name::{ImageName, LARGEST_HEAD, head_number};
use decimal_text::read_decimal;
use serde_json::Value;
use std::alloc::Global;
use vol_units::TimeText;

pub(crate) fn created_in(alloc: Global, meta: &Value) -> Result<TimeText, MetaError>
    ensures { Finds (HasCreated (get (codes "Created") (view meta.now))) result }
{
    let text = match meta.get("Created") {
        None => "",
        Some(value) => value.as_str().ok_or(MetaError::Syntax)?,
    };
    TimeText::read(alloc, text)?.ok_or(MetaError::Syntax)
}

pub(crate) fn labels_are_good(meta: &Value) -> bool
    ensures { result ≡ are_labels (get (codes "Labels") (view meta.now)) }
{
    match meta.get("Labels") {
        None => true,
        Some(value) => value.is_null() || value.is_object(),
    }
}

pub(crate) fn flag_in(meta: &Value, name: &str) -> Result<Option<bool>, MetaError>
    ensures { Finds (HasKind IsFlag (get name.now (view meta.now))) result }
{
    match meta.get(name) {
        None => Ok(None),
        Some(value) => match value.as_bool() {
            Some(flag) => Ok(Some(flag)),
            None => Err(MetaError::Syntax),
        },
    }
}

pub(crate) fn flag_or_false_in(meta: &Value, name: &str) -> Result<bool, MetaError>
    ensures { Finds (HasFlagOrFalse (get name.now (view meta.now))) result }
{
    match meta.get(name) {
        None => Ok(false),
        Some(value) => value.as_bool().ok_or(MetaError::Syntax),
    }
}

pub(crate) fn image_in(
    alloc: Global,
    meta: &Value,
    name: &str,
) -> Result<Option<ImageName>, MetaError>
    ensures { Finds (HasKind IsImage (get name.now (view meta.now))) result }
{
    let text = match meta.get(name) {
        None => return Ok(None),
        Some(value) => value.as_str().ok_or(MetaError::Syntax)?,
    };
    match ImageName::read(alloc, text)? {
        Some(file) => Ok(Some(file)),
        None => Err(MetaError::Syntax),
    }
}

pub(crate) fn parent_in(alloc: Global, meta: &Value) -> Result<Option<Option<ImageName>>, MetaError>
    ensures { Finds (HasKind IsParent (get (codes "Parent") (view meta.now))) result }
{
    let text = match meta.get("Parent") {
        None => return Ok(None),
        Some(value) => value.as_str().ok_or(MetaError::Syntax)?,
    };
    if text.is_empty() {
        return Ok(Some(None));
    }
    match ImageName::read(alloc, text)? {
        Some(file) => Ok(Some(Some(file))),
        None => Err(MetaError::Syntax),
    }
}

pub(crate) fn has_backing(meta: &Value) -> bool
    ensures { result ≡ has_backing (view meta.now) }
{
    is_filled(meta.get("BackingFilePath").and_then(Value::as_str))
        || is_filled(meta.get("BackingFileName").and_then(Value::as_str))
}

fn is_filled(text: Option<&str>) -> bool
    ensures { result ≡ is_filled (option_map (λ t. t.now) text.entry) }
{
    match text {
        None => false,
        Some(text) => !text.is_empty(),
    }
}

/// Whether an error is told.
pub(crate) fn error_in(meta: &Value) -> Result<bool, MetaError>
    ensures { Finds (HasError (get (codes "Error") (view meta.now))) result }
{
    match meta.get("Error") {
        None => Ok(false),
        Some(value) => match value.as_str() {
            Some(text) => Ok(!text.is_empty()),
            None => Err(MetaError::Syntax),
        },
    }
}

/// The number of the head.
#[tactic(auto, using(crate::proofs::KindLemmas::no_kind))]
pub(crate) fn head_in(meta: &Value) -> Result<Option<u64>, MetaError>
    ensures { Finds (HasKind IsHead (get (codes "Head") (view meta.now))) result }
{
    match meta.get("Head") {
        None => Ok(None),
        Some(value) => match head_of(value) {
            Some(number) => Ok(Some(number)),
            None => Err(MetaError::Syntax),
        },
    }
}

#[tactic(auto, using(crate::proofs::KindLemmas::no_head_text, crate::proofs::KindLemmas::no_head_file))]
fn head_of(value: &Value) -> Option<u64>
    ensures { MatchOption result ((n : ℕ) → IsHead (view value.now) n → ⊥) (IsHead (view value.now)) }
{
    match value.as_str() {
        None => None,
        Some(text) => match head_number(text.as_bytes()) {
            Some(number) => {
                if number <= LARGEST_HEAD {
                    Some(number)
                } else {
                    None
                }
            }
            None => None,
        },
    }
}

#[tactic(auto, using(crate::proofs::KindLemmas::no_kind))]
pub(crate) fn size_in(meta: &Value) -> Result<Option<u64>, MetaError>
    ensures { Finds (HasKind IsSize (get (codes "Size") (view meta.now))) result }
{
    match meta.get("Size") {
        None => Ok(None),
        Some(value) => match size_of(value) {
            Some(size) => Ok(Some(size)),
            None => Err(MetaError::Syntax),
        },
    }
}

fn size_of(value: &Value) -> Option<u64>
    ensures { MatchOption result ((n : ℕ) → IsSize (view value.now) n → ⊥) (IsSize (view value.now)) }
{
    match value.as_u64() {
        Some(size) => Some(size),
        None => match value.as_str() {
            None => None,
            Some(text) => match read_decimal(text.as_bytes()) {
                Some(size) => Some(size),
                None => None,
            },
        },
    }
}

/// The parent's file, or the empty text.
pub(crate) fn parent_text(parent: &Option<ImageName>) -> &str
    ensures text { result.now ≡ parent_text parent.now }
    ensures good { IsGoodParent parent.now }
{
    match parent {
        None => "",
        Some(file) => file.as_str(),
    }
}
