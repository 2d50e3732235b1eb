//! The members of a cfg, each missing or of the kind that it may have.

ghost use Rattle.std.specs.Prelude.{◌≡◌, ◌<◌, ◌^◌, ℕ, nat_lt, codes, decimal, string_bytes, IfOk, MatchOption};
ghost use Rattle.std.specs.Prelude.{Some, option_map, option_and_then};
ghost use Rattle.std.specs.List.{list_all};
ghost use Rattle.serde_json.specs.Find.{get, as_str};
ghost use Rattle.serde_json.specs.View.{view, items_view};
ghost use Rattle.vol_units.specs.Name.{IsPlainName};
ghost use Rattle.backup_config.specs.Answers.{Finds, FindsAs};
ghost use Rattle.backup_config.specs.Kinds.{asked_in, text_in, IsTime, is_compressed, is_filled, IsLast};
ghost use Rattle.backup_config.specs.Kinds.{decimal_of, IsSize, IsToldSize, HasSize, HasDiskSize};
ghost use Rattle.backup_config.specs.Kinds.{checksum_of_text, page_of_offset, block_in, blocks_of, blocks_in, are_within};
ghost use Rattle.backup_config.specs.VolumeCfgs.{last_text, IsGoodLast};

use crate::error::CfgError;
use crate::list::ListedBlock;
use backup_units::{Checksum, PAGE_LENGTH};
use decimal_text::read_decimal;
use serde_json::Value;
use std::alloc::{AllocError, Global};
use vol_units::{PlainName, TimeText, VolumeSize};

/// Whether a name is there, which must be the one that was asked for.
pub(crate) fn asked_in(cfg: &Value, name: &str, asked: &PlainName) -> Result<bool, CfgError>
    ensures { Finds (λ named. asked_in asked.now (get name.now (view cfg.now)) ≡ Some named) result }
{
    let value = match cfg.get(name) {
        None => return Ok(false),
        Some(value) => value,
    };
    match value.as_str() {
        None => Err(CfgError::Syntax),
        Some(text) => {
            if text.as_bytes() == asked.as_bytes() {
                Ok(true)
            } else {
                Err(CfgError::Syntax)
            }
        }
    }
}

pub(crate) fn text_in(alloc: Global, cfg: &Value, name: &str) -> Result<Option<String>, CfgError>
    ensures { FindsAs (option_map string_bytes) (λ text. text_in (get name.now (view cfg.now)) ≡ Some text) result }
{
    let value = match cfg.get(name) {
        None => return Ok(None),
        Some(value) => value,
    };
    match value.as_str() {
        None => Err(CfgError::Syntax),
        Some(text) => Ok(Some(String::from_str(alloc, text)?)),
    }
}

pub(crate) fn created_in(alloc: Global, cfg: &Value) -> Result<TimeText, AllocError>
    ensures { IfOk result (IsTime (option_and_then as_str (get (codes "CreatedTime") (view cfg.now)))) }
{
    let text = match cfg.get("CreatedTime").and_then(Value::as_str) {
        None => "",
        Some(text) => text,
    };
    match TimeText::read(alloc, text)? {
        Some(time) => Ok(time),
        None => no_time(alloc),
    }
}

/// The empty text.
fn no_time(alloc: Global) -> Result<TimeText, AllocError>
    ensures { IfOk result (λ time. time ≡ codes "") }
{
    let time = TimeText::read(alloc, "")?;
    Ok(time.unwrap())
}

/// Whether the cfg does not say that blocks are stored as they are.
pub(crate) fn is_compressed(cfg: &Value) -> bool
    ensures { result ≡ is_compressed (option_and_then as_str (get (codes "CompressionMethod") (view cfg.now))) }
{
    match cfg.get("CompressionMethod").and_then(Value::as_str) {
        None => true,
        Some(text) => text != "none",
    }
}

/// The listed blocks, in the order of the text.
pub(crate) fn blocks_in(alloc: Global, cfg: &Value) -> Result<Vec<ListedBlock>, CfgError>
    ensures { FindsAs (λ v. v.items) (λ listed. blocks_in (get (codes "Blocks") (view cfg.now)) ≡ Some listed) result }
{
    let value = match cfg.get("Blocks") {
        None => return Ok(Vec::new(alloc)),
        Some(value) => value,
    };
    if value.is_null() {
        return Ok(Vec::new(alloc));
    }
    match value.as_array() {
        None => Err(CfgError::Syntax),
        Some(items) => blocks_of(alloc, items),
    }
}

fn blocks_of(alloc: Global, items: &[Value]) -> Result<Vec<ListedBlock>, CfgError>
    ensures { FindsAs (λ v. v.items) (λ listed. blocks_of (items_view items.now) ≡ Some listed) result }
{
    let mut listed = Vec::new(alloc);
    for item in items {
        match block_in(item) {
            None => return Err(CfgError::Syntax),
            Some(block) => listed.push(block)?,
        }
    }
    Ok(listed)
}

fn block_in(item: &Value) -> Option<ListedBlock>
    ensures { result ≡ block_in (view item.now) }
{
    let checksum = checksum_of_text(item.get("BlockChecksum").and_then(Value::as_str))?;
    let page = page_of_offset(item.get("Offset").and_then(Value::as_u64))?;
    Some(ListedBlock { page, checksum })
}

fn checksum_of_text(text: Option<&str>) -> Option<Checksum>
    ensures { result ≡ checksum_of_text (option_map (λ t. t.now) text.entry) }
{
    match text {
        None => None,
        Some(text) => Checksum::read(text.as_bytes()),
    }
}

fn page_of_offset(offset: Option<u64>) -> Option<u64>
    ensures { result ≡ page_of_offset offset }
{
    match offset {
        None => None,
        Some(offset) => {
            if offset % PAGE_LENGTH as u64 == 0 {
                Some(offset / PAGE_LENGTH as u64)
            } else {
                None
            }
        }
    }
}

/// The size of a backup's disk; where the member is missing, the one that was told elsewhere.
pub(crate) fn disk_size_in(cfg: &Value, told: Option<u64>) -> Result<Option<VolumeSize>, CfgError>
    ensures { Finds (HasDiskSize told (get (codes "DiskSize") (view cfg.now))) result }
{
    let value = match cfg.get("DiskSize") {
        None => return told_size(told),
        Some(value) => value,
    };
    match size_in_text(value.as_str()) {
        None => Err(CfgError::Syntax),
        Some(size) => Ok(Some(size)),
    }
}

fn told_size(told: Option<u64>) -> Result<Option<VolumeSize>, CfgError>
    ensures { Finds (IsToldSize told) result }
{
    match told {
        None => Ok(None),
        Some(bytes) => match VolumeSize::new(bytes) {
            Ok(size) => Ok(Some(size)),
            Err(_) => Err(CfgError::Syntax),
        },
    }
}

/// The size of a volume, as a number or as a text.
pub(crate) fn size_in(cfg: &Value) -> Result<Option<VolumeSize>, CfgError>
    ensures { Finds (HasSize (get (codes "Size") (view cfg.now))) result }
{
    let value = match cfg.get("Size") {
        None => return Ok(None),
        Some(value) => value,
    };
    match size_of(value) {
        None => Err(CfgError::Syntax),
        Some(size) => Ok(Some(size)),
    }
}

fn size_of(value: &Value) -> Option<VolumeSize>
    ensures { MatchOption result
        ((n : ℕ) → IsSize (decimal_of (view value.now)) n → ⊥)
        (IsSize (decimal_of (view value.now))) }
{
    match value.as_u64() {
        Some(bytes) => volume_size(bytes),
        None => size_in_text(value.as_str()),
    }
}

#[tactic(auto, using(crate::proofs::SizeLemmas::no_size))]
fn size_in_text(text: Option<&str>) -> Option<VolumeSize>
    ensures { MatchOption result
        ((n : ℕ) → IsSize (option_map (λ t. t.now) text.entry) n → ⊥)
        (IsSize (option_map (λ t. t.now) text.entry)) }
{
    let bytes = read_decimal(text?.as_bytes())?;
    volume_size(bytes)
}

#[tactic(auto, using(crate::proofs::SizeLemmas::no_size))]
fn volume_size(bytes: u64) -> Option<VolumeSize>
    ensures { MatchOption result
        ((n : ℕ) → IsSize (Some (decimal bytes)) n → ⊥)
        (IsSize (Some (decimal bytes))) }
{
    match VolumeSize::new(bytes) {
        Ok(size) => Some(size),
        Err(_) => None,
    }
}

/// Whether each block lies within the disk, where its size is known.
pub(crate) fn are_within(size: &Option<VolumeSize>, listed: &[ListedBlock]) -> bool
    ensures { result ≡ are_within size.now listed.now }
{
    match size {
        None => true,
        Some(size) => are_below(size.page_count() as u64, listed),
    }
}

fn are_below(count: u64, listed: &[ListedBlock]) -> bool
    ensures { result ≡ list_all (λ b. nat_lt b.page count) listed.now }
{
    listed.iter().all(|block| block.page < count)
}

/// The name of the last backup, where the member is a name.
pub(crate) fn last_in(cfg: &Value) -> Option<PlainName>
    ensures { IsLast (option_and_then as_str (get (codes "LastBackupName") (view cfg.now))) result }
{
    match cfg.get("LastBackupName").and_then(Value::as_str) {
        None => None,
        Some(text) => match PlainName::read(text.as_bytes()) {
            Ok(name) => Some(name),
            Err(_) => None,
        },
    }
}

/// Whether a backing image is named.
pub(crate) fn has_backing(cfg: &Value) -> bool
    ensures { result ≡ is_filled (option_and_then as_str (get (codes "BackingImageName") (view cfg.now))) }
{
    match cfg.get("BackingImageName").and_then(Value::as_str) {
        None => false,
        Some(text) => !text.is_empty(),
    }
}

/// The name of the last backup, or the empty text.
pub(crate) fn last_text(last: &Option<PlainName>) -> &str
    ensures text { result.now ≡ last_text last.now }
    ensures good { IsGoodLast last.now }
{
    match last {
        None => "",
        Some(name) => text_of(name),
    }
}

pub(crate) fn text_of(name: &PlainName) -> &str
    ensures text { result.now ≡ name.now }
    ensures good { IsPlainName name.now }
{
    let _ = name.as_bytes();
    name.as_str()
}
