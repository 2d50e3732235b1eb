ghost use Rattle.std.specs.Prelude.{◌≡◌, ◌≢◌, ◌≤◌, true, List, ℕ, Some, length, is_some, IfOk, OnOk};
ghost use Rattle.vol_units.specs.Name.{IsNameOfLayer};
ghost use Rattle.backup_units.specs.Names.{cfg_name};
ghost use Rattle.outer_traits.specs.Causes.{HasOuterCause};
ghost use Rattle.backup_make.specs.Made.{HasCfgs, OnlyCfgs, volume_cfg_of};

use backup_config::{BackupCfg, VolumeCfg};
use backup_units::{cfg_name, volume_name};
use std::alloc::{AllocError, Global};
use target_traits::{Outer, Target};
use vol_units::{LayerName, PlainName, TimeText, VolumeSize};

/// Whether the target has the cfg of that backup.
pub fn has_cfg<T: Target>(
    alloc: Global,
    target: &mut T,
    volume: &PlainName,
    backup: &PlainName,
) -> Outer<bool>
    ensures there { T.tells ≡ true → IfOk result
        (λ there. there ≡ is_some (T.holds target.old (cfg_name volume.now backup.now))) }
    ensures same { T.holds target.new ≡ T.holds target.old }
    ensures cause { HasOuterCause (T.faults target.old) (T.faults target.new) result }
{
    let name = cfg_name(alloc, volume, backup)?;
    is_there(target, &name)
}

/// Whether there is an object of that name: no byte of it is asked for.
fn is_there<T: Target>(target: &mut T, name: &str) -> Outer<bool>
    ensures there { T.tells ≡ true → IfOk result (λ there. there ≡ is_some (T.holds target.old name.now)) }
    ensures same { T.holds target.new ≡ T.holds target.old }
    ensures cause { HasOuterCause (T.faults target.old) (T.faults target.new) result }
{
    let found = target.get(name, 0)?;
    Ok(found.is_some())
}

/// Puts both cfgs, that of the backup last. The texts are made first, so that want of memory for them changes nothing.
pub(crate) fn put_cfgs<T: Target>(
    alloc: Global,
    target: &mut T,
    cfg: &BackupCfg,
    size: VolumeSize,
) -> Outer<()>
    requires short { length cfg.now.list.snapshot ≤ 64 }
    ensures ok { T.tells ≡ true → OnOk result (HasCfgs (T.holds target.new) cfg.now size) }
    ensures others { OnlyCfgs cfg.now.volume cfg.now.name (T.holds target.old) (T.holds target.new) }
    ensures cause { HasOuterCause (T.faults target.old) (T.faults target.new) result }
{
    let volume_cfg = volume_cfg_of(alloc, cfg, size)?;
    let volume_text = volume_cfg.write(alloc)?;
    let text = cfg.write(alloc)?;
    let first = volume_name(alloc, &cfg.volume)?;
    let last = cfg_name(alloc, &cfg.volume, &cfg.name)?;
    put_both(target, &first, &volume_text, &last, &text)
}

/// What the cfg of the volume says once that backup was made.
fn volume_cfg_of(alloc: Global, cfg: &BackupCfg, size: VolumeSize) -> Result<VolumeCfg, AllocError>
    ensures { IfOk result (λ made. made ≡ volume_cfg_of cfg.now size) }
{
    Ok(VolumeCfg {
        name: cfg.volume,
        created: same_time(alloc, &cfg.created)?,
        last: Some(cfg.name),
        size,
    })
}

/// Puts two objects, one after the other.
fn put_both<T: Target>(
    target: &mut T,
    first: &str,
    first_bytes: &[u8],
    last: &str,
    last_bytes: &[u8],
) -> Outer<()>
    requires { first.now ≢ last.now }
    ensures first { T.tells ≡ true → OnOk result (T.holds target.new first.now ≡ Some first_bytes.now) }
    ensures last { T.tells ≡ true → OnOk result (T.holds target.new last.now ≡ Some last_bytes.now) }
    ensures others { (other : List ℕ) → other ≢ last.now → other ≢ first.now
        → T.holds target.new other ≡ T.holds target.old other }
    ensures cause { HasOuterCause (T.faults target.old) (T.faults target.new) result }
{
    target.put(first, first_bytes)?;
    target.put(last, last_bytes)
}

/// The name of a layer as a text.
pub(crate) fn text_of(name: &LayerName) -> &str
    ensures text { result.now ≡ name.now }
    ensures name { IsNameOfLayer name.now }
{
    let _ = name.as_bytes();
    name.as_str()
}

/// A text of time once more.
pub(crate) fn same_time(alloc: Global, time: &TimeText) -> Result<TimeText, AllocError>
    ensures { IfOk result (λ copy. copy ≡ time.now) }
{
    let copy = TimeText::read(alloc, time.as_str())?;
    Ok(copy.unwrap())
}
