use crate::made::{plain, time};
use backup_config::{BackupCfg, BackupList, CfgError, CfgMember, VolumeCfg};
use std::test::Fail;
use vol_units::VolumeSize;

const BLANK: &str =
    r#"{"Blocks":[],"CompressionMethod":"none","CreatedTime":"","DiskSize":"2097152","Name":"b0","Size":"0","SnapshotName":"s","VolumeName":"abc"}"#;

const VOLUME: &str =
    r#"{"CompressionMethod":"none","CreatedTime":"","LastBackupName":"b0","Name":"abc","Size":"2097152"}"#;

#[test]
fn a_backup_of_zeros_has_this_cfg(rt: HostRuntime) -> Result<(), Fail> {
    let alloc = rt.alloc();
    let (volume, name) = (plain("abc")?, plain("b0")?);
    let blocks = vec![in alloc; None; 1]?;
    let cfg = BackupCfg {
        volume,
        name,
        created: time(alloc, "")?,
        list: BackupList::new(String::from_str(alloc, "s")?, blocks),
    };
    let text = cfg.write(alloc)?;
    assert_eq!(rt; str::from_utf8(&text)?, BLANK);
    let read = BackupCfg::read(alloc, &text, &volume, &name, None)?;
    assert_eq!(rt; (read.list.snapshot(), read.list.blocks().len()), ("s", 1));
    Ok(())
}

#[test]
fn a_volume_has_this_cfg(rt: HostRuntime) -> Result<(), Fail> {
    let alloc = rt.alloc();
    let cfg = VolumeCfg {
        name: plain("abc")?,
        created: time(alloc, "")?,
        last: Some(plain("b0")?),
        size: VolumeSize::new(2_097_152)?,
    };
    let text = cfg.write(alloc)?;
    assert_eq!(rt; str::from_utf8(&text)?, VOLUME);
    let read = VolumeCfg::read(alloc, &text, &plain("abc")?)?;
    assert_eq!(rt; (read.last, read.size), (cfg.last, cfg.size));
    Ok(())
}

#[test]
fn a_cfg_is_refused_by_what_is_wrong_first(rt: HostRuntime) -> Result<(), Fail> {
    let alloc = rt.alloc();
    for (old, new, wanted) in [
        (r#""none""#, r#""lz4""#, CfgError::Compressed),
        (r#""CompressionMethod""#, r#""Other""#, CfgError::Compressed),
        (
            r#""DiskSize""#,
            r#""Other""#,
            CfgError::Missing(CfgMember::DiskSize),
        ),
        (
            r#""Name""#,
            r#""Other""#,
            CfgError::Missing(CfgMember::Name),
        ),
        (
            r#""VolumeName""#,
            r#""Other""#,
            CfgError::Missing(CfgMember::VolumeName),
        ),
        (
            r#""SnapshotName""#,
            r#""Other""#,
            CfgError::Missing(CfgMember::SnapshotName),
        ),
        (r#""Name":"b0""#, r#""Name":"b1""#, CfgError::Syntax),
        (r#""2097152""#, "2097152", CfgError::Syntax),
        (r#""2097152""#, r#""2097153""#, CfgError::Syntax),
        ("[]", "[{}]", CfgError::Syntax),
        ("[]", "{}", CfgError::Syntax),
    ] {
        let text = BLANK.replace(alloc, old, new)?;
        let read = BackupCfg::read(alloc, text.as_bytes(), &plain("abc")?, &plain("b0")?, None);
        assert_eq!(rt; read.err(), Some(wanted), "at {new}");
    }
    Ok(())
}
