use crate::made::plain;
use backup_units::{Checksum, block_name, cfg_name, cfg_prefix, is_zeros, volume_name};
use std::test::Fail;

/// Each character that the name of a volume may have but one.
const LONGEST: &str = "abcdefghijklmnopqrstuvwxyzABCDEFGHIJKLMNOPQRSTUVWXYZ0123456789._";

#[test]
fn objects_lie_in_the_folder_of_their_volume(rt: HostRuntime) -> Result<(), Fail> {
    let alloc = rt.alloc();
    for (volume, folder) in [
        ("abc", "backupstore/volumes/dd/af/abc/"),
        ("0-", "backupstore/volumes/c9/2e/0-/"),
        (
            LONGEST,
            "backupstore/volumes/73/29/abcdefghijklmnopqrstuvwxyzABCDEFGHIJKLMNOPQRSTUVWXYZ0123456789._/",
        ),
    ] {
        let name = plain(volume)?;
        let of_volume = volume_name(alloc, &name)?;
        assert_eq!(rt;
            of_volume.as_str(),
            format!(in alloc; "{folder}volume.cfg")?.as_str()
        );
        let prefix = cfg_prefix(alloc, &name)?;
        assert_eq!(rt;
            prefix.as_str(),
            format!(in alloc; "{folder}backups/backup_")?.as_str()
        );
        let cfg = cfg_name(alloc, &name, &name)?;
        let wanted = format!(in alloc; "{folder}backups/backup_{volume}.cfg")?;
        assert_eq!(rt; cfg.as_str(), wanted.as_str());
    }
    Ok(())
}

#[test]
fn a_block_lies_under_its_checksum(rt: HostRuntime) -> Result<(), Fail> {
    let digits = "ddaf35a193617abacc417349ae20413112e6fa4e89a97ea20a9eeee64b55d39a";
    let checksum = Checksum::of(b"abc");
    assert_eq!(rt; checksum.as_str(), digits);
    assert_eq!(rt; Checksum::read(digits.as_bytes()), Some(checksum));
    assert_eq!(rt; Checksum::read(&digits.as_bytes()[1..]), None);
    assert_eq!(rt;
        Checksum::read(digits.to_ascii_uppercase(rt.alloc())?.as_bytes()),
        None
    );
    let name = block_name(rt.alloc(), &plain("abc")?, &checksum)?;
    let wanted = "backupstore/volumes/dd/af/abc/blocks/dd/af/\
        ddaf35a193617abacc417349ae20413112e6fa4e89a97ea20a9eeee64b55d39a.blk";
    assert_eq!(rt; name.as_str(), wanted);
    Ok(())
}

#[test]
fn a_page_is_zeros_only_where_each_byte_is(rt: HostRuntime) {
    assert!(rt; is_zeros(&[0; 5]));
    assert!(rt; is_zeros(&[]));
    assert!(rt; !is_zeros(&[0, 0, 0, 0, 1]));
    assert!(rt; !is_zeros(&[1, 0, 0, 0, 0]));
}
