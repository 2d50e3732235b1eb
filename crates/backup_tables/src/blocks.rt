use crate::copies::disk_of;
use crate::made::plain;
use backup_units::{Checksum, block_name};
use block_store::{GetError, Put, get_block, put_block};
use std::test::Fail;
use target_memory::NoFaultTarget;

#[test]
fn a_block_is_put_once_and_got_back(rt: HostRuntime) -> Result<(), Fail> {
    let (alloc, volume) = (rt.alloc(), plain("v")?);
    let mut target = NoFaultTarget::new(alloc);
    let page = disk_of(alloc, &[0x61])?;
    let checksum = Checksum::of(&page);
    assert_eq!(rt;
        checksum.as_str(),
        "4a9f57490812dc05ac2f1db013433a0a7fc5341777cc237c4e00a13ffc5d449a"
    );
    assert_eq!(rt;
        get_block(alloc, &mut target, &volume, &checksum).err(),
        Some(GetError::Missing)
    );
    assert_eq!(rt;
        put_block(alloc, &mut target, &volume, &page)?,
        Put::Stored(checksum)
    );
    assert_eq!(rt;
        put_block(alloc, &mut target, &volume, &page)?,
        Put::Same(checksum)
    );
    let got = get_block(alloc, &mut target, &volume, &checksum)?;
    assert!(rt; got.as_slice() == page.as_slice());
    Ok(())
}

#[test]
fn a_damaged_block_is_refused_and_put_anew(rt: HostRuntime) -> Result<(), Fail> {
    let (alloc, volume) = (rt.alloc(), plain("v")?);
    let mut target = NoFaultTarget::new(alloc);
    let page = disk_of(alloc, &[0x61])?;
    let checksum = Checksum::of(&page);
    let name = block_name(alloc, &volume, &checksum)?;
    let mut longer = page.clone()?;
    longer.push(0)?;
    let other = disk_of(alloc, &[0x62])?;
    for held in [
        &page.as_slice()[1..],
        longer.as_slice(),
        other.as_slice(),
        &[],
    ] {
        target.hold(&name, held)?;
        let got = get_block(alloc, &mut target, &volume, &checksum);
        assert_eq!(rt; got.err(), Some(GetError::Damaged), "at {}", held.len());
        assert_eq!(rt;
            put_block(alloc, &mut target, &volume, &page)?,
            Put::Stored(checksum)
        );
        assert!(rt;
            target.held(&name) == Some(page.as_slice()),
            "at {}",
            held.len()
        );
    }
    Ok(())
}
