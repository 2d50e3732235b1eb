use crate::told::same;
use chain_meta::{DiskMeta, MetaError, MetaMember, VolumeMeta};

/// Texts that tell nothing of a layer, and why.
const LAYERS: [(&str, MetaError); 10] = [
    ("{}", MetaError::Missing(MetaMember::Name)),
    ("[]", MetaError::Syntax),
    ("{", MetaError::Syntax),
    ("{\"Labels\":7}", MetaError::Syntax),
    ("{\"Name\":\"volume-head-0000.img\"}", MetaError::Syntax),
    (
        "{\"Name\":\"volume-snap-a.img\",\"UserCreated\":null}",
        MetaError::Syntax,
    ),
    (
        "{\"Name\":\"volume-snap-a.img\",\"BackingFilePath\":\"b\"}",
        MetaError::Missing(MetaMember::Parent),
    ),
    (
        "{\"Name\":\"volume-snap-a.img\",\"Parent\":\"\"}",
        MetaError::Missing(MetaMember::Removed),
    ),
    (
        "{\"Name\":\"volume-snap-a.img\",\"Parent\":\"b\"}",
        MetaError::Syntax,
    ),
    (
        "{\"Name\":\"volume-snap-a.img\",\"Parent\":\"\",\"Removed\":true,\"BackingFileName\":\"b\"}",
        MetaError::Backing,
    ),
];

#[test]
fn a_layer_is_refused_for_the_first_reason(rt: HostRuntime) {
    for (row, (text, error)) in LAYERS.iter().enumerate() {
        let told = DiskMeta::read(rt.alloc(), text.as_bytes()).err();
        same(&rt, row, &told, &Some(*error));
    }
}

/// Texts that tell nothing of a volume, and why.
const VOLUMES: [(&str, MetaError); 8] = [
    ("{}", MetaError::Missing(MetaMember::Dirty)),
    ("{\"Dirty\":1}", MetaError::Syntax),
    (
        "{\"Dirty\":true}",
        MetaError::Missing(MetaMember::Rebuilding),
    ),
    (
        "{\"Dirty\":true,\"Rebuilding\":true,\"Error\":null}",
        MetaError::Syntax,
    ),
    (
        "{\"Dirty\":true,\"Rebuilding\":true,\"Head\":\"volume-snap-a.img\"}",
        MetaError::Syntax,
    ),
    (
        "{\"Dirty\":true,\"Rebuilding\":true,\"Head\":\"volume-head-1000000.img\"}",
        MetaError::Syntax,
    ),
    (
        "{\"Dirty\":true,\"Rebuilding\":true,\"Head\":\"volume-head-999999.img\",\"Parent\":\"\"}",
        MetaError::Missing(MetaMember::Size),
    ),
    ("{\"Size\":\"02097152\"}", MetaError::Syntax),
];

#[test]
fn a_volume_is_refused_for_the_first_reason(rt: HostRuntime) {
    for (row, (text, error)) in VOLUMES.iter().enumerate() {
        let told = VolumeMeta::read(rt.alloc(), text.as_bytes()).err();
        same(&rt, row, &told, &Some(*error));
    }
}
