use volume_backup::LayerName;

/// What a backup reads.
#[derive(Clone, Copy, Debug, PartialEq, Eq)]
pub enum BackupStep {
    /// A replica gives a page of a snapshot's copy, to nobody.
    SnapPage {
        replica: u8,
        name: LayerName,
        page: u32,
    },
}
