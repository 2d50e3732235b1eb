use chain_meta::{DiskMeta, VolumeMeta};
use image_maps::BlockSpan;

/// What makes a folder unclean.
#[derive(Clone, Copy, Debug, PartialEq, Eq)]
pub enum Flag {
    Dirty,
    Rebuilding,
    Error,
    /// It is of a volume of another size.
    Size,
}

/// A file that is damaged, and where.
#[derive(Debug, Drop)]
pub struct Damage {
    pub file: String,
    /// Where a map's first bad line begins, or how long an image is. Else it is 0.
    pub place: u64,
}

/// What is told of an image, and the runs of its blocks.
#[derive(Debug, Drop)]
pub struct ImageParts {
    pub meta: DiskMeta,
    pub spans: Vec<BlockSpan>,
}

/// What was found of an image.
#[derive(Debug, Drop)]
pub(crate) enum ImageCheck {
    Good(ImageParts),
    Bad(Damage),
}

/// What there is of a folder whose files are good, each by itself.
#[derive(Debug, Drop)]
pub struct FolderParts {
    pub volume: VolumeMeta,
    pub head: ImageParts,
    /// The names of the snapshots in byte order.
    pub names: Vec<String>,
    /// The parts of each snapshot, in the same order.
    pub snapshots: Vec<ImageParts>,
}

/// What is found of a folder, where each of its files is looked at by itself.
#[derive(Debug, Drop)]
pub enum FolderCheck {
    Unclean(Flag),
    Damaged(Damage),
    Whole(FolderParts),
}
