//! A folder that says Dirty is unclean. The law is a contract.

ghost use Rattle.std.specs.Prelude.{◌≡◌, ℕ, true};
ghost use Rattle.chain_meta.specs.declared.volume_meta.VolumeMeta.{VolumeMeta};
ghost use Rattle.folder_names.specs.Files.{Folder};
ghost use Rattle.folder_checks.specs.declared.parts.Flag.TheVariants.{Dirty};
ghost use Rattle.replica_shelf.specs.Folder.{IsVolumeOf};
ghost use Rattle.replica_open.specs.Opening.{AnswersOpen};
ghost use Rattle.replica_open.specs.declared.opening.Opened.{Opened};
ghost use Rattle.replica_open.specs.declared.opening.Opened.TheVariants.{Unclean};

/// Of a folder whose metadata says Dirty one answer of `open` alone is true, whatever else the folder has: that it is
/// unclean by Dirty. So it is where a save failed at another file than that metadata.
pub fn a_dirty_folder_is_unclean()
    ensures { (folder : Folder) (size : ℕ) (volume : VolumeMeta) (opened : Opened) → IsVolumeOf folder volume
        → volume.dirty ≡ true → AnswersOpen folder size opened → opened ≡ Unclean Dirty }
{}
