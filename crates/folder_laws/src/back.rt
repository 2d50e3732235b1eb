//! What was saved is opened. The law is a contract.

ghost use Rattle.std.specs.Prelude.{length, false};
ghost use Rattle.folder_names.specs.Files.{Folder};
ghost use Rattle.folder_layers.specs.Folders.{HasEarlierNames};
ghost use Rattle.replica_shelf.specs.Folder.{Stamps, IsFolderOf};
ghost use Rattle.replica_open.specs.Opening.{AnswersOpen, IsKnownOpened};
ghost use Rattle.folder_laws.specs.Back.{IsBack};

use crate::laws::one_folder_is_one_replica;
use crate::opens::a_replica_is_not_refused;
use replica_node::ReplicaNode;
use replica_open::Opened;

/// What `save` wrote of a replica that is not in ERR, `open` gives back, where the engine's own names are of earlier heads.
/// The premises are what these two calls tell of the folder, and of the answer.
pub fn what_was_saved_is_opened(saved: &ReplicaNode, opened: &Opened)
    ensures { (folder : Folder) (stamps : Stamps) → IsFolderOf folder stamps false saved.now → HasEarlierNames saved.now
        → AnswersOpen folder (length saved.now.disk) opened.now → IsKnownOpened (length saved.now.disk) opened.now
        → IsBack stamps saved.now opened.now }
{
    match opened {
        Opened::Clean(node, _) => one_folder_is_one_replica(saved, node),
        Opened::Unclean(_) => a_replica_is_not_refused(saved),
        Opened::Damaged(_) => a_replica_is_not_refused(saved),
    }
}
