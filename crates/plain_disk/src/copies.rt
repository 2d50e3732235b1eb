ghost use Rattle.std.specs.Prelude.{◌≡◌};
ghost use Rattle.std.specs.Str.{bytes_eq};
ghost use Rattle.volume_model.specs.PlainState.{copy_of, without};

use std::marker::Model;
use volume_model::LayerName;

/// What the disk read as when the snapshot of the name was taken.
#[derive(Debug, Drop)]
pub(crate) struct WholeCopy {
    pub(crate) name: LayerName,
    pub(crate) bytes: Vec<u8>,
}

impl Model for WholeCopy {
    ghost use Rattle.volume_model.specs.PlainState.{Copy};

    ghost Value = { Copy };

    ghost view = { λ c. record { name = c.name; disk = c.bytes.items } };
}

impl WholeCopy {
    fn is_named(&self, name: &LayerName) -> bool
        ensures { result ≡ bytes_eq name.now self.now.name }
    {
        name.as_bytes() == self.name.as_bytes()
    }

    fn bytes(&self) -> &[u8]
        ensures { result.now ≡ self.now.disk }
    {
        &self.bytes
    }
}

/// The bytes that were copied under the name, and none where there is no such copy.
pub(crate) fn copied_bytes<'a>(copies: &'a [WholeCopy], name: &LayerName) -> &'a [u8]
    ensures { result.now ≡ copy_of copies.now name.now }
{
    for copy in copies {
        if copy.is_named(name) {
            return copy.bytes();
        }
    }
    &[]
}

pub(crate) fn drop_copies(copies: &mut Vec<WholeCopy>, name: &LayerName)
    ensures { copies.new.items ≡ without copies.old.items name.now }
{
    copies.retain(|copy| !copy.is_named(name));
}
