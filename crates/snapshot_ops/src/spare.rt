ghost use Rattle.std.specs.Prelude.{◌≡◌, ◌*◌, length, IfOk};
ghost use Rattle.sparse_image.specs.Image.{IsEmpty};

use sparse_image::Image;
use std::alloc::{AllocError, Global};
use std::marker::Model;

/// An image without blocks: the head that follows a snapshot or a revert, made before either begins.
#[derive(Drop)]
pub struct Spare {
    image: Image,
}

impl Model for Spare {
    ghost use Rattle.std.specs.Prelude.{length};
    ghost use Rattle.sparse_image.specs.Image.{Tables, IsEmpty};

    ghost Value = { Tables };

    ghost view = { λ s. s.image };

    ghost invariant = { λ s. IsEmpty s.image (length s.image) };
}

impl Spare {
    pub fn new(alloc: Global, page_count: u32) -> Result<Spare, AllocError>
        ensures { IfOk result (λ s. IsEmpty s page_count) }
    {
        Ok(Spare {
            image: Image::with_pages(alloc, page_count)?,
        })
    }

    pub fn into_image(self) -> Image
        ensures value { result ≡ self }
        ensures empty { IsEmpty result (length result) }
    {
        self.image
    }
}
