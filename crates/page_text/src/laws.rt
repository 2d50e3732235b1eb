//! What follows from the definitions alone. Each law is a contract.

ghost use Rattle.std.specs.Prelude.{◌≡◌, ℕ, ◌<◌, List, length};
ghost use Rattle.sparse_image.specs.declared.block.TheConstants.{PAGE_BLOCKS};
ghost use Rattle.sparse_image.specs.Image.{Table, place_at};
ghost use Rattle.sparse_image.specs.Whole.{IsTable};
ghost use Rattle.page_text.specs.Text.{page_text};

/// A text is of one name and of one page: the same blocks are there, with the same bytes.
pub fn a_text_is_of_one_page()
    ensures { (m n : List ℕ) (s t : Table) → IsTable s → IsTable t → page_text m s ≡ page_text n t
        → (m ≡ n) × ((i : ℕ) → i < PAGE_BLOCKS → place_at s i ≡ place_at t i) }
{}
