//! What follows from the definitions alone. Each law is a contract.

ghost use Rattle.std.specs.Prelude.{◌≡◌, ◌<◌, ◌^◌, ◌∷◌, [], List, ℕ, codes};
ghost use Rattle.image_maps.specs.Maps.{IsMap, IsBadAt, map_text};
ghost use Rattle.image_maps.specs.Reading.{BeginsMap, IsBadFrom};
ghost use Rattle.image_maps.specs.declared.span.BlockSpan.{BlockSpan};

/// A text is one map or none, and one that is none is bad at one place.
pub fn a_text_is_one_map()
    ensures one { (text : List ℕ) (blocks : ℕ) (a b : List BlockSpan) → blocks < 2 ^ 32
        → IsMap text blocks a → IsMap text blocks b → a ≡ b }
    ensures none { (text : List ℕ) (blocks place : ℕ) (a : List BlockSpan) → blocks < 2 ^ 32
        → IsMap text blocks a → IsBadAt text blocks place → ⊥ }
    ensures place { (text : List ℕ) (blocks p q : ℕ) → blocks < 2 ^ 32
        → IsBadAt text blocks p → IsBadAt text blocks q → p ≡ q }
{}

/// No text that may begin a map is refused, whatever its place.
pub fn what_begins_a_map_is_not_refused()
    ensures { (text : List ℕ) (blocks place : ℕ) → blocks < 2 ^ 32
        → BeginsMap text blocks → IsBadFrom text blocks place → ⊥ }
{}

/// A worked row: blocks 0, 1, 2 and 5.
pub fn a_map_reads()
    ensures { map_text ((record { first = 0; count = 3 }) ∷ (record { first = 5; count = 1 }) ∷ [])
        ≡ codes "0 3\n5 1\n" }
{}
