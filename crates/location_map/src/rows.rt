//! A worked row of the definitions, computed by the checker.

ghost use Rattle.std.specs.Prelude.{◌≡◌, ◌∷◌, [], map};
ghost use Rattle.location_map.specs.LocationMap.{index_without};

/// Five blocks, once layer 2 went.
pub fn layers_above_the_one_that_went_move_down()
    ensures { map (index_without 2) (1 ∷ 2 ∷ 4 ∷ 3 ∷ 0 ∷ []) ≡ 1 ∷ 0 ∷ 3 ∷ 2 ∷ 0 ∷ [] }
{}
