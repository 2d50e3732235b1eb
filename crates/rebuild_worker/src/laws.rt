//! What follows from the definitions alone. Each law is a contract.

ghost use Rattle.std.specs.Prelude.{◌≡◌, ◌∷◌, []};
ghost use Rattle.rebuild_worker.specs.Frames.{source_request, source_reply, target_request, target_reply};

/// Worked rows of the frames: page 1 of the layer `low` goes with a text of three bytes, as its line's second exchange.
#[tactic(auto, unfolding(crate::specs::Frames::source_request, crate::specs::Frames::source_reply, crate::specs::Frames::target_request, crate::specs::Frames::target_reply))]
pub fn frames_are_spelled_so()
    ensures asks { source_request 2 (record { layer = 0x6c ∷ 0x6f ∷ 0x77 ∷ []; page = 1 })
        ≡ 0x01 ∷ 0x1b ∷ 2 ∷ 0 ∷ 0 ∷ 0 ∷ 0 ∷ 0 ∷ 0 ∷ 0 ∷ 0 ∷ 0 ∷ 0x20 ∷ 0 ∷ 0 ∷ 0 ∷ 0 ∷ 0
        ∷ 0 ∷ 0 ∷ 0x20 ∷ 0 ∷ 3 ∷ 0 ∷ 0 ∷ 0 ∷ 0x6c ∷ 0x6f ∷ 0x77 ∷ [] }
    ensures gives { source_reply 2 (record { layer = 0x6c ∷ 0x6f ∷ 0x77 ∷ []; page = 1 }) (7 ∷ 8 ∷ 9 ∷ [])
        ≡ 0x01 ∷ 0x1b ∷ 2 ∷ 0 ∷ 0 ∷ 0 ∷ 2 ∷ 0 ∷ 0 ∷ 0 ∷ 0 ∷ 0 ∷ 0x20 ∷ 0 ∷ 0 ∷ 0 ∷ 0 ∷ 0
        ∷ 3 ∷ 0 ∷ 0 ∷ 0 ∷ 3 ∷ 0 ∷ 0 ∷ 0 ∷ 7 ∷ 8 ∷ 9 ∷ [] }
    ensures sends { target_request 2 (record { layer = 0x6c ∷ 0x6f ∷ 0x77 ∷ []; page = 1 }) (7 ∷ 8 ∷ 9 ∷ [])
        ≡ 0x01 ∷ 0x1b ∷ 2 ∷ 0 ∷ 0 ∷ 0 ∷ 1 ∷ 0 ∷ 0 ∷ 0 ∷ 0 ∷ 0 ∷ 0x20 ∷ 0 ∷ 0 ∷ 0 ∷ 0 ∷ 0
        ∷ 3 ∷ 0 ∷ 0 ∷ 0 ∷ 3 ∷ 0 ∷ 0 ∷ 0 ∷ 7 ∷ 8 ∷ 9 ∷ [] }
    ensures has { target_reply 2 (record { layer = 0x6c ∷ 0x6f ∷ 0x77 ∷ []; page = 1 }) (7 ∷ 8 ∷ 9 ∷ [])
        ≡ 0x01 ∷ 0x1b ∷ 2 ∷ 0 ∷ 0 ∷ 0 ∷ 2 ∷ 0 ∷ 0 ∷ 0 ∷ 0 ∷ 0 ∷ 0x20 ∷ 0 ∷ 0 ∷ 0 ∷ 0 ∷ 0
        ∷ 3 ∷ 0 ∷ 0 ∷ 0 ∷ 0 ∷ 0 ∷ 0 ∷ 0 ∷ [] }
{}
