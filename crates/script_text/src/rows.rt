//! Worked rows of the generated script, computed by the checker.

ghost use Rattle.std.specs.Prelude.{◌≡◌, ◌∷◌, [], map, replicate};
ghost use Rattle.frame_wire.specs.Spelling.{header};
ghost use Rattle.script_text.specs.Generated.{next_state, drawn_in, drawn_behind, state_behind, write_frame, frames_of, control_commands, generated};
ghost use Rattle.script_text.specs.declared.script.Stream.TheVariants as stream;

/// What is drawn behind the state 0: the first two draws, and the numbers of the first two frames.
pub fn these_numbers_are_drawn()
    ensures first { drawn_in (next_state 0) ≡ 167951807 }
    ensures second { drawn_in (next_state (next_state 0)) ≡ 218396424 }
    ensures frame { drawn_behind 0
        ≡ record { choice = 3; offset = 718600; size = 3090; byte = 116 } }
    ensures next { drawn_behind (state_behind 0)
        ≡ record { choice = 1; offset = 929691; size = 2489; byte = 199 } }
{}

/// The script of the number 0, of one stream of one call: a write of 3,090 bytes at 718,600.
pub fn a_small_script_is_generated()
    ensures streams { (generated 0 1 1).streams ≡ stream.Frames (write_frame 1 718600 3090 116 ∷ [])
        ∷ stream.Control control_commands ∷ [] }
    ensures header { map (λ f. header f.head) (frames_of 0 1 0)
        ≡ (0x01 ∷ 0x1b ∷ 1 ∷ 0 ∷ 0 ∷ 0 ∷ 1 ∷ 0 ∷ 0 ∷ 0 ∷ 0x08 ∷ 0xf7 ∷ 0x0a ∷ 0 ∷ 0 ∷ 0 ∷ 0 ∷ 0
        ∷ 0x12 ∷ 0x0c ∷ 0 ∷ 0 ∷ 0x12 ∷ 0x0c ∷ 0 ∷ 0 ∷ []) ∷ [] }
    ensures body { map (λ f. f.body) (frames_of 0 1 0) ≡ replicate 3090 116 ∷ [] }
{}
