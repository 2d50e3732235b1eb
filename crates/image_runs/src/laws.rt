//! What follows from the definitions alone. Each law is a contract.

ghost use Rattle.std.specs.Prelude.{◌≡◌, ◌<◌, ◌^◌, ◌∷◌, [], List, ℕ, All, length, codes};
ghost use Rattle.image_runs.specs.Runs.{ByteRun, runs, runs_text, run_bytes, NeighboursDiffer};

/// Two lists of bytes with one text are equal.
pub fn runs_tell_the_bytes()
    ensures { (xs ys : List ℕ) → All (λ b. b < 256) xs → All (λ b. b < 256) ys
        → length xs < 2 ^ 64 → length ys < 2 ^ 64 → runs_text xs ≡ runs_text ys → xs ≡ ys }
{}

/// The runs are the bytes, none is empty, and no two neighbours could be one.
pub fn runs_are_as_long_as_can_be()
    ensures spelled { (bytes : List ℕ) → run_bytes (runs bytes) ≡ bytes }
    ensures filled { (bytes : List ℕ) → All (λ (r : ByteRun). 0 < r.count) (runs bytes) }
    ensures apart { (bytes : List ℕ) → NeighboursDiffer (runs bytes) }
{}

/// Worked rows.
pub fn the_text_reads()
    ensures runs { runs_text (97 ∷ 97 ∷ 0 ∷ []) ≡ codes "61*2,00*1" }
    ensures no_bytes { runs_text [] ≡ codes "-" }
    ensures digits { runs_text (10 ∷ 171 ∷ 255 ∷ []) ≡ codes "0a*1,ab*1,ff*1" }
    ensures again { runs_text (0 ∷ 1 ∷ 1 ∷ 0 ∷ []) ≡ codes "00*1,01*2,00*1" }
{}
