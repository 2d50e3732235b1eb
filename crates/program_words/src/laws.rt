//! What follows from the definitions alone. Each law is a contract.

ghost use Rattle.std.specs.Prelude.{◌≡◌, ◌↔◌, ◌<◌, ◌^◌, ℕ, true, List, Some, decimal};
ghost use Rattle.vol_units.specs.Name.{IsPlainName};
ghost use Rattle.vol_units.specs.Size.{IsVolumeSize};
ghost use Rattle.program_words.specs.Asked.{asked_by, is_plain_name, KeepsLimits};
ghost use Rattle.program_words.specs.Numbers.{is_size, number_of};
ghost use Rattle.program_words.specs.declared.words.Words.{Words};

/// The test for a name is the grammar of names that `vol_units` has.
pub fn the_test_for_a_name_is_its_grammar()
    ensures { (text : List ℕ) → is_plain_name text ≡ true ↔ IsPlainName text }
{}

/// The test for a size is the limits of sizes that `vol_units` has.
pub fn the_test_for_a_size_is_its_limits()
    ensures { (bytes : ℕ) → is_size bytes ≡ true ↔ IsVolumeSize bytes }
{}

/// A number below 2^64 is read of its decimal text, and of no other text.
pub fn a_number_is_read_of_its_decimal_text()
    ensures { (text : List ℕ) (number : ℕ)
        → (number_of text ≡ Some number) ↔ ((number < 2 ^ 64) × (text ≡ decimal number)) }
{}

/// What is asked for is within its limits.
pub fn what_is_asked_for_is_within_its_limits()
    ensures { (words : List (List ℕ)) (asked : Words)
        → asked_by words ≡ Some asked → KeepsLimits asked }
{}
