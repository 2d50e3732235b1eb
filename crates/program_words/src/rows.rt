//! Worked rows of command lines, computed by the checker.
#![tactic(auto, unfolding(crate::proofs::OnLiterals::words_on_literals))]

ghost use Rattle.std.specs.Prelude.{◌≡◌, [], ◌∷◌, Some, None, codes, replicate};
ghost use Rattle.program_words.specs.Asked.{asked_by};
ghost use Rattle.program_words.specs.declared.words.Words.TheVariants.{Run, Restore, Backups, Replica, Generate, Serve};
ghost use Rattle.program_words.specs.declared.words.Workers.TheVariants.{One, Each};

/// The ways to ask for a run.
pub fn a_run_is_asked_for()
    ensures alone { asked_by (codes "run" ∷ []) ≡ Some (Run Each) }
    ensures one { asked_by (codes "run" ∷ codes "--workers" ∷ codes "one" ∷ []) ≡ Some (Run One) }
    ensures each_joined { asked_by (codes "run" ∷ codes "--workers=each" ∷ []) ≡ Some (Run Each) }
    ensures dashes_last { asked_by (codes "run" ∷ codes "--workers=one" ∷ codes "--" ∷ []) ≡ Some (Run One) }
{}

/// Words that `clap` does not take.
pub fn other_words_are_refused()
    ensures no_word { asked_by [] ≡ None }
    ensures another { asked_by (codes "frob" ∷ []) ≡ None }
    ensures dashes_first { asked_by (codes "--" ∷ codes "run" ∷ []) ≡ None }
    ensures option_first { asked_by (codes "--workers" ∷ codes "one" ∷ codes "run" ∷ []) ≡ None }
    ensures a_word_more { asked_by (codes "run" ∷ codes "--" ∷ codes "one" ∷ []) ≡ None }
    ensures another_option { asked_by (codes "run" ∷ codes "-w" ∷ codes "one" ∷ []) ≡ None }
    ensures twice { asked_by (codes "run" ∷ codes "--workers=one" ∷ codes "--workers=one" ∷ []) ≡ None }
    ensures help { asked_by (codes "help" ∷ []) ≡ None }
    ensures help_of_run { asked_by (codes "run" ∷ codes "--help" ∷ []) ≡ None }
{}

/// Values that `--workers` has not.
pub fn workers_are_one_or_each()
    ensures none { asked_by (codes "run" ∷ codes "--workers" ∷ []) ≡ None }
    ensures empty { asked_by (codes "run" ∷ codes "--workers=" ∷ []) ≡ None }
    ensures another { asked_by (codes "run" ∷ codes "--workers=two" ∷ []) ≡ None }
    ensures capitals { asked_by (codes "run" ∷ codes "--workers" ∷ codes "ONE" ∷ []) ≡ None }
{}

/// The ways to ask for the disk of a backup.
pub fn a_backup_is_asked_for()
    ensures names { asked_by (codes "restore" ∷ codes "b1" ∷ codes "v" ∷ [])
        ≡ Some (Restore (codes "b1") (codes "v")) }
    ensures dashes_first { asked_by (codes "restore" ∷ codes "--" ∷ codes "b1" ∷ codes "v" ∷ [])
        ≡ Some (Restore (codes "b1") (codes "v")) }
    ensures dashes_between { asked_by (codes "restore" ∷ codes "b1" ∷ codes "--" ∷ codes "v" ∷ [])
        ≡ Some (Restore (codes "b1") (codes "v")) }
    ensures dashes_last { asked_by (codes "restore" ∷ codes "b1" ∷ codes "v" ∷ codes "--" ∷ [])
        ≡ Some (Restore (codes "b1") (codes "v")) }
    ensures names_that_are_words { asked_by (codes "restore" ∷ codes "run" ∷ codes "help" ∷ [])
        ≡ Some (Restore (codes "run") (codes "help")) }
    ensures marks_in_names { asked_by (codes "restore" ∷ codes "2026-10-16_daily.v1" ∷ codes "v" ∷ [])
        ≡ Some (Restore (codes "2026-10-16_daily.v1") (codes "v")) }
    ensures longest_name { asked_by (codes "restore" ∷ codes "b1" ∷ replicate 64 97 ∷ [])
        ≡ Some (Restore (codes "b1") (replicate 64 97)) }
{}

/// The ways to ask for the backups of a volume.
pub fn a_list_is_asked_for()
    ensures name { asked_by (codes "backups" ∷ codes "v" ∷ []) ≡ Some (Backups (codes "v")) }
    ensures dashes_first { asked_by (codes "backups" ∷ codes "--" ∷ codes "v" ∷ [])
        ≡ Some (Backups (codes "v")) }
    ensures dashes_last { asked_by (codes "backups" ∷ codes "v" ∷ codes "--" ∷ [])
        ≡ Some (Backups (codes "v")) }
    ensures longest_name { asked_by (codes "backups" ∷ replicate 64 97 ∷ [])
        ≡ Some (Backups (replicate 64 97)) }
{}

/// `restore` has a backup and a volume, and nothing else.
pub fn restore_has_two_names()
    ensures none { asked_by (codes "restore" ∷ []) ≡ None }
    ensures one { asked_by (codes "restore" ∷ codes "b1" ∷ []) ≡ None }
    ensures one_behind_dashes { asked_by (codes "restore" ∷ codes "--" ∷ codes "b1" ∷ []) ≡ None }
    ensures three { asked_by (codes "restore" ∷ codes "b1" ∷ codes "v" ∷ codes "w" ∷ []) ≡ None }
    ensures three_behind_dashes { asked_by (codes "restore" ∷ codes "--" ∷ codes "b1" ∷ codes "v" ∷ codes "w" ∷ [])
        ≡ None }
    ensures twice { asked_by (codes "restore" ∷ codes "b1" ∷ codes "v" ∷ codes "restore" ∷ codes "b1" ∷ codes "v" ∷ [])
        ≡ None }
    ensures dashes_before_the_word { asked_by (codes "--" ∷ codes "restore" ∷ codes "b1" ∷ codes "v" ∷ [])
        ≡ None }
    ensures another_word { asked_by (codes "restores" ∷ codes "b1" ∷ codes "v" ∷ []) ≡ None }
    ensures capitals { asked_by (codes "RESTORE" ∷ codes "b1" ∷ codes "v" ∷ []) ≡ None }
{}

/// `backups` has a volume, and nothing else.
pub fn backups_has_one_name()
    ensures none { asked_by (codes "backups" ∷ []) ≡ None }
    ensures none_behind_dashes { asked_by (codes "backups" ∷ codes "--" ∷ []) ≡ None }
    ensures two { asked_by (codes "backups" ∷ codes "v" ∷ codes "w" ∷ []) ≡ None }
    ensures twice { asked_by (codes "backups" ∷ codes "v" ∷ codes "backups" ∷ codes "v" ∷ [])
        ≡ None }
    ensures shorter_word { asked_by (codes "backup" ∷ codes "v" ∷ []) ≡ None }
{}

/// Neither has an option, and help is none.
pub fn names_have_no_options()
    ensures long { asked_by (codes "restore" ∷ codes "--backup" ∷ codes "b1" ∷ codes "v" ∷ [])
        ≡ None }
    ensures joined { asked_by (codes "restore" ∷ codes "--backup=b1" ∷ codes "v" ∷ []) ≡ None }
    ensures option_of_run { asked_by (codes "restore" ∷ codes "--workers" ∷ codes "one" ∷ codes "b1" ∷ codes "v" ∷ [])
        ≡ None }
    ensures short { asked_by (codes "backups" ∷ codes "-v" ∷ codes "v" ∷ []) ≡ None }
    ensures help { asked_by (codes "restore" ∷ codes "--help" ∷ []) ≡ None }
    ensures short_help { asked_by (codes "restore" ∷ codes "-h" ∷ []) ≡ None }
    ensures help_behind { asked_by (codes "restore" ∷ codes "b1" ∷ codes "v" ∷ codes "--help" ∷ [])
        ≡ None }
    ensures help_of_list { asked_by (codes "backups" ∷ codes "--help" ∷ []) ≡ None }
    ensures help_first { asked_by (codes "help" ∷ codes "restore" ∷ []) ≡ None }
{}

/// What is no name of a backup or a volume.
pub fn other_names_are_refused()
    ensures empty { asked_by (codes "restore" ∷ codes "" ∷ codes "v" ∷ []) ≡ None }
    ensures empty_volume { asked_by (codes "restore" ∷ codes "b1" ∷ codes "" ∷ []) ≡ None }
    ensures too_long { asked_by (codes "restore" ∷ replicate 65 97 ∷ codes "v" ∷ []) ≡ None }
    ensures dash_first { asked_by (codes "restore" ∷ codes "-b1" ∷ codes "v" ∷ []) ≡ None }
    ensures dash_behind_dashes { asked_by (codes "restore" ∷ codes "--" ∷ codes "-b1" ∷ codes "v" ∷ [])
        ≡ None }
    ensures dashes_twice { asked_by (codes "restore" ∷ codes "--" ∷ codes "b1" ∷ codes "--" ∷ [])
        ≡ None }
    ensures dot_first { asked_by (codes "restore" ∷ codes "b1" ∷ codes ".v" ∷ []) ≡ None }
    ensures underscore_first { asked_by (codes "restore" ∷ codes "_b1" ∷ codes "v" ∷ []) ≡ None }
    ensures slash { asked_by (codes "restore" ∷ codes "b1" ∷ codes "a/v" ∷ []) ≡ None }
    ensures blank { asked_by (codes "restore" ∷ codes "b 1" ∷ codes "v" ∷ []) ≡ None }
    ensures empty_of_list { asked_by (codes "backups" ∷ codes "" ∷ []) ≡ None }
    ensures too_long_of_list { asked_by (codes "backups" ∷ replicate 65 97 ∷ []) ≡ None }
    ensures slash_of_list { asked_by (codes "backups" ∷ codes "../v" ∷ []) ≡ None }
    ensures not_ascii { asked_by (codes "backups" ∷ (195 ∷ 169 ∷ []) ∷ []) ≡ None }
{}

/// The ways to ask for a replica that is served.
pub fn a_replica_is_asked_for()
    ensures least { asked_by (codes "replica" ∷ codes "2097152" ∷ []) ≡ Some (Replica 2097152) }
    ensures most { asked_by (codes "replica" ∷ codes "1073741824" ∷ [])
        ≡ Some (Replica 1073741824) }
    ensures dashes_first { asked_by (codes "replica" ∷ codes "--" ∷ codes "6291456" ∷ [])
        ≡ Some (Replica 6291456) }
    ensures dashes_last { asked_by (codes "replica" ∷ codes "6291456" ∷ codes "--" ∷ [])
        ≡ Some (Replica 6291456) }
{}

/// The ways to ask for a generated load.
pub fn a_load_is_asked_for()
    ensures least { asked_by (codes "gen" ∷ codes "0" ∷ codes "1" ∷ codes "1" ∷ [])
        ≡ Some (Generate 0 1 1) }
    ensures most { asked_by (codes "gen" ∷ codes "18446744073709551615" ∷ codes "15"
        ∷ codes "4096" ∷ []) ≡ Some (Generate 18446744073709551615 15 4096) }
    ensures in_this_order { asked_by (codes "gen" ∷ codes "7" ∷ codes "2" ∷ codes "3" ∷ [])
        ≡ Some (Generate 7 2 3) }
    ensures dashes_first { asked_by (codes "gen" ∷ codes "--" ∷ codes "7" ∷ codes "2"
        ∷ codes "3" ∷ []) ≡ Some (Generate 7 2 3) }
    ensures dashes_between { asked_by (codes "gen" ∷ codes "7" ∷ codes "--" ∷ codes "2"
        ∷ codes "3" ∷ []) ≡ Some (Generate 7 2 3) }
    ensures dashes_last { asked_by (codes "gen" ∷ codes "7" ∷ codes "2" ∷ codes "3"
        ∷ codes "--" ∷ []) ≡ Some (Generate 7 2 3) }
{}

/// `replica` has a size, and nothing else.
pub fn replica_has_one_size()
    ensures none { asked_by (codes "replica" ∷ []) ≡ None }
    ensures none_behind_dashes { asked_by (codes "replica" ∷ codes "--" ∷ []) ≡ None }
    ensures two { asked_by (codes "replica" ∷ codes "2097152" ∷ codes "2097152" ∷ []) ≡ None }
    ensures option { asked_by (codes "replica" ∷ codes "--size" ∷ codes "2097152" ∷ []) ≡ None }
    ensures option_joined { asked_by (codes "replica" ∷ codes "--size=2097152" ∷ []) ≡ None }
    ensures help { asked_by (codes "replica" ∷ codes "--help" ∷ []) ≡ None }
    ensures help_behind { asked_by (codes "replica" ∷ codes "2097152" ∷ codes "-h" ∷ []) ≡ None }
    ensures longer_word { asked_by (codes "replicas" ∷ codes "2097152" ∷ []) ≡ None }
{}

/// What is no size of a volume.
pub fn other_sizes_are_refused()
    ensures zero { asked_by (codes "replica" ∷ codes "0" ∷ []) ≡ None }
    ensures a_byte_more { asked_by (codes "replica" ∷ codes "2097153" ∷ []) ≡ None }
    ensures a_page_more_than_the_most { asked_by (codes "replica" ∷ codes "1075838976" ∷ [])
        ≡ None }
    ensures past_the_largest_number { asked_by (codes "replica" ∷ codes "18446744073711648768" ∷ [])
        ≡ None }
    ensures leading_zero { asked_by (codes "replica" ∷ codes "02097152" ∷ []) ≡ None }
    ensures plus { asked_by (codes "replica" ∷ codes "+2097152" ∷ []) ≡ None }
    ensures minus { asked_by (codes "replica" ∷ codes "-2097152" ∷ []) ≡ None }
    ensures minus_behind_dashes { asked_by (codes "replica" ∷ codes "--" ∷ codes "-2097152" ∷ [])
        ≡ None }
    ensures blank_before { asked_by (codes "replica" ∷ codes " 2097152" ∷ []) ≡ None }
    ensures blank_behind { asked_by (codes "replica" ∷ codes "2097152 " ∷ []) ≡ None }
    ensures empty { asked_by (codes "replica" ∷ codes "" ∷ []) ≡ None }
    ensures unit { asked_by (codes "replica" ∷ codes "2MiB" ∷ []) ≡ None }
    ensures other_base { asked_by (codes "replica" ∷ codes "0x200000" ∷ []) ≡ None }
{}

/// `gen` has three numbers, and nothing else.
pub fn gen_has_three_numbers()
    ensures none { asked_by (codes "gen" ∷ []) ≡ None }
    ensures two { asked_by (codes "gen" ∷ codes "0" ∷ codes "1" ∷ []) ≡ None }
    ensures two_behind_dashes { asked_by (codes "gen" ∷ codes "--" ∷ codes "0" ∷ codes "1" ∷ [])
        ≡ None }
    ensures four { asked_by (codes "gen" ∷ codes "0" ∷ codes "1" ∷ codes "1" ∷ codes "1" ∷ [])
        ≡ None }
    ensures option { asked_by (codes "gen" ∷ codes "0" ∷ codes "1" ∷ codes "--calls=1" ∷ [])
        ≡ None }
    ensures help { asked_by (codes "gen" ∷ codes "--help" ∷ []) ≡ None }
    ensures help_first { asked_by (codes "help" ∷ codes "gen" ∷ []) ≡ None }
    ensures longer_word { asked_by (codes "generate" ∷ codes "0" ∷ codes "1" ∷ codes "1" ∷ [])
        ≡ None }
    ensures another_word { asked_by (codes "replica" ∷ codes "0" ∷ codes "1" ∷ codes "1" ∷ [])
        ≡ None }
{}

/// Numbers past the limits of a load.
pub fn numbers_past_their_limits_are_refused()
    ensures number { asked_by (codes "gen" ∷ codes "18446744073709551616" ∷ codes "1"
        ∷ codes "1" ∷ []) ≡ None }
    ensures no_stream { asked_by (codes "gen" ∷ codes "0" ∷ codes "0" ∷ codes "1" ∷ []) ≡ None }
    ensures sixteen_streams { asked_by (codes "gen" ∷ codes "0" ∷ codes "16" ∷ codes "1" ∷ [])
        ≡ None }
    ensures more_than_a_byte { asked_by (codes "gen" ∷ codes "0" ∷ codes "257" ∷ codes "1" ∷ [])
        ≡ None }
    ensures no_call { asked_by (codes "gen" ∷ codes "0" ∷ codes "1" ∷ codes "0" ∷ []) ≡ None }
    ensures a_call_more { asked_by (codes "gen" ∷ codes "0" ∷ codes "1" ∷ codes "4097" ∷ [])
        ≡ None }
    ensures calls_first { asked_by (codes "gen" ∷ codes "0" ∷ codes "4096" ∷ codes "15" ∷ [])
        ≡ None }
{}

/// What is no number.
pub fn other_numbers_are_refused()
    ensures zeros { asked_by (codes "gen" ∷ codes "00" ∷ codes "1" ∷ codes "1" ∷ []) ≡ None }
    ensures zero_before_streams { asked_by (codes "gen" ∷ codes "0" ∷ codes "01" ∷ codes "1" ∷ [])
        ≡ None }
    ensures zeros_before_calls { asked_by (codes "gen" ∷ codes "0" ∷ codes "1" ∷ codes "0001" ∷ [])
        ≡ None }
    ensures plus { asked_by (codes "gen" ∷ codes "+7" ∷ codes "1" ∷ codes "1" ∷ []) ≡ None }
    ensures minus { asked_by (codes "gen" ∷ codes "-7" ∷ codes "1" ∷ codes "1" ∷ []) ≡ None }
    ensures minus_behind_dashes { asked_by (codes "gen" ∷ codes "--" ∷ codes "-7" ∷ codes "1"
        ∷ codes "1" ∷ []) ≡ None }
    ensures empty { asked_by (codes "gen" ∷ codes "" ∷ codes "1" ∷ codes "1" ∷ []) ≡ None }
    ensures blank { asked_by (codes "gen" ∷ codes "0" ∷ codes "1 " ∷ codes "1" ∷ []) ≡ None }
    ensures blanks_between { asked_by (codes "gen" ∷ codes "0 1 1" ∷ []) ≡ None }
    ensures point { asked_by (codes "gen" ∷ codes "0" ∷ codes "1" ∷ codes "1.0" ∷ []) ≡ None }
    ensures not_ascii { asked_by (codes "gen" ∷ codes "0" ∷ (217 ∷ 161 ∷ []) ∷ codes "1" ∷ [])
        ≡ None }
{}

/// The ways to ask for a volume that is served.
pub fn a_served_volume_is_asked_for()
    ensures least { asked_by (codes "serve" ∷ codes "x" ∷ codes "2097152" ∷ codes "1" ∷ codes "1"
        ∷ []) ≡ Some (Serve (codes "x") 2097152 1 1) }
    ensures most { asked_by (codes "serve" ∷ codes "127.0.0.1:0" ∷ codes "1073741824" ∷ codes "8"
        ∷ codes "16" ∷ []) ≡ Some (Serve (codes "127.0.0.1:0") 1073741824 8 16) }
    ensures in_this_order { asked_by (codes "serve" ∷ codes "x" ∷ codes "6291456" ∷ codes "2"
        ∷ codes "3" ∷ []) ≡ Some (Serve (codes "x") 6291456 2 3) }
    ensures dashes_first { asked_by (codes "serve" ∷ codes "--" ∷ codes "x" ∷ codes "2097152"
        ∷ codes "2" ∷ codes "3" ∷ []) ≡ Some (Serve (codes "x") 2097152 2 3) }
    ensures dashes_between { asked_by (codes "serve" ∷ codes "x" ∷ codes "2097152" ∷ codes "--"
        ∷ codes "2" ∷ codes "3" ∷ []) ≡ Some (Serve (codes "x") 2097152 2 3) }
    ensures dashes_last { asked_by (codes "serve" ∷ codes "x" ∷ codes "2097152" ∷ codes "2"
        ∷ codes "3" ∷ codes "--" ∷ []) ≡ Some (Serve (codes "x") 2097152 2 3) }
{}

/// An address is any text.
pub fn an_address_is_any_text()
    ensures empty { asked_by (codes "serve" ∷ codes "" ∷ codes "2097152" ∷ codes "1" ∷ codes "1"
        ∷ []) ≡ Some (Serve [] 2097152 1 1) }
    ensures with_blanks { asked_by (codes "serve" ∷ codes " a b/c:d " ∷ codes "2097152" ∷ codes "1"
        ∷ codes "1" ∷ []) ≡ Some (Serve (codes " a b/c:d ") 2097152 1 1) }
    ensures word_of_the_program { asked_by (codes "serve" ∷ codes "run" ∷ codes "2097152"
        ∷ codes "1" ∷ codes "1" ∷ []) ≡ Some (Serve (codes "run") 2097152 1 1) }
    ensures long { asked_by (codes "serve" ∷ replicate 300 97 ∷ codes "2097152" ∷ codes "1"
        ∷ codes "1" ∷ []) ≡ Some (Serve (replicate 300 97) 2097152 1 1) }
    ensures not_ascii { asked_by (codes "serve" ∷ (195 ∷ 169 ∷ []) ∷ codes "2097152" ∷ codes "1"
        ∷ codes "1" ∷ []) ≡ Some (Serve (195 ∷ 169 ∷ []) 2097152 1 1) }
    ensures dash_behind_dashes { asked_by (codes "serve" ∷ codes "--" ∷ codes "-x" ∷ codes "2097152"
        ∷ codes "1" ∷ codes "1" ∷ []) ≡ Some (Serve (codes "-x") 2097152 1 1) }
    ensures dash_first { asked_by (codes "serve" ∷ codes "-x" ∷ codes "2097152" ∷ codes "1"
        ∷ codes "1" ∷ []) ≡ None }
{}

/// `serve` has an address, a size and two counts, and nothing else.
pub fn serve_has_four_words()
    ensures none { asked_by (codes "serve" ∷ []) ≡ None }
    ensures none_behind_dashes { asked_by (codes "serve" ∷ codes "--" ∷ []) ≡ None }
    ensures one { asked_by (codes "serve" ∷ codes "x" ∷ []) ≡ None }
    ensures two { asked_by (codes "serve" ∷ codes "x" ∷ codes "2097152" ∷ []) ≡ None }
    ensures three { asked_by (codes "serve" ∷ codes "x" ∷ codes "2097152" ∷ codes "1" ∷ []) ≡ None }
    ensures no_address { asked_by (codes "serve" ∷ codes "2097152" ∷ codes "1" ∷ codes "1" ∷ [])
        ≡ None }
    ensures five { asked_by (codes "serve" ∷ codes "x" ∷ codes "2097152" ∷ codes "1" ∷ codes "1"
        ∷ codes "1" ∷ []) ≡ None }
    ensures option { asked_by (codes "serve" ∷ codes "x" ∷ codes "2097152" ∷ codes "1"
        ∷ codes "--sessions=1" ∷ []) ≡ None }
    ensures option_of_run { asked_by (codes "serve" ∷ codes "--workers" ∷ codes "one" ∷ codes "x"
        ∷ codes "2097152" ∷ codes "1" ∷ codes "1" ∷ []) ≡ None }
    ensures short { asked_by (codes "serve" ∷ codes "-a" ∷ codes "x" ∷ codes "2097152" ∷ codes "1"
        ∷ codes "1" ∷ []) ≡ None }
    ensures help { asked_by (codes "serve" ∷ codes "--help" ∷ []) ≡ None }
    ensures help_behind { asked_by (codes "serve" ∷ codes "x" ∷ codes "2097152" ∷ codes "1"
        ∷ codes "1" ∷ codes "-h" ∷ []) ≡ None }
    ensures help_first { asked_by (codes "help" ∷ codes "serve" ∷ []) ≡ None }
    ensures shorter_word { asked_by (codes "serv" ∷ codes "x" ∷ codes "2097152" ∷ codes "1"
        ∷ codes "1" ∷ []) ≡ None }
    ensures longer_word { asked_by (codes "serves" ∷ codes "x" ∷ codes "2097152" ∷ codes "1"
        ∷ codes "1" ∷ []) ≡ None }
{}

/// Numbers past the limits of what is served.
pub fn a_served_volume_past_its_limits_is_refused()
    ensures no_replica { asked_by (codes "serve" ∷ codes "x" ∷ codes "2097152" ∷ codes "0"
        ∷ codes "1" ∷ []) ≡ None }
    ensures nine_replicas { asked_by (codes "serve" ∷ codes "x" ∷ codes "2097152" ∷ codes "9"
        ∷ codes "1" ∷ []) ≡ None }
    ensures replicas_past_a_byte { asked_by (codes "serve" ∷ codes "x" ∷ codes "2097152"
        ∷ codes "257" ∷ codes "1" ∷ []) ≡ None }
    ensures no_session { asked_by (codes "serve" ∷ codes "x" ∷ codes "2097152" ∷ codes "1"
        ∷ codes "0" ∷ []) ≡ None }
    ensures seventeen_sessions { asked_by (codes "serve" ∷ codes "x" ∷ codes "2097152" ∷ codes "1"
        ∷ codes "17" ∷ []) ≡ None }
    ensures sessions_past_a_byte { asked_by (codes "serve" ∷ codes "x" ∷ codes "2097152" ∷ codes "1"
        ∷ codes "272" ∷ []) ≡ None }
    ensures sessions_first { asked_by (codes "serve" ∷ codes "x" ∷ codes "2097152" ∷ codes "16"
        ∷ codes "8" ∷ []) ≡ None }
    ensures no_size { asked_by (codes "serve" ∷ codes "x" ∷ codes "0" ∷ codes "1" ∷ codes "1" ∷ [])
        ≡ None }
    ensures a_byte_more { asked_by (codes "serve" ∷ codes "x" ∷ codes "2097153" ∷ codes "1"
        ∷ codes "1" ∷ []) ≡ None }
    ensures a_page_more_than_the_most { asked_by (codes "serve" ∷ codes "x" ∷ codes "1075838976"
        ∷ codes "1" ∷ codes "1" ∷ []) ≡ None }
{}

/// What is no number of what is served.
pub fn other_numbers_of_a_served_volume_are_refused()
    ensures zero_before_size { asked_by (codes "serve" ∷ codes "x" ∷ codes "02097152" ∷ codes "1"
        ∷ codes "1" ∷ []) ≡ None }
    ensures zero_before_replicas { asked_by (codes "serve" ∷ codes "x" ∷ codes "2097152"
        ∷ codes "01" ∷ codes "1" ∷ []) ≡ None }
    ensures zero_before_sessions { asked_by (codes "serve" ∷ codes "x" ∷ codes "2097152" ∷ codes "1"
        ∷ codes "01" ∷ []) ≡ None }
    ensures plus { asked_by (codes "serve" ∷ codes "x" ∷ codes "2097152" ∷ codes "+1" ∷ codes "1"
        ∷ []) ≡ None }
    ensures minus_behind_dashes { asked_by (codes "serve" ∷ codes "--" ∷ codes "x" ∷ codes "2097152"
        ∷ codes "-1" ∷ codes "1" ∷ []) ≡ None }
    ensures blank { asked_by (codes "serve" ∷ codes "x" ∷ codes "2097152" ∷ codes "1" ∷ codes "1 "
        ∷ []) ≡ None }
    ensures empty { asked_by (codes "serve" ∷ codes "x" ∷ codes "2097152" ∷ codes "1" ∷ codes ""
        ∷ []) ≡ None }
    ensures unit { asked_by (codes "serve" ∷ codes "x" ∷ codes "2MiB" ∷ codes "1" ∷ codes "1" ∷ [])
        ≡ None }
{}
