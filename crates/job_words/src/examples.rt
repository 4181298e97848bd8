//! Numbers and names, computed on small words. What is expected was worked out by hand.
ghost use Rattle.std.specs.Prelude.{◌≡◌, ◌∷◌, [], true, false, Some, None, codes, pos, negsuc};
ghost use Rattle.job_words.specs.Names.{is_name};
ghost use Rattle.job_words.specs.Numbers.{number};

/// A number has 1 to 18 digits, and one minus may come before them.
pub fn whole_numbers()
    ensures zero { number (codes "-0") ≡ Some (pos 0) }
    ensures leading_zeros { number (codes "007") ≡ Some (pos 7) }
    ensures most_digits { number (codes "999999999999999999") ≡ Some (pos 999999999999999999) }
    ensures least { number (codes "-999999999999999999") ≡ Some (negsuc 999999999999999998) }
    ensures too_many_digits { number (codes "0000000000000000001") ≡ None }
    ensures no_digit { number (codes "-") ≡ None }
    ensures two_minuses { number (codes "--1") ≡ None }
    ensures plus { number (codes "+1") ≡ None }
{}

/// A name begins with a letter and has at most 16 bytes.
pub fn names()
    ensures longest { is_name (codes "abcdefghijklm_09") ≡ true }
    ensures too_long { is_name (codes "abcdefghijklm_090") ≡ false }
    ensures digit_first { is_name (codes "0a") ≡ false }
    ensures capital { is_name (codes "aB") ≡ false }
    ensures empty { is_name [] ≡ false }

    // The ends of the ranges of bytes, and the bytes next to them.
    ensures ends { is_name (codes "az09_") ≡ true }
    ensures last_first { is_name (codes "z") ≡ true }
    ensures below_a { is_name (97 ∷ 96 ∷ []) ≡ false }
    ensures above_z { is_name (97 ∷ 123 ∷ []) ≡ false }
    ensures below_0 { is_name (97 ∷ 47 ∷ []) ≡ false }
    ensures above_9 { is_name (97 ∷ 58 ∷ []) ≡ false }
    ensures below_underscore { is_name (97 ∷ 94 ∷ []) ≡ false }
    ensures below_a_first { is_name (96 ∷ []) ≡ false }
    ensures above_z_first { is_name (123 ∷ []) ≡ false }
    ensures underscore_first { is_name (codes "_a") ≡ false }
{}
