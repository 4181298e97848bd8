//! Which kind of fault a line has, computed: trees that are unknown or in the wrong form, one after the other, several
//! kinds at once, and the bytes at the ends of what is allowed. What is expected was worked out by hand.
ghost use Rattle.std.specs.Prelude.{◌≡◌, [], ◌∷◌, ◌++◌, None, Some, codes, false, map, replicate, true};
ghost use Rattle.std.specs.List.{list_all, list_any};
ghost use Rattle.job_lang.specs.Kinds.{has_foreign_byte, lowest_kind};
ghost use Rattle.job_data.specs.declared.fault_kind.FaultKind.TheVariants.{BeyondLimits, FarFromFence, SizeBeforeFence, UnknownTree, WrongForm};
ghost use Rattle.job_data.specs.Samples.{two_forms};
ghost use Rattle.job_words.specs.Names.{is_name};
ghost use Rattle.tree_model.specs.Commands.Command.{Fence, Print, Reconstruct};

/// Commands whose first tree, whose second or whose only one isn't written. The tree `r` is reconstructed, `c` compressed.
pub fn unknown_trees()
    ensures first { map (lowest_kind 0 two_forms)
        (codes "mul h = u * r" ∷ codes "add h = 1 u + 1 c" ∷ codes "inner u c" ∷ [])
        ≡ replicate 3 (Some UnknownTree) }
    ensures second { map (lowest_kind 0 two_forms)
        (codes "mul h = r * u" ∷ codes "add h = 1 c + 1 u" ∷ codes "inner c u" ∷ [])
        ≡ replicate 3 (Some UnknownTree) }
    ensures only { map (lowest_kind 0 two_forms)
        (codes "refine u 0" ∷ codes "coarsen u" ∷ codes "compress u" ∷ codes "reconstruct u" ∷ codes "print u" ∷ codes "size u" ∷ [])
        ≡ replicate 6 (Some UnknownTree) }
{}

/// Commands whose first tree, whose second or whose only one is in the wrong form.
pub fn wrong_forms()
    ensures first { map (lowest_kind 0 two_forms)
        (codes "mul h = c * r" ∷ codes "add h = 1 r + 1 c" ∷ codes "inner r c" ∷ [])
        ≡ replicate 3 (Some WrongForm) }
    ensures second { map (lowest_kind 0 two_forms)
        (codes "mul h = r * c" ∷ codes "add h = 1 c + 1 r" ∷ codes "inner c r" ∷ [])
        ≡ replicate 3 (Some WrongForm) }
    ensures only { map (lowest_kind 0 two_forms)
        (codes "refine c 0" ∷ codes "coarsen c" ∷ codes "compress c" ∷ codes "reconstruct r" ∷ [])
        ≡ replicate 4 (Some WrongForm) }
    ensures right { map (lowest_kind 0 two_forms)
        (codes "mul h = r * r" ∷ codes "add h = 1 c + 1 c" ∷ codes "inner c c" ∷ codes "refine r 0"
        ∷ codes "coarsen r" ∷ codes "compress r" ∷ codes "reconstruct c" ∷ codes "print r" ∷ codes "print c" ∷ [])
        ≡ replicate 9 None }
{}

/// A tree is counted in either form, after a fence alone.
pub fn sizes()
    ensures before { map (lowest_kind 0 two_forms) (codes "size r" ∷ codes "size c" ∷ []) ≡ replicate 2 (Some SizeBeforeFence) }
    ensures after { map (lowest_kind 0 (two_forms ++ Fence ∷ [])) (codes "size r" ∷ codes "size c" ∷ []) ≡ replicate 2 None }
    ensures written { map (lowest_kind 0 (two_forms ++ Fence ∷ Reconstruct (codes "c") ∷ [])) (codes "size r" ∷ codes "size c" ∷ []) ≡ None ∷ Some SizeBeforeFence ∷ [] }
{}

/// Each of the last five kinds, where a line has it and all later ones: 32 commands since a fence come before it.
pub fn one_kind_before_another()
    ensures { map (lowest_kind 0 (two_forms ++ replicate 29 (Print (codes "r"))))
        (codes "refine u 1" ∷ codes "refine c 1" ∷ codes "mul h = u * c" ∷ codes "refine c 0" ∷ codes "refine r 0" ∷ codes "size u" ∷ codes "size r" ∷ codes "fence" ∷ [])
        ≡ Some BeyondLimits ∷ Some BeyondLimits ∷ Some UnknownTree ∷ Some WrongForm ∷ Some FarFromFence ∷ Some UnknownTree ∷ Some FarFromFence ∷ None ∷ [] }
{}

/// Names with the first and the last letter and digit, and with the bytes next to them; and with 16 bytes and 17.
pub fn names()
    ensures names { list_all is_name
        (codes "a" ∷ codes "z" ∷ codes "az_09za" ∷ codes "abcdefghijklmnop" ∷ []) ≡ true }
    ensures others { list_any is_name
        (codes "" ∷ codes "`" ∷ codes "{" ∷ codes "_" ∷ codes "0" ∷ codes "9" ∷ codes "a`" ∷ codes "a{" ∷ codes "a/"
        ∷ codes "a:" ∷ codes "a^" ∷ codes "abcdefghijklmnopq" ∷ []) ≡ false }
{}

/// The bytes of a line at the ends of what is allowed, and those next to them.
pub fn bytes()
    ensures allowed { list_any has_foreign_byte ((9 ∷ []) ∷ (32 ∷ []) ∷ (126 ∷ []) ∷ []) ≡ false }
    ensures others { list_all has_foreign_byte ((8 ∷ []) ∷ (10 ∷ []) ∷ (31 ∷ []) ∷ (127 ∷ []) ∷ []) ≡ true }
{}
