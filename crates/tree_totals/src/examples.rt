//! The text of jobs with receipts, computed over owner maps. The expected texts are from another program.
ghost use Rattle.std.specs.Prelude.{◌≡◌, [], ◌∷◌, true, codes, pos, negsuc};
ghost use Rattle.owner_map.specs.declared.map.OwnerMap.TheVariants.{Block, Level};
ghost use Rattle.tree_model.specs.Commands.Command.{Project, Refine, Coarsen, Compress, Reconstruct, Mul, Inner, Print, Size, Fence};
ghost use Rattle.tree_model.specs.Functions.Function.{Box, Ramp};
ghost use Rattle.tree_model.specs.Receipts.{text_of};
ghost use Rattle.tree_totals.specs.Counts.{by_map};

/// A full tree is coarsened to its root, over four blocks.
fn receipts_over_four_blocks()
    ensures { text_of (by_map Block 4) true
        (record {
          depth = 3;
          commands = Project (codes "g") (record { function = Ramp (negsuc 0) (pos 0); level = 3; tolerance = 1 }) ∷ Print (codes "g") ∷ Coarsen (codes "g") ∷ Print (codes "g") ∷ Fence ∷ Size (codes "g")
              ∷ Coarsen (codes "g") ∷ Compress (codes "g") ∷ Print (codes "g") ∷ Inner (codes "g") (codes "g") ∷ Reconstruct (codes "g") ∷ [];
        })
        ≡ codes "tree g reconstructed\n3 0 -1\n3 1 -1\n3 2 -1\n3 3 -1\n3 4 -1\n3 5 -1\n3 6 -1\n3 7 -1\ntree g reconstructed\n0 0 -8\nfence 1 messages 21 tasks 81\nsize g 1\ntree g compressed -8\ninner g g 8\nend messages 27 tasks 91\n" }
{}

/// Nothing is counted between two fences, and each message goes between two of five ranks.
fn receipts_by_levels_over_five_ranks()
    ensures { text_of (by_map Level 5) true
        (record {
          depth = 1;
          commands = Project (codes "p") (record { function = Ramp (negsuc 0) (pos 2); level = 0; tolerance = 0 }) ∷ Coarsen (codes "p") ∷ Fence ∷ Fence ∷ Print (codes "p") ∷ Refine (codes "p") 1 ∷ Print (codes "p")
              ∷ Refine (codes "p") 1 ∷ Mul (codes "g") (codes "p") (codes "p") ∷ Project (codes "q") (record { function = Box 1 2 (pos 0); level = 0; tolerance = 3 }) ∷ [];
        })
        ≡ codes "fence 1 messages 4 tasks 8\nfence 2 messages 4 tasks 8\ntree p reconstructed\n1 0 -1\n1 1 1\ntree p reconstructed\n1 0 -1\n1 1 1\nend messages 14 tasks 29\n" }
{}
