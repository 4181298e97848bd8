//! Receipts, computed on small jobs. The expected numbers were counted by hand.
ghost use Rattle.std.specs.Prelude.{◌≡◌, ◌+◌, ◌*◌, ◌/◌, ◌%◌, ◌^◌, [], ◌∷◌, true, false, codes, pos};
ghost use Rattle.tree_model.specs.Commands.Command.{Project, Refine, Coarsen, Compress, Add, Mul, Inner, Print, Size, Fence};
ghost use Rattle.tree_model.specs.Functions.Function.{Const, Ramp};
ghost use Rattle.tree_model.specs.Receipts.{text_of};
ghost use Rattle.tree_model.specs.Totals.{size_total};

/// A ramp has 7 keys, 3 of them with children: 10 tasks for each command. In two blocks, one key of level 1 has another owner
/// than the root: 2 messages. The receipt of a fence has nothing of the commands after it.
fn ramp_in_two_blocks()
    ensures { text_of (record { ranks = 2; owner = λ k. k.at * 2 / 2 ^ k.level }) true
        (record { depth = 2; commands = Project (codes "f") (record { function = Ramp (pos 0) (pos 1); level = 0; tolerance = 0 }) ∷ Fence ∷ Compress (codes "f") ∷ Print (codes "f") ∷ [] })
        ≡ codes "fence 1 messages 2 tasks 10\ntree f compressed 6\n0 0 -4\n1 0 -1\n1 1 -1\nend messages 6 tasks 30\n" }
{}

/// On one rank nothing is sent.
fn ramp_on_one_rank()
    ensures { text_of (record { ranks = 1; owner = λ k. 0 }) true
        (record { depth = 2; commands = Project (codes "f") (record { function = Ramp (pos 0) (pos 1); level = 0; tolerance = 0 }) ∷ Fence ∷ Compress (codes "f") ∷ Print (codes "f") ∷ [] })
        ≡ codes "fence 1 messages 0 tasks 10\ntree f compressed 6\n0 0 -4\n1 0 -1\n1 1 -1\nend messages 0 tasks 30\n" }
{}

/// Where each key has another owner than its parent, there are 2 messages for each of 6 keys. The line at the end has all.
fn ramp_spread_over_three_ranks()
    ensures { text_of (record { ranks = 3; owner = λ k. (7 * k.level + 3 * k.at) % 3 }) true
        (record { depth = 2; commands = Project (codes "f") (record { function = Ramp (pos 0) (pos 1); level = 0; tolerance = 0 }) ∷ Fence ∷ [] })
        ≡ codes "fence 1 messages 12 tasks 10\nend messages 12 tasks 10\n" }
{}

/// One leaf: 1 task. Refined to 15 keys, 7 of them with children: 22 tasks and 2 messages. Coarsened, the 15 keys are visited
/// and 14 of them erased: 36 tasks, and 3 messages. The size: 3 tasks and 2 messages.
fn constant_refined_and_coarsened()
    ensures { text_of (record { ranks = 2; owner = λ k. k.at * 2 / 2 ^ k.level }) true
        (record { depth = 3; commands = Project (codes "f") (record { function = Const (pos 5); level = 0; tolerance = 0 }) ∷ Refine (codes "f") 3 ∷ Coarsen (codes "f") ∷ Fence ∷ Size (codes "f") ∷ [] })
        ≡ codes "fence 1 messages 5 tasks 59\nsize f 1\nend messages 7 tasks 62\n" }
{}

/// A constant of one leaf and a ramp of three keys: an inner product visits the one key that both have, and a sum and a product
/// the three that one of them has. The fences have 5, 11 and 21 tasks before them.
fn two_shapes()
    ensures { text_of (record { ranks = 2; owner = λ k. k.at * 2 / 2 ^ k.level }) true
        (record {
          depth = 1;
          commands = Project (codes "f") (record { function = Const (pos 5); level = 0; tolerance = 0 }) ∷ Project (codes "g") (record { function = Ramp (pos 0) (pos 1); level = 0; tolerance = 0 }) ∷ Fence ∷ Mul (codes "h") (codes "f") (codes "g") ∷ Compress (codes "f") ∷ Inner (codes "f") (codes "f") ∷ Fence
              ∷ Compress (codes "g") ∷ Inner (codes "f") (codes "g") ∷ Inner (codes "g") (codes "f") ∷ Add (codes "f") (pos 1) (codes "f") (pos 1) (codes "g") ∷ Fence ∷ [];
        })
        ≡ codes "fence 1 messages 2 tasks 5\ninner f f 50\nfence 2 messages 4 tasks 11\ninner f g 5\ninner g f 5\nfence 3 messages 8 tasks 21\nend messages 8 tasks 21\n" }
{}

/// The lines of the commands before the one that overflows are printed, and there is no line of the end.
fn receipts_before_an_overflow()
    ensures { text_of (record { ranks = 1; owner = λ k. 0 }) true
        (record { depth = 0; commands = Project (codes "f") (record { function = Const (pos 16777216); level = 0; tolerance = 0 }) ∷ Fence ∷ Fence ∷ Mul (codes "f") (codes "f") (codes "f") ∷ Fence ∷ [] })
        ≡ codes "fence 1 messages 0 tasks 1\nfence 2 messages 0 tasks 1\noverflow at command 4\n" }
{}

/// A job without commands has a receipt at its end, with nothing.
fn receipt_of_no_command()
    ensures with { text_of (record { ranks = 1; owner = λ k. 0 }) true (record { depth = 2; commands = [] }) ≡ codes "end messages 0 tasks 0\n" }
    ensures without { text_of (record { ranks = 1; owner = λ k. 0 }) false (record { depth = 2; commands = Fence ∷ [] }) ≡ [] }
{}

/// A size on 16 ranks: a task on each and one that adds up, and 30 messages to the 15 other ranks and back.
fn size_on_sixteen_ranks()
    ensures { size_total (record { ranks = 16; owner = λ k. 0 }) ≡ record { messages = 30; tasks = 17 } }
{}
