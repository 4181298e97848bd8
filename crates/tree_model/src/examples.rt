//! The definitions, computed: functions on cells, sums, nodes, operations, and the texts of small jobs. The expected texts and
//! numbers were worked out by hand; those of `mix` and of the function `hash` are from another program.
ghost use Rattle.std.specs.Prelude.{◌≡◌, [], ◌∷◌, true, false, codes, pos, negsuc, None, Some};
ghost use Rattle.tree_key.specs.Keys.{root, child};
ghost use Rattle.tree_model.specs.Mix.{mix};
ghost use Rattle.tree_model.specs.Functions.{value_at, fits};
ghost use Rattle.tree_model.specs.Functions.Function.{Const, Ramp, Step, Box, Hash};
ghost use Rattle.tree_model.specs.Commands.Command.{Project, Refine, Compress, Reconstruct, Add, Mul, Inner as InnerCommand, Print, Fence};
ghost use Rattle.tree_model.specs.Jobs.{job_text, first_overflow};
ghost use Rattle.tree_model.specs.Trees.{box_sum, difference};
ghost use Rattle.tree_model.specs.Project.{projected};
ghost use Rattle.tree_model.specs.Nodes.{node};
ghost use Rattle.tree_model.specs.Nodes.Form.{Reconstructed, Compressed};
ghost use Rattle.tree_model.specs.Nodes.Node.{Leaf, Branch, Inner, Root, Bare};
ghost use Rattle.tree_model.specs.Operations.{refined, weighted_sum, product, overflows};
ghost use Rattle.tree_model.specs.OperationTexts.{compressed_lines, inner_line, overflow_line};
ghost use Rattle.tree_model.specs.Products.{inner_product, inner_part};
ghost use Rattle.tree_model.specs.Texts.{tree_lines};

/// The ramp 0, 1, 2, 3: its sum, and the left half's sum less the right half's.
fn sums_of_a_ramp()
    ensures sum { box_sum (projected 2 (record { function = Ramp (pos 0) (pos 1); level = 2; tolerance = 0 })) root ≡ pos 6 }
    ensures difference { difference (projected 2 (record { function = Ramp (pos 0) (pos 1); level = 2; tolerance = 0 })) root ≡ negsuc 3 }
{}

/// The squares of 0, 1, 2 and 3 have the sum 14; 6 times 6 and the root's part is 4 times that.
fn inner_products_of_a_ramp()
    ensures product { let ramp = projected 2 (record { function = Ramp (pos 0) (pos 1); level = 2; tolerance = 0 }) in
        inner_product ramp ramp ≡ pos 14 }
    ensures root { let ramp = projected 2 (record { function = Ramp (pos 0) (pos 1); level = 2; tolerance = 0 }) in
        inner_part ramp ramp root ≡ pos 20 }
    ensures left { let ramp = projected 2 (record { function = Ramp (pos 0) (pos 1); level = 2; tolerance = 0 }) in
        inner_part ramp ramp (child root false) ≡ pos 1 }
{}

/// The constant 5 as one leaf has no differences, and 20 times 6 is 4 times 30.
fn inner_products_with_a_leaf()
    ensures product { let ramp = projected 2 (record { function = Ramp (pos 0) (pos 1); level = 2; tolerance = 0 }) in
        inner_product (projected 2 (record { function = Const (pos 5); level = 0; tolerance = 0 })) ramp ≡ pos 30 }
    ensures root { let ramp = projected 2 (record { function = Ramp (pos 0) (pos 1); level = 2; tolerance = 0 }) in
        inner_part (projected 2 (record { function = Const (pos 5); level = 0; tolerance = 0 })) ramp root ≡ pos 0 }
{}

/// The reconstructed form has the sum over each leaf, and nothing above the leaves.
fn reconstructed_nodes()
    ensures branch { node Reconstructed (projected 2 (record { function = Ramp (pos 0) (pos 1); level = 2; tolerance = 0 })) (child root false) ≡ Branch }
    ensures leaf { node Reconstructed (projected 2 (record { function = Ramp (pos 0) (pos 1); level = 2; tolerance = 0 })) (child (child root false) true) ≡ Leaf (pos 1) }
{}

/// The compressed form has the sum over all cells at the root, and the difference at each key that has children.
fn compressed_nodes()
    ensures root { node Compressed (projected 2 (record { function = Ramp (pos 0) (pos 1); level = 2; tolerance = 0 })) root ≡ Root (pos 6) (Some (negsuc 3)) }
    ensures inner { node Compressed (projected 2 (record { function = Ramp (pos 0) (pos 1); level = 2; tolerance = 0 })) (child root false) ≡ Inner (negsuc 0) }
    ensures bare { node Compressed (projected 2 (record { function = Ramp (pos 0) (pos 1); level = 2; tolerance = 0 })) (child (child root false) true) ≡ Bare }
    ensures whole { node Compressed (projected 2 (record { function = Const (pos 5); level = 0; tolerance = 0 })) root ≡ Root (pos 20) None }
{}

/// A step has its second value from its edge on, and a box its value from its first cell up to before its last.
fn values_at_edges()
    ensures before { value_at (Step 2 (pos 7) (negsuc 7)) 1 ≡ pos 7 }
    ensures at { value_at (Step 2 (pos 7) (negsuc 7)) 2 ≡ negsuc 7 }
    ensures outside { value_at (Box 1 3 (pos 7)) 0 ≡ pos 0 }
    ensures first { value_at (Box 1 3 (pos 7)) 1 ≡ pos 7 }
    ensures end { value_at (Box 1 3 (pos 7)) 3 ≡ pos 0 }
{}

/// The first two outputs of SplitMix64 from the seed 0, and what a hash takes of the first.
fn hashes()
    ensures first { mix 0 0 ≡ 0xE220A8397B1DCDAF }
    ensures second { mix 0 1 ≡ 0x6E789E6AA1B965F4 }
    ensures value { value_at (Hash 0 1000) 0 ≡ pos 535 }
{}

/// On one cell a step may be at its end, and a box may be empty; no box ends before it begins.
fn edges_that_fit()
    ensures end { fits 0 (Step 1 (pos 1) (pos 2)) ≡ true }
    ensures too_far { fits 0 (Step 2 (pos 1) (pos 2)) ≡ false }
    ensures empty { fits 0 (Box 1 1 (pos 1)) ≡ true }
    ensures turned { fits 1 (Box 2 1 (pos 1)) ≡ false }
{}

/// A seed has 32 bits, and a modulus goes from 1 to the largest value.
fn hashes_that_fit()
    ensures no_modulus { fits 0 (Hash 0 0) ≡ false }
    ensures widest { fits 16 (Hash 4294967295 16777216) ≡ true }
    ensures too_long { fits 0 (Hash 4294967296 1) ≡ false }
{}

/// The ramp 0, 1, 2, 3 in the form of sums and differences: its sum, and the difference at each key that has children.
fn compressed_text_of_a_ramp()
    ensures { compressed_lines (codes "f") (projected 2 (record { function = Ramp (pos 0) (pos 1); level = 0; tolerance = 0 }))
        ≡ codes "tree f compressed 6\n0 0 -4\n1 0 -1\n1 1 -1\n" }
{}

/// The squares of 0, 1, 2 and 3 have the sum 14.
fn inner_line_of_a_ramp()
    ensures { let f = projected 2 (record { function = Ramp (pos 0) (pos 1); level = 0; tolerance = 0 }) in
        inner_line (codes "f") f (codes "f") f ≡ codes "inner f f 14\n" }
{}

/// The constant 5 less the ramp has the ramp's keys, and its differences turned round.
fn weighted_sum_of_a_constant_and_a_ramp()
    ensures { let c = projected 2 (record { function = Const (pos 5); level = 0; tolerance = 0 }) in
        let f = projected 2 (record { function = Ramp (pos 0) (pos 1); level = 0; tolerance = 0 }) in
        compressed_lines (codes "h") (weighted_sum (pos 1) c (negsuc 0) f) ≡ codes "tree h compressed 14\n0 0 4\n1 0 1\n1 1 1\n" }
{}

/// Twice the largest value is too much.
fn weighted_sum_overflows()
    ensures { let f = projected 0 (record { function = Const (pos 16777216); level = 0; tolerance = 0 }) in
        overflows (weighted_sum (pos 2) f (pos 0) f) ≡ true }
{}

/// The least value is one that a cell may have.
fn product_is_within_the_limit()
    ensures text { let f = projected 0 (record { function = Const (pos 4096); level = 0; tolerance = 0 }) in
        let g = projected 0 (record { function = Const (negsuc 4095); level = 0; tolerance = 0 }) in
        tree_lines (codes "h") (product f g) ≡ codes "tree h reconstructed\n0 0 -16777216\n" }
    ensures within { let f = projected 0 (record { function = Const (pos 4096); level = 0; tolerance = 0 }) in
        let g = projected 0 (record { function = Const (negsuc 4095); level = 0; tolerance = 0 }) in
        overflows (product f g) ≡ false }
{}

/// A product below the least value is too much.
fn product_overflows()
    ensures { let f = projected 0 (record { function = Const (pos 4097); level = 0; tolerance = 0 }) in
        let g = projected 0 (record { function = Const (negsuc 4095); level = 0; tolerance = 0 }) in
        overflows (product f g) ≡ true }
{}

/// A constant of one leaf, refined by a level, has two.
fn refined_constant()
    ensures { tree_lines (codes "f") (refined 1 (projected 1 (record { function = Const (pos 5); level = 0; tolerance = 0 })))
        ≡ codes "tree f reconstructed\n1 0 5\n1 1 5\n" }
{}

/// A tree that has all keys down to a level is printed as before.
fn refined_split_tree()
    ensures { let f = projected 1 (record { function = Ramp (pos 0) (pos 1); level = 1; tolerance = 0 }) in
        tree_lines (codes "f") (refined 0 f) ≡ tree_lines (codes "f") f }
{}

/// The third command overflowed.
fn overflow_at_the_third_command()
    ensures { overflow_line 3 ≡ codes "overflow at command 3\n" }
{}

/// A constant at depth 0 is one leaf.
fn constant_on_one_cell()
    ensures { job_text (record { depth = 0; commands = Project (codes "f") (record { function = Const (pos 5); level = 0; tolerance = 0 }) ∷ Print (codes "f") ∷ [] })
        ≡ codes "tree f reconstructed\n0 0 5\n" }
{}

/// A ramp without tolerance is split down to its cells.
fn ramp_without_tolerance()
    ensures { job_text (record { depth = 2; commands = Project (codes "f") (record { function = Ramp (pos 0) (pos 1); level = 0; tolerance = 0 }) ∷ Print (codes "f") ∷ [] })
        ≡ codes "tree f reconstructed\n2 0 0\n2 1 1\n2 2 2\n2 3 3\n" }
{}

/// A difference that equals the tolerance stays unsplit.
fn ramp_within_tolerance()
    ensures { job_text (record { depth = 2; commands = Project (codes "f") (record { function = Ramp (pos 0) (pos 1); level = 0; tolerance = 2 }) ∷ Print (codes "f") ∷ [] })
        ≡ codes "tree f reconstructed\n0 0 0\n" }
{}

/// In the compressed form the sum is in the first line, and each key with children has its difference.
fn ramp_compressed()
    ensures { job_text (record { depth = 2; commands = Project (codes "f") (record { function = Ramp (pos 0) (pos 1); level = 0; tolerance = 0 }) ∷ Compress (codes "f") ∷ Print (codes "f") ∷ [] })
        ≡ codes "tree f compressed 6\n0 0 -4\n1 0 -1\n1 1 -1\n" }
{}

/// The squares of 0, 1, 2 and 3 have the sum 14, whatever is printed after it.
fn ramp_times_itself()
    ensures { job_text (record { depth = 2; commands = Project (codes "f") (record { function = Ramp (pos 0) (pos 1); level = 0; tolerance = 0 }) ∷ Compress (codes "f") ∷ InnerCommand (codes "f") (codes "f") ∷ Fence ∷ Print (codes "f") ∷ [] })
        ≡ codes "inner f f 14\ntree f compressed 6\n0 0 -4\n1 0 -1\n1 1 -1\n" }
{}

/// A constant less a ramp has the ramp's keys.
fn constant_less_a_ramp()
    ensures { job_text (record { depth = 2; commands = Project (codes "f") (record { function = Const (pos 5); level = 0; tolerance = 0 }) ∷ Project (codes "g") (record { function = Ramp (pos 0) (pos 1); level = 0; tolerance = 0 }) ∷ Compress (codes "f") ∷ Compress (codes "g") ∷ Add (codes "h") (pos 1) (codes "f") (negsuc 0) (codes "g") ∷ Print (codes "h") ∷ [] })
        ≡ codes "tree h compressed 14\n0 0 4\n1 0 1\n1 1 1\n" }
{}

/// Compressed and reconstructed, a tree is what it was.
fn ramp_there_and_back()
    ensures { job_text (record { depth = 2; commands = Project (codes "f") (record { function = Ramp (pos 0) (pos 1); level = 0; tolerance = 0 }) ∷ Compress (codes "f") ∷ Reconstruct (codes "f") ∷ Print (codes "f") ∷ [] })
        ≡ codes "tree f reconstructed\n2 0 0\n2 1 1\n2 2 2\n2 3 3\n" }
{}

/// Twice the largest value is too much: the text ends there, and the commands after it have no meaning.
fn twice_the_limit()
    ensures text { job_text (record { depth = 0; commands = Project (codes "f") (record { function = Const (pos 16777216); level = 0; tolerance = 0 }) ∷ Print (codes "f") ∷ Compress (codes "f") ∷ Add (codes "h") (pos 2) (codes "f") (pos 0) (codes "f") ∷ Add (codes "k") (pos 3) (codes "f") (pos 0) (codes "f") ∷ Print (codes "h") ∷ [] })
        ≡ codes "tree f reconstructed\n0 0 16777216\noverflow at command 4\n" }
    ensures command { first_overflow (record { depth = 0; commands = Project (codes "f") (record { function = Const (pos 16777216); level = 0; tolerance = 0 }) ∷ Print (codes "f") ∷ Compress (codes "f") ∷ Add (codes "h") (pos 2) (codes "f") (pos 0) (codes "f") ∷ Add (codes "k") (pos 3) (codes "f") (pos 0) (codes "f") ∷ Print (codes "h") ∷ [] })
        ≡ Some 4 }
{}

/// The least value is one that a cell may have.
fn product_at_the_limit()
    ensures { job_text (record { depth = 0; commands = Project (codes "f") (record { function = Const (pos 4096); level = 0; tolerance = 0 }) ∷ Project (codes "g") (record { function = Const (negsuc 4095); level = 0; tolerance = 0 }) ∷ Mul (codes "h") (codes "f") (codes "g") ∷ Print (codes "h") ∷ [] })
        ≡ codes "tree h reconstructed\n0 0 -16777216\n" }
{}

/// A product below the least value is too much.
fn product_below_the_limit()
    ensures text { job_text (record { depth = 0; commands = Project (codes "f") (record { function = Const (pos 4097); level = 0; tolerance = 0 }) ∷ Project (codes "g") (record { function = Const (negsuc 4095); level = 0; tolerance = 0 }) ∷ Mul (codes "h") (codes "f") (codes "g") ∷ Print (codes "h") ∷ [] })
        ≡ codes "overflow at command 3\n" }
    ensures command { first_overflow (record { depth = 0; commands = Project (codes "f") (record { function = Const (pos 4097); level = 0; tolerance = 0 }) ∷ Project (codes "g") (record { function = Const (negsuc 4095); level = 0; tolerance = 0 }) ∷ Mul (codes "h") (codes "f") (codes "g") ∷ Print (codes "h") ∷ [] })
        ≡ Some 3 }
{}

/// The name of a refined tree stands for the newer version.
fn constant_refined_and_printed()
    ensures { job_text (record { depth = 1; commands = Project (codes "f") (record { function = Const (pos 5); level = 0; tolerance = 0 }) ∷ Refine (codes "f") 1 ∷ Print (codes "f") ∷ [] })
        ≡ codes "tree f reconstructed\n1 0 5\n1 1 5\n" }
{}

/// A tree that is written over one that it was made of.
fn sum_in_place_of_a_part()
    ensures { job_text (record { depth = 1; commands = Project (codes "f") (record { function = Ramp (pos 0) (pos 1); level = 0; tolerance = 0 }) ∷ Compress (codes "f") ∷ Add (codes "f") (pos 1) (codes "f") (pos 1) (codes "f") ∷ Print (codes "f") ∷ [] })
        ≡ codes "tree f compressed 2\n0 0 -2\n" }
{}
