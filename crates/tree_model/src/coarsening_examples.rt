//! Coarsening and the number of keys, computed on small trees. The expected texts were worked out by hand.
ghost use Rattle.std.specs.Prelude.{◌≡◌, [], ◌∷◌, true, false, codes, pos};
ghost use Rattle.tree_key.specs.Keys.{root, child};
ghost use Rattle.tree_model.specs.Commands.Command.{Project, Refine, Coarsen, Compress, Print, Size, Fence};
ghost use Rattle.tree_model.specs.Functions.Function.{Const, Ramp, Step, Box};
ghost use Rattle.tree_model.specs.Jobs.{job_text};
ghost use Rattle.tree_model.specs.Operations.{coarsened};
ghost use Rattle.tree_model.specs.OperationTexts.{size_line};
ghost use Rattle.tree_model.specs.Project.{projected};
ghost use Rattle.tree_model.specs.Shapes.{key_count};
ghost use Rattle.tree_model.specs.Texts.{tree_lines};
ghost use Rattle.tree_model.specs.Trees.{is_constant};

/// The values 0, 1, 1, 0 aren't all the same, nor are those of either half, although the halves have one sum.
fn values_that_differ()
    ensures root { let t = projected 2 (record { function = Box 1 3 (pos 1); level = 2; tolerance = 0 }) in
        is_constant t root ≡ false }
    ensures right { let t = projected 2 (record { function = Box 1 3 (pos 1); level = 2; tolerance = 0 }) in
        is_constant t (child root true) ≡ false }
{}

/// A single cell has one value, and so have two cells of a constant.
fn values_that_agree()
    ensures cell { let t = projected 2 (record { function = Box 1 3 (pos 1); level = 2; tolerance = 0 }) in
        is_constant t (child (child root true) true) ≡ true }
    ensures half { let t = projected 2 (record { function = Step 1 (pos 9) (pos 1); level = 2; tolerance = 0 }) in
        is_constant t (child root true) ≡ true }
{}

/// A constant of two leaves becomes one leaf.
fn coarsened_constant()
    ensures { tree_lines (codes "f") (coarsened (projected 1 (record { function = Const (pos 5); level = 1; tolerance = 0 })))
        ≡ codes "tree f reconstructed\n0 0 10\n" }
{}

/// Of 9, 1, 1, 1 the right half becomes one leaf, and the left half stays split.
fn coarsened_step()
    ensures { tree_lines (codes "f") (coarsened (projected 2 (record { function = Step 1 (pos 9) (pos 1); level = 2; tolerance = 0 })))
        ≡ codes "tree f reconstructed\n1 1 2\n2 0 9\n2 1 1\n" }
{}

/// Of 3, 3, 1, 1 both halves become leaves, and the root stays split.
fn coarsened_halves()
    ensures { tree_lines (codes "f") (coarsened (projected 2 (record { function = Step 2 (pos 3) (pos 1); level = 2; tolerance = 0 })))
        ≡ codes "tree f reconstructed\n1 0 6\n1 1 2\n" }
{}

/// Halves with one sum stay, where their values differ.
fn coarsened_equal_sums()
    ensures { tree_lines (codes "f") (coarsened (projected 2 (record { function = Box 1 3 (pos 1); level = 2; tolerance = 0 })))
        ≡ codes "tree f reconstructed\n2 0 0\n2 1 1\n2 2 1\n2 3 0\n" }
{}

/// A tree of one leaf stays as it is.
fn coarsened_leaf()
    ensures { tree_lines (codes "f") (coarsened (projected 0 (record { function = Const (pos 5); level = 0; tolerance = 0 })))
        ≡ codes "tree f reconstructed\n0 0 5\n" }
{}

/// Four leaves have three keys above them; one leaf is the only key.
fn sizes()
    ensures full { size_line (codes "f") (projected 2 (record { function = Ramp (pos 0) (pos 1); level = 0; tolerance = 0 })) ≡ codes "size f 7\n" }
    ensures mixed { size_line (codes "f") (projected 2 (record { function = Step 1 (pos 9) (pos 1); level = 0; tolerance = 0 })) ≡ codes "size f 5\n" }
    ensures leaf { size_line (codes "f") (projected 2 (record { function = Const (pos 5); level = 0; tolerance = 0 })) ≡ codes "size f 1\n" }
    ensures count { key_count 2 (projected 2 (record { function = Const (pos 5); level = 1; tolerance = 0 })).shape ≡ 3 }
{}

/// A refined constant is coarsened to its root.
fn coarsened_to_the_root()
    ensures { job_text (record { depth = 3; commands = Project (codes "f") (record { function = Const (pos 5); level = 0; tolerance = 0 }) ∷ Refine (codes "f") 3 ∷ Coarsen (codes "f") ∷ Fence ∷ Size (codes "f") ∷ [] })
        ≡ codes "size f 1\n" }
{}

/// A coarsened tree is reconstructed, and its name stands for it; a compressed tree has a size too.
fn coarsened_compressed_and_counted()
    ensures { job_text (record { depth = 2; commands = Project (codes "f") (record { function = Step 2 (pos 3) (pos 1); level = 2; tolerance = 0 }) ∷ Coarsen (codes "f") ∷ Print (codes "f") ∷ Compress (codes "f") ∷ Fence ∷ Size (codes "f") ∷ [] })
        ≡ codes "tree f reconstructed\n1 0 6\n1 1 2\nsize f 3\n" }
{}
