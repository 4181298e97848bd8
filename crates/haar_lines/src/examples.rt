//! Rows of lines, computed by hand.
ghost use Rattle.std.specs.Prelude.{◌≡◌, ◌∷◌, [], codes};
ghost use Rattle.haar_lines.specs.Rows.{beside};

/// Rows are put side by side, and a longer half goes on.
pub fn rows_side_by_side()
    ensures { beside (codes "a" ∷ codes "b" ∷ []) (codes "c" ∷ codes "d" ∷ codes "e" ∷ []) ≡ codes "ac" ∷ codes "bd" ∷ codes "e" ∷ [] }
{}
