//! Each limit of a job and of the numbers of its commands, at it and one above it, computed. What is expected was worked out
//! by hand.
ghost use Rattle.std.specs.Prelude.{◌≡◌, [], ◌∷◌, ◌+◌, codes, false, map, negsuc, pos, replicate, true};
ghost use Rattle.std.specs.List.{list_all, list_any, range_with_len};
ghost use Rattle.tree_model.specs.Commands.Command.{Add, Coarsen, Fence, Print, Project, Refine, Size};
ghost use Rattle.tree_model.specs.Functions.Function.{Box, Const, Hash, Ramp, Step};
ghost use Rattle.tree_model.specs.Functions.{fits};
ghost use Rattle.job_data.specs.Checks.{has_fence, has_numbers, has_room, is_near_fence};
ghost use Rattle.job_data.specs.Samples.{constant};

/// Constants, and the depth.
pub fn constants()
    ensures at { list_all (fits 16) (Const (pos 16777216) ∷ Const (negsuc 16777215) ∷ []) ≡ true }
    ensures above { list_any (fits 16) (Const (pos 16777217) ∷ Const (negsuc 16777216) ∷ []) ≡ false }
    ensures depth { fits 17 (Const (pos 0)) ≡ false }
{}

/// The first value of a ramp, and its last, which on four cells is the first and three times the slope.
pub fn values_of_ramps()
    ensures at { list_all (fits 2) (Ramp (pos 16777216) (negsuc 0) ∷ Ramp (negsuc 16777215) (pos 1) ∷ Ramp (pos 16777213) (pos 1) ∷ Ramp (negsuc 16777212) (negsuc 0) ∷ []) ≡ true }
    ensures above { list_any (fits 2) (Ramp (pos 16777217) (negsuc 0) ∷ Ramp (negsuc 16777216) (pos 1) ∷ Ramp (pos 16777214) (pos 1) ∷ Ramp (negsuc 16777213) (negsuc 0) ∷ []) ≡ false }
{}

/// The slope of a ramp, on one cell and on two.
pub fn slopes_of_ramps()
    ensures at { list_all (fits 0) (Ramp (pos 0) (pos 33554432) ∷ Ramp (pos 0) (negsuc 33554431) ∷ []) ≡ true }
    ensures above { list_any (fits 0) (Ramp (pos 0) (pos 33554433) ∷ Ramp (pos 0) (negsuc 33554432) ∷ []) ≡ false }
    ensures on_two_cells { fits 1 (Ramp (negsuc 16777215) (pos 33554432)) ≡ true }
{}

/// The edge of a step on four cells, and its two values.
pub fn steps()
    ensures at { list_all (fits 2) (Step 0 (pos 16777216) (negsuc 16777215) ∷ Step 4 (negsuc 16777215) (pos 16777216) ∷ []) ≡ true }
    ensures edge_above { fits 2 (Step 5 (pos 0) (pos 0)) ≡ false }
    ensures values_above { list_any (fits 2) (Step 1 (pos 16777217) (pos 0) ∷ Step 1 (negsuc 16777216) (pos 0) ∷ Step 1 (pos 0) (pos 16777217) ∷ Step 1 (pos 0) (negsuc 16777216) ∷ []) ≡ false }
{}

/// The two edges of a box on four cells, and its value.
pub fn boxes()
    ensures at { list_all (fits 2) (Box 0 0 (pos 16777216) ∷ Box 0 4 (negsuc 16777215) ∷ Box 4 4 (pos 0) ∷ []) ≡ true }
    ensures edges_above { list_any (fits 2) (Box 0 5 (pos 0) ∷ Box 5 5 (pos 0) ∷ Box 3 2 (pos 0) ∷ []) ≡ false }
    ensures values_above { list_any (fits 2) (Box 0 4 (pos 16777217) ∷ Box 0 4 (negsuc 16777216) ∷ []) ≡ false }
{}

/// The seed and the modulus of a hash.
pub fn hashes()
    ensures at { list_all (fits 2) (Hash 0 1 ∷ Hash 4294967295 16777216 ∷ []) ≡ true }
    ensures above { list_any (fits 2) (Hash 4294967296 1 ∷ Hash 0 16777217 ∷ Hash 0 0 ∷ []) ≡ false }
{}

/// The level and the tolerance of a projection at depth 2, and the level of `refine`.
pub fn levels_and_tolerances()
    ensures at { list_all (has_numbers 2) (Project (codes "f") (record { function = Const (pos 0); level = 2; tolerance = 33554432 }) ∷ Refine (codes "f") 2 ∷ []) ≡ true }
    ensures level_above { has_numbers 2 (Project (codes "f") (record { function = Const (pos 0); level = 3; tolerance = 0 })) ≡ false }
    ensures tolerance_above { has_numbers 2 (Project (codes "f") (record { function = Const (pos 0); level = 2; tolerance = 33554433 })) ≡ false }
    ensures refined_above { has_numbers 2 (Refine (codes "f") 3) ≡ false }
{}

/// The factors of a sum.
pub fn factors()
    ensures at { list_all (has_numbers 0) (Add (codes "s") (pos 1048576) (codes "f") (negsuc 1048575) (codes "g") ∷ Add (codes "s") (negsuc 1048575) (codes "f") (pos 1048576) (codes "g") ∷ []) ≡ true }
    ensures left_above { list_any (has_numbers 0) (Add (codes "s") (pos 1048577) (codes "f") (pos 0) (codes "g") ∷ Add (codes "s") (negsuc 1048576) (codes "f") (pos 0) (codes "g") ∷ []) ≡ false }
    ensures right_above { list_any (has_numbers 0) (Add (codes "s") (pos 0) (codes "f") (pos 1048577) (codes "g") ∷ Add (codes "s") (pos 0) (codes "f") (negsuc 1048576) (codes "g") ∷ []) ≡ false }
{}

/// A job's commands, its `print`s, and its commands since a fence.
pub fn counts()
    ensures last_command { has_room (replicate 511 Fence) Fence ≡ true }
    ensures commands { has_room (replicate 512 Fence) Fence ≡ false }
    ensures last_print { has_room (replicate 63 (Print (codes "f"))) (Print (codes "f")) ≡ true }
    ensures prints { has_room (replicate 64 (Print (codes "f"))) (Print (codes "f")) ≡ false }
    ensures last_near { is_near_fence (Fence ∷ replicate 31 (Print (codes "f"))) (Print (codes "f")) ≡ true }
    ensures near { is_near_fence (Fence ∷ replicate 32 (Print (codes "f"))) (Print (codes "f")) ≡ false }
    ensures fence { is_near_fence (Fence ∷ replicate 32 (Print (codes "f"))) Fence ≡ true }
{}

/// A job's trees. A name may be written again where there is no room for another.
pub fn trees()
    ensures last { has_room (map (λ i. constant ((97 + i) ∷ [])) (range_with_len 0 15)) (constant (codes "z")) ≡ true }
    ensures above { has_room (map (λ i. constant ((97 + i) ∷ [])) (range_with_len 0 16)) (constant (codes "z")) ≡ false }
    ensures again { has_room (map (λ i. constant ((97 + i) ∷ [])) (range_with_len 0 16)) (constant (codes "a")) ≡ true }
    ensures coarsened { has_room (map (λ i. constant ((97 + i) ∷ [])) (range_with_len 0 16)) (Coarsen (codes "z")) ≡ false }
    ensures counted { has_room (map (λ i. constant ((97 + i) ∷ [])) (range_with_len 0 16)) (Size (codes "z")) ≡ true }
{}

/// A tree is counted only after a fence that comes after the command that last wrote it.
pub fn fences_before_sizes()
    ensures none { has_fence (constant (codes "f") ∷ []) (Size (codes "f")) ≡ false }
    ensures fence { has_fence (constant (codes "f") ∷ Fence ∷ Print (codes "f") ∷ []) (Size (codes "f")) ≡ true }
    ensures fence_before { has_fence (Fence ∷ constant (codes "f") ∷ []) (Size (codes "f")) ≡ false }
    ensures written_again { has_fence (constant (codes "f") ∷ Fence ∷ Coarsen (codes "f") ∷ []) (Size (codes "f")) ≡ false }
    ensures fenced_again { has_fence (constant (codes "f") ∷ Fence ∷ Coarsen (codes "f") ∷ Fence ∷ []) (Size (codes "f")) ≡ true }
    ensures other_tree { has_fence (constant (codes "f") ∷ Fence ∷ constant (codes "g") ∷ []) (Size (codes "f")) ≡ true }
    ensures printed { has_fence (constant (codes "f") ∷ []) (Print (codes "f")) ≡ true }
{}
