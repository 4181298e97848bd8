//! The limits of the numbers of a line, as a reader finds them, and of a job that may be traced, computed. What is expected
//! was worked out by hand.
ghost use Rattle.std.specs.Prelude.{◌≡◌, [], ◌∷◌, None, Some, codes, false, map, replicate, true};
ghost use Rattle.tree_model.specs.Commands.Command.{Fence};
ghost use Rattle.job_lang.specs.Kinds.{lowest_kind};
ghost use Rattle.job_data.specs.declared.fault_kind.FaultKind.TheVariants.{BeyondLimits};
ghost use Rattle.job_data.specs.Samples.{constant};
ghost use Rattle.job_data.specs.Versions.{trace_fits};

/// Numbers of a line that may not be negative, and are.
pub fn negative_numbers()
    ensures { map (lowest_kind 2 (constant (codes "f") ∷ []))
        (codes "project f step -1 0 0 level 0 tol 0" ∷ codes "project f box -1 0 0 level 0 tol 0"
        ∷ codes "project f box 0 -1 0 level 0 tol 0" ∷ codes "project f hash -1 1 level 0 tol 0"
        ∷ codes "project f hash 0 -1 level 0 tol 0" ∷ codes "project f const 0 level -1 tol 0"
        ∷ codes "project f const 0 level 0 tol -1" ∷ codes "refine f -1" ∷ [])
        ≡ replicate 8 (Some BeyondLimits) }
{}

/// Numbers of a line at their limits, and one above them, as a reader finds them.
pub fn numbers_of_lines()
    ensures at { map (lowest_kind 2 (constant (codes "f") ∷ []))
        (codes "project f ramp 0 5592405 level 2 tol 33554432" ∷ codes "project f step 4 0 0 level 0 tol 0"
        ∷ codes "project f box 4 4 0 level 0 tol 0" ∷ codes "project f hash 4294967295 16777216 level 0 tol 0"
        ∷ codes "refine f 2" ∷ [])
        ≡ replicate 5 None }
    ensures above { map (lowest_kind 2 (constant (codes "f") ∷ []))
        (codes "project f ramp 0 5592406 level 0 tol 0" ∷ codes "project f const 0 level 0 tol 33554433"
        ∷ codes "project f step 5 0 0 level 0 tol 0" ∷ codes "project f box 5 5 0 level 0 tol 0"
        ∷ codes "project f hash 4294967296 1 level 0 tol 0" ∷ codes "project f hash 0 16777217 level 0 tol 0"
        ∷ codes "refine f 3" ∷ [])
        ≡ replicate 7 (Some BeyondLimits) }
{}

/// A job that may be traced, and each limit alone.
pub fn traces()
    ensures at { trace_fits (record { depth = 10; commands = replicate 64 Fence }) ≡ true }
    ensures depth { trace_fits (record { depth = 11; commands = replicate 64 Fence }) ≡ false }
    ensures commands { trace_fits (record { depth = 10; commands = replicate 65 Fence }) ≡ false }
{}
