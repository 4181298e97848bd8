//! Computed examples, as contracts.
ghost use Rattle.std.specs.Prelude.{◌≡◌, ◌∷◌, [], Some, None};
ghost use Rattle.crew.specs.Examples.{tenfold, three};
ghost use Rattle.crew.specs.Results.{AreRightValues, IsRightFor, work_commands};

/// Of a work command, a fence and a work command the first and the third have results.
fn work_commands_are_numbered()
    ensures { work_commands three ≡ 1 ∷ 3 ∷ [] }
{}

/// Where the right value of a future is its place: the values in order; one left out; two exchanged; a value of a command
/// without a result.
fn values_are_judged()
    ensures right { AreRightValues (λ future value. value ≡ future.place) tenfold three (10 ∷ 30 ∷ []) }
    ensures missing { AreRightValues (λ future value. value ≡ future.place) tenfold three (10 ∷ []) → ⊥ }
    ensures exchanged { AreRightValues (λ future value. value ≡ future.place) tenfold three (30 ∷ 10 ∷ []) → ⊥ }
    ensures fence { IsRightFor (λ future value. value ≡ future.place) (tenfold 2) 20 → ⊥ }
{}
