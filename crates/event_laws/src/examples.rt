//! Examples that were computed by hand: each function's contract is one, and its body is empty.
ghost use Rattle.std.specs.Prelude.{[], ◌∷◌, List};
ghost use Rattle.app_core.specs.declared.outline.CommandKind.{CommandKind as CommandKindData};
ghost use Rattle.app_core.specs.declared.outline.CommandKind.TheVariants.{Work as work, Fence as fence};
ghost use Rattle.event_laws.specs.Held.{IsBefore, IsAfter, AreDifferent};

/// Of a command, a fence and a command the first comes before the first fence, and the last after it and before the
/// second, which comes at the end. The command of a fence comes after it.
pub fn fences_order_commands()
    ensures first { let kinds : List CommandKindData = work ∷ fence ∷ work ∷ [] in IsBefore kinds 1 1 × (IsAfter kinds 1 1 → ⊥) }
    ensures fence { let kinds : List CommandKindData = work ∷ fence ∷ work ∷ [] in IsAfter kinds 2 1 × (IsBefore kinds 2 1 → ⊥) }
    ensures last { let kinds : List CommandKindData = work ∷ fence ∷ work ∷ [] in IsAfter kinds 3 1 × (IsBefore kinds 3 1 → ⊥) }
    ensures end { let kinds : List CommandKindData = work ∷ fence ∷ work ∷ [] in IsBefore kinds 3 2 × (IsAfter kinds 3 2 → ⊥) }
{}

/// Places are different where none of them is there twice, next to one another or apart.
pub fn equal_places_are_refused()
    ensures none { AreDifferent [] }
    ensures different { AreDifferent (2 ∷ 3 ∷ 5 ∷ []) }
    ensures twice { AreDifferent (2 ∷ 2 ∷ []) → ⊥ }
    ensures apart { AreDifferent (2 ∷ 3 ∷ 2 ∷ []) → ⊥ }
{}
