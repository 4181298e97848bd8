//! Computed examples of effects that are stored, and of effects that lend the labels of their needs.
ghost use Rattle.std.specs.Prelude.{◌≡◌, ℕ, List, Some, [], ◌∷◌, map};
ghost use Rattle.std.specs.Borrow.{Bor};
ghost use Rattle.app_core.specs.declared.label.Label.{Label as LabelData};
ghost use Rattle.app_core.specs.declared.label.CellName.{CellName as CellNameData};
ghost use Rattle.app_core.specs.declared.effect.Effect.TheVariants as whole;
ghost use Rattle.app_core.specs.declared.effect_with.EffectWith.{EffectWith as EffectWithData};
ghost use Rattle.app_core.specs.declared.effect_with.EffectWith.TheVariants as of;
ghost use Rattle.app_core.specs.declared.effect_with.Span.{Span as SpanData};
ghost use Rattle.app_core.specs.StoredEffects.{stored_effect, lent_effects};

/// Beside three labels, a spawn that has the first two and one that has the third need just these, in their order.
fn each_spawn_has_the_labels_of_its_span()
    ensures { (a b c : LabelData) →
        let items : List (EffectWithData ℕ ℕ ℕ SpanData) = of.SpawnNeeding 1 (record { from = 0; count = 2 }) ∷ of.Spawn 2 ∷ of.SpawnNeeding 3 (record { from = 2; count = 1 }) ∷ [] in
        map (stored_effect (a ∷ b ∷ c ∷ [])) items ≡ whole.SpawnNeeding 1 (a ∷ b ∷ []) ∷ whole.Spawn 2 ∷ whole.SpawnNeeding 3 (c ∷ []) ∷ [] }
{}

/// Labels that are lent are the needs, and an effect without needs is itself.
fn lent_labels_are_the_needs()
    ensures needs { (labels : Bor (List LabelData)) →
        let lent : EffectWithData ℕ ℕ ℕ (Bor (List LabelData)) = of.SpawnNeeding 1 labels in
        lent_effects (Some lent) ≡ whole.SpawnNeeding 1 labels.now ∷ [] }
    ensures spawn { let lent : EffectWithData ℕ ℕ ℕ (Bor (List LabelData)) = of.Spawn 1 in lent_effects (Some lent) ≡ whole.Spawn 1 ∷ [] }
    ensures give { (future : LabelData) →
        let lent : EffectWithData ℕ ℕ ℕ (Bor (List LabelData)) = of.Give future 7 in
        lent_effects (Some lent) ≡ whole.Give future 7 ∷ [] }
    ensures put { (entry : CellNameData) →
        let lent : EffectWithData ℕ ℕ ℕ (Bor (List LabelData)) = of.Put entry 5 in
        lent_effects (Some lent) ≡ whole.Put entry 5 ∷ [] }
    ensures erase { (entry : CellNameData) →
        let lent : EffectWithData ℕ ℕ ℕ (Bor (List LabelData)) = of.Erase entry in
        lent_effects (Some lent) ≡ whole.Erase entry ∷ [] }
{}
