//! Computed examples, as contracts.
ghost use Rattle.std.specs.Prelude.{◌≡◌, [], ◌∷◌, None, Some};
ghost use Rattle.future_cell.specs.declared.callback.Callback.{Callback as CallbackData};
ghost use Rattle.task_tables.specs.Examples.{future_of, futures, second, third, waiting};
ghost use Rattle.task_tables.specs.Futures.{callbacks_of, state_of, value_of};
ghost use Rattle.task_tables.specs.Places.{IsEmptyPlaceOf};
ghost use Rattle.task_tables.specs.Tasks.{IsReadyTask, task_of, with_cell, with_value};

/// A task that needs two futures and reads an entry, filled place by place, is ready at the last and not before.
fn a_task_is_ready_at_its_last_place()
    ensures none { IsReadyTask waiting → ⊥ }
    ensures one { IsReadyTask (with_value waiting 1 7) → ⊥ }
    ensures two { IsReadyTask (with_cell (with_value waiting 1 7) 0 9) → ⊥ }
    ensures values { IsReadyTask (with_value (with_value waiting 1 7) 0 5) → ⊥ }
    ensures last { IsReadyTask (with_value (with_cell (with_value waiting 1 7) 0 9) 0 5) }
    ensures filled { (with_value (with_value waiting 1 7) 0 5).values ≡ Some 5 ∷ Some 7 ∷ [] }
    ensures waits { task_of ((6, waiting) ∷ []) 6 ≡ Some waiting }
    ensures unknown { task_of ((6, waiting) ∷ []) 5 ≡ None }
{}

/// A place is one for the future of its index, while it is empty.
fn a_place_is_for_one_future()
    ensures here { IsEmptyPlaceOf waiting.needs waiting.values 1 third }
    ensures another { IsEmptyPlaceOf waiting.needs waiting.values 1 second → ⊥ }
    ensures beyond { IsEmptyPlaceOf waiting.needs waiting.values 2 third → ⊥ }
    ensures filled { IsEmptyPlaceOf waiting.needs (with_value waiting 1 7).values 1 third → ⊥ }
{}

/// A future has its value, or callbacks that wait for it; of others nothing is known.
fn futures_have_a_value_or_callbacks()
    ensures value { (a b : CallbackData) → value_of (state_of (futures (a ∷ b ∷ [])) (future_of second)) ≡ Some 5 }
    ensures no_callbacks { (a b : CallbackData) → callbacks_of (state_of (futures (a ∷ b ∷ [])) (future_of second)) ≡ [] }
    ensures no_value { (a b : CallbackData) → value_of (state_of (futures (a ∷ b ∷ [])) (future_of third)) ≡ None }
    ensures callbacks { (a b : CallbackData) → callbacks_of (state_of (futures (a ∷ b ∷ [])) (future_of third)) ≡ a ∷ b ∷ [] }
    ensures unknown { (a b : CallbackData) → state_of (futures (a ∷ b ∷ [])) (future_of (record { command = 2; part = 0; place = 2 })) ≡ None }
{}
