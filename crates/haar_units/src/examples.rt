//! Examples that were computed by hand: each function's contract is one, and its body is empty.
//!
//! `small_job` projects a tree of the keys 1, 2, 3, 6 and 7, coarsens it, which erases 6 and 7, and after a fence counts
//! its keys. There are two ranks, and rank 1 owns the keys 2 and 7.
ghost use Rattle.std.specs.Prelude.{◌≡◌, ℕ, ◌≤◌, true, false, List, [], ◌∷◌, ◌==◌, length, map, Some, None};
ghost use Rattle.std.specs.List.{range_with_len};
ghost use Rattle.app_core.specs.declared.outline.Outline.{Outline as OutlineData};
ghost use Rattle.app_core.specs.declared.outline.Outline.TheVariants as of;
ghost use Rattle.app_core.specs.declared.outline.CommandKind.TheVariants as is;
ghost use Rattle.event_laws.specs.Follows.{Start, Wait};
ghost use Rattle.haar_units.specs.Jobs.{Operation, operation_at, is_on_trees, is_size, is_coarsen, puts_down, puts_up, kind_of, kinds};
ghost use Rattle.haar_units.specs.Units.{label, down_unit, up_unit, erase_unit, count_unit, sum_unit, key_future, count_future, entry, parent, due, needs, home, creator, future_home};
ghost use Rattle.haar_units.specs.Starts.{starts, program};
ghost use Rattle.haar_units.specs.Traversals.{IsTraversal, plan, units};
ghost use Rattle.haar_units.specs.Actions.{Allowed};
ghost use Rattle.haar_units.specs.Bins.{writer_of, holds};
ghost use Rattle.haar_units.specs.Laws.{stage};
ghost use Rattle.haar_units.specs.Totals.{total_of};
ghost use Rattle.tree_key.specs.Keys.{root};
ghost use Rattle.haar_units.specs.Places.{key_at, has_place};
ghost use Rattle.haar_units.specs.SmallJob.{all_operations, small_job, small_traversal, small_readers, two_blocks, seven_keys, all_commands};
ghost use Rattle.haar_units.specs.Jobs.Operation.{Project, Coarsen, Size, Fence};
ghost use Rattle.haar_units.specs.Drops.{dropped_of};
ghost use Rattle.haar_units.specs.Distributions.{place_owner};
ghost use Rattle.haar_units.specs.ModelJobs.{operation_of, distributed, traversal_of, before_fence};
ghost use Rattle.tree_model.specs.Totals.{total_of as serial_total};

/// The labels of units and futures, and the names of entries, by their numbers.
fn labels_have_parts()
    ensures down { down_unit 2 6 ≡ record { command = 2; part = 0; place = 6 } }
    ensures up { up_unit 2 3 ≡ record { command = 2; part = 1; place = 3 } }
    ensures erase { erase_unit 2 7 ≡ record { command = 2; part = 2; place = 7 } }
    ensures count { count_unit 4 1 ≡ record { command = 4; part = 3; place = 1 } }
    ensures sum { sum_unit 4 ≡ record { command = 4; part = 4; place = 1 } }
    ensures of_key { key_future 2 6 ≡ record { command = 2; part = 0; place = 6 } }
    ensures of_count { count_future 4 1 ≡ record { command = 4; part = 1; place = 1 } }
    ensures entry { entry 2 6 ≡ record { version = 2; place = 6 } }
{}

/// Which operations visit keys, and whether their units put nodes on the way down or on the way up.
fn operations_put_nodes()
    ensures kinds { map kind_of all_operations ≡ is.Work ∷ is.Work ∷ is.Work ∷ is.Work ∷ is.Work ∷ is.Work ∷ is.Work ∷ is.Work ∷ is.Work ∷ is.Work ∷ is.Fence ∷ [] }
    ensures on_trees { map is_on_trees all_operations ≡ true ∷ true ∷ true ∷ true ∷ true ∷ true ∷ true ∷ true ∷ true ∷ false ∷ false ∷ [] }
    ensures down { map puts_down all_operations ≡ true ∷ true ∷ false ∷ false ∷ true ∷ true ∷ true ∷ false ∷ false ∷ false ∷ false ∷ [] }
    ensures up { map puts_up all_operations ≡ false ∷ false ∷ true ∷ true ∷ false ∷ false ∷ false ∷ false ∷ false ∷ false ∷ false ∷ [] }
    ensures coarsen { map is_coarsen all_operations ≡ false ∷ false ∷ true ∷ false ∷ false ∷ false ∷ false ∷ false ∷ false ∷ false ∷ false ∷ [] }
    ensures size { map is_size all_operations ≡ false ∷ false ∷ false ∷ false ∷ false ∷ false ∷ false ∷ false ∷ false ∷ true ∷ false ∷ [] }
{}

/// Which unit spawns a unit: the down unit of the parent's key, the down unit of the key, the up unit of the parent's
/// key; and none spawns the first unit of a command, or one of `size`.
fn labels_determine_parents()
    ensures down { parent (down_unit 2 7) ≡ Some (down_unit 2 3) }
    ensures left { parent (down_unit 2 6) ≡ Some (down_unit 2 3) }
    ensures root { parent (down_unit 2 1) ≡ None }
    ensures up { parent (up_unit 2 3) ≡ Some (down_unit 2 3) }
    ensures erase { parent (erase_unit 2 7) ≡ Some (up_unit 2 3) }
    ensures count { parent (count_unit 4 1) ≡ None }
    ensures sum { parent (sum_unit 4) ≡ None }
{}

/// Which future a unit fulfils, and which it needs.
fn labels_determine_dues_and_needs()
    ensures down { due (down_unit 2 6) ≡ Some (key_future 2 6) }
    ensures up { due (up_unit 2 3) ≡ Some (key_future 2 3) }
    ensures erase { due (erase_unit 2 7) ≡ None }
    ensures count { due (count_unit 4 1) ≡ Some (count_future 4 1) }
    ensures sum { due (sum_unit 4) ≡ Some (key_future 4 1) }
    ensures down_needs { needs small_job (down_unit 2 3) ≡ [] }
    ensures up_needs { needs small_job (up_unit 2 3) ≡ key_future 2 6 ∷ key_future 2 7 ∷ [] }
    ensures erase_needs { needs small_job (erase_unit 2 7) ≡ [] }
    ensures count_needs { needs small_job (count_unit 4 1) ≡ [] }
    ensures sum_needs { needs small_job (sum_unit 4) ≡ count_future 4 0 ∷ count_future 4 1 ∷ [] }
{}

/// Where a unit runs: at the owner of its key, at the rank that it counts, or at rank 0.
fn labels_determine_homes()
    ensures down { home small_job (down_unit 2 7) ≡ 1 }
    ensures up { home small_job (up_unit 2 3) ≡ 0 }
    ensures erase { home small_job (erase_unit 2 7) ≡ 1 }
    ensures other { home small_job (erase_unit 2 6) ≡ 0 }
    ensures count { home small_job (count_unit 4 1) ≡ 1 }
    ensures sum { home small_job (sum_unit 4) ≡ 0 }
{}

/// Which unit creates a future, and which rank keeps it: the owner of the parent of its key, or rank 0.
fn futures_have_creators_and_homes()
    ensures left { creator (key_future 2 6) ≡ Some (down_unit 2 3) }
    ensures right { creator (key_future 2 7) ≡ Some (down_unit 2 3) }
    ensures result { creator (key_future 2 1) ≡ None }
    ensures count { creator (count_future 4 1) ≡ None }
    ensures kept_above { future_home small_job (key_future 2 7) ≡ 0 }
    ensures kept_at_two { future_home small_job (key_future 2 5) ≡ 1 }
    ensures kept_result { future_home small_job (key_future 2 1) ≡ 0 }
    ensures kept_count { future_home small_job (count_future 4 1) ≡ 0 }
{}

/// What each command starts, and so what rank 0's main does: it starts the first units of the first two commands, waits,
/// starts those of `size`, and waits at the end.
fn commands_start_units()
    ensures kinds { kinds small_job ≡ is.Work ∷ is.Work ∷ is.Fence ∷ is.Work ∷ [] }
    ensures project { starts small_job 1 ≡ of.Spawn (down_unit 1 1) (Some (key_future 1 1)) [] 0 ∷ [] }
    ensures fence { starts small_job 3 ≡ [] }
    ensures size { starts small_job 4 ≡ of.Spawn (count_unit 4 0) (Some (count_future 4 0)) [] 0 ∷ of.Spawn (count_unit 4 1) (Some (count_future 4 1)) [] 1
        ∷ of.Spawn (sum_unit 4) (Some (key_future 4 1)) (count_future 4 0 ∷ count_future 4 1 ∷ []) 0 ∷ [] }
    ensures no_command { starts small_job 5 ≡ [] }
    ensures program { program small_job ≡ Start (of.Spawn (down_unit 1 1) (Some (key_future 1 1)) [] 0) ∷ Start (of.Spawn (down_unit 2 1) (Some (key_future 2 1)) [] 0) ∷ Wait
        ∷ Start (of.Spawn (count_unit 4 0) (Some (count_future 4 0)) [] 0) ∷ Start (of.Spawn (count_unit 4 1) (Some (count_future 4 1)) [] 1)
        ∷ Start (of.Spawn (sum_unit 4) (Some (key_future 4 1)) (count_future 4 0 ∷ count_future 4 1 ∷ []) 0) ∷ Wait ∷ [] }
{}

/// What the units of `project` do: a down unit puts its node, and gives its due if it stops, or spawns the units of both
/// children and the one that takes over its due.
fn project_puts_on_the_way_down()
    ensures stop { plan small_job small_traversal (down_unit 1 7) ≡ of.Put (entry 1 7) ∷ of.Give (key_future 1 7) 0 ∷ [] }
    ensures descend { plan small_job small_traversal (down_unit 1 1) ≡ of.Put (entry 1 1) ∷ of.Spawn (down_unit 1 2) (Some (key_future 1 2)) [] 1
        ∷ of.Spawn (down_unit 1 3) (Some (key_future 1 3)) [] 0 ∷ of.Spawn (up_unit 1 1) (Some (key_future 1 1)) (key_future 1 2 ∷ key_future 1 3 ∷ []) 0 ∷ [] }
    ensures combine { plan small_job small_traversal (up_unit 1 3) ≡ of.Give (key_future 1 3) 0 ∷ [] }
{}

/// What the units of `coarsen` do: the node is put where the tree ends, or by an up unit; one that merges has both
/// children erased, each at its owner.
fn coarsen_puts_on_the_way_up()
    ensures stop { plan small_job small_traversal (down_unit 2 2) ≡ of.Put (entry 2 2) ∷ of.Give (key_future 2 2) 0 ∷ [] }
    ensures descend { plan small_job small_traversal (down_unit 2 3) ≡ of.Spawn (down_unit 2 6) (Some (key_future 2 6)) [] 0
        ∷ of.Spawn (down_unit 2 7) (Some (key_future 2 7)) [] 1 ∷ of.Spawn (up_unit 2 3) (Some (key_future 2 3)) (key_future 2 6 ∷ key_future 2 7 ∷ []) 0 ∷ [] }
    ensures merge { plan small_job small_traversal (up_unit 2 3) ≡ of.Put (entry 2 3) ∷ of.Spawn (erase_unit 2 6) None [] 0
        ∷ of.Spawn (erase_unit 2 7) None [] 1 ∷ of.Give (key_future 2 3) 0 ∷ [] }
    ensures combine { plan small_job small_traversal (up_unit 2 1) ≡ of.Put (entry 2 1) ∷ of.Give (key_future 2 1) 0 ∷ [] }
    ensures erase { plan small_job small_traversal (erase_unit 2 7) ≡ of.Erase (entry 2 7) ∷ [] }
{}

/// What the units of `size` do: they give counts to rank 0, and their sum is the result.
fn size_gives_counts()
    ensures count { plan small_job small_traversal (count_unit 4 1) ≡ of.Give (count_future 4 1) 0 ∷ [] }
    ensures sum { plan small_job small_traversal (sum_unit 4) ≡ of.Give (key_future 4 1) 0 ∷ [] }
{}

/// The units of each command, and fences before them: 7 of `project`, 9 of `coarsen`, 3 of `size`.
fn units_are_listed()
    ensures project { units small_job small_traversal (λ command. command == 1) 8 ≡ up_unit 1 3 ∷ up_unit 1 1
        ∷ down_unit 1 7 ∷ down_unit 1 6 ∷ down_unit 1 3 ∷ down_unit 1 2 ∷ down_unit 1 1 ∷ [] }
    ensures coarsen { units small_job small_traversal (λ command. command == 2) 8 ≡ erase_unit 2 7 ∷ erase_unit 2 6 ∷ up_unit 2 3 ∷ up_unit 2 1
        ∷ down_unit 2 7 ∷ down_unit 2 6 ∷ down_unit 2 3 ∷ down_unit 2 2 ∷ down_unit 2 1 ∷ [] }
    ensures fence { units small_job small_traversal (λ command. command == 3) 8 ≡ [] }
    ensures size { units small_job small_traversal (λ command. command == 4) 8 ≡ sum_unit 4 ∷ count_unit 4 1 ∷ count_unit 4 0 ∷ [] }
    ensures early { stage small_job (up_unit 2 3) ≡ 0 }
    ensures late { stage small_job (sum_unit 4) ≡ 1 }
{}

/// Which command writes a version, and which of its entries each rank holds: all keys of the projected tree; without the
/// erased ones after `coarsen`.
fn ranks_hold_entries()
    ensures project { writer_of small_job 1 ≡ Some 1 }
    ensures coarsen { writer_of small_job 2 ≡ Some 2 }
    ensures fence { writer_of small_job 3 ≡ None }
    ensures size { writer_of small_job 4 ≡ None }
    ensures none { writer_of small_job 0 ≡ None }
    ensures projected { holds small_job small_traversal 8 0 1 ≡ 6 ∷ 3 ∷ 1 ∷ [] }
    ensures projected_elsewhere { holds small_job small_traversal 8 1 1 ≡ 7 ∷ 2 ∷ [] }
    ensures coarsened { holds small_job small_traversal 8 0 2 ≡ 3 ∷ 1 ∷ [] }
    ensures coarsened_elsewhere { holds small_job small_traversal 8 1 2 ≡ 2 ∷ [] }
{}

/// The numbers of messages and of tasks. `project` has 5 + 2 tasks, and sends 4 messages: the units of 2 and 7, and what
/// they give. `coarsen` has 5 + 2 + 2 and sends 5, one of them the unit that erases 7. `size` has 3 and sends 2.
fn totals_of_a_small_job()
    ensures first_fence { total_of small_job small_traversal 8 1 ≡ (9, 16) }
    ensures end { total_of small_job small_traversal 8 2 ≡ (11, 19) }
    ensures before { total_of small_job small_traversal 8 0 ≡ (0, 0) }
{}

/// Keys of places. Place 0 has no key, so no set of keys has it.
fn places_name_keys()
    ensures root { key_at 1 ≡ root }
    ensures left { key_at 6 ≡ record { level = 2; at = 2 } }
    ensures right { key_at 7 ≡ record { level = 2; at = 3 } }
    ensures deep { key_at 21 ≡ record { level = 4; at = 5 } }
    ensures none { has_place (λ k. true) 0 ≡ false }
    ensures some { has_place (λ k. k.level == 2) 6 ≡ true }
    ensures other { has_place (λ k. k.level == 2) 3 ≡ false }
{}

/// The small job's commands visit shapes. So the laws speak of it.
fn the_small_job_visits_shapes()
    ensures { (command : ℕ) (operation : Operation) → operation_at small_job command ≡ Some operation → is_on_trees operation ≡ true → IsTraversal small_job small_traversal 8 command }
{}

/// After an overflow units may do other things than what is planned: stop above the leaves, or leave both children of a
/// key where they are.
fn other_actions_are_allowed()
    ensures stop { Allowed small_job (down_unit 1 3) (of.Put (entry 1 3) ∷ of.Give (key_future 1 3) 0 ∷ []) }
    ensures combine { Allowed small_job (up_unit 2 3) (of.Put (entry 2 3) ∷ of.Give (key_future 2 3) 0 ∷ []) }
{}

/// But no unit of `project` gives its future without a put or before it, or puts the entry of another key, or has
/// children erased; a unit of `coarsen` has both children erased, or none. A fence has no units; and no units have
/// parts from 5 on, or place 0 where the place is of a key.
fn some_lists_are_not_allowed()
    ensures no_put { Allowed small_job (down_unit 1 7) (of.Give (key_future 1 7) 0 ∷ []) → ⊥ }
    ensures put_last { Allowed small_job (down_unit 1 7) (of.Give (key_future 1 7) 0 ∷ of.Put (entry 1 7) ∷ []) → ⊥ }
    ensures put_of_parent { Allowed small_job (down_unit 1 7) (of.Put (entry 1 3) ∷ of.Give (key_future 1 7) 0 ∷ []) → ⊥ }
    ensures merge_of_project { Allowed small_job (up_unit 1 3) (of.Put (entry 1 3) ∷ of.Spawn (erase_unit 1 6) None [] 0 ∷ of.Spawn (erase_unit 1 7) None [] 1 ∷ of.Give (key_future 1 3) 0 ∷ []) → ⊥ }
    ensures half_merge { Allowed small_job (up_unit 2 3) (of.Put (entry 2 3) ∷ of.Spawn (erase_unit 2 6) None [] 0 ∷ of.Give (key_future 2 3) 0 ∷ []) → ⊥ }
    ensures no_fence { (part place : ℕ) (os : List OutlineData) → Allowed small_job (label 3 part place) os → ⊥ }
    ensures no_parts { (part place : ℕ) (os : List OutlineData) → 5 ≤ part → Allowed small_job (label 2 part place) os → ⊥ }
    ensures no_place { (os : List OutlineData) → Allowed small_job (down_unit 2 0) os → ⊥ }
{}

/// A version is dropped at the first fence after all that read it. Version 1 is read by `coarsen`, version 2 by `size`; or
/// both by `size`; or none by any.
fn versions_are_dropped()
    ensures first { dropped_of small_job small_readers 1 ≡ 1 ∷ [] }
    ensures end { dropped_of small_job small_readers 2 ≡ 2 ∷ [] }
    ensures before { dropped_of small_job small_readers 0 ≡ [] }
    ensures later { dropped_of small_job small_readers 3 ≡ [] }
    ensures read_later { dropped_of small_job (λ command version. command == 4) 1 ≡ [] }
    ensures both { dropped_of small_job (λ command version. command == 4) 2 ≡ 1 ∷ 2 ∷ [] }
    ensures unread { dropped_of small_job (λ command version. false) 1 ≡ 1 ∷ 2 ∷ [] }
{}

/// The operation of each command.
fn commands_have_operations()
    ensures { map operation_of all_commands ≡ all_operations }
{}

/// A job of the model: a tree of all seven keys at depth 2 is projected, and coarsened to its root; after a fence its keys
/// are counted. Two ranks own keys by blocks: rank 1 owns the keys 3, 6 and 7, so only the key 3 has another owner than its
/// parent. `project` has 7 + 3 tasks and sends 2 messages; `coarsen` has 7 + 3 + 6 and sends 3; `size` has 3 and sends 2.
fn a_job_of_the_model()
    ensures operations { (distributed two_blocks seven_keys).operations ≡ Project ∷ Coarsen ∷ Fence ∷ Size ∷ [] }
    ensures owners { map (place_owner two_blocks) (range_with_len 0 8) ≡ 0 ∷ 0 ∷ 0 ∷ 1 ∷ 0 ∷ 0 ∷ 1 ∷ 1 ∷ [] }
    ensures visits { map ((traversal_of 2 seven_keys).visits 2) (range_with_len 0 9) ≡ false ∷ true ∷ true ∷ true ∷ true ∷ true ∷ true ∷ true ∷ false ∷ [] }
    ensures erases { map ((traversal_of 2 seven_keys).erases 2) (range_with_len 0 9) ≡ false ∷ false ∷ true ∷ true ∷ true ∷ true ∷ true ∷ true ∷ false ∷ [] }
    ensures projected { holds (distributed two_blocks seven_keys) (traversal_of 2 seven_keys) 8 1 1 ≡ 7 ∷ 6 ∷ 3 ∷ [] }
    ensures coarsened { holds (distributed two_blocks seven_keys) (traversal_of 2 seven_keys) 8 0 2 ≡ 1 ∷ [] }
    ensures first_fence { total_of (distributed two_blocks seven_keys) (traversal_of 2 seven_keys) 8 1 ≡ (5, 26) }
    ensures end { total_of (distributed two_blocks seven_keys) (traversal_of 2 seven_keys) 8 2 ≡ (7, 29) }
    ensures serial_first { serial_total two_blocks 2 (before_fence 1 seven_keys) ≡ record { messages = 5; tasks = 26 } }
    ensures serial_end { serial_total two_blocks 2 (before_fence 2 seven_keys) ≡ record { messages = 7; tasks = 29 } }
    ensures before_first { length (before_fence 1 seven_keys) ≡ 2 }
    ensures before_end { length (before_fence 2 seven_keys) ≡ 4 }
    ensures before_none { length (before_fence 0 seven_keys) ≡ 0 }
{}
