//! Laws on what is known of the needs of tasks. The functions do nothing.
ghost use Rattle.std.specs.Prelude.{List};
ghost use Rattle.event_lists.specs.declared.mark.Mark.{Mark};
ghost use Rattle.event_lists.specs.Events.{Begins};
ghost use Rattle.world_rule.specs.declared.view.Pending.{Pending};
ghost use Rattle.world_rule.specs.Owing.{NeedsKnown};

/// Needs that are known as given stay known as given to whoever learns more.
pub fn known_needs_stay_known()
    ensures { (p : Pending) (told old new : List Mark) → NeedsKnown p told old → Begins old new → NeedsKnown p told new }
{}
