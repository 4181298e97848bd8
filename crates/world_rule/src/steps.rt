//! The atomic steps, by what each tells the seat that takes it.
ghost use Rattle.std.specs.Prelude.{ℕ, List, Option};
ghost use Rattle.app_core.specs.declared.label.Label.{Label};
ghost use Rattle.app_core.specs.declared.outline.Outline.{Outline};
ghost use Rattle.event_laws.specs.Follows.{Doing};
ghost use Rattle.event_lists.specs.declared.lane.LaneName.{LaneName};
ghost use Rattle.event_lists.specs.declared.event.Event.{Event};
ghost use Rattle.event_lists.specs.declared.mark.EffectName.{EffectName};
ghost use Rattle.world_rule.specs.declared.view.Progress.{Progress};

use crate::view::View;
use atomic_table::Play;
use std::marker::{Brand, PhantomData};

/// What a step speaks of. A call picks the members at `Brand`, from its own arguments.
pub trait RunParameters {
    /// How many ranks there are.
    ghost ranks: { ℕ };

    /// How many workers each rank has.
    ghost workers: { ℕ };

    /// What rank 0's main does.
    ghost program: { List Doing };

    /// The effects that a unit with this label may have.
    ghost may: { Label → List Outline → Type 0 };

    /// The lane of the event that is appended, or of the look.
    ghost lane: { LaneName };

    /// The event, but for the number that the step finds.
    ghost event: { Event };

    /// The effect that the event carries out.
    ghost effect: { Option EffectName };

    /// The task in hand, as it is begun or as the next effect is drawn.
    ghost task: { Progress };

    /// The effect that is drawn.
    ghost outline: { Outline };
}

impl RunParameters for Brand {
    ghost use Rattle.std.specs.Prelude.{None, [], true};
    ghost use Rattle.world_rule.specs.Owing.{no_event};
    ghost use Rattle.world_rule.specs.Views.{no_lane, no_task, no_outline};

    ghost ranks = { 0 };

    ghost workers = { 0 };

    ghost program = { [] };

    ghost may = { λ _ _. Unit {0} };

    ghost lane = { no_lane };

    ghost event = { no_event };

    ghost effect = { None };

    ghost task = { no_task };

    ghost outline = { no_outline };
}

/// An event is appended.
pub struct Append<Q> {
    marker: PhantomData<Q>,
}

impl<Q: RunParameters> Play<(), View> for Append<Q> {
    ghost use Rattle.world_rule.specs.Steps.{Appends};

    ghost then = { λ s m n w. Appends Q.ranks Q.workers Q.program Q.may Q.lane Q.event Q.effect m n w };
}

/// A word is looked at, without an event.
pub struct Look<Q> {
    marker: PhantomData<Q>,
}

impl<Q: RunParameters> Play<(), View> for Look<Q> {
    ghost use Rattle.world_rule.specs.Steps.{Finds};

    ghost then = { λ s m n w. Finds Q.ranks Q.workers Q.program Q.may s.word m n w };
}

/// The task in hand is begun.
pub struct BeginTask<Q> {
    marker: PhantomData<Q>,
}

impl<Q: RunParameters> Play<(), View> for BeginTask<Q> {
    ghost use Rattle.world_rule.specs.Steps.{BeginsTask};

    ghost then = { λ s m n w. BeginsTask Q.ranks Q.workers Q.program Q.may Q.task m w };
}

/// The next effect of the task in hand is drawn.
pub struct DrawEffect<Q> {
    marker: PhantomData<Q>,
}

impl<Q: RunParameters> Play<(), View> for DrawEffect<Q> {
    ghost use Rattle.world_rule.specs.Steps.{DrawsEffect};

    ghost then = { λ s m n w. DrawsEffect Q.ranks Q.workers Q.program Q.may Q.task Q.outline m w };
}

/// The count of tasks that ran at the lane's rank is looked at.
pub struct LookRan<Q> {
    marker: PhantomData<Q>,
}

impl<Q: RunParameters> Play<(), View> for LookRan<Q> {
    ghost use Rattle.event_lists.specs.declared.kind.Kind.TheVariants.{Runs};
    ghost use Rattle.world_rule.specs.Steps.{SeesCount};

    ghost then = { λ s m n w. SeesCount Q.ranks Q.workers Q.program Q.may Runs Q.lane.rank m n w };
}

/// The count of tasks submitted at the lane's rank is looked at.
pub struct LookSubmitted<Q> {
    marker: PhantomData<Q>,
}

impl<Q: RunParameters> Play<(), View> for LookSubmitted<Q> {
    ghost use Rattle.event_lists.specs.declared.kind.Kind.TheVariants.{Submissions};
    ghost use Rattle.world_rule.specs.Steps.{SeesCount};

    ghost then = { λ s m n w. SeesCount Q.ranks Q.workers Q.program Q.may Submissions Q.lane.rank m n w };
}

/// The stop word is set.
pub struct SetStop<Q> {
    marker: PhantomData<Q>,
}

impl<Q: RunParameters> Play<(), View> for SetStop<Q> {
    ghost use Rattle.world_rule.specs.Steps.{SetsStop};

    ghost then = { λ s m n w. SetsStop Q.ranks Q.workers Q.program Q.may m w };
}

/// The stop word is looked at.
pub struct SeeStop<Q> {
    marker: PhantomData<Q>,
}

impl<Q: RunParameters> Play<(), View> for SeeStop<Q> {
    ghost use Rattle.world_rule.specs.Steps.{SeesStop};

    ghost then = { λ s m n w. SeesStop Q.ranks Q.workers Q.program Q.may m n w };
}
