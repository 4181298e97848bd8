//! Futures: which were dues or needs of spawns, which were given, and which dues are lacking.
ghost use Rattle.std.specs.Prelude.{◌≡◌, ◌↔◌, ◌≤◌, true, reverse, IsTrue, IsFalse};
ghost use Rattle.std.specs.List.{list_any};
ghost use Rattle.app_core.specs.declared.label.Label.{Label as LabelData};
ghost use Rattle.app_core.specs.Outlines.{same_label};
ghost use Rattle.event_lists.specs.Futures.{was_due, was_needed, times_given};

use crate::items::{own_due, spawner};
use app_core::Label;
use event_lists::{Bringer, Event, Future, Mark};
use event_rules::events;

/// Whether one of these is the label.
fn has_label(labels: &[Label], label: Label) -> bool
    ensures { result ≡ list_any (λ m. same_label label m) labels.now }
{
    labels.iter().any(|other| events::same_label(label, *other))
}

/// Whether this bringer spawned with this due.
pub fn was_due(bringer: Bringer, label: Label, marks: &[Mark]) -> bool
    ensures { result ≡ was_due bringer label (reverse marks.now) }
{
    match marks.split_last() {
        None => false,
        Some((newest, before)) => {
            let here = events::is_due(label, events::spawned_due(&newest.event))
                && spawner(newest.lane, before) == Some(bringer);
            here || was_due(bringer, label, before)
        }
    }
}

/// Whether this bringer spawned with this need.
pub fn was_needed(bringer: Bringer, label: Label, marks: &[Mark]) -> bool
    ensures { result ≡ was_needed bringer label (reverse marks.now) }
{
    match marks.split_last() {
        None => false,
        Some((newest, before)) => {
            let needs = events::spawned_needs(&newest.event);
            let here = has_label(needs.labels(), label)
                && spawner(newest.lane, before) == Some(bringer);
            here || was_needed(bringer, label, before)
        }
    }
}

/// Whether this future was given.
pub fn was_given(future: Future, marks: &[Mark]) -> bool
    ensures { IsTrue result ↔ (1 ≤ times_given future (reverse marks.now)) }
{
    match marks.split_last() {
        None => false,
        Some((newest, before)) => {
            let gives = matches!(newest.event, Event::Gave(_));
            let here = gives && own_due(newest.lane, before) == Some(future);
            here || was_given(future, before)
        }
    }
}

/// Whether one of these labels isn't the due of a spawn of this bringer.
fn lacks_one(bringer: Bringer, needs: &[Label], marks: &[Mark]) -> bool
    ensures { IsFalse result ↔ ((d : LabelData) → list_any (λ m. same_label d m) needs.now ≡ true → was_due bringer d (reverse marks.now) ≡ true) }
{
    match needs.split_first() {
        None => false,
        Some((need, others)) => !was_due(bringer, *need, marks)
            || lacks_one(bringer, others, marks),
    }
}

/// Whether one of the needs with which this bringer spawned in `marks` isn't the due of a spawn of it in `all`.
pub fn lacks_dues(bringer: Bringer, marks: &[Mark], all: &[Mark]) -> bool
    ensures { IsFalse result ↔ ((d : LabelData) → was_needed bringer d (reverse marks.now) ≡ true → was_due bringer d (reverse all.now) ≡ true) }
{
    match marks.split_last() {
        None => false,
        Some((newest, before)) => {
            if spawner(newest.lane, before) != Some(bringer) {
                return lacks_dues(bringer, before, all);
            }
            let needs = events::spawned_needs(&newest.event);
            lacks_one(bringer, needs.labels(), all) || lacks_dues(bringer, before, all)
        }
    }
}
