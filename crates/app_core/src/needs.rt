//! The futures that a unit waits for.
ghost use Rattle.std.specs.Prelude.{◌≡◌, ◌≤◌, ◌↔◌, IsTrue, IsSome, IfSome, [], length, slice_get};
ghost use Rattle.app_core.specs.Needs.{AreDistinct, max_needs};

use crate::label::Label;
use std::marker::Model;

// What fills the positions after the labels.
const NOTHING: Label = Label {
    command: 0,
    part: 0,
    place: 0,
};

/// The labels of the futures that a unit needs, in order: at most 16, and all different.
///
/// It is small plain data, so that names of tasks, which have it, can be copied.
#[derive(Clone, Copy, Debug, PartialEq, Eq)]
pub struct Needs {
    labels: [Label; 16],
    count: u8,
}

impl Model for Needs {
    ghost use Rattle.std.specs.Prelude.{List, take, replicate, ◌++◌, ◌-◌, length};
    ghost use Rattle.app_core.specs.declared.label.Label.{Label};
    ghost use Rattle.app_core.specs.Needs.{AreNeeds, nothing};

    ghost Value = { List Label };

    ghost view = { λ n. take n.count n.labels };

    ghost invariant = { λ n. AreNeeds n.labels n.count };

    ghost inverse = { λ xs. record { labels = xs ++ replicate (16 - length xs) nothing; count = length xs } };

    ghost use Rattle.app_core.specs.NeedsLaws.{back};

    ghost inverse_ok = { back };
}

impl Needs {
    /// No needs.
    pub fn none() -> Needs
        ensures { result ≡ [] }
    {
        Needs {
            labels: [NOTHING; 16],
            count: 0,
        }
    }

    /// These labels as needs. None exactly where there are more than 16, or two are equal.
    pub fn of(labels: &[Label]) -> Option<Needs>
        ensures some { IsSome result ↔ ((length labels.now ≤ max_needs) × AreDistinct labels.now) }
        ensures labels { IfSome result (λ n. n ≡ labels.now) }
    {
        if labels.len() > 16 || !are_distinct(labels) {
            return None;
        }
        let mut kept = [NOTHING; 16];
        kept[..labels.len()].copy_from_slice(labels);
        Some(Needs {
            labels: kept,
            count: labels.len() as u8,
        })
    }

    /// How many there are, at most 16.
    pub fn len(&self) -> usize
        ensures len { result ≡ length self.now }
        ensures within { result ≤ max_needs }
        ensures distinct { AreDistinct self.now }
    {
        usize::from(self.count)
    }

    /// Whether there are none.
    pub fn is_empty(&self) -> bool
        ensures { IsTrue result ↔ (self.now ≡ []) }
    {
        self.count == 0
    }

    /// The label at an index, from 0. None exactly past the last.
    pub fn get(&self, index: usize) -> Option<Label>
        ensures { result ≡ slice_get self.now index }
    {
        if index < usize::from(self.count) {
            Some(self.labels[index])
        } else {
            None
        }
    }

    /// All labels, in order.
    pub fn labels(&self) -> &[Label]
        ensures { result.now ≡ self.now }
    {
        &self.labels[..usize::from(self.count)]
    }
}

// Whether no two labels are equal.
fn are_distinct(labels: &[Label]) -> bool
    ensures { IsTrue result ↔ AreDistinct labels.now }
{
    for (i, label) in labels.iter().enumerate() {
        if labels[..i].contains(label) {
            return false;
        }
    }
    true
}

#[cfg(test)]
mod tests {
    use super::*;

    // A label that differs from the others at another place.
    fn future(place: u64) -> Label {
        Label {
            command: 1,
            part: 0,
            place,
        }
    }

    #[test]
    fn at_most_sixteen_different_labels_are_needs(rt: HostRuntime) {
        let mut labels = [future(0); 17];
        for (i, label) in labels.iter_mut().enumerate() {
            label.place = i as u64;
        }
        for (count, expected) in [(0usize, true), (1, true), (16, true), (17, false)] {
            let needs = Needs::of(&labels[..count]);
            assert_eq!(rt; needs.is_some(), expected, "{count} labels");
        }
        let repeated = [future(3), future(4), future(3)];
        assert_eq!(rt; Needs::of(&repeated), None);
        assert_eq!(rt; Needs::of(&repeated[1..]).map(|n| n.len()), Some(2));
    }

    #[test]
    fn needs_keep_their_order(rt: HostRuntime) {
        let labels = [future(9), future(2)];
        let needs = Needs::of(&labels).unwrap_or(Needs::none());
        assert_eq!(rt; (needs.len(), needs.is_empty()), (2, false));
        assert!(rt; needs.labels() == labels.as_slice());
        let got = [needs.get(0), needs.get(1), needs.get(2)];
        assert_eq!(rt; got, [Some(future(9)), Some(future(2)), None]);
        assert_eq!(rt; (Needs::none().len(), Needs::none().is_empty()), (0, true));
    }
}
