//! What is said of an application on plain data alone.
ghost use Rattle.std.specs.Prelude.{ℕ, List, Option};
ghost use Rattle.app_core.specs.declared.label.Label.{Label as LabelData};
ghost use Rattle.app_core.specs.declared.label.CellName.{CellName as CellNameData};
ghost use Rattle.app_core.specs.declared.outline.Outline.{Outline as OutlineData};
ghost use Rattle.app_core.specs.declared.outline.CommandKind.{CommandKind as CommandKindData};

/// The relations of an application on plain data: labels, names, ranks, numbers and outlines.
///
/// The rules that tie the events of a run to an application speak of these alone, since events have no units,
/// values or cells. [`App`](crate::App) has the laws that tie them to its units and steps. The trait has no calls.
pub trait Facts {
    /// For how many ranks the application is made, from 1 to 16.
    ghost ranks_of: { Self → ℕ };

    /// The kinds of the commands, in order.
    ghost kinds_of: { Self → List CommandKindData };

    /// The outlines of the starts of the command of a number, where there are `ranks_of` ranks.
    ghost starts_of: { Self → ℕ → List OutlineData };

    /// A unit with this label, on inputs that are right for it, may have effects with these outlines.
    ghost may_do: { Self → LabelData → List OutlineData → Type 0 };

    /// A unit with this label may read this entry.
    ghost may_read: { Self → LabelData → CellNameData → Type 0 };

    /// A unit with this label may count the entries of this version at its home.
    ghost may_count: { Self → LabelData → ℕ → Type 0 };

    /// For a rank and a version: this is a right number of entries of the version that lie on the rank.
    ghost right_size: { Self → ℕ → ℕ → ℕ → Type 0 };

    /// The rank that keeps a future.
    ghost future_home_of: { Self → LabelData → ℕ };

    /// The rank on which an entry lies.
    ghost entry_home_of: { Self → CellNameData → ℕ };

    /// The versions that are dropped at the fence of a number, in order.
    ghost dropped_of: { Self → ℕ → List ℕ };
}
