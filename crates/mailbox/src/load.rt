//! What a message carries.
use app_core::Label;
use event_lists::Bringer;

/// What a message of an application carries from one rank to another.
#[derive(Debug, PartialEq, Eq, Drop)]
pub enum Load<U, V> {
    /// A unit that is to be submitted where it arrives, and who created its due, if it has one.
    Unit {
        unit: U,
        due: Option<Bringer>,
    },

    /// A value for the future of this label that is kept where it arrives, and who created that future.
    Give {
        label: Label,
        bringer: Bringer,
        value: V,
    },
}
