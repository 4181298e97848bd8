//! Orders in which units that wait are tried.
ghost use Rattle.std.specs.Prelude.{◌<◌};

/// Which of the units that wait is tried next.
#[derive(Clone, Copy, Debug, PartialEq, Eq)]
pub enum Order {
    /// The one that came first.
    First,

    /// The one that came last.
    Last,

    /// One by a fixed sequence of numbers.
    Shuffled,
}

impl Order {
    /// A place below `count`, which is at least 1, for try number `turn`.
    pub fn place(self, count: usize, turn: u64) -> usize
        requires { 0 < count }
        ensures { result < count }
    {
        match self {
            Order::First => 0,
            Order::Last => count - 1,
            Order::Shuffled => {
                let mixed = turn.wrapping_mul(0x9E37_79B9_7F4A_7C15) >> 33;
                mixed as usize % count
            }
        }
    }
}
