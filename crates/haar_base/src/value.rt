//! What futures have.

use haar_lines::Lines;

/// What a future has once it is given.
#[derive(Drop)]
pub enum Value {
    /// The key and all below it are done.
    Done,

    /// The sum over the key's box.
    Sum(i64),

    /// What the differences at the key and below it add to an inner product; of a result, the inner product.
    Product(i128),

    /// The lines of the key and of those below it; of a result, all lines of the command.
    Lines(Lines),

    /// A number of entries.
    Count(u64),

    /// None of these: the command, or one that wrote what it reads, overflowed.
    Bad,
}
