//! Numbers of nodes, where they stay within the bound.
ghost use Rattle.std.specs.Prelude.{◌≡◌, ◌^◌, ◌≤◌, pos};
ghost use Rattle.std.specs.Int.RustNames.{unsigned_abs};
ghost use Rattle.tree_model.specs.Nodes.{max_number};
ghost use Rattle.haar_base.specs.Numbers.{coefficient, divides, halves};

use haar_node::{Coefficient, split};

/// The largest number of a node, in absolute value.
const MAX_NUMBER: u64 = 1 << 41;

/// The number as one of a node. None exactly where it is above the bound.
pub fn coefficient(number: i64) -> Option<Coefficient>
    ensures { result ≡ coefficient number }
{
    if number.unsigned_abs() <= MAX_NUMBER {
        Some(Coefficient::new(number))
    } else {
        None
    }
}

/// The number of nothing.
pub fn zero() -> Coefficient
    ensures { result ≡ pos 0 }
{
    Coefficient::new(0)
}

// Whether a number is even.
fn is_even(number: i64) -> bool
    ensures { result ≡ divides 2 number }
{
    (number % 2).unsigned_abs() == 0
}

/// The sums over the halves of a box, from the sum over it and their difference. None exactly where one of the two is even
/// and the other odd.
pub fn halves(sum: Coefficient, difference: Coefficient) -> Option<(Coefficient, Coefficient)>
    ensures { result ≡ halves sum difference }
{
    let (sum, difference) = (sum.get(), difference.get());
    if !is_even(sum + difference) {
        return None;
    }
    let (left, right) = split(sum, difference);
    Some((Coefficient::new(left), Coefficient::new(right)))
}
