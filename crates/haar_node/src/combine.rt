//! Sums and differences of neighbours, and what combinations of trees have at a key.
ghost use Rattle.std.specs.Prelude.{◌≡◌, ◌+◌, ◌*◌, ◌^◌, ◌<◌, ◌≤◌, ◌↔◌, IfOk, IsErr, Some, codes, pos, ◌+ℤ◌, ◌-ℤ◌, ◌*ℤ◌, int_rem};
ghost use Rattle.std.specs.Int.RustNames.{unsigned_abs};
ghost use Rattle.tree_model.specs.Functions.{max_depth, max_value};
ghost use Rattle.tree_model.specs.Nodes.{max_number};
ghost use Rattle.haar_node.specs.Combinations.{IsLeafSum, leaf_value, IsInnerProduct};

use crate::func::MAX_VALUE;
use std::error::Error;
use std::fmt;

/// A value of the result would be more than two to the 24 in absolute value.
#[derive(Clone, Copy, Debug, PartialEq, Eq)]
pub struct Over;

impl fmt::Display for Over {
    ghost output = { λ _. Some (codes "a value is more than 16777216 in absolute value") };

    fn fmt<W: fmt::Write>(&self, f: &mut fmt::Formatter<W>) -> fmt::Result {
        write!(f, "a value is more than 16777216 in absolute value")
    }
}

impl Error for Over {}

/// The sum and the difference of the sums over two halves, each at most two to the 40 in absolute value.
pub fn join(left: i64, right: i64) -> (i64, i64)
    requires left { unsigned_abs left ≤ 2 ^ 40 }
    requires right { unsigned_abs right ≤ 2 ^ 40 }
    ensures sum { result.0 ≡ left +ℤ right }
    ensures difference { result.1 ≡ left -ℤ right }
{
    (left + right, left - right)
}

/// The sums over two halves from their sum and their difference, which are both even or both odd, and each at most
/// two to the 41 in absolute value.
pub fn split(sum: i64, difference: i64) -> (i64, i64)
    requires sum { unsigned_abs sum ≤ max_number }
    requires difference { unsigned_abs difference ≤ max_number }
    requires even { int_rem (sum +ℤ difference) (pos 2) ≡ pos 0 }
    ensures left { pos 2 *ℤ result.0 ≡ sum +ℤ difference }
    ensures right { pos 2 *ℤ result.1 ≡ sum -ℤ difference }
{
    ((sum + difference) / 2, (sum - difference) / 2)
}

/// The sum over a box of a function that is the sum of two, each taken so many times.
///
/// The factors are at most two to the 20 in absolute value, the numbers at most two to the 41, and the box has `width`
/// cells, at least one. `Over` exactly where the answer would be more than `width` times two to the 24 in absolute
/// value.
pub fn combine_add(
    left_factor: i64,
    left: i64,
    right_factor: i64,
    right: i64,
    width: u32,
) -> Result<i64, Over>
    requires left_factor { unsigned_abs left_factor ≤ 2 ^ 20 }
    requires left { unsigned_abs left ≤ max_number }
    requires right_factor { unsigned_abs right_factor ≤ 2 ^ 20 }
    requires right { unsigned_abs right ≤ max_number }
    requires width { 1 ≤ width }
    ensures sum { IfOk result (λ z. z ≡ left_factor *ℤ left +ℤ right_factor *ℤ right) }
    ensures over { IsErr result
        ↔ (width * max_value < unsigned_abs (left_factor *ℤ left +ℤ right_factor *ℤ right)) }
{
    let sum = left_factor * left + right_factor * right;
    if sum.unsigned_abs() > u64::from(width) * MAX_VALUE {
        return Err(Over);
    }
    Ok(sum)
}

/// The sum over a box of the product of two functions that are constant there, from their sums.
///
/// The box has `width` cells, from 1 to two to the 16, and each sum is `width` times a value of at most two to the 24 in
/// absolute value. `Over` exactly where the product of the two values is more than that.
pub fn combine_mul(left: i64, right: i64, width: u32) -> Result<i64, Over>
    requires some { 1 ≤ width }
    requires width { width ≤ 2 ^ 16 }
    requires left { IsLeafSum left width }
    requires right { IsLeafSum right width }
    ensures product { IfOk result
        (λ z. z ≡ pos width *ℤ (leaf_value left width *ℤ leaf_value right width)) }
    ensures over { IsErr result
        ↔ (max_value < unsigned_abs (leaf_value left width *ℤ leaf_value right width)) }
{
    let cells = i64::from(width);
    let value = (left / cells) * (right / cells);
    if value.unsigned_abs() > MAX_VALUE {
        return Err(Over);
    }
    Ok(cells * value)
}

/// What the differences of two functions at a key and below it add to their inner product: the product of the two
/// differences at the key, and twice what its two children add.
///
/// The differences are at most two to the 41 in absolute value, and what the children add at most two to the 90 each.
pub fn combine_inner(difference: i64, other: i64, left: i128, right: i128) -> i128
    requires difference { unsigned_abs difference ≤ max_number }
    requires other { unsigned_abs other ≤ max_number }
    requires left { unsigned_abs left ≤ 2 ^ 90 }
    requires right { unsigned_abs right ≤ 2 ^ 90 }
    ensures { result ≡ difference *ℤ other +ℤ pos 2 *ℤ (left +ℤ right) }
{
    i128::from(difference) * i128::from(other) + 2 * (left + right)
}

/// The inner product of two functions on two to the `depth` cells, from their sums over all cells and from what their
/// differences add.
///
/// The depth is at most 16, the sums are at most two to the 41 in absolute value and the part of the differences at most
/// two to the 100, and the number of cells divides the product of the sums and that part together.
pub fn finish_inner(sum: i64, other: i64, part: i128, depth: u8) -> i128
    requires sum { unsigned_abs sum ≤ max_number }
    requires other { unsigned_abs other ≤ max_number }
    requires part { unsigned_abs part ≤ 2 ^ 100 }
    requires depth { depth ≤ max_depth }
    requires exact { int_rem (sum *ℤ other +ℤ part) (pos (2 ^ depth)) ≡ pos 0 }
    ensures quotient { pos (2 ^ depth) *ℤ result ≡ sum *ℤ other +ℤ part }
    ensures inner { IsInnerProduct sum other part depth result }
{
    let cells = i128::from(1u32 << depth);
    (i128::from(sum) * i128::from(other) + part) / cells
}

#[cfg(test)]
mod tests {
    use super::*;
    use std::test::Fail;

    const HALF: i64 = 1 << 40;

    #[test]
    fn a_pair_is_joined_and_split(rt: HostRuntime) {
        assert_eq!(rt; join(1, 5), (6, -4));
        assert_eq!(rt; split(6, -4), (1, 5));
        assert_eq!(rt; split(-3, 1), (-1, -2));
        assert_eq!(rt; join(HALF, -HALF), (0, 2 * HALF));
        assert_eq!(rt; split(0, 2 * HALF), (HALF, -HALF));
    }

    #[test]
    fn sums_are_added_up_to_the_limit(rt: HostRuntime) {
        assert_eq!(rt; combine_add(2, 3, -1, 4, 1), Ok(2));
        assert_eq!(rt; combine_add(1, 16_777_216, 0, 5, 1), Ok(16_777_216));
        assert_eq!(rt; combine_add(1, 16_777_216, 1, 1, 1), Err(Over));
        assert_eq!(rt;
            combine_add(1, 16_777_216, 1, 16_777_216, 2),
            Ok(33_554_432)
        );
        assert_eq!(rt; combine_add(-1, 33_554_432, 1, 0, 2), Ok(-33_554_432));
        assert_eq!(rt; combine_add(-1, 33_554_432, -1, 1, 2), Err(Over));
        assert_eq!(rt;
            combine_add(1 << 20, 2 * HALF, 1 << 20, 2 * HALF, u32::MAX),
            Err(Over)
        );
        assert_eq!(rt;
            combine_add(1 << 20, 2 * HALF, -1 << 20, 2 * HALF, 1),
            Ok(0)
        );
    }

    #[test]
    fn sums_are_multiplied_up_to_the_limit(rt: HostRuntime) {
        assert_eq!(rt; combine_mul(8, 8, 2), Ok(32));
        assert_eq!(rt; combine_mul(-9, 6, 3), Ok(-18));
        assert_eq!(rt; combine_mul(0, 7, 1), Ok(0));
        assert_eq!(rt; combine_mul(4096, 4096, 1), Ok(16_777_216));
        assert_eq!(rt; combine_mul(4096, -4096, 1), Ok(-16_777_216));
        assert_eq!(rt; combine_mul(4097, 4096, 1), Err(Over));
        assert_eq!(rt; combine_mul(4096 * 65536, 4096 * 65536, 65536), Ok(HALF));
        assert_eq!(rt; combine_mul(4096 * 65536, -4097 * 65536, 65536), Err(Over));
    }

    // The functions 0, 1, 2, 3 and 5, 5, 5, 5 of four cells.
    #[test]
    fn inner_products_are_made_of_sums_and_differences(rt: HostRuntime) {
        assert_eq!(rt; combine_inner(-1, -1, 0, 0), 1);
        assert_eq!(rt; combine_inner(-4, -4, 1, 1), 20);
        assert_eq!(rt; finish_inner(6, 6, 20, 2), 14);
        assert_eq!(rt; finish_inner(20, 6, 0, 2), 30);
        assert_eq!(rt; finish_inner(-6, 6, -20, 2), -14);
        assert_eq!(rt; finish_inner(7, -3, 0, 0), -21);
        assert_eq!(rt; finish_inner(HALF, HALF, 0, 16), 1 << 64);
    }

    #[test]
    fn an_overflow_has_a_text(rt: HostRuntime) -> Result<(), Fail> {
        let text = Over.to_string(rt.alloc())?;
        assert_eq!(rt;
            text.as_str(),
            "a value is more than 16777216 in absolute value"
        );
        Ok(())
    }
}
