//! The functions that `project` splits into trees, and their values at cells.
ghost use Rattle.std.specs.Prelude.{◌≡◌, ℕ, ◌^◌, ◌<◌, ◌≤◌, true, pos, ◌+ℤ◌, ◌*ℤ◌};
ghost use Rattle.std.specs.Int.RustNames.{unsigned_abs};
ghost use Rattle.tree_model.specs.Functions.{value_at, fits, is_value, max_value, max_difference};

use crate::mix::mix;

/// A function on the cells of a depth.
#[derive(Clone, Copy, Debug, PartialEq, Eq)]
pub enum Func {
    /// The same value at each cell.
    Const(i64),
    /// A value at the first cell, and what is added from each cell to the next.
    Ramp(i64, i64),
    /// A cell, the value at the cells before it, and the value from it on.
    Step(u32, i64, i64),
    /// The first cell of a range, the cell after the range, and the value there. At all other cells the value is 0.
    Box(u32, u32, i64),
    /// A seed and a modulus: the numbers of SplitMix64 that begin with the seed, modulo the modulus.
    Hash(u32, u32),
}

/// The largest depth.
pub const MAX_DEPTH: u8 = 16;

/// The largest value of a cell, in absolute value.
pub const MAX_VALUE: u64 = 1 << 24;

/// The largest difference of two values. A slope is at most that in absolute value, and so is a tolerance.
pub const MAX_DIFFERENCE: u32 = 1 << 25;

// Whether a number may be the value of a cell.
fn is_value(number: i64) -> bool
    ensures { result ≡ is_value number }
{
    number.unsigned_abs() <= MAX_VALUE
}

// The value of a ramp at a cell, from a start and a slope within their limits.
fn ramp_value(start: i64, slope: i64, cell: u32) -> i64
    requires start { unsigned_abs start ≤ max_value }
    requires slope { unsigned_abs slope ≤ max_difference }
    requires cell { cell < 2 ^ 16 }
    ensures { result ≡ start +ℤ slope *ℤ pos cell }
{
    let rise = slope * i64::from(cell);
    start + rise
}

impl Func {
    ghost use Rattle.haar_node.specs.Func.{function_of};

    /// Whether the function may be named at this depth: the depth is at most 16, its values there are at most two to
    /// the 24 in absolute value, a slope is at most two to the 25, a step's cell and the ends of a range lie among the
    /// cells or right after them, the range doesn't end before it starts, and a modulus is from 1 to two to the 24.
    pub fn fits(&self, depth: u8) -> bool
        ensures { result ≡ fits depth (function_of self.now) }
    {
        if depth > MAX_DEPTH {
            return false;
        }
        match *self {
            Func::Const(constant) => is_value(constant),
            Func::Ramp(start, slope) => {
                let last = (1u32 << depth) - 1;
                slope.unsigned_abs() <= u64::from(MAX_DIFFERENCE)
                    && is_value(start)
                    && is_value(ramp_value(start, slope, last))
            }
            Func::Step(edge, before, after) => {
                edge <= 1 << depth && is_value(before) && is_value(after)
            }
            Func::Box(start, end, value) => start <= end && end <= 1 << depth && is_value(value),
            // A seed of any 32 bits will do: it is read so that its range is known.
            Func::Hash(_seed, modulus) => modulus >= 1 && u64::from(modulus) <= MAX_VALUE,
        }
    }

    /// The value at cell `x`, which is below two to a depth at which the function fits. It is at most two to the 24 in
    /// absolute value.
    pub fn value(&self, x: u32) -> i64
        requires { (depth : ℕ) × (fits depth (function_of self.now) ≡ true) × (x < 2 ^ depth) }
        ensures value { result ≡ value_at (function_of self.now) x }
        ensures bound { unsigned_abs result ≤ max_value }
    {
        match *self {
            Func::Const(constant) => constant,
            Func::Ramp(start, slope) => ramp_value(start, slope, x),
            Func::Step(edge, before, _) if x < edge => before,
            Func::Step(_, _, after) => after,
            Func::Box(start, end, value) if start <= x && x < end => value,
            Func::Box(..) => 0,
            Func::Hash(seed, modulus) => (mix(seed, x) % u64::from(modulus)) as i64,
        }
    }
}

#[cfg(test)]
mod tests {
    use super::*;
    use std::process::Abort;

    const LIMIT: i64 = 16_777_216;

    // The value at a cell of a depth at which the function fits.
    fn value(rt: &impl Abort, func: Func, depth: u8, x: u32) -> i64 {
        assert!(rt; func.fits(depth), "{func:?} fits depth {depth}");
        assert!(rt;
            depth <= 16 && x < 1 << depth,
            "{x} is a cell of depth {depth}"
        );
        func.value(x)
    }

    #[test]
    fn functions_fit_up_to_their_limits(rt: HostRuntime) {
        let cases = [
            (Func::Const(LIMIT), 0, true),
            (Func::Const(LIMIT + 1), 0, false),
            (Func::Const(-LIMIT), 16, true),
            (Func::Const(-LIMIT - 1), 16, false),
            (Func::Const(i64::MIN), 0, false),
            (Func::Const(0), 17, false),
            (Func::Const(0), 255, false),
            // From 0 to the limit in one step.
            (Func::Ramp(0, LIMIT), 1, true),
            (Func::Ramp(0, LIMIT + 1), 1, false),
            (Func::Ramp(0, -LIMIT), 1, true),
            (Func::Ramp(0, -LIMIT - 1), 1, false),
            // From one end of the limits to the other.
            (Func::Ramp(LIMIT, -2 * LIMIT), 1, true),
            (Func::Ramp(-LIMIT, 2 * LIMIT), 1, true),
            (Func::Ramp(LIMIT, -2 * LIMIT), 2, false),
            // A start beyond the limit, though the ramp ends within it.
            (Func::Ramp(LIMIT + 1, -2), 1, false),
            (Func::Ramp(-LIMIT - 1, 2), 1, false),
            // 65,535 steps of 256 end 256 below the limit, and one more at the limit passes it.
            (Func::Ramp(256, 256), 16, true),
            (Func::Ramp(257, 256), 16, false),
            (Func::Ramp(0, 0), 17, false),
            // On one cell only the slope's own limit is left.
            (Func::Ramp(0, 2 * LIMIT), 0, true),
            (Func::Ramp(0, 2 * LIMIT + 1), 0, false),
            (Func::Ramp(0, -2 * LIMIT), 0, true),
            (Func::Ramp(0, -2 * LIMIT - 1), 0, false),
            // A step may be before the first cell, or after the last.
            (Func::Step(0, 1, 2), 0, true),
            (Func::Step(1, LIMIT, -LIMIT), 0, true),
            (Func::Step(2, 1, 2), 0, false),
            (Func::Step(65536, 1, 2), 16, true),
            (Func::Step(65537, 1, 2), 16, false),
            (Func::Step(1, LIMIT + 1, 0), 1, false),
            (Func::Step(1, 0, -LIMIT - 1), 1, false),
            (Func::Step(0, 0, 0), 17, false),
            // A box may be empty, and may be all cells.
            (Func::Box(2, 2, LIMIT), 1, true),
            (Func::Box(0, 2, -LIMIT), 1, true),
            (Func::Box(0, 3, 1), 1, false),
            (Func::Box(2, 1, 1), 1, false),
            (Func::Box(0, 0, LIMIT + 1), 1, false),
            (Func::Box(0, 0, 0), 17, false),
            (Func::Hash(0, 1), 16, true),
            (Func::Hash(u32::MAX, 16_777_216), 0, true),
            (Func::Hash(0, 0), 0, false),
            (Func::Hash(0, 16_777_217), 0, false),
            (Func::Hash(0, 1), 17, false),
        ];
        for (func, depth, expected) in cases {
            assert_eq!(rt; func.fits(depth), expected, "{func:?} at depth {depth}");
        }
    }

    #[test]
    fn functions_have_their_values(rt: HostRuntime) {
        let cases = [
            (Func::Const(-7), 16, 65535, -7),
            (Func::Ramp(3, -2), 3, 0, 3),
            (Func::Ramp(3, -2), 3, 1, 1),
            (Func::Ramp(3, -2), 3, 7, -11),
            (Func::Ramp(-5, 4), 2, 3, 7),
            (Func::Ramp(256, 256), 16, 65535, LIMIT),
            (Func::Ramp(LIMIT, -2 * LIMIT), 1, 1, -LIMIT),
            (Func::Step(2, 7, -7), 2, 1, 7),
            (Func::Step(2, 7, -7), 2, 2, -7),
            (Func::Step(0, 7, -7), 2, 0, -7),
            (Func::Step(4, 7, -7), 2, 3, 7),
            (Func::Box(1, 3, 7), 2, 0, 0),
            (Func::Box(1, 3, 7), 2, 1, 7),
            (Func::Box(1, 3, 7), 2, 2, 7),
            (Func::Box(1, 3, 7), 2, 3, 0),
            (Func::Box(2, 2, 7), 2, 2, 0),
            (Func::Hash(0, 1000), 0, 0, 535),
            (Func::Hash(0, 1), 0, 0, 0),
        ];
        for (func, depth, x, expected) in cases {
            assert_eq!(rt; value(&rt, func, depth, x), expected, "{func:?} at {x}");
        }
    }
}
