//! Functions as words say them.
ghost use Rattle.std.specs.Prelude.{◌≡◌};
ghost use Rattle.std.specs.Option.{option_map};
ghost use Rattle.haar_node.specs.Func.{function_of};
ghost use Rattle.job_lang.specs.Limits.{size_up_to};

use haar_node::Func;

/// A function as its words say it, with any numbers.
#[derive(Clone, Copy, Debug, PartialEq, Eq)]
pub enum FunctionForm {
    /// `const C`
    Const(i64),
    /// `ramp A B`
    Ramp(i64, i64),
    /// `step X L H`
    Step(i64, i64, i64),
    /// `box X Y V`
    Box(i64, i64, i64),
    /// `hash S M`
    Hash(i64, i64),
}

/// A number from 0 to a limit. None exactly where it isn't one.
pub fn size_up_to(limit: u64, number: i64) -> Option<u64>
    ensures { result ≡ size_up_to limit number }
{
    if number < 0 {
        return None;
    }
    let size = number as u64;
    if size <= limit { Some(size) } else { None }
}

/// The largest number of 32 bits.
pub const MAX_SIZE: u64 = 4_294_967_295;

impl FunctionForm {
    ghost use Rattle.job_lang.specs.Limits.{small_function};

    /// The function, where edges, seed and modulus have at most 32 bits and aren't negative.
    pub fn to_func(&self) -> Option<Func>
        ensures { option_map function_of result ≡ small_function self.now }
    {
        match *self {
            FunctionForm::Const(constant) => Some(Func::Const(constant)),
            FunctionForm::Ramp(start, slope) => Some(Func::Ramp(start, slope)),
            FunctionForm::Step(edge, before, after) => {
                let edge = size_up_to(MAX_SIZE, edge)?;
                Some(Func::Step(edge as u32, before, after))
            }
            FunctionForm::Box(start, end, value) => {
                let start = size_up_to(MAX_SIZE, start)?;
                let end = size_up_to(MAX_SIZE, end)?;
                Some(Func::Box(start as u32, end as u32, value))
            }
            FunctionForm::Hash(seed, modulus) => {
                let seed = size_up_to(MAX_SIZE, seed)?;
                let modulus = size_up_to(MAX_SIZE, modulus)?;
                Some(Func::Hash(seed as u32, modulus as u32))
            }
        }
    }
}
