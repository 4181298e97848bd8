//! What runs before and after the step of each task.
use std::sync::Wait;

/// What the runtime calls before and after each task. It serves tests that hold tasks back; a program has [`NoGate`].
///
/// The runtime calls `enter` just before and `leave` just after the step of each task, and at no other place. Both
/// get the rank on which the task runs, and the number of its command. Both may wait.
pub trait Gate: Sync {
    /// A task of this command is about to run on this rank.
    fn enter<R: Wait>(&self, rt: &R, rank: u32, command: u32);

    /// Its step was made.
    fn leave<R: Wait>(&self, rt: &R, rank: u32, command: u32);
}

/// The gate that does nothing.
#[derive(Clone, Copy, Debug, PartialEq, Eq)]
pub struct NoGate;

impl Gate for NoGate {
    fn enter<R: Wait>(&self, _rt: &R, _rank: u32, _command: u32) {}

    fn leave<R: Wait>(&self, _rt: &R, _rank: u32, _command: u32) {}
}

#[cfg(test)]
mod tests {
    use super::*;

    // A task's step under a gate.
    fn pass<G: Gate, R: Wait>(gate: &G, rt: &R) {
        gate.enter(rt, 0, 1);
        gate.leave(rt, 0, 1);
    }

    #[test]
    fn no_gate_holds_nothing_back(rt: HostRuntime) {
        pass(&NoGate, &rt);
    }
}
