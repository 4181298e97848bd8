//! Why a job isn't done to its end.
use tree_key::Text;

/// Why a job isn't done to its end.
#[derive(Drop)]
pub enum SerialError {
    /// A command overflows: a value of the tree that it writes would be more than a cell may have.
    Overflow {
        /// The number of the command, from 1.
        command: u32,
        /// What the commands before it write.
        text: Text,
    },
    /// There is no memory left.
    OutOfMemory,
}
