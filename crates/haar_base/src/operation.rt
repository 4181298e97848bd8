//! What the commands of a job do, with the versions that they read.

use haar_node::Func;
use job_data::TreeForm;
use job_words::Name;

/// What a command does. A version has the number of the command that wrote it.
#[derive(Clone, Copy)]
pub enum Operation {
    /// Writes the tree of a function.
    Project {
        function: Func,
        level: u8,
        tolerance: u32,
    },

    /// Writes a version again, with all keys down to a level.
    Refine {
        level: u8,
        source: u32,
    },

    /// Writes a version again, on the fewest keys.
    Coarsen {
        source: u32,
    },

    /// Writes a version in the compressed form.
    Compress {
        source: u32,
    },

    /// Writes a version in the reconstructed form.
    Reconstruct {
        source: u32,
    },

    /// Writes the sum of two versions, each times its factor.
    Add {
        left_factor: i64,
        left: u32,
        right_factor: i64,
        right: u32,
    },

    /// Writes the product of two versions.
    Mul {
        left: u32,
        right: u32,
    },

    /// Gives the inner product of two versions.
    Inner {
        left: u32,
        right: u32,
    },

    /// Gives the lines of a version, which is in this form, under this name.
    Print {
        source: u32,
        form: TreeForm,
        name: Name,
    },

    /// Gives the number of entries of a version.
    Size {
        source: u32,
    },

    /// Waits until all commands before it are done.
    Fence,
}
