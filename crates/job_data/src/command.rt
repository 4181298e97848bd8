//! A command of a job, and what it writes, reads and needs.
ghost use Rattle.std.specs.Prelude.{◌≡◌};
ghost use Rattle.std.specs.Option.{option_map};
ghost use Rattle.job_words.specs.NameBytes.{bytes_of};
ghost use Rattle.tree_model.specs.Signatures.{signature_of, writes, written_form, written_name};

use crate::reads::Reads;
use crate::signature::{Numbers, Signature};
use crate::tree_form::TreeForm;
use haar_node::Func;
use job_words::Name;

/// A command of a job.
#[derive(Clone, Copy)]
pub enum Command {
    /// Writes the tree of a function: split down to `level`, and where the halves of a key differ by more than
    /// `tolerance`.
    Project {
        name: Name,
        function: Func,
        level: u8,
        tolerance: u32,
    },
    /// Splits a tree down to `level`.
    Refine {
        name: Name,
        level: u8,
    },
    /// Removes the keys below which all values are the same.
    Coarsen {
        name: Name,
    },
    /// Turns a tree into the compressed form.
    Compress {
        name: Name,
    },
    /// Turns a tree into the reconstructed form.
    Reconstruct {
        name: Name,
    },
    /// Writes the sum of two trees, each times its factor.
    Add {
        name: Name,
        left_factor: i64,
        left: Name,
        right_factor: i64,
        right: Name,
    },
    /// Writes the product of two trees.
    Mul {
        name: Name,
        left: Name,
        right: Name,
    },
    /// Prints the inner product of two trees.
    Inner {
        left: Name,
        right: Name,
    },
    /// Prints a tree.
    Print {
        name: Name,
    },
    /// Prints the number of a tree's keys.
    Size {
        name: Name,
    },
    /// Waits until all commands before it are done.
    Fence,
}

impl Command {
    ghost use Rattle.job_data.specs.Data.{data_of, form_of};
    ghost use Rattle.job_data.specs.SignatureData.{signature_data};

    /// What the command writes, reads and does besides.
    pub fn signature(&self) -> Signature
        ensures { signature_data result ≡ signature_of (data_of self.now) }
    {
        let (reconstructed, compressed) = (TreeForm::Reconstructed, TreeForm::Compressed);
        match *self {
            Command::Project {
                name,
                function,
                level,
                tolerance,
            } => Signature::projecting(name, function, level, tolerance),
            Command::Refine { name, level } => Signature::reshaping(name, Numbers::Level(level)),
            Command::Coarsen { name } => Signature::reshaping(name, Numbers::Nothing),
            Command::Compress { name } => Signature::converting(name, reconstructed, compressed),
            Command::Reconstruct { name } => {
                Signature::converting(name, compressed, reconstructed)
            }
            Command::Add {
                name,
                left_factor,
                left,
                right_factor,
                right,
            } => {
                let numbers = Numbers::Factors(left_factor, right_factor);
                Signature::combining(name, compressed, left, right, numbers)
            }
            Command::Mul { name, left, right } => {
                Signature::combining(name, reconstructed, left, right, Numbers::Nothing)
            }
            Command::Inner { left, right } => {
                Signature::reading(Reads::Two(left, right), Some(compressed), false, false)
            }
            Command::Print { name } => Signature::reading(Reads::One(name), None, true, false),
            Command::Size { name } => Signature::reading(Reads::One(name), None, false, true),
            Command::Fence => Signature::fence(),
        }
    }

    /// The name of the tree that the command writes. None where it writes none.
    pub fn written_name(&self) -> Option<Name>
        ensures { option_map bytes_of result ≡ written_name (data_of self.now) }
    {
        match self.signature().writes {
            Some(target) => Some(target.name),
            None => None,
        }
    }

    /// Whether the command writes the tree of this name.
    pub fn writes(&self, name: &[u8]) -> bool
        ensures { result ≡ writes name.now (data_of self.now) }
    {
        match self.written_name() {
            Some(written) => name == written.bytes(),
            None => false,
        }
    }

    /// The form in which the command writes its tree. None where it writes none.
    pub fn written_form(&self) -> Option<TreeForm>
        ensures { option_map form_of result ≡ written_form (data_of self.now) }
    {
        match self.signature().writes {
            Some(target) => Some(target.form),
            None => None,
        }
    }
}
