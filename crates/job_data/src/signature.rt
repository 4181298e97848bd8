//! What a command writes, reads and does besides. The checks of a job and its plan follow from it.
ghost use Rattle.std.specs.Prelude.{◌≡◌, [], ◌∷◌, Some, None};
ghost use Rattle.std.specs.Option.{option_map};
ghost use Rattle.job_words.specs.NameBytes.{bytes_of};
ghost use Rattle.job_data.specs.Data.{form_of};
ghost use Rattle.job_data.specs.Reads.{names_of};
ghost use Rattle.tree_model.specs.Nodes.Form.{Reconstructed};
ghost use Rattle.tree_model.specs.Signatures.Numbers.{NoNumbers};
ghost use Rattle.job_data.specs.declared.signature.Numbers.TheVariants.{Projection};
ghost use Rattle.tree_model.specs.Signatures.{are_within, fencing, is_factor, reading, writing};

use crate::reads::Reads;
use crate::tree_form::TreeForm;
use haar_node::{Func, MAX_DIFFERENCE};
use job_words::Name;

/// The name of a tree, and the form that it is written in.
#[derive(Clone, Copy)]
pub struct Target {
    pub name: Name,
    pub form: TreeForm,
}

/// The numbers of a command that have limits.
#[derive(Clone, Copy)]
pub enum Numbers {
    Nothing,
    /// Of a projection.
    Projection {
        function: Func,
        level: u8,
        tolerance: u32,
    },
    /// A level down to which a tree is split.
    Level(u8),
    /// The factors of a sum.
    Factors(i64, i64),
}

/// What a command writes, reads and does besides.
#[derive(Clone, Copy)]
pub struct Signature {
    /// The tree that it writes. None where it writes none.
    pub writes: Option<Target>,
    /// The names of the trees that it reads.
    pub reads: Reads,
    /// The form that it needs these trees in. None where it reads none, or takes either form.
    pub needs: Option<TreeForm>,
    pub numbers: Numbers,
    /// Whether it is a `print`.
    pub prints: bool,
    /// Whether it is a `fence`.
    pub fences: bool,
    /// Whether a fence has to come between the command that last wrote a tree that it reads, and it.
    pub needs_fence: bool,
}

const MAX_FACTOR: u64 = 1 << 20;

// Whether a number may be a factor of a sum.
fn is_factor(number: i64) -> bool
    ensures { result ≡ is_factor number }
{
    number.unsigned_abs() <= MAX_FACTOR
}

impl Numbers {
    ghost use Rattle.job_data.specs.SignatureData.{numbers_of};

    /// Whether the numbers are within their limits at a depth.
    pub fn are_within(&self, depth: u8) -> bool
        ensures { result ≡ are_within depth (numbers_of self.now) }
    {
        match *self {
            Numbers::Nothing => true,
            Numbers::Projection {
                function,
                level,
                tolerance,
            } => function.fits(depth) && level <= depth && tolerance <= MAX_DIFFERENCE,
            Numbers::Level(level) => level <= depth,
            Numbers::Factors(left, right) => is_factor(left) && is_factor(right),
        }
    }
}

impl Signature {
    ghost use Rattle.job_data.specs.SignatureData.{numbers_of, signature_data};

    /// Of a command that writes a tree.
    pub fn writing(
        name: Name,
        form: TreeForm,
        reads: Reads,
        needs: Option<TreeForm>,
        numbers: Numbers,
    ) -> Signature
        ensures { signature_data result
            ≡ writing (bytes_of name) (form_of form) (names_of reads) (option_map form_of needs) (numbers_of numbers) }
    {
        Signature {
            writes: Some(Target { name, form }),
            reads,
            needs,
            numbers,
            prints: false,
            fences: false,
            needs_fence: false,
        }
    }

    /// Of a projection.
    pub fn projecting(name: Name, function: Func, level: u8, tolerance: u32) -> Signature
        ensures { signature_data result
            ≡ writing (bytes_of name) Reconstructed [] None (numbers_of (Projection function level tolerance)) }
    {
        let numbers = Numbers::Projection {
            function,
            level,
            tolerance,
        };
        Signature::writing(name, TreeForm::Reconstructed, Reads::Nothing, None, numbers)
    }

    /// Of a command that writes a tree in place of one of another shape.
    pub fn reshaping(name: Name, numbers: Numbers) -> Signature
        ensures { signature_data result
            ≡ writing (bytes_of name) Reconstructed (bytes_of name ∷ []) (Some Reconstructed) (numbers_of numbers) }
    {
        let form = TreeForm::Reconstructed;
        Signature::writing(name, form, Reads::One(name), Some(form), numbers)
    }

    /// Of a command that writes a tree in place of one in the other form.
    pub fn converting(name: Name, from: TreeForm, to: TreeForm) -> Signature
        ensures { signature_data result
            ≡ writing (bytes_of name) (form_of to) (bytes_of name ∷ []) (Some (form_of from)) NoNumbers }
    {
        Signature::writing(name, to, Reads::One(name), Some(from), Numbers::Nothing)
    }

    /// Of a command that makes a tree of two others, all in one form.
    pub fn combining(
        name: Name,
        form: TreeForm,
        left: Name,
        right: Name,
        numbers: Numbers,
    ) -> Signature
        ensures { signature_data result
            ≡ writing (bytes_of name) (form_of form) (bytes_of left ∷ bytes_of right ∷ []) (Some (form_of form)) (numbers_of numbers) }
    {
        Signature::writing(name, form, Reads::Two(left, right), Some(form), numbers)
    }

    /// Of a command that only reads.
    pub fn reading(
        reads: Reads,
        needs: Option<TreeForm>,
        prints: bool,
        needs_fence: bool,
    ) -> Signature
        ensures { signature_data result
            ≡ reading (names_of reads) (option_map form_of needs) prints needs_fence }
    {
        Signature {
            writes: None,
            reads,
            needs,
            numbers: Numbers::Nothing,
            prints,
            fences: false,
            needs_fence,
        }
    }

    /// Of a fence.
    pub fn fence() -> Signature
        ensures { signature_data result ≡ fencing }
    {
        Signature {
            writes: None,
            reads: Reads::Nothing,
            needs: None,
            numbers: Numbers::Nothing,
            prints: false,
            fences: true,
            needs_fence: false,
        }
    }
}
