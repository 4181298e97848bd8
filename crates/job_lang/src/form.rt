//! The forms of lines, read from their words.
ghost use Rattle.std.specs.Prelude.{◌≡◌, ◌≤◌, IfSome};
ghost use Rattle.std.specs.Option.{option_map};
ghost use Rattle.tree_model.specs.Functions.{max_depth};
ghost use Rattle.job_lang.specs.Grammar.{add_of, fence_of, form_of, header_of, mul_of, project_of, refine_of};
ghost use Rattle.job_lang.specs.Slices.{texts};

use crate::fields::{
    function_at, keyword, name_at, no_more, number_at, one_name, size_at, two_names,
};
use crate::function_form::FunctionForm;
use crate::verb::Verb;
use haar_node::MAX_DEPTH;
use job_data::Command;
use job_words::Name;

/// A line of a job as its words say it.
#[derive(Clone, Copy)]
pub enum Form {
    /// `project NAME FUNC level N tol T`, with any numbers
    Project {
        name: Name,
        function: FunctionForm,
        level: i64,
        tolerance: i64,
    },
    /// `refine NAME N`, with any number
    Refine {
        name: Name,
        level: i64,
    },
    /// A command whose numbers, if it has any, are those of the words.
    Command(Command),
}

/// The depth of the header `job 1 depth D`. None exactly where the words aren't that, or the depth is above 16.
pub fn header_of(words: &[&[u8]]) -> Option<u8>
    ensures value { result ≡ header_of (texts words.now) }
    ensures small { IfSome result (λ d. d ≤ max_depth) }
{
    let words = keyword(b"job", words)?;
    let words = keyword(b"1", words)?;
    let words = keyword(b"depth", words)?;
    let (depth, words) = size_at(words)?;
    no_more(words)?;
    if depth <= u64::from(MAX_DEPTH) {
        Some(depth as u8)
    } else {
        None
    }
}

impl Form {
    ghost use Rattle.job_lang.specs.Code.{form_data};

    // `NAME FUNC level N tol T`
    fn project_of(words: &[&[u8]]) -> Option<Form>
        ensures { option_map form_data result ≡ project_of (texts words.now) }
    {
        let (name, words) = name_at(words)?;
        let (function, words) = function_at(words)?;
        let words = keyword(b"level", words)?;
        let (level, words) = number_at(words)?;
        let words = keyword(b"tol", words)?;
        let (tolerance, words) = number_at(words)?;
        no_more(words)?;
        Some(Form::Project {
            name,
            function,
            level,
            tolerance,
        })
    }

    // `NAME N`
    fn refine_of(words: &[&[u8]]) -> Option<Form>
        ensures { option_map form_data result ≡ refine_of (texts words.now) }
    {
        let (name, words) = name_at(words)?;
        let (level, words) = number_at(words)?;
        no_more(words)?;
        Some(Form::Refine { name, level })
    }

    // `NAME = A NAME + B NAME`
    fn add_of(words: &[&[u8]]) -> Option<Form>
        ensures { option_map form_data result ≡ add_of (texts words.now) }
    {
        let (name, words) = name_at(words)?;
        let words = keyword(b"=", words)?;
        let (left_factor, words) = number_at(words)?;
        let (left, words) = name_at(words)?;
        let words = keyword(b"+", words)?;
        let (right_factor, words) = number_at(words)?;
        let (right, words) = name_at(words)?;
        no_more(words)?;
        Some(Form::Command(Command::Add {
            name,
            left_factor,
            left,
            right_factor,
            right,
        }))
    }

    // `NAME = NAME * NAME`
    fn mul_of(words: &[&[u8]]) -> Option<Form>
        ensures { option_map form_data result ≡ mul_of (texts words.now) }
    {
        let (name, words) = name_at(words)?;
        let words = keyword(b"=", words)?;
        let (left, words) = name_at(words)?;
        let words = keyword(b"*", words)?;
        let (right, words) = name_at(words)?;
        no_more(words)?;
        Some(Form::Command(Command::Mul { name, left, right }))
    }

    /// The form of the words after a verb. None exactly where they aren't in its form.
    pub fn of_words(verb: Verb, words: &[&[u8]]) -> Option<Form>
        ensures { option_map form_data result ≡ form_of verb (texts words.now) }
    {
        match verb {
            Verb::Project => Form::project_of(words),
            Verb::Refine => Form::refine_of(words),
            Verb::Coarsen => {
                let name = one_name(words)?;
                Some(Form::Command(Command::Coarsen { name }))
            }
            Verb::Compress => {
                let name = one_name(words)?;
                Some(Form::Command(Command::Compress { name }))
            }
            Verb::Reconstruct => {
                let name = one_name(words)?;
                Some(Form::Command(Command::Reconstruct { name }))
            }
            Verb::Add => Form::add_of(words),
            Verb::Mul => Form::mul_of(words),
            Verb::Inner => {
                let (left, right) = two_names(words)?;
                Some(Form::Command(Command::Inner { left, right }))
            }
            Verb::Print => {
                let name = one_name(words)?;
                Some(Form::Command(Command::Print { name }))
            }
            Verb::Size => {
                let name = one_name(words)?;
                Some(Form::Command(Command::Size { name }))
            }
            Verb::Fence => {
                no_more(words)?;
                Some(Form::Command(Command::Fence))
            }
        }
    }
}
