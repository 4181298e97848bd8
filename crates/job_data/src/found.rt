//! The forms of the trees that a command reads, looked up once.
ghost use Rattle.std.specs.Prelude.{◌≡◌, is_some};
ghost use Rattle.std.specs.List.{list_all};
ghost use Rattle.std.specs.Option.{option_map};
ghost use Rattle.job_data.specs.Checks.{suits};
ghost use Rattle.job_data.specs.Data.{form_of};
ghost use Rattle.job_data.specs.Found.{forms_in};

use crate::tree_form::TreeForm;

/// The forms of the trees that a command reads, as the commands before it left them. None where a tree isn't there.
#[derive(Clone, Copy)]
pub enum Found {
    Nothing,
    One(Option<TreeForm>),
    Two(Option<TreeForm>, Option<TreeForm>),
}

// Whether a form is the one that is needed, if one is.
fn suits(needed: Option<TreeForm>, form: Option<TreeForm>) -> bool
    ensures { result ≡ suits (option_map form_of needed) (option_map form_of form) }
{
    match (needed, form) {
        (None, _) => true,
        (Some(TreeForm::Reconstructed), Some(TreeForm::Reconstructed)) => true,
        (Some(TreeForm::Compressed), Some(TreeForm::Compressed)) => true,
        _ => false,
    }
}

impl Found {
    /// Whether each tree is there.
    pub fn are_there(&self) -> bool
        ensures { result ≡ list_all is_some (forms_in self.now) }
    {
        match *self {
            Found::Nothing => true,
            Found::One(form) => form.is_some(),
            Found::Two(left, right) => left.is_some() && right.is_some(),
        }
    }

    /// Whether each tree is in the form that is needed, if one is.
    pub fn suit(&self, needed: Option<TreeForm>) -> bool
        ensures { result ≡ list_all (suits (option_map form_of needed)) (forms_in self.now) }
    {
        match *self {
            Found::Nothing => true,
            Found::One(form) => suits(needed, form),
            Found::Two(left, right) => suits(needed, left) && suits(needed, right),
        }
    }
}
