//! The full name of a player, as it is told.
ghost use Rattle.std.specs.Prelude.{◌≡◌, ◌++◌, IfOk, OnOk};
ghost use Rattle.std.specs.String.{string_bytes};
ghost use Rattle.lobby_words.specs.Initials.{form_asked, initial_at, initials, name_told};

use std::alloc::{AllocError, Global};

/// How full names are told.
#[derive(Clone, Copy, PartialEq, Eq)]
pub enum NameForm {
    /// Whole.
    Full,
    /// By their initials.
    Initials,
}

/// The form in which full names are told, where initials are asked for or not.
pub fn name_form(by_initials: bool) -> NameForm
    ensures { result ≡ form_asked by_initials }
{
    if by_initials {
        NameForm::Initials
    } else {
        NameForm::Full
    }
}

// Appends what is told of a character of a name: of one that begins a word itself and a full stop, and each space.
fn push_initial(text: &mut String, begins: bool, c: char) -> Result<(), AllocError>
    ensures { OnOk result (string_bytes text.new ≡ string_bytes text.old ++ initial_at begins c) }
{
    if c == ' ' {
        text.push(' ')
    } else if begins {
        text.push(c)?;
        text.push('.')
    } else {
        Ok(())
    }
}

// Appends the initials of a full name.
fn push_initials(text: &mut String, full_name: &str) -> Result<(), AllocError>
    ensures { OnOk result (string_bytes text.new ≡ string_bytes text.old ++ initials full_name.now) }
{
    let mut begins = true;
    for c in full_name.chars() {
        push_initial(text, begins, c)?;
        begins = c == ' ';
    }
    Ok(())
}

/// A full name as it is told in a form.
pub fn name_told(alloc: Global, form: NameForm, full_name: &str) -> Result<String, AllocError>
    ensures { IfOk result (λ text. string_bytes text ≡ name_told form full_name.now) }
{
    match form {
        NameForm::Full => String::from_str(alloc, full_name),
        NameForm::Initials => {
            let mut text = String::new(alloc);
            push_initials(&mut text, full_name)?;
            Ok(text)
        }
    }
}
