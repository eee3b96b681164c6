//! What is added: one more behind others, if something is so, and one to a number.
ghost use Rattle.std.specs.Prelude.{◌≡◌, ◌+◌, ◌++◌, ◌∷◌, [], IfOk, OnOk, if◌then◌else◌};

use std::alloc::AllocError;

/// Puts one behind others, if that is so.
pub fn add_if<T: Copy>(to: &mut Vec<T>, is_so: bool, one: T) -> Result<(), AllocError>
    ensures { OnOk result (to.new.items ≡ to.old.items ++ (if is_so then one ∷ [] else [])) }
{
    if is_so {
        to.push(one)?;
    }
    Ok(())
}

/// The number behind this one.
pub fn number_after(id: u64) -> Result<u64, AllocError>
    ensures { IfOk result (λ next. next ≡ id + 1) }
{
    id.checked_add(1).ok_or(AllocError)
}
