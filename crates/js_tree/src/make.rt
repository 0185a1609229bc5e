// Nodes from their parts.
ghost use Rattle.std.specs.Prelude.{◌≡◌, IfOk};
ghost use Rattle.js_tree.specs.Parts.{unboxed};

use std::alloc::Global;
use utf16_text::Memory;

/// The part in a box.
pub(crate) fn boxed<T: Drop>(alloc: Global, part: T) -> Result<Box<T>, Memory>
    ensures { IfOk result (λ b. b.value ≡ part) }
{
    Ok(Box::new(alloc, part)?)
}

/// The part in a box, where there is one.
pub(crate) fn boxed_if<T: Drop>(alloc: Global, part: Option<T>) -> Result<Option<Box<T>>, Memory>
    ensures { IfOk result (λ b. unboxed b ≡ part) }
{
    match part {
        None => Ok(None),
        Some(part) => Ok(Some(boxed(alloc, part)?)),
    }
}
