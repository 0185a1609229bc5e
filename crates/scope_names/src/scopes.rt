// The scopes around a place.
ghost use Rattle.std.specs.Prelude.{◌≡◌, IfOk, suc};
ghost use Rattle.js_binding.specs.Scopes.{binding_of, binding_from};
ghost use Rattle.scope_names.specs.Around.{scopes_of};

use crate::NameTable;
use js_tree::Bound;
use utf16_text::{Memory, Text};

/// The scopes around a place of a script, from the innermost outward (ECMA-262 5.1, section 10.2).
#[derive(Clone, Copy)]
pub enum Scopes<'a> {
    /// The global object alone.
    Outermost,
    /// The names of a function or of a `catch`, and the scopes around.
    Named(&'a NameTable, &'a Scopes<'a>),
    /// The own name of a function expression, and the scopes around.
    Itself(&'a Text, &'a Scopes<'a>),
}

impl Scopes<'_> {
    /// Where a name stands. Memory comes where more than 2^32 scopes are passed.
    pub fn binding(&self, name: &Text) -> Result<Bound, Memory>
        ensures { IfOk result (λ b. b ≡ binding_of name.now (scopes_of self.now)) }
    {
        self.binding_from(0, name)
    }

    fn binding_from(&self, up: u32, name: &Text) -> Result<Bound, Memory>
        ensures { IfOk result (λ b. b ≡ binding_from up name.now (scopes_of self.now)) }
    {
        match self {
            Scopes::Outermost => Ok(Bound::Global),
            Scopes::Named(names, around) => match names.slot(name) {
                Some(slot) => Ok(Bound::Slot { up, slot }),
                None => around.binding_from(next(up)?, name),
            },
            Scopes::Itself(own, around) => {
                if name == *own {
                    Ok(Bound::Own { up })
                } else {
                    around.binding_from(next(up)?, name)
                }
            }
        }
    }
}

fn next(n: u32) -> Result<u32, Memory>
    ensures { IfOk result (λ m. m ≡ suc n) }
{
    n.checked_add(1).ok_or(Memory)
}
