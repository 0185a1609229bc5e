// Parts of trees, resolved where they stand.
ghost use Rattle.std.specs.Prelude.{OnOk};
ghost use Rattle.scope_names.specs.Around.{scopes_of};
ghost use Rattle.js_scope.specs.Gives.{Gives, Resolving};
ghost use Rattle.js_scope.specs.Parts as spec;

use crate::nested::Nested;
use js_tree::FunctionList;
use scope_names::Scopes;
use std::mem::replace;
use utf16_text::{List, Memory};

/// A part of a tree.
pub trait Part: Drop {
    /// What it comes to among the scopes around it.
    ghost place: { Resolving Self };

    /// Resolves it where it stands.
    fn resolve<N: Nested>(
        &mut self,
        nested: &N,
        scopes: &Scopes<'_>,
        functions: &mut FunctionList,
    ) -> Result<(), Memory>
        requires { N.holds nested.now }
        ensures { OnOk result (Gives (place (scopes_of scopes.now) self.old) functions.old self.new functions.new) };
}

impl<T: Part> Part for Box<T> {
    ghost place = { λ scopes. spec.boxed (T.place scopes) };

    #[tactic(auto, unfolding(crate::specs::Parts::boxed))]
    fn resolve<N: Nested>(
        &mut self,
        nested: &N,
        scopes: &Scopes<'_>,
        functions: &mut FunctionList,
    ) -> Result<(), Memory> {
        (**self).resolve(nested, scopes, functions)
    }
}

impl<T: Part> Part for Option<T> {
    ghost place = { λ scopes. spec.maybe (T.place scopes) };

    #[tactic(auto, unfolding(crate::specs::Parts::maybe))]
    fn resolve<N: Nested>(
        &mut self,
        nested: &N,
        scopes: &Scopes<'_>,
        functions: &mut FunctionList,
    ) -> Result<(), Memory> {
        match self {
            None => Ok(()),
            Some(part) => part.resolve(nested, scopes, functions),
        }
    }
}

impl<T: Part> Part for List<T> {
    ghost place = { λ scopes. spec.each (T.place scopes) };

    fn resolve<N: Nested>(
        &mut self,
        nested: &N,
        scopes: &Scopes<'_>,
        functions: &mut FunctionList,
    ) -> Result<(), Memory> {
        let mut items = replace(self, List::new(nested.alloc())).into_vec();
        for part in items.iter_mut() {
            part.resolve(nested, scopes, functions)?;
        }
        *self = List::from_vec(items);
        Ok(())
    }
}

/// Resolves one part and then another.
#[tactic(auto, unfolding(crate::specs::Parts::both))]
pub fn both<N: Nested, A: Part, B: Part>(
    nested: &N,
    scopes: &Scopes<'_>,
    functions: &mut FunctionList,
    first: &mut A,
    second: &mut B,
) -> Result<(), Memory>
    requires { N.holds nested.now }
    ensures { OnOk result (Gives
        (spec.both (A.place (scopes_of scopes.now) first.old) (B.place (scopes_of scopes.now) second.old))
        functions.old (first.new, second.new) functions.new) }
{
    first.resolve(nested, scopes, functions)?;
    second.resolve(nested, scopes, functions)
}
