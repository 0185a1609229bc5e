// Functions, which move behind their numbers (ECMA-262 5.1, sections 10.5 and 13).
ghost use Rattle.std.specs.Prelude.{IfOk};
ghost use Rattle.js_tree.specs.Tree.{statements_of};
ghost use Rattle.js_tree.specs.View.{function_of};
ghost use Rattle.js_binding.specs.Resolved as spec;
ghost use Rattle.scope_names.specs.Around.{scopes_of};
ghost use Rattle.js_scope.specs.Gives.{Gives, numbered_in};
ghost use Rattle.js_scope.specs.Parts.{function_part_in};

use crate::names::{bind, bind_all, hollow};
use crate::nested::Nested;
use crate::parts::Part;
use js_tree::{BoundName, Function, FunctionList, FunctionPart, ParameterList, StatementList};
use scope_names::{Scopes, names_of};
use std::alloc::Global;
use std::mem::replace;
use utf16_text::Memory;

impl Part for FunctionPart {
    ghost place = { function_part_in };

    fn resolve<N: Nested>(
        &mut self,
        nested: &N,
        scopes: &Scopes<'_>,
        functions: &mut FunctionList,
    ) -> Result<(), Memory> {
        let number = match replace(self, FunctionPart::Numbered(0)) {
            FunctionPart::Whole(f) => numbered(nested, scopes, functions, Box::into_inner(f))?,
            FunctionPart::Numbered(_) => place(nested.alloc(), functions, hollow(nested.alloc()))?,
        };
        *self = FunctionPart::Numbered(number);
        Ok(())
    }
}

/// Gives a function the next number.
fn place(alloc: Global, functions: &mut FunctionList, f: Function) -> Result<u32, Memory>
    ensures { IfOk result (λ n. Gives (spec.placed (function_of f)) functions.old n functions.new) }
{
    let number = u32::try_from(functions.len()).map_err(|_| Memory)?;
    functions.push(alloc, f)?;
    Ok(number)
}

/// The number of a function, which stands behind it.
#[tactic(auto, unfolding(js_binding::specs::Resolved::function_in))]
fn numbered<N: Nested>(
    nested: &N,
    scopes: &Scopes<'_>,
    functions: &mut FunctionList,
    f: Function,
) -> Result<u32, Memory>
    requires { N.holds nested.now }
    ensures { IfOk result (λ n. Gives (spec.function_in (scopes_of scopes.now) (function_of f))
        functions.old n functions.new) }
{
    let Function {
        name,
        parameters,
        names: _,
        body,
    } = f;
    match name {
        None => in_scope(nested, scopes, functions, None, parameters, body),
        Some(mut own) => {
            let x = own.name.copy(nested.alloc())?;
            let around = Scopes::Itself(&x, &*scopes);
            bind(&around, &mut own)?;
            in_scope(nested, &around, functions, Some(own), parameters, body)
        }
    }
}

/// The function of these parts, which has the next number. The scope around it is there, and its own name is bound.
fn in_scope<N: Nested>(
    nested: &N,
    around: &Scopes<'_>,
    functions: &mut FunctionList,
    name: Option<BoundName>,
    mut parameters: ParameterList,
    mut body: StatementList,
) -> Result<u32, Memory>
    requires { N.holds nested.now }
    ensures { IfOk result (λ n. Gives (numbered_in (scopes_of around.now) name parameters (statements_of body))
        functions.old n functions.new) }
{
    let number = place(nested.alloc(), functions, hollow(nested.alloc()))?;
    let table = names_of(nested.alloc(), parameters.as_slice(), body.as_slice())?;
    let inside = Scopes::Named(&table, &*around);
    bind_all(&inside, nested.alloc(), &mut parameters)?;
    body.resolve(nested, &inside, functions)?;
    let f = Function {
        name,
        parameters,
        names: table.into_names(),
        body,
    };
    functions.set(number as usize, f);
    Ok(number)
}
