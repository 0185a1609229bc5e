// Names, bound where they stand.
ghost use Rattle.std.specs.Prelude.{◌≡◌, ◌∷◌, [], IfOk, OnOk, map};
ghost use Rattle.js_tree.specs.View.{function_of};
ghost use Rattle.js_binding.specs.Scopes.{bound_in};
ghost use Rattle.js_binding.specs.Resolved as spec;
ghost use Rattle.scope_names.specs.Around.{scopes_of};

use js_tree::{BoundName, Function, NameList, ParameterList, StatementList};
use scope_names::{NameTable, Scopes};
use std::alloc::Global;
use std::mem::replace;
use utf16_text::Memory;

/// Binds a name where it stands.
pub fn bind(scopes: &Scopes<'_>, x: &mut BoundName) -> Result<(), Memory>
    ensures { OnOk result (x.new ≡ bound_in (scopes_of scopes.now) x.old) }
{
    x.bound = scopes.binding(&x.name)?;
    Ok(())
}

/// Binds the parameters of a function inside its scope.
pub fn bind_all(scopes: &Scopes<'_>, alloc: Global, all: &mut ParameterList) -> Result<(), Memory>
    ensures { OnOk result (all.new ≡ map (bound_in (scopes_of scopes.now)) all.old) }
{
    let mut items = replace(all, ParameterList::new(alloc)).into_vec();
    for x in items.iter_mut() {
        bind(scopes, x)?;
    }
    *all = ParameterList::from_vec(items);
    Ok(())
}

/// The names of the scope of a `catch`.
pub fn one_name(alloc: Global, x: &BoundName) -> Result<NameTable, Memory>
    ensures { IfOk result (λ t. t ≡ x.now.name ∷ []) }
{
    let mut names = NameList::new(alloc);
    names.push(alloc, x.name.copy(alloc)?)?;
    NameTable::new(alloc, names.as_slice())
}

/// A function without names and statements.
pub fn hollow(alloc: Global) -> Function
    ensures { function_of result ≡ spec.hollow }
{
    Function {
        name: None,
        parameters: ParameterList::new(alloc),
        names: NameList::new(alloc),
        body: StatementList::new(alloc),
    }
}
