// The names of a function's scope.
ghost use Rattle.std.specs.Prelude.{◌≡◌, ◌++◌, IfOk, OnOk};
ghost use Rattle.js_tree.specs.Tree.{statements_of};
ghost use Rattle.js_binding.specs.Names as spec;

use crate::NameTable;
use crate::mentions::mentions_in_body;
use crate::variables::{add_functions, add_parameters, add_variables};
use js_tree::{BoundName, NameList, Statement};
use std::alloc::Global;
use utf16_text::{Memory, Text};

/// The names of the scope of a function with these parameters and this body: its parameters, the functions that it
/// declares, its variables, then `arguments` where the body mentions it; each once (ECMA-262 5.1, section 10.5).
pub fn names_of(
    alloc: Global,
    parameters: &[BoundName],
    body: &[Statement],
) -> Result<NameTable, Memory>
    ensures { IfOk result (λ t. t ≡ spec.names_of parameters.now (statements_of body.now)) }
{
    let mut names = NameList::new(alloc);
    add_parameters(alloc, parameters, &mut names)?;
    add_functions(alloc, body, &mut names)?;
    add_variables(alloc, body, &mut names)?;
    add_arguments(alloc, body, &mut names)?;
    NameTable::new(alloc, names.as_slice())
}

fn add_arguments(alloc: Global, body: &[Statement], names: &mut NameList) -> Result<(), Memory>
    ensures { OnOk result (names.new ≡ names.old ++ spec.arguments_of (statements_of body.now)) }
{
    let arguments = Text::from_latin_1(alloc, b"arguments")?;
    if mentions_in_body(&arguments, body) {
        names.push(alloc, arguments)?;
    }
    Ok(())
}
