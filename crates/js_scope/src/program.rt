// Programs.
ghost use Rattle.std.specs.Prelude.{IsTrue};
ghost use Rattle.js_tree.specs.Tree.{statements_of};
ghost use Rattle.js_binding.specs.Fits.{program_fits};
ghost use Rattle.js_scope.specs.Functions.{functions_of};

use js_tree::{FunctionList, StatementList};

/// A script whose names are resolved: its statements, and its functions by their numbers.
///
/// Each number that stands in it has a function, and each bound leads to a slot of a scope that is there.
#[derive(Drop)]
pub struct Program {
    pub body: StatementList,
    pub functions: FunctionList,
    pub ghost fits: { IsTrue (program_fits (statements_of body) (functions_of functions)) },
}
