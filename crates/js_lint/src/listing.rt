// The findings of a program.
ghost use Rattle.std.specs.Prelude.{◌≡◌, IfOk};
ghost use Rattle.js_tree.specs.Tree.{statements_of};
ghost use Rattle.js_scope.specs.Functions.{functions_of};
ghost use Rattle.js_lint.specs.Findings as spec;

use crate::FindingList;
use crate::own::{Own, own_of};
use crate::rules::finding_at;
use js_scope::Program;
use js_sites::{Site, sites};
use js_tree::Function;
use std::alloc::Global;
use utf16_text::Memory;

/// All findings of a program, in the order in which they are written. Memory is its only other answer.
pub fn findings(alloc: Global, program: &Program) -> Result<FindingList, Memory>
    ensures { IfOk result (λ found. found ≡ spec.findings_of (statements_of program.now.body) (functions_of program.now.functions)) }
{
    let sites = sites(alloc, program)?;
    let own = own_of(alloc, sites.as_slice())?;
    findings_at(alloc, &own, program.functions.as_slice(), sites.as_slice())
}

fn findings_at(
    alloc: Global,
    own: &Own,
    functions: &[Function],
    sites: &[Site],
) -> Result<FindingList, Memory>
    ensures { IfOk result (λ found. found ≡ spec.findings_at own.now (functions_of functions.now) sites.now) }
{
    let mut found = FindingList::new(alloc);
    let mut left = sites;
    while let [site, rest @ ..] = left {
        if let Some(finding) = finding_at(alloc, own, functions, site)? {
            found.push(alloc, finding)?;
        }
        left = rest;
    }
    Ok(found)
}
