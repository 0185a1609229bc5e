// The sites of a program.
ghost use Rattle.std.specs.Prelude.{◌≡◌, ◌≤◌, ◌++◌, IfOk, OnOk, length};
ghost use Rattle.js_tree.specs.Tree.{statements_of};
ghost use Rattle.js_scope.specs.Functions.{functions_of};
ghost use Rattle.js_sites.specs.Program as spec;

use crate::statements::add_statements;
use crate::{Site, SiteList};
use js_scope::Program;
use js_tree::Function;
use std::alloc::Global;
use utf16_text::Memory;

/// The sites of a program, in the order in which they are written: those of a function's body stand right behind the
/// function's own. Memory is its only other answer.
pub fn sites(alloc: Global, program: &Program) -> Result<SiteList, Memory>
    ensures { IfOk result (λ found. found ≡ spec.sites_of (statements_of program.now.body) (functions_of program.now.functions)) }
{
    let mut outer = SiteList::new(alloc);
    add_statements(alloc, program.body.as_slice(), &mut outer)?;
    let mut found = SiteList::new(alloc);
    add_inlined(alloc, program.functions.as_slice(), 0, outer, &mut found)?;
    Ok(found)
}

/// Adds these sites, and behind each function those of its body. The first of the functions has the number `first`.
#[cycle(inlined)]
fn add_inlined(
    alloc: Global,
    functions: &[Function],
    first: usize,
    sites: SiteList,
    found: &mut SiteList,
) -> Result<(), Memory>
    ensures { OnOk result (found.new ≡ found.old ++ spec.inlined (spec.sites_from first (functions_of functions.now)) sites) }
{
    for site in sites.into_vec() {
        let number = number_in(&site);
        found.push(alloc, site)?;
        add_within(alloc, functions, first, number, found)?;
    }
    Ok(())
}

/// The number of the function that a site is.
fn number_in(site: &Site) -> Option<u32>
    ensures { result ≡ spec.number_in site.now }
{
    match site {
        Site::Function {
            place: _,
            name: _,
            number,
        } => Some(*number),
        _ => None,
    }
}

/// Adds the sites of the body of the function of this number.
#[cycle(inlined)]
fn add_within(
    alloc: Global,
    functions: &[Function],
    first: usize,
    number: Option<u32>,
    found: &mut SiteList,
) -> Result<(), Memory>
    ensures { OnOk result (found.new ≡ found.old ++ spec.within (spec.sites_from first (functions_of functions.now)) number) }
{
    let Some(number) = number else {
        return Ok(());
    };
    match functions_from(functions, first, number as usize) {
        [] => Ok(()),
        [function, rest @ ..] => {
            let mut inner = SiteList::new(alloc);
            add_statements(alloc, function.body.as_slice(), &mut inner)?;
            add_inlined(alloc, rest, number as usize + 1, inner, found)
        }
    }
}

/// The functions from this number on; none where it is below that of the first.
fn functions_from(functions: &[Function], first: usize, number: usize) -> &[Function]
    ensures sites { spec.first_sites number (functions_of result.now) ≡ spec.sites_from first (functions_of functions.now) number }
    ensures within { length result.now ≤ length functions.now }
{
    if number < first {
        return &[];
    }
    &functions[(number - first).min(functions.len())..]
}
