// What a script has of its own.
ghost use Rattle.std.specs.Prelude.{◌≡◌, ◌++◌, IfOk, OnOk};
ghost use Rattle.js_lint.specs.Own as spec;

use js_sites::Site;
use js_tree::NameList;
use scope_names::NameTable;
use std::alloc::Global;
use utf16_text::{Memory, Text};

/// What a script has of its own, each name once.
#[derive(Drop)]
pub(crate) struct Own {
    /// The global names that it declares or writes.
    pub(crate) globals: NameTable,
    /// The names of properties that it makes.
    pub(crate) members: NameTable,
}

/// What a script with these sites has of its own.
pub(crate) fn own_of(alloc: Global, sites: &[Site]) -> Result<Own, Memory>
    ensures { IfOk result (λ own. own ≡ spec.own_of sites.now) }
{
    let globals = globals_in(alloc, sites)?;
    let members = members_in(alloc, sites)?;
    Ok(Own {
        globals: NameTable::new(alloc, globals.as_slice())?,
        members: NameTable::new(alloc, members.as_slice())?,
    })
}

fn globals_in(alloc: Global, sites: &[Site]) -> Result<NameList, Memory>
    ensures { IfOk result (λ names. names ≡ spec.globals_in sites.now) }
{
    let mut names = NameList::new(alloc);
    let mut left = sites;
    while let [site, rest @ ..] = left {
        add_global(alloc, site, &mut names)?;
        left = rest;
    }
    Ok(names)
}

fn add_global(alloc: Global, site: &Site, names: &mut NameList) -> Result<(), Memory>
    ensures { OnOk result (names.new ≡ names.old ++ spec.global_in site.now) }
{
    match site {
        Site::Written { name } => names.push(alloc, name.copy(alloc)?),
        _ => Ok(()),
    }
}

fn members_in(alloc: Global, sites: &[Site]) -> Result<NameList, Memory>
    ensures { IfOk result (λ names. names ≡ spec.members_in sites.now) }
{
    let mut names = NameList::new(alloc);
    let mut left = sites;
    while let [site, rest @ ..] = left {
        add_member(alloc, site, &mut names)?;
        left = rest;
    }
    Ok(names)
}

fn add_member(alloc: Global, site: &Site, names: &mut NameList) -> Result<(), Memory>
    ensures { OnOk result (names.new ≡ names.old ++ spec.member_in site.now) }
{
    match site {
        Site::Made { name } => names.push(alloc, name.copy(alloc)?),
        _ => Ok(()),
    }
}

/// Whether a name is among these.
pub(crate) fn has_name(names: &NameTable, name: &Text) -> bool
    ensures { result ≡ spec.has_name names.now name.now }
{
    names.slot(name).is_some()
}
