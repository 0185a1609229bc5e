// Laws over the definition of resolving.
ghost use Rattle.js_law_binding.specs.Laws.{NamesAreBound, SourceIsTheScript, ResolvedFits, SlotsAreLookUps};

/// Each kind of node that touches names comes to what its rule says.
pub fn names_are_bound()
    ensures { NamesAreBound }
{}

/// The source of a resolved script is the script, with its bounds and names dropped.
pub fn source_is_the_script()
    ensures { SourceIsTheScript }
{}

/// Each number of a resolved script has a function, and each bound leads to a slot of a scope that is there.
pub fn resolved_fits()
    ensures { ResolvedFits }
{}

/// To read each name by its slot is to look it up along environment records, whatever their values.
pub fn slots_are_look_ups()
    ensures { SlotsAreLookUps }
{}
