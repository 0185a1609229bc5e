// Laws over the definition of evaluation.
ghost use Rattle.js_law_names.specs.Laws.{NamesAreSlots, ReadsRunByNames};
ghost use Rattle.js_law_names.specs.LookUps.{DeletesAreLookUps, ReadsAreLookUps, TypesAreLookUps};
ghost use Rattle.js_law_names.specs.Writes.{FirstScopesFit, FoundInPlace, FoundWhereHeld, NewScopesAreAround};
ghost use Rattle.js_law_names.specs.Writes.{WritesAreLookUps, WritesBehindScopes, WritesHaveTheirPlace, WrittenIsFound};

/// The run of a script by its names is the run of the resolved script by its slots, where no declared function has a
/// name of its own.
pub fn names_are_slots()
    ensures { NamesAreSlots }
{}

/// So it is for each script that is read from a text.
pub fn reads_run_by_names()
    ensures { ReadsRunByNames }
{}

/// In a run by names, what is read is what a look-up finds along the scopes, of which each is a list of names with their
/// values.
pub fn reads_are_look_ups()
    ensures { ReadsAreLookUps }
{}

/// What `typeof` asks of a name is what such a look-up finds, or undefined where no scope has it and the global object
/// neither.
pub fn types_are_look_ups()
    ensures { TypesAreLookUps }
{}

/// A `delete` of a name is false where such a look-up finds it, and the deletion of the global object's property
/// elsewhere.
pub fn deletes_are_look_ups()
    ensures { DeletesAreLookUps }
{}

/// Where each scope has as many slots as names and is newer than the scope around it, a write to a name changes the first
/// pair of that name in the innermost scope that has it, and nothing else; the own name of a function expression keeps
/// its value.
pub fn writes_are_look_ups()
    ensures { WritesAreLookUps }
{}

/// Where no scope has the name, the write goes to the property of the global object.
pub fn writes_behind_scopes()
    ensures { WritesBehindScopes }
{}

/// A new scope has its names, each undefined, and around it the scope that it was made in; each other scope stays.
pub fn new_scopes_are_around()
    ensures { NewScopesAreAround }
{}

/// Where a run begins, each scope has as many slots as names, and is newer than the scope around it. A write and a new
/// scope keep this.
pub fn first_scopes_fit()
    ensures { FirstScopesFit }
{}

/// In each state, a write goes to the first pair of its name in the innermost scope that has one.
pub fn writes_have_their_place()
    ensures { WritesHaveTheirPlace }
{}

/// A look-up finds a value where such a scope is.
pub fn found_where_held()
    ensures { FoundWhereHeld }
{}

/// Behind a write a look-up finds what was written, but for a function expression's own name.
pub fn written_is_found()
    ensures { WrittenIsFound }
{}

/// In each state, what a look-up finds is the value in the place that a write goes to.
pub fn found_in_place()
    ensures { FoundInPlace }
{}
