// Laws over the tables of findings.
ghost use Rattle.js_law_lint.specs.Laws.{FunctionsAgree, GlobalsAgree, MembersAgree, ObjectsAgree};

/// Each name of the global object, also one that it inherits, has its row, and is missing exactly where it is left out.
pub fn globals_agree()
    ensures { GlobalsAgree }
{}

/// A property that objects inherit is told by its name exactly where it is left out, but for `constructor` of patterns.
pub fn members_agree()
    ensures { MembersAgree }
{}

/// So is one that functions inherit, unless every object has one of that name.
pub fn functions_agree()
    ensures { FunctionsAgree }
{}

/// A property of `Math` or of a constructor is told with its object exactly where it is left out.
pub fn objects_agree()
    ensures { ObjectsAgree }
{}
