// Laws over the definition of resolving.
ghost use Rattle.js_law_right.specs.Laws.{ResolvedIsNumbered, ResolvedIsRight};

/// Each name of a resolved script has the place where a look-up along the scopes around it finds it, and each function
/// the names of its scope, where no declared function has a name of its own.
pub fn resolved_is_right()
    ensures { ResolvedIsRight }
{}

/// Without the places of its names, a resolved script is the script with its functions by number.
pub fn resolved_is_numbered()
    ensures { ResolvedIsNumbered }
{}
