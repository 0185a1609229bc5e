// Laws over the definitions of reading and resolving.
ghost use Rattle.js_law_read.specs.Laws.{ReadsAreAnonymous, ReadsAreRight};

/// In each script that is read from a text no declared function has a name of its own.
pub fn reads_are_anonymous()
    ensures { ReadsAreAnonymous }
{}

/// The resolved script of each text that is read has each name where it stands, and without these places it is the
/// script with its functions by number.
pub fn reads_are_right()
    ensures { ReadsAreRight }
{}
