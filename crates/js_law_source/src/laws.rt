// The laws over the definitions of reading and resolving.
ghost use Rattle.js_law_source.specs.Laws.{SourcesOfNumberedScripts, SourcesOfScriptsRead};

/// The source of the resolved script is the script, for each script that is read from a text.
pub fn sources_of_scripts_read()
    ensures { SourcesOfScriptsRead }
{}

/// The script with its functions by number, which a run by names takes, is the script once these are back in their
/// places, for each script that is read from a text.
pub fn sources_of_numbered_scripts()
    ensures { SourcesOfNumberedScripts }
{}
