// Laws over the definition of reading.
ghost use Rattle.js_law_readable.specs.Laws.{ScriptsReadAreReadable, TextsReadAreReadable};

/// Each script that is read from tokens, with any room for nesting, is a readable tree.
pub fn scripts_read_are_readable()
    ensures { ScriptsReadAreReadable }
{}

/// Each script that is read from a text is a readable tree.
pub fn texts_read_are_readable()
    ensures { TextsReadAreReadable }
{}
