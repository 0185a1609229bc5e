// Laws over the definitions of printing, of tokens and of their spelling.
ghost use Rattle.js_law_spelling.specs.Laws.{SpellingsAreRead, TokensAreSpellable, PrintedScriptsAreLexed};

/// The spelling of a token, with a space or a line feed behind it, is read as that token, and no unit more.
pub fn spellings_are_read()
    ensures { SpellingsAreRead }
{}

/// Each token of a text of 16-bit units can be spelt.
pub fn tokens_are_spellable()
    ensures { TokensAreSpellable }
{}

/// The bytes of a printed script are lexed as its printed tokens, places put aside, for each readable script whose
/// tokens can be spelt.
pub fn printed_scripts_are_lexed()
    ensures { PrintedScriptsAreLexed }
{}
