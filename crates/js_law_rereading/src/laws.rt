// Laws over the definitions of reading and printing.
ghost use Rattle.js_law_rereading.specs.Laws.{PrintedTokensAreReadAgain, ScriptsReadAreReadAgain};

/// The tokens that a readable tree is printed as are read as the same tree again, places put aside.
pub fn printed_tokens_are_read_again()
    ensures { PrintedTokensAreReadAgain }
{}

/// The tokens that a script that was read is printed as are read as the same script again, places put aside.
pub fn scripts_read_are_read_again()
    ensures { ScriptsReadAreReadAgain }
{}
