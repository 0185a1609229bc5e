// Laws over the definitions of reading and printing.
ghost use Rattle.js_law_tokens.specs.Laws.{ReadingKeepsTokens, TestsHoldOfPrinted};

/// A script that was read is printed as the tokens that it was read from, but for round brackets, commas and
/// semicolons.
pub fn reading_keeps_tokens()
    ensures { ReadingKeepsTokens }
{}

/// A test that holds of each sign and of texts of names holds of each token that a script is printed as, where it holds
/// of each token that the script was read from.
pub fn tests_hold_of_printed()
    ensures { TestsHoldOfPrinted }
{}
