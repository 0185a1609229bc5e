// Laws over the definitions of reading, of printing and of tokens.
ghost use Rattle.js_law_round_trip.specs.Laws.{IsReadBack, KeepsTokens, PrintingIsReadBack, TokensAreKept};

use utf16_text::Text;

/// A script that a text spells is printed as a text that spells the same script, places put aside. Brackets nest deeper
/// in the printed text, so it is read without the limit of nesting.
pub fn printing_is_read_back()
    ensures { PrintingIsReadBack }
{}

/// What a text spells is printed as the tokens of the text: none is lost, invented or reordered but round brackets,
/// commas and semicolons.
pub fn tokens_are_kept()
    ensures { TokensAreKept }
{}

/// Both laws for a text at hand, whose units have 16 bits as those of every text.
pub fn of_text(text: &Text)
    ensures read_back { IsReadBack text.now }
    ensures kept { KeepsTokens text.now }
{
    let _units = text.units();
}
