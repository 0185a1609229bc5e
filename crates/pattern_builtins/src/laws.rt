// What holds of the definitions, for those who read them.
ghost use Rattle.pattern_builtins.specs.Laws.{MoreSearchesFindNoMore, MoreTurnsSplitAlike};

/// Each search for a match begins behind the one before it, so more searches than there are places find no more.
pub fn more_searches_find_no_more()
    ensures { MoreSearchesFindNoMore }
{}

/// Each turn of a split takes the last match or the next place one unit further, so more turns than two for each unit
/// change nothing.
pub fn more_turns_split_alike()
    ensures { MoreTurnsSplitAlike }
{}
