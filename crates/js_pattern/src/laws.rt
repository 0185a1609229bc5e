// What holds of ways and walks, for those who read the definitions.
ghost use Rattle.js_pattern.specs.Laws.{RepeatByTurns, WalkEndsAtFirstWay};
ghost use Rattle.js_pattern.specs.Offers.{WalkByOffers};
ghost use Rattle.js_pattern.specs.Within.{WaysStayWithin};

/// The walk of a list of parts costs 1 and the walks of the lists that its first part offers, up to and with the first
/// that succeeds.
pub fn walk_is_that_of_its_offers()
    ensures { WalkByOffers }
{}

/// A walk with nothing behind the pattern comes to the first of its ways, and fails exactly where there is none.
pub fn walk_ends_at_the_first_way()
    ensures { WalkEndsAtFirstWay }
{}

/// The ways of a Repeat are those of a turn, each followed by the ways of the Repeat with both bounds one less, and
/// leaving it.
pub fn repeat_is_turns_of_the_smaller()
    ensures { RepeatByTurns }
{}

/// Each way from a place within the text goes on and stays within it, and so do its groups.
pub fn ways_stay_within_the_text()
    ensures { WaysStayWithin }
{}
