// Laws of what is told.
ghost use Rattle.library_calls.specs.Laws.{MapSaysTheSame, ToldAnswersAlike, WantedIsUntold};

/// What is told of a run that wants no name is what `map` says of that script and URL, with a file of names that answers
/// as all names do. The names of a file that are told whole answer so.
pub fn map_says_the_same()
    ensures same { MapSaysTheSame }
    ensures alike { ToldAnswersAlike }
{}

/// The name that a run wants has no line among those that are told, whichever of its addresses they tell.
pub fn wanted_is_untold()
    ensures { WantedIsUntold }
{}
