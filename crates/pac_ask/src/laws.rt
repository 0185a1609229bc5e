// Laws of asking for one name.
ghost use Rattle.pac_ask.specs.Laws.{AsksAreSound, ToldIsAnswered};

/// What is polled for is sound.
pub fn asks_are_sound()
    ensures { AsksAreSound }
{}

/// Where each name that was sent is told, the name is not unanswered.
pub fn told_is_answered()
    ensures { ToldIsAnswered }
{}
