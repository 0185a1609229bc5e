// A law of talks.
ghost use Rattle.poll_loop.specs.Laws.{UnfinishedIsCut};

/// Where memory ran out the log of a sound talk is cut short.
pub fn unfinished_is_cut()
    ensures { UnfinishedIsCut }
{}
