// The law that ties a stub to a log.
ghost use Rattle.stub_poller.specs.Driven.{DrivenShows};

/// A stub that is driven by the moves of a log holds the names that were sent and are neither told nor dead, in the
/// order of first sending, each with its number and age, and knows the dead ones.
pub fn driven_shows()
    ensures { DrivenShows }
{}
