// The laws of runs over a log, each once.
ghost use Rattle.session_log.specs.Laws.{
  EndsStay,
  IsIsolated,
  LacksTheFirstMissing,
  RunsAreJobs,
  RunsAskInOrder,
  RunsCostTheirNames,
  RunsGrow,
  SessionsEnd,
  ToldIsFinite,
};

/// Over a finite map a job lacks the first name of its whole run that the map doesn't hold.
pub fn lacks_the_first_missing<End>()
    ensures { LacksTheFirstMissing End }
{}

/// The extension law: more answers leave a run that lacks none, and else the names that it asks up to the first one
/// that it lacks.
pub fn runs_ask_in_order<End>()
    ensures { RunsAskInOrder End }
{}

/// So a run is a job that obeys the extension law.
pub fn runs_are_jobs<End>()
    ensures { RunsAreJobs End }
{}

/// The answers that a log tells are a finite map.
pub fn told_is_finite()
    ensures { ToldIsFinite }
{}

/// A session that doesn't wait has one end.
pub fn sessions_end<End>()
    ensures { SessionsEnd End }
{}

/// An ended session stays so, with its whole run or its name.
pub fn ends_stay<End>()
    ensures { EndsStay End }
{}

/// A session costs at most one run more than the names that it asks.
pub fn runs_cost_their_names<End>()
    ensures { RunsCostTheirNames End }
{}

/// A session's whole run depends on the answers to its own names alone.
pub fn is_isolated<End>()
    ensures { IsIsolated End }
{}

/// The runs that a log costs grow by the waits that are told.
pub fn runs_grow()
    ensures { RunsGrow }
{}
