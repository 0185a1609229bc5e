// Laws of what is reported.
ghost use Rattle.js_evaluation.specs.Evaluation.{Entry};
ghost use Rattle.js_law_evaluation.specs.Laws.{AsksLookupNames};
ghost use Rattle.url_runs.specs.Runs.{ScriptRuns};
ghost use Rattle.url_runs.specs.Resolving.{Completion};
ghost use Rattle.url_runs.specs.Laws.{EachMapIsTaken, RunsAreFew, TasksAreSound, ToldAreAnswered};

/// No URL costs more runs than the distinct names of its whole run, and one.
pub fn runs_are_few()
    ensures { RunsAreFew }
{}

/// For each log there is a map of all names that holds what the log tells: that of what it tells.
pub fn completions_are_there()
    ensures { Completion }
{}

/// Each map of all names that holds what a log tells is taken by some such choice.
pub fn each_map_is_taken()
    ensures { EachMapIsTaken }
{}

/// What is polled for is sound, where runs ask for lookup names alone.
pub fn tasks_are_sound()
    ensures { (script : ScriptRuns) → ((entry : Entry) → AsksLookupNames (script entry)) → TasksAreSound script }
{}

/// Where each name that was sent is told, no URL is unanswered.
pub fn told_are_answered()
    ensures { ToldAreAnswered }
{}
