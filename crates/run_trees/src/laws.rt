// Laws of runs, whatever their end is.
ghost use Rattle.run_trees.specs.Laws.{AsksFewNames, DependsOnItsNames, ExtensionLaw};
ghost use Rattle.run_trees.specs.Laws.{NothingIsMissing, RestartLaw, WalksByStep};
ghost use Rattle.run_trees.specs.OneEnd.{WordsHaveOneEnd};

/// A run asks distinct names, at most 32.
pub fn asks_few_names<End>()
    ensures { AsksFewNames End }
{}

/// A run depends only on the answers to the names that it asks.
pub fn depends_on_its_names<End>()
    ensures { DependsOnItsNames End }
{}

/// The extension law: a run against a larger map is the same where the smaller one holds each of its names, and else
/// asks the same names up to the first that the smaller one lacks.
pub fn extension<End>()
    ensures { ExtensionLaw End }
{}

/// A run over a host goes step by step.
pub fn walks_by_step<End>()
    ensures { WalksByStep End }
{}

/// The restart theorem for a run over a host: it comes to the end of the whole run exactly where the host knows each
/// name, and else stops at the first name that the host lacks.
pub fn restart<End>()
    ensures { RestartLaw End }
{}

/// Over a host that knows every name no run stops.
pub fn nothing_is_missing()
    ensures { NothingIsMissing }
{}

/// Each word of runs makes parts that come to one end, whatever comes after them, of parts that do.
pub fn words_have_one_end<State, Cause, Value, Target, End, A, B>()
    ensures { WordsHaveOneEnd State Cause Value Target End A B }
{}
