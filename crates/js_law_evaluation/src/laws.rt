// Laws over the definition of evaluation, each of both ways in which a run has its scopes.
ghost use Rattle.js_evaluation.specs.Scoping.{by_names, by_slots};
ghost use Rattle.js_law_evaluation.specs.Laws.{EvaluationHasOneEnd, LoadsAtEachMoment, RunsAskLookupNames, RunsHaveOneEnd};

/// Each part of a script, with each number of parts that may still be opened, comes to one end, state, alerts and names
/// asked, whatever comes after it. So does each expression up to what it refers to.
pub fn evaluation_has_one_end()
    ensures names { EvaluationHasOneEnd by_names }
    ensures slots { EvaluationHasOneEnd by_slots }
{}

/// A run of a script comes to one end.
pub fn runs_have_one_end()
    ensures names { RunsHaveOneEnd by_names }
    ensures slots { RunsHaveOneEnd by_slots }
{}

/// A run of a script asks its host for lookup names alone, whatever replies it gets.
pub fn runs_ask_lookup_names()
    ensures names { RunsAskLookupNames by_names }
    ensures slots { RunsAskLookupNames by_slots }
{}

/// A load to which no clock is shown, and which asks nothing and has no fault, is the load at each moment.
pub fn loads_at_each_moment()
    ensures { LoadsAtEachMoment }
{}
