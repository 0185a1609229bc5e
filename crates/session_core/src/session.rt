// A session: a run, and what has become of it.
ghost use Rattle.std.specs.Prelude.{◌≡◌, IfSome, None, false};
ghost use Rattle.session_core.specs.Ends.{is_finished, without_outcome};
ghost use Rattle.session_core.specs.declared.session.Progress.TheVariants.{Finished};

use pac_names::LookupName;

/// What has become of a run.
#[derive(Drop)]
pub enum Progress<O> {
    /// It waits for this name.
    Waiting(LookupName),
    /// It was whole.
    Finished(O),
    /// Nobody answered this name.
    Unanswered(LookupName),
}

/// The same without the outcome.
#[derive(Debug, PartialEq, Eq, Drop)]
pub enum SessionState {
    Waiting(LookupName),
    Finished,
    Unanswered(LookupName),
}

/// A run, what has become of it, and how often it was run.
#[derive(Drop)]
pub struct Session<R, O> {
    pub run: R,
    pub progress: Progress<O>,
    pub runs: u64,
}

/// The same without the outcome.
pub(crate) fn without_outcome<O>(progress: &Progress<O>) -> SessionState
    ensures { result ≡ without_outcome progress.now }
{
    match progress {
        Progress::Waiting(name) => SessionState::Waiting(name.copy()),
        Progress::Finished(_) => SessionState::Finished,
        Progress::Unanswered(name) => SessionState::Unanswered(name.copy()),
    }
}

/// The outcome, where there is one.
pub(crate) fn outcome_of<O>(progress: &Progress<O>) -> Option<&O>
    ensures none { result ≡ None → is_finished progress.now ≡ false }
    ensures some { IfSome result (λ outcome. progress.now ≡ Finished outcome.now) }
{
    match progress {
        Progress::Finished(outcome) => Some(outcome),
        Progress::Waiting(_) => None,
        Progress::Unanswered(_) => None,
    }
}
