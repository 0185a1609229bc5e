// The laws over the definitions of a log, each once.
ghost use Rattle.poll_log.specs.Laws.{
  AgeIsSinceBirth,
  AllToldFinishes,
  BeatBound,
  DeadStays,
  FinishedStays,
  QuestionsAreRead,
  RunBound,
  RunsAreRestartable,
  SentAsDue,
  ToldGrows,
  ToldWasSent,
  UnansweredStays,
};

/// The octets of a question are read as that question.
pub fn questions_are_read()
    ensures { QuestionsAreRead }
{}

/// No name is told that was not sent.
pub fn told_was_sent()
    ensures { ToldWasSent }
{}

/// An age is the number of beats from the turn of the first send on.
pub fn age_is_since_birth()
    ensures { AgeIsSinceBirth }
{}

/// Told answers only grow.
pub fn told_grows()
    ensures { ToldGrows }
{}

/// A dead name stays dead.
pub fn dead_stays()
    ensures { DeadStays }
{}

/// A finished job stays finished.
pub fn finished_stays()
    ensures { FinishedStays }
{}

/// An unanswered job stays unanswered, with its name.
pub fn unanswered_stays()
    ensures { UnansweredStays }
{}

/// A run that asks its names in their order is restartable.
pub fn runs_are_restartable()
    ensures { RunsAreRestartable }
{}

/// Where no job waits and all that was sent is told, no job is unanswered.
pub fn all_told_finishes()
    ensures { AllToldFinishes }
{}

/// A job costs at most one run more than the names that it asked.
pub fn run_bound()
    ensures { RunBound }
{}

/// In a log with the sends that are owed each name was sent exactly as often as it is due.
pub fn sent_as_due()
    ensures { SentAsDue }
{}

/// A log in which some job waits before each event has an end.
pub fn beat_bound()
    ensures { BeatBound }
{}
