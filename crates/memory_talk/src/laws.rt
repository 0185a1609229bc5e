// The laws of logs that are answered from a map, each once.
ghost use Rattle.memory_talk.specs.Laws.{
  AgreesWithTheMap,
  CutCostsNoMore,
  CutIsFront,
  LinkHasRoom,
  LogIsThere,
  NoFrameIsDue,
  NoFrameIsSent,
  OneLog,
  QuestionsAreReplied,
  SitesHaveAddresses,
  SoundJobsAskFew,
  ToldIsTheMaps,
};

/// What is told of a name is the map's answer to it.
pub fn told_is_the_maps()
    ensures { ToldIsTheMaps }
{}

/// The whole run of a finished session is the one against the map.
pub fn agrees_with_the_map<End>()
    ensures { AgreesWithTheMap End }
{}

/// The answers for generated sites are addresses of the family that their names ask for.
pub fn sites_have_addresses()
    ensures { SitesHaveAddresses }
{}

/// A map and jobs have at most one whole log.
pub fn one_log()
    ensures { OneLog }
{}

/// A map and sound jobs have a whole log.
pub fn log_is_there()
    ensures { LogIsThere }
{}

/// A log that is cut short is a front of the whole one.
pub fn cut_is_front()
    ensures { CutIsFront }
{}

/// No reply from a map is truncated, so no frame is due.
pub fn no_frame_is_due()
    ensures { NoFrameIsDue }
{}

/// So none is sent, and none is owed.
pub fn no_frame_is_sent()
    ensures { NoFrameIsSent }
{}

/// Where jobs ask few names, the events of a whole log are the replies to its questions, one each and in their order,
/// and each job is finished.
pub fn questions_are_replied()
    ensures { QuestionsAreReplied }
{}

/// The runs of scripts for the URLs of a batch ask few names.
pub fn sound_jobs_ask_few()
    ensures { SoundJobsAskFew }
{}

/// Where jobs ask few names, the link has room for one move more while some job waits.
pub fn link_has_room()
    ensures { LinkHasRoom }
{}

/// A log that is cut short costs no more runs than a whole one.
pub fn cut_costs_no_more()
    ensures { CutCostsNoMore }
{}
