// Laws over the definitions that the calls cite.
ghost use Rattle.dns_message.specs.Laws.{OneNameReplied, QuestionsDiffer, TruncatedIsNoReply};

/// Different pairs of number and name have different questions.
pub fn questions_differ()
    ensures { QuestionsDiffer }
{}

/// At most one name has a reply in a datagram, for given numbers.
pub fn one_name_replied()
    ensures { OneNameReplied }
{}

/// A truncated response answers no question, whatever it holds.
pub fn truncated_is_no_reply()
    ensures { TruncatedIsNoReply }
{}
