// Replies to questions from a table of answers.
ghost use Rattle.std.specs.Prelude.{◌≡◌, ◌≤◌, Some, vec_capacity, vec_len};
ghost use Rattle.dns_message.specs.Question.{question_octets};
ghost use Rattle.poll_log.specs.Questions.{asked_by};
ghost use Rattle.pac_generate.specs.Answered.{reply_from};
ghost use Rattle.pac_generate.specs.MapLink.{replies_with};

use crate::limits::MOST_QUESTIONS;
use answer_table::AnswerTable;
use dns_message::{read_query, write_reply};
use pac_names::{Answer, LookupName};
use pac_ports::Octets;
use poll_log::Question;

/// Keeps the reply to a datagram that is a question, unless there are the most. There is room for them.
pub(crate) fn keep_reply(known: &AnswerTable, kept: &mut Vec<Octets>, datagram: &[u8])
    requires within { vec_len kept.old ≤ MOST_QUESTIONS }
    requires room { MOST_QUESTIONS ≤ vec_capacity kept.old }
    ensures kept { kept.new.items ≡ replies_with known.now kept.old.items datagram.now }
    ensures within { vec_len kept.new ≤ MOST_QUESTIONS }
    ensures room { MOST_QUESTIONS ≤ vec_capacity kept.new }
{
    if kept.len() >= MOST_QUESTIONS {
        return;
    }
    if let Some(question) = question_of(datagram) {
        kept.push_reserved(reply_from(known, &question));
    }
}

// The question that a datagram is.
fn question_of(datagram: &[u8]) -> Option<Question>
    ensures { result ≡ asked_by datagram.now }
{
    let (id, name) = read_query(datagram)?;
    Some(known_question(datagram, id, name))
}

// The question whose octets a datagram has.
fn known_question(_datagram: &[u8], id: u16, name: LookupName) -> Question
    requires { _datagram.now ≡ question_octets id name }
    ensures { asked_by _datagram.now ≡ Some result }
{
    let _kept = name.bytes();
    Question { id, name }
}

// The reply to a question; a name outside the table has no address.
fn reply_from(known: &AnswerTable, question: &Question) -> Octets
    ensures { result ≡ reply_from known.now question.now }
{
    let answer = known.get(&question.name).unwrap_or(Answer::NoAddress);
    let mut buffer = [0; 512];
    let length = write_reply(&mut buffer, question.id, &question.name, answer);
    Octets::new(&buffer[..length])
}
