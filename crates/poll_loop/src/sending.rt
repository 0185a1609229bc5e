// Questions that are sent.
ghost use Rattle.std.specs.Prelude.{map};
ghost use Rattle.pac_ports.specs.Link.{HasSent};
ghost use Rattle.poll_log.specs.Questions.{octets_of, outgoing_of};
ghost use Rattle.poll_loop.specs.Sending.{HasSentAll};

use dns_message::write_query;
use pac_ports::{Failed, Link};
use poll_log::Sending;

/// Sends the questions in order, each to its server.
pub(crate) fn send_all<N: Link>(link: &mut N, sendings: &[Sending]) -> Result<(), Failed>
    ensures { HasSentAll (N.state link.old) (map outgoing_of sendings.now) result (N.state link.new) }
{
    for sending in sendings {
        send(link, sending)?;
    }
    Ok(())
}

// Sends a question to its server.
fn send<N: Link>(link: &mut N, sending: &Sending) -> Result<(), Failed>
    ensures { HasSent (N.state link.old) sending.now.to (octets_of sending.now.question) result (N.state link.new) }
{
    let mut buffer = [0; 512];
    let question = &sending.question;
    let length = write_query(&mut buffer, question.id, &question.name);
    link.send(sending.to, &buffer[..length])
}
