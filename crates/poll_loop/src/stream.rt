// The stream of a link.
ghost use Rattle.std.specs.Prelude.{◌≡◌, ◌≤◌, IfOk};
ghost use Rattle.pac_ports.specs.Link.{IsWithin};
ghost use Rattle.dns_stream.specs.Reading.{wanted_of};
ghost use Rattle.poll_log.specs.Moment.{flights_of};
ghost use Rattle.poll_log.specs.Questions.{has_name};
ghost use Rattle.poll_log.specs.Streamed.{due_among};
ghost use Rattle.poll_log.specs.Turns.{Turns};
ghost use Rattle.poll_loop.specs.Events.{event_of};
ghost use Rattle.poll_loop.specs.Streams.{
  HasFramed,
  HasTaken,
  IsNew,
  arrival_got,
  event_read,
};
ghost use Rattle.poll_loop.specs.Task.{Task};

use crate::{Event, PollError, Poller};
use dns_stream::{Reader, write_frame};
use pac_names::LookupName;
use pac_ports::{Got, Link, StreamAnswer};
use poll_log::Question;
use std::alloc::Global;
use utf16_text::Memory;

/// What was read from the stream, and the questions whose frames were due.
#[derive(Drop)]
pub(crate) struct Stream {
    pub(crate) reader: Reader,
    pub(crate) framed: Vec<Question>,
}

impl Stream {
    /// Nothing was read yet, and no frame was due. It takes the room of the longest message.
    pub(crate) fn new(alloc: Global) -> Result<Stream, Memory>
        ensures { IfOk result (λ stream. IsNew stream) }
    {
        Ok(Stream {
            reader: Reader::new(alloc)?,
            framed: Vec::new(alloc),
        })
    }

    /// Takes what was received.
    pub(crate) fn take(&mut self, buffer: &[u8; 512], got: Got)
        requires { IsWithin (wanted_of self.old.reader) got }
        ensures taken { HasTaken (arrival_got buffer.now got) self.old.reader self.new.reader }
        ensures framed { self.new.framed ≡ self.old.framed }
    {
        match got {
            Got::Piece(count) => self.reader.feed(&buffer[..count]),
            Got::StreamEnd => self.reader.reset(),
            Got::Datagram(_) => {}
            Got::Tick => {}
        }
    }

    /// What was received and taken, as an event: a piece of the stream is the datagram of the message that it ends, or an
    /// empty one, and so is the stream's end.
    pub(crate) fn event<'a>(&'a self, buffer: &'a [u8; 512], got: Got) -> Event<'a>
        requires { IsWithin 512 got }
        ensures { event_of result ≡ event_read self.now.reader (arrival_got buffer.now got) }
    {
        match got {
            Got::Datagram(count) => Event::Datagram(&buffer[..count]),
            Got::Tick => Event::Tick,
            Got::Piece(_) => match self.reader.message() {
                Some(message) => Event::Datagram(message),
                None => Event::Datagram(&[]),
            },
            Got::StreamEnd => Event::Datagram(&[]),
        }
    }

    /// The question whose frame is due: that to which a datagram is the truncated response, unless a frame was due for
    /// its name before.
    pub(crate) fn due<P: Poller>(
        &self,
        poller: &P,
        buffer: &[u8; 512],
        got: Got,
    ) -> Option<Question>
        requires { IsWithin 512 got }
        ensures { (task : Task) (turns : Turns) → P.stands poller.now task turns →
            result ≡ due_among (flights_of task.terms turns) self.now.framed.items (arrival_got buffer.now got) }
    {
        let Got::Datagram(count) = got else {
            return None;
        };
        let question = poller.truncated(&buffer[..count])?;
        if self.was_due(&question.name) {
            return None;
        }
        Some(question)
    }

    // Whether a frame was due for the name.
    fn was_due(&self, name: &LookupName) -> bool
        ensures { result ≡ has_name name.now self.now.framed.items }
    {
        self.framed.iter().any(|question| question.name == *name)
    }

    /// Sends the frame of a question. Where the stream ends at it, that was its sending.
    pub(crate) fn send<N: Link>(
        &mut self,
        link: &mut N,
        question: Question,
    ) -> Result<(), PollError>
        ensures { HasFramed question self.old self.new (N.state link.old) result (N.state link.new) }
    {
        let mut buffer = [0; 514];
        let length = write_frame(&mut buffer, question.id, &question.name);
        let Ok(()) = self.framed.push(question) else {
            return Err(PollError::Memory);
        };
        match link.stream_send(&buffer[..length]) {
            Ok(()) => Ok(()),
            Err(StreamAnswer::Ended) => {
                self.reader.reset();
                Ok(())
            }
            Err(StreamAnswer::Failed) => Err(PollError::Link),
        }
    }
}
