// Laws over the definitions that the calls cite.
ghost use Rattle.dns_stream.specs.Laws.{
  PiecesAreTheStream,
  StreamsHaveFrames,
  WrittenFramesAreRead,
};

/// The frames of a stream, written one behind the other, and its rest are the stream.
pub fn streams_have_frames()
    ensures { StreamsHaveFrames }
{}

/// Messages that are written as frames are read as these messages.
pub fn written_frames_are_read()
    ensures { WrittenFramesAreRead }
{}

/// However a stream is cut into pieces, a reader hands on its messages.
pub fn pieces_are_the_stream()
    ensures { PiecesAreTheStream }
{}
