// Laws of open parts.
ghost use Rattle.js_frames.specs.Laws.{UnwindingCloses, UnwindingKeepsTheRest};

/// The parts that an abrupt end passes make nothing of it: what is left of the run is what the part that takes it, and
/// those around it, make of it.
pub fn unwinding_keeps_the_rest()
    ensures { UnwindingKeepsTheRest }
{}

/// The part that takes an abrupt end was open, and no longer is.
pub fn unwinding_closes()
    ensures { UnwindingCloses }
{}
