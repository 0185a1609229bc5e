// What can be copied.
ghost use Rattle.std.specs.Prelude.{◌≡◌, IfOk};

use std::alloc::Global;
use utf16_text::Memory;

/// A type whose values have equal copies, on which a write to the other has no effect.
pub trait Copied: Sized + Drop {
    fn copied(&self, alloc: Global) -> Result<Self, Memory>
        ensures { IfOk result (λ copy. copy ≡ self.now) };
}
