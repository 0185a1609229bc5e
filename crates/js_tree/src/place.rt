// Places in scripts.
ghost use Rattle.std.specs.Prelude.{Some, [], ◌∷◌, ◌++◌, decimal};

use std::fmt;

/// The place of a unit in a script: line and column, both from 1. Columns count 16-bit units, and CR LF is one break.
#[derive(Clone, Copy, Debug, PartialEq, Eq)]
pub struct Place {
    pub line: u32,
    pub column: u32,
}

/// The line, a colon and the column.
impl fmt::Display for Place {
    ghost output = { λ place. Some (decimal place.line ++ 58 ∷ decimal place.column) };

    fn fmt<W: fmt::Write>(&self, f: &mut fmt::Formatter<W>) -> fmt::Result {
        write!(f, "{}:{}", self.line, self.column)
    }
}
