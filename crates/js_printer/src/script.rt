// Whole scripts.
ghost use Rattle.std.specs.Prelude.{◌≡◌, ◌++◌, OnOk, IfOk};
ghost use Rattle.js_grammar.specs.Printing.{statement_tokens};
ghost use Rattle.js_grammar.specs.Spelling.{line, printed_bytes};

use crate::printer::Printer;
use js_tree::{Script, Statement};
use std::alloc::Global;
use utf16_text::Memory;

/// The script as it is printed, in ASCII: a line for each of its statements, tokens parted by one space, and each
/// expression that is no leaf in brackets. Memory where none is left for the bytes.
pub fn print(alloc: Global, script: &Script) -> Result<Vec<u8>, Memory>
    ensures printed { IfOk result (λ bytes. bytes.items ≡ printed_bytes script.now) }
{
    let mut printer = Printer::new(alloc);
    printer.put_lines(script.body().as_slice())?;
    Ok(printer.into_bytes())
}

impl Printer {
    #[tactic(auto, using(crate::proofs::Lines::line_put))]
    fn put_lines(&mut self, all: &[Statement]) -> Result<(), Memory>
        ensures { OnOk result (self.new ≡ self.old ++ printed_bytes all.now) }
    {
        let mut left = all;
        while let [one, rest @ ..] = left {
            self.put_line(one)?;
            left = rest;
        }
        Ok(())
    }

    #[tactic(auto, using(crate::proofs::Lines::line_written))]
    fn put_line(&mut self, one: &Statement) -> Result<(), Memory>
        ensures { OnOk result (self.new ≡ self.old ++ line (statement_tokens one.now)) }
    {
        let start = self.out.len();
        self.put_statement(one)?;
        // A line feed stands in place of the space behind the last token.
        let end = self.out.len().saturating_sub(1).max(start);
        self.out.truncate(end);
        self.out.push(b'\n')?;
        Ok(())
    }
}
