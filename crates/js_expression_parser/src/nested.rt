// What reads the parts that count as nested.
ghost use Rattle.js_grammar.specs.Expressions.{Deeper};
ghost use Rattle.js_reading.specs.Reads.{Reads};

use js_grammar::{Around, Form};
use js_reading::Read;
use js_tree::{Expression, Statement, Token};

/// What reads nested parts.
pub trait Nested {
    /// What its calls need.
    ghost holds: { Self → Type 0 };

    /// How its calls read nested parts.
    ghost readers: { Self → Deeper };

    /// An assignment expression.
    fn value<'a>(&self, form: Form, tokens: &'a [Token]) -> Read<'a, Expression>
        requires { holds self.now }
        ensures { Reads ((readers self.now).value form tokens.now) result };

    /// The operand of a prefix operator.
    fn operand<'a>(&self, tokens: &'a [Token]) -> Read<'a, Expression>
        requires { holds self.now }
        ensures { Reads ((readers self.now).operand tokens.now) result };

    /// The callee of `new`.
    fn callee<'a>(&self, tokens: &'a [Token]) -> Read<'a, Expression>
        requires { holds self.now }
        ensures { Reads ((readers self.now).callee tokens.now) result };

    fn statement<'a>(&self, around: Around, tokens: &'a [Token]) -> Read<'a, Statement>
        requires { holds self.now }
        ensures { Reads ((readers self.now).statement around tokens.now) result };

    /// A block of `try`.
    fn block<'a>(&self, around: Around, tokens: &'a [Token]) -> Read<'a, Statement>
        requires { holds self.now }
        ensures { Reads ((readers self.now).block around tokens.now) result };
}
