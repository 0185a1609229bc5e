// Binary operators (ECMA-262 5.1, sections 11.5 to 11.11).
ghost use Rattle.std.specs.Prelude.{◌≡◌, [], IfOk};
ghost use Rattle.js_grammar.specs.Expressions as spec;
ghost use Rattle.js_grammar.specs.Expressions.{Deeper};
ghost use Rattle.js_grammar.specs.Operators.{next_binary};
ghost use Rattle.js_reading.specs.Reads.{Reads};
ghost use Rattle.js_expression_parser.specs.Operators.{
  Begins,
  Continues,
  Costs,
  Goes,
  behind,
  between,
  closes,
  cost,
  next_in,
  opened,
  row_cost,
  within,
};

use crate::nested::Nested;
use crate::parser::Parser;
use js_grammar::Form;
use js_reading::{
    Read, add_part, chained, level_of, next_at_level, next_binary, place_at, rest_of,
};
use js_tree::{BinaryOp, Expression, Operand, OperandList, Place, ReadAnswer, Token};
use std::alloc::Global;
use utf16_text::Memory;

/// How many levels of operators there are.
const LEVELS: u32 = 10;

/// A value and what stands behind it. Of the levels of operators, the strongest first, those below `level` are read,
/// and those below `bound` are to be.
#[derive(Drop)]
pub struct Reading<'a> {
    /// Where the value begins.
    pub place: Place,
    pub value: Expression,
    pub level: u32,
    pub bound: u32,
    pub rest: &'a [Token],
}

/// A row of operators of one level, the last of which waits for its operand. Behind the row the levels below `bound`
/// are to be read.
#[derive(Drop)]
pub struct OpenRow {
    pub bound: u32,
    /// Where the row begins.
    pub place: Place,
    pub first: Expression,
    pub operands: OperandList,
    pub op: BinaryOp,
    pub op_place: Place,
    /// How many operators may still follow. Each takes a token at least.
    pub turns: usize,
}

/// What is to be done behind a value.
#[derive(Drop)]
pub enum Next<'a> {
    /// The operand that a row waits for begins here.
    Operand(OpenRow, &'a [Token]),
    Value(Reading<'a>),
    /// No row is open, and no operator follows.
    Whole(Expression, &'a [Token]),
}

/// The operator that comes next, where it is one of these levels.
fn next_between(form: Form, from: u32, bound: u32, tokens: &[Token]) -> Option<BinaryOp>
    ensures { result ≡ between from bound (next_binary form tokens.now) }
{
    match next_binary(form, tokens) {
        None => None,
        Some(op) => {
            if from <= level_of(op) && level_of(op) < bound {
                Some(op)
            } else {
                None
            }
        }
    }
}

impl<N: Nested> Parser<N> {
    /// Operands with the operators of all levels between them. Rows stay open around each operand, the weakest level
    /// outermost, so no level calls itself.
    pub(crate) fn operators<'a>(&self, form: Form, tokens: &'a [Token]) -> Read<'a, Expression>
        requires { N.holds self.now.nested }
        ensures { Reads (spec.level self.now.end (N.readers self.now.nested) form 10 tokens.now) result }
    {
        let first = self.operand(LEVELS, tokens)?;
        if next_binary(form, first.rest).is_none() {
            return Ok((first.value, first.rest));
        }
        self.operators_behind(form, first)
    }

    /// The operators and operands behind the first operand.
    #[inline(never)]
    fn operators_behind<'a>(&self, form: Form, first: Reading<'a>) -> Read<'a, Expression>
        requires { N.holds self.now.nested }
        ensures { Reads (behind self.now.end (N.readers self.now.nested) form first.entry) result }
    {
        let mut rows = Vec::new(self.alloc);
        let mut reading = first;
        loop {
            match next_step(self.alloc, self.end, form, reading, &mut rows)? {
                Next::Value(value) => reading = value,
                Next::Operand(row, tokens) => {
                    let bound = level_of(row.op);
                    rows.push(row)?;
                    reading = self.operand(bound, tokens)?;
                }
                Next::Whole(value, rest) => return Ok((value, rest)),
            }
        }
    }

    /// An operand, behind which the operators below this level are to be read.
    fn operand<'a>(&self, bound: u32, tokens: &'a [Token]) -> Result<Reading<'a>, ReadAnswer>
        requires { N.holds self.now.nested }
        ensures { Begins self.now.end (N.readers self.now.nested) bound tokens.now result }
    {
        let (value, rest) = self.unary(tokens)?;
        Ok(Reading {
            place: place_at(self.end, tokens),
            value,
            level: 0,
            bound,
            rest,
        })
    }
}

/// Behind a value an operator opens a row; else it is the operand of the innermost row.
#[inline(never)]
fn next_step<'a>(
    alloc: Global,
    end: Place,
    form: Form,
    reading: Reading<'a>,
    rows: &mut Vec<OpenRow>,
) -> Result<Next<'a>, Memory>
    ensures goes { (d : Deeper) → IfOk result (λ next. Goes end d form (within end d form rows.old.items (behind end d form reading.entry)) next rows.new.items) }
    ensures costs { IfOk result (λ next. Costs (cost rows.old.items reading.entry) next rows.new.items) }
{
    let next = next_between(form, reading.level, reading.bound, reading.rest);
    if let Some(op) = next {
        let rest = rest_of(reading.rest);
        return Ok(Next::Operand(opened(alloc, end, reading, op), rest));
    }
    match rows.pop() {
        None => Ok(Next::Whole(reading.value, reading.rest)),
        Some(row) => operand_done(alloc, end, form, row, reading),
    }
}

/// The next operator of a row, where it may take one more.
fn next_in(form: Form, row: &OpenRow, tokens: &[Token]) -> Option<BinaryOp>
    ensures { result ≡ next_in form row.now tokens.now }
{
    if row.turns == 0 {
        return None;
    }
    next_at_level(form, level_of(row.op), tokens)
}

/// Opens a row behind a value, at its first operator.
fn opened(alloc: Global, end: Place, reading: Reading<'_>, op: BinaryOp) -> OpenRow
    ensures { result ≡ opened end reading.entry op }
{
    OpenRow {
        bound: reading.bound,
        place: reading.place,
        first: reading.value,
        operands: OperandList::new(alloc),
        op,
        op_place: place_at(end, reading.rest),
        turns: reading.rest.len(),
    }
}

/// The operand that a row waits for is read: the next operator of its level follows, or the row is closed.
fn operand_done<'a>(
    alloc: Global,
    end: Place,
    form: Form,
    row: OpenRow,
    reading: Reading<'a>,
) -> Result<Next<'a>, Memory>
    ensures goes { (d : Deeper) → IfOk result (λ next. Continues end d form (closes end d form row reading.entry.value reading.entry.rest.now) next []) }
    ensures costs { IfOk result (λ next. Costs (row_cost row) next []) }
{
    let next = next_in(form, &row, reading.rest);
    let operand = Operand {
        place: row.op_place,
        op: row.op,
        value: reading.value,
    };
    let mut operands = row.operands.into_vec();
    add_part(&mut operands, operand)?;
    let operands = OperandList::from_vec(operands);
    if let Some(op) = next {
        let row = OpenRow {
            operands,
            op,
            op_place: place_at(end, reading.rest),
            turns: row.turns.saturating_sub(1),
            ..row
        };
        return Ok(Next::Operand(row, rest_of(reading.rest)));
    }
    Ok(Next::Value(Reading {
        place: row.place,
        value: chained(alloc, row.place, row.first, operands)?,
        level: level_of(row.op) + 1,
        bound: row.bound,
        rest: reading.rest,
    }))
}
