// Nested parts, each read by a parser that has room for one part less.
ghost use Rattle.js_grammar.specs.Statements.{deeper};
ghost use Rattle.js_reading.specs.Reads.{Reads};
ghost use Rattle.js_parser.specs.Nested.{expression_part, statement_part};

use crate::nested::{ExpressionPart, StatementPart};
use crate::reader::PartReader;
use js_expression_parser::Parser;
use js_grammar::LeftSide;
use js_reading::{Read, refused};
use js_statement_parser::{block, statement};
use js_tree::{Expression, Place, ReadKind, Statement, Token};
use std::alloc::Global;

/// A nested expression, with room for so many nested parts, itself among them.
#[cycle(parts)]
pub fn read_expression<'a>(
    alloc: Global,
    end: Place,
    room: u32,
    part: ExpressionPart,
    tokens: &'a [Token],
) -> Read<'a, Expression>
    ensures { Reads (expression_part (deeper end room) part tokens.now) result }
{
    if room == 0 {
        return Err(refused(end, ReadKind::TooDeep, tokens));
    }
    let parser = Parser {
        alloc,
        end,
        nested: PartReader {
            alloc,
            end,
            room: room - 1,
            expressions: read_expression,
            statements: read_statement,
        },
    };
    match part {
        ExpressionPart::Value(form) => parser.assignment(form, tokens),
        ExpressionPart::Operand => parser.unary(tokens),
        ExpressionPart::Callee => parser.suffixed(LeftSide::Member, tokens),
    }
}

/// A nested statement, with room for so many nested parts, itself among them.
#[cycle(parts)]
pub fn read_statement<'a>(
    alloc: Global,
    end: Place,
    room: u32,
    part: StatementPart,
    tokens: &'a [Token],
) -> Read<'a, Statement>
    ensures { Reads (statement_part (deeper end room) part tokens.now) result }
{
    if room == 0 {
        return Err(refused(end, ReadKind::TooDeep, tokens));
    }
    let parser = Parser {
        alloc,
        end,
        nested: PartReader {
            alloc,
            end,
            room: room - 1,
            expressions: read_expression,
            statements: read_statement,
        },
    };
    match part {
        StatementPart::Statement(around) => statement(&parser, around, tokens),
        StatementPart::Block(around) => block(&parser, around, tokens),
    }
}
