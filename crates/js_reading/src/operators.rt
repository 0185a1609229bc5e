// Operators by their tokens (ECMA-262 5.1, sections 11.3 to 11.13).
ghost use Rattle.std.specs.Prelude.{◌≡◌};
ghost use Rattle.js_grammar.specs.Operators as spec;

use js_grammar::Form;
use js_lexer::keyword_of;
use js_tree::{AssignOp, BinaryOp, Keyword, Sign, Token, TokenKind, UnaryOp, UpdateOp};

fn unary_sign(sign: Sign) -> Option<UnaryOp>
    ensures { result ≡ spec.unary_sign sign }
{
    match sign {
        Sign::Plus => Some(UnaryOp::Plus),
        Sign::Minus => Some(UnaryOp::Minus),
        Sign::Tilde => Some(UnaryOp::BitNot),
        Sign::Exclamation => Some(UnaryOp::Not),
        _ => None,
    }
}

fn unary_word(keyword: Option<Keyword>) -> Option<UnaryOp>
    ensures { result ≡ spec.unary_word keyword }
{
    match keyword {
        Some(Keyword::Delete) => Some(UnaryOp::Delete),
        Some(Keyword::Void) => Some(UnaryOp::Void),
        Some(Keyword::TypeOf) => Some(UnaryOp::TypeOf),
        _ => None,
    }
}

/// The prefix operator that comes next, other than `++` and `--`.
pub fn next_unary(tokens: &[Token]) -> Option<UnaryOp>
    ensures { result ≡ spec.next_unary tokens.now }
{
    match tokens {
        [] => None,
        [token, ..] => match &token.kind {
            TokenKind::Sign(sign) => unary_sign(*sign),
            TokenKind::Word(word) => unary_word(keyword_of(word.units())),
            _ => None,
        },
    }
}

fn update_in(kind: &TokenKind) -> Option<UpdateOp>
    ensures { result ≡ spec.update_in kind.now }
{
    match kind {
        TokenKind::Sign(Sign::PlusPlus) => Some(UpdateOp::Increment),
        TokenKind::Sign(Sign::MinusMinus) => Some(UpdateOp::Decrement),
        _ => None,
    }
}

/// `++` or `--`, where it comes next.
pub fn next_update(tokens: &[Token]) -> Option<UpdateOp>
    ensures { result ≡ spec.next_update tokens.now }
{
    match tokens {
        [] => None,
        [token, ..] => update_in(&token.kind),
    }
}

/// `++` or `--`, where it comes next on the same line.
pub fn next_postfix(tokens: &[Token]) -> Option<UpdateOp>
    ensures { result ≡ spec.next_postfix tokens.now }
{
    match tokens {
        [] => None,
        [token, ..] => {
            if token.after_line {
                None
            } else {
                update_in(&token.kind)
            }
        }
    }
}

fn binary_sign(sign: Sign) -> Option<BinaryOp>
    ensures { result ≡ spec.binary_sign sign }
{
    match sign {
        Sign::OrOr => Some(BinaryOp::Or),
        Sign::AndAnd => Some(BinaryOp::And),
        Sign::Bar => Some(BinaryOp::BitOr),
        Sign::Caret => Some(BinaryOp::BitXor),
        Sign::Ampersand => Some(BinaryOp::BitAnd),
        Sign::Equal => Some(BinaryOp::Equal),
        Sign::NotEqual => Some(BinaryOp::NotEqual),
        Sign::StrictEqual => Some(BinaryOp::StrictEqual),
        Sign::StrictNotEqual => Some(BinaryOp::StrictNotEqual),
        Sign::Less => Some(BinaryOp::Less),
        Sign::Greater => Some(BinaryOp::Greater),
        Sign::LessEqual => Some(BinaryOp::LessEqual),
        Sign::GreaterEqual => Some(BinaryOp::GreaterEqual),
        Sign::ShiftLeft => Some(BinaryOp::ShiftLeft),
        Sign::ShiftRight => Some(BinaryOp::ShiftRight),
        Sign::UnsignedShiftRight => Some(BinaryOp::UnsignedShiftRight),
        Sign::Plus => Some(BinaryOp::Add),
        Sign::Minus => Some(BinaryOp::Subtract),
        Sign::Star => Some(BinaryOp::Multiply),
        Sign::Slash => Some(BinaryOp::Divide),
        Sign::Percent => Some(BinaryOp::Remainder),
        _ => None,
    }
}

fn binary_word(form: Form, keyword: Option<Keyword>) -> Option<BinaryOp>
    ensures { result ≡ spec.binary_word form keyword }
{
    match (form, keyword) {
        (_, Some(Keyword::InstanceOf)) => Some(BinaryOp::InstanceOf),
        (Form::Plain, Some(Keyword::In)) => Some(BinaryOp::In),
        _ => None,
    }
}

/// The binary operator that comes next.
pub fn next_binary(form: Form, tokens: &[Token]) -> Option<BinaryOp>
    ensures { result ≡ spec.next_binary form tokens.now }
{
    match tokens {
        [] => None,
        [token, ..] => match &token.kind {
            TokenKind::Sign(sign) => binary_sign(*sign),
            TokenKind::Word(word) => binary_word(form, keyword_of(word.units())),
            _ => None,
        },
    }
}

/// The level of an operator: 0 binds strongest.
pub fn level_of(op: BinaryOp) -> u32
    ensures { result ≡ spec.level_of op }
{
    match op {
        BinaryOp::Or => 9,
        BinaryOp::And => 8,
        BinaryOp::BitOr => 7,
        BinaryOp::BitXor => 6,
        BinaryOp::BitAnd => 5,
        BinaryOp::Equal | BinaryOp::NotEqual | BinaryOp::StrictEqual | BinaryOp::StrictNotEqual =>
            4,
        BinaryOp::Less
        | BinaryOp::Greater
        | BinaryOp::LessEqual
        | BinaryOp::GreaterEqual
        | BinaryOp::InstanceOf
        | BinaryOp::In => 3,
        BinaryOp::ShiftLeft | BinaryOp::ShiftRight | BinaryOp::UnsignedShiftRight => 2,
        BinaryOp::Add | BinaryOp::Subtract => 1,
        BinaryOp::Multiply | BinaryOp::Divide | BinaryOp::Remainder => 0,
    }
}

/// The binary operator that comes next, where it is one of this level.
pub fn next_at_level(form: Form, level: u32, tokens: &[Token]) -> Option<BinaryOp>
    ensures { result ≡ spec.at_level level (spec.next_binary form tokens.now) }
{
    match next_binary(form, tokens) {
        None => None,
        Some(op) => {
            if level_of(op) == level {
                Some(op)
            } else {
                None
            }
        }
    }
}

fn assign_sign(sign: Sign) -> Option<AssignOp>
    ensures { result ≡ spec.assign_sign sign }
{
    match sign {
        Sign::Assign => Some(AssignOp::Set),
        Sign::PlusAssign => Some(AssignOp::Add),
        Sign::MinusAssign => Some(AssignOp::Subtract),
        Sign::StarAssign => Some(AssignOp::Multiply),
        Sign::SlashAssign => Some(AssignOp::Divide),
        Sign::PercentAssign => Some(AssignOp::Remainder),
        Sign::ShiftLeftAssign => Some(AssignOp::ShiftLeft),
        Sign::ShiftRightAssign => Some(AssignOp::ShiftRight),
        Sign::UnsignedShiftRightAssign => Some(AssignOp::UnsignedShiftRight),
        Sign::AmpersandAssign => Some(AssignOp::BitAnd),
        Sign::BarAssign => Some(AssignOp::BitOr),
        Sign::CaretAssign => Some(AssignOp::BitXor),
        _ => None,
    }
}

/// The assignment operator that comes next.
pub fn next_assign(tokens: &[Token]) -> Option<AssignOp>
    ensures { result ≡ spec.next_assign tokens.now }
{
    match tokens {
        [] => None,
        [token, ..] => match &token.kind {
            TokenKind::Sign(sign) => assign_sign(*sign),
            _ => None,
        },
    }
}
