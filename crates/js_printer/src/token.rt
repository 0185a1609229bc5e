// Single tokens.
#![tactic(auto, unfolding(crate::specs::Written::written))]

ghost use Rattle.std.specs.Prelude.{◌≡◌, ◌++◌, ◌∷◌, [], OnOk, IsTrue, Bool};
ghost use Rattle.js_tree.specs.declared.token.TokenKind.TheVariants as token;
ghost use Rattle.js_grammar.specs.Signs as signs;
ghost use Rattle.js_grammar.specs.Words as words;
ghost use Rattle.js_grammar.specs.Printing.{
  printed,
  sign_token,
  word_token,
  keyword_token,
  unary_token,
  update_token,
  binary_token,
  assign_token,
  comma_if,
  else_if,
};
ghost use Rattle.std.specs.List.{flat_map};
ghost use Rattle.js_grammar.specs.Patterns.{ascii_unit};
ghost use Rattle.js_printer.specs.Written.{written};

use crate::printer::Printer;
use js_lexer::{is_plain, keyword_spelling, numbered_unit};
use js_pattern_reader::PatternLiteral;
use js_tree::{AssignOp, BinaryOp, Keyword, Sign, UnaryOp, UpdateOp};
use utf16_text::{Memory, Text};
use whole_number::Whole;

fn sign_spelling(sign: Sign) -> &'static str
    ensures { result.now ≡ signs.sign_spelling sign }
{
    match sign {
        Sign::LeftBrace => "{",
        Sign::RightBrace => "}",
        Sign::LeftParenthesis => "(",
        Sign::RightParenthesis => ")",
        Sign::LeftBracket => "[",
        Sign::RightBracket => "]",
        Sign::Dot => ".",
        Sign::Semicolon => ";",
        Sign::Comma => ",",
        Sign::Less => "<",
        Sign::Greater => ">",
        Sign::LessEqual => "<=",
        Sign::GreaterEqual => ">=",
        Sign::Equal => "==",
        Sign::NotEqual => "!=",
        Sign::StrictEqual => "===",
        Sign::StrictNotEqual => "!==",
        Sign::Plus => "+",
        Sign::Minus => "-",
        Sign::Star => "*",
        Sign::Slash => "/",
        Sign::Percent => "%",
        Sign::PlusPlus => "++",
        Sign::MinusMinus => "--",
        Sign::ShiftLeft => "<<",
        Sign::ShiftRight => ">>",
        Sign::UnsignedShiftRight => ">>>",
        Sign::Ampersand => "&",
        Sign::Bar => "|",
        Sign::Caret => "^",
        Sign::Exclamation => "!",
        Sign::Tilde => "~",
        Sign::AndAnd => "&&",
        Sign::OrOr => "||",
        Sign::Question => "?",
        Sign::Colon => ":",
        Sign::Assign => "=",
        Sign::PlusAssign => "+=",
        Sign::MinusAssign => "-=",
        Sign::StarAssign => "*=",
        Sign::SlashAssign => "/=",
        Sign::PercentAssign => "%=",
        Sign::ShiftLeftAssign => "<<=",
        Sign::ShiftRightAssign => ">>=",
        Sign::UnsignedShiftRightAssign => ">>>=",
        Sign::AmpersandAssign => "&=",
        Sign::BarAssign => "|=",
        Sign::CaretAssign => "^=",
    }
}

impl Printer {
    /// Writes the spelling of a token, and a space behind it.
    fn put_spelling(&mut self, spelling: &[u8]) -> Result<(), Memory>
        ensures { OnOk result (self.new ≡ self.old ++ (spelling.now ++ 32 ∷ [])) }
    {
        self.out.extend_from_slice(spelling)?;
        self.out.push(b' ')?;
        Ok(())
    }

    pub fn put_sign(&mut self, sign: Sign) -> Result<(), Memory>
        ensures { OnOk result (self.new ≡ written self.old (sign_token sign ∷ [])) }
    {
        self.put_spelling(sign_spelling(sign).as_bytes())
    }

    #[tactic(auto, using(crate::proofs::Tokens::keyword_escaped), unfolding(crate::specs::Written::written))]
    pub fn put_keyword(&mut self, keyword: Keyword) -> Result<(), Memory>
        ensures { OnOk result (self.new ≡ written self.old (keyword_token keyword ∷ [])) }
    {
        self.put_spelling(keyword_spelling(keyword).as_bytes())
    }

    /// Writes a word. A word that was read is ASCII; any other is written with its escape.
    pub fn put_word(&mut self, word: &Text) -> Result<(), Memory>
        ensures { OnOk result (self.new ≡ written self.old (word_token word.now ∷ [])) }
    {
        word.escape_into(self.alloc, &mut self.out, false)?;
        self.out.push(b' ')?;
        Ok(())
    }

    pub fn put_text(&mut self, text: &Text) -> Result<(), Memory>
        ensures { OnOk result (self.new ≡ written self.old (printed (token.Text text.now) ∷ [])) }
    {
        self.out.push(b'"')?;
        text.escape_into(self.alloc, &mut self.out, true)?;
        self.out.extend_from_slice(b"\" ")?;
        Ok(())
    }

    /// Writes a pattern literal. One that was read is ASCII; any other unit is written by its number.
    pub fn put_pattern(&mut self, literal: &PatternLiteral) -> Result<(), Memory>
        ensures { OnOk result (self.new ≡ written self.old (printed (token.Pattern literal.now) ∷ [])) }
    {
        self.out.push(b'/')?;
        self.put_units(literal.body().units())?;
        self.out.push(b'/')?;
        self.put_units(literal.flags().units())?;
        self.out.push(b' ')?;
        Ok(())
    }

    /// Writes units from 32 to 126 as they are, and any other by its number.
    fn put_units(&mut self, units: &[u16]) -> Result<(), Memory>
        ensures { OnOk result (self.new ≡ self.old ++ flat_map ascii_unit units.now) }
    {
        for unit in units {
            self.put_unit(*unit)?;
        }
        Ok(())
    }

    fn put_unit(&mut self, unit: u16) -> Result<(), Memory>
        ensures { OnOk result (self.new ≡ self.old ++ ascii_unit unit) }
    {
        if is_plain(unit) {
            self.out.extend_from_slice(&[unit as u8])?;
        } else {
            self.out.extend_from_slice(&numbered_unit(unit))?;
        }
        Ok(())
    }

    pub fn put_number(&mut self, number: Whole) -> Result<(), Memory>
        ensures { OnOk result (self.new ≡ written self.old (printed (token.Number number) ∷ [])) }
    {
        let mut digits = [0; 17];
        let count = number.write_text(&mut digits);
        self.put_spelling(&digits[..count])
    }

    pub fn put_unary(&mut self, op: UnaryOp) -> Result<(), Memory>
        ensures { OnOk result (self.new ≡ written self.old (unary_token op ∷ [])) }
    {
        match op {
            UnaryOp::Delete => self.put_keyword(Keyword::Delete),
            UnaryOp::Void => self.put_keyword(Keyword::Void),
            UnaryOp::TypeOf => self.put_keyword(Keyword::TypeOf),
            UnaryOp::Plus => self.put_sign(Sign::Plus),
            UnaryOp::Minus => self.put_sign(Sign::Minus),
            UnaryOp::BitNot => self.put_sign(Sign::Tilde),
            UnaryOp::Not => self.put_sign(Sign::Exclamation),
        }
    }

    pub fn put_update(&mut self, op: UpdateOp) -> Result<(), Memory>
        ensures { OnOk result (self.new ≡ written self.old (update_token op ∷ [])) }
    {
        match op {
            UpdateOp::Increment => self.put_sign(Sign::PlusPlus),
            UpdateOp::Decrement => self.put_sign(Sign::MinusMinus),
        }
    }

    pub fn put_binary(&mut self, op: BinaryOp) -> Result<(), Memory>
        ensures { OnOk result (self.new ≡ written self.old (binary_token op ∷ [])) }
    {
        match op {
            BinaryOp::Or => self.put_sign(Sign::OrOr),
            BinaryOp::And => self.put_sign(Sign::AndAnd),
            BinaryOp::BitOr => self.put_sign(Sign::Bar),
            BinaryOp::BitXor => self.put_sign(Sign::Caret),
            BinaryOp::BitAnd => self.put_sign(Sign::Ampersand),
            BinaryOp::Equal => self.put_sign(Sign::Equal),
            BinaryOp::NotEqual => self.put_sign(Sign::NotEqual),
            BinaryOp::StrictEqual => self.put_sign(Sign::StrictEqual),
            BinaryOp::StrictNotEqual => self.put_sign(Sign::StrictNotEqual),
            BinaryOp::Less => self.put_sign(Sign::Less),
            BinaryOp::Greater => self.put_sign(Sign::Greater),
            BinaryOp::LessEqual => self.put_sign(Sign::LessEqual),
            BinaryOp::GreaterEqual => self.put_sign(Sign::GreaterEqual),
            BinaryOp::InstanceOf => self.put_keyword(Keyword::InstanceOf),
            BinaryOp::In => self.put_keyword(Keyword::In),
            BinaryOp::ShiftLeft => self.put_sign(Sign::ShiftLeft),
            BinaryOp::ShiftRight => self.put_sign(Sign::ShiftRight),
            BinaryOp::UnsignedShiftRight => self.put_sign(Sign::UnsignedShiftRight),
            BinaryOp::Add => self.put_sign(Sign::Plus),
            BinaryOp::Subtract => self.put_sign(Sign::Minus),
            BinaryOp::Multiply => self.put_sign(Sign::Star),
            BinaryOp::Divide => self.put_sign(Sign::Slash),
            BinaryOp::Remainder => self.put_sign(Sign::Percent),
        }
    }

    pub fn put_assign(&mut self, op: AssignOp) -> Result<(), Memory>
        ensures { OnOk result (self.new ≡ written self.old (assign_token op ∷ [])) }
    {
        match op {
            AssignOp::Set => self.put_sign(Sign::Assign),
            AssignOp::Add => self.put_sign(Sign::PlusAssign),
            AssignOp::Subtract => self.put_sign(Sign::MinusAssign),
            AssignOp::Multiply => self.put_sign(Sign::StarAssign),
            AssignOp::Divide => self.put_sign(Sign::SlashAssign),
            AssignOp::Remainder => self.put_sign(Sign::PercentAssign),
            AssignOp::ShiftLeft => self.put_sign(Sign::ShiftLeftAssign),
            AssignOp::ShiftRight => self.put_sign(Sign::ShiftRightAssign),
            AssignOp::UnsignedShiftRight => self.put_sign(Sign::UnsignedShiftRightAssign),
            AssignOp::BitAnd => self.put_sign(Sign::AmpersandAssign),
            AssignOp::BitOr => self.put_sign(Sign::BarAssign),
            AssignOp::BitXor => self.put_sign(Sign::CaretAssign),
        }
    }

    /// Writes a comma, where there is more.
    pub fn put_comma_if(&mut self, more: bool) -> Result<(), Memory>
        ensures { OnOk result (self.new ≡ written self.old (comma_if more)) }
    {
        if more {
            self.put_sign(Sign::Comma)?;
        }
        Ok(())
    }

    /// Writes `else`, where there is more.
    pub fn put_else_if(&mut self, more: bool) -> Result<(), Memory>
        ensures { OnOk result (self.new ≡ written self.old (else_if more)) }
    {
        if more {
            self.put_keyword(Keyword::Else)?;
        }
        Ok(())
    }
}
