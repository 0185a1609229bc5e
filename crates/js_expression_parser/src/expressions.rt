// Expressions, by plain descent (ECMA-262 5.1, section 11).
ghost use Rattle.std.specs.Prelude.{◌≡◌, None, Ok, Some, false};
ghost use Rattle.js_tree.specs.declared.place.Place.{Place};
ghost use Rattle.js_tree.specs.declared.sign.Sign.TheVariants as sign;
ghost use Rattle.js_grammar.specs.declared.turn.Turn.TheVariants.{End};
ghost use Rattle.js_tree.specs.View.{expression_of};
ghost use Rattle.js_grammar.specs.Words.{keyword_of};
ghost use Rattle.js_grammar.specs.Readers.{rest_of};
ghost use Rattle.js_grammar.specs.Expressions as spec;
ghost use Rattle.js_grammar.specs.Expressions.{Deeper};
ghost use Rattle.js_reading.specs.Reads.{Reads};

use crate::behind::{closed, listed};
use crate::nested::Nested;
use crate::parser::{Parser, Row};
use crate::statements::Statements;
use js_grammar::{Form, LeftSide, Turn, is_target};
use js_lexer::keyword_of;
use js_reading::{
    Read, expect, in_function, is_accessor, joined, next_assign, next_name, next_postfix,
    next_sign, next_unary, next_update, place_at, read_name, read_parameters, read_word, refused,
    refused_word, rest_of, suffixed_by, unbound,
};
use js_tree::{
    AssignOp, BoundName, Expression, ExpressionList, ExpressionNode, Function, Keyword, NameList,
    Place, Property, ReadAnswer, ReadKind, Sign, Suffix, SuffixNode, Token, TokenKind, UnaryOp,
    UpdateForm, UpdateOp,
};
use utf16_text::Text;

/// An expression without parts.
fn leaf(place: Place, node: ExpressionNode) -> Expression
    ensures { result ≡ expression_of place node }
{
    Expression { place, node }
}

/// Whether a suffix begins here.
#[tactic(auto, unfolding(js_grammar::specs::Expressions::a_suffix))]
fn begins_suffix(left: LeftSide, tokens: &[Token]) -> bool
    ensures { result ≡ false → (end : Place) (d : Deeper) → spec.a_suffix end d left tokens.now ≡ Ok (End, tokens.now) }
{
    match (left, next_sign(tokens)) {
        (_, Some(Sign::Dot | Sign::LeftBracket)) => true,
        (LeftSide::Call, Some(Sign::LeftParenthesis)) => true,
        _ => false,
    }
}

/// Expressions that commas part, up to the last.
#[derive(Drop)]
pub struct Parts {
    pub form: Form,
}

impl Row for Parts {
    type Part = Expression;

    ghost turn = { λ self end d. spec.a_part end d self.form };

    #[tactic(auto, unfolding(js_grammar::specs::Expressions::a_part))]
    fn read_turn<'a, N: Nested>(
        &self,
        parser: &Parser<N>,
        tokens: &'a [Token],
    ) -> Read<'a, Turn<Expression>> {
        let (value, rest) = parser.nested.value(self.form, tokens)?;
        match next_sign(rest) {
            Some(Sign::Comma) => Ok((Turn::More(value), rest_of(rest))),
            _ => Ok((Turn::Last(value), rest)),
        }
    }
}

/// Arguments behind `(`, of which there is one at least.
#[derive(Drop)]
pub struct Arguments;

impl Row for Arguments {
    type Part = Expression;

    ghost turn = { λ self end d. spec.an_argument end d };

    #[tactic(auto, unfolding(js_grammar::specs::Expressions::an_argument))]
    fn read_turn<'a, N: Nested>(
        &self,
        parser: &Parser<N>,
        tokens: &'a [Token],
    ) -> Read<'a, Turn<Expression>> {
        let (value, rest) = parser.nested.value(Form::Plain, tokens)?;
        listed(parser.end, Sign::RightParenthesis, value, rest)
    }
}

/// The items and holes of an array literal behind its `[`.
#[derive(Drop)]
pub struct Items;

impl Row for Items {
    type Part = Option<Expression>;

    ghost turn = { λ self end d. spec.an_item end d };

    /// An item or a hole, or the `]` behind the last.
    #[tactic(auto, unfolding(js_grammar::specs::Expressions::an_item))]
    fn read_turn<'a, N: Nested>(
        &self,
        parser: &Parser<N>,
        tokens: &'a [Token],
    ) -> Read<'a, Turn<Option<Expression>>> {
        match next_sign(tokens) {
            Some(Sign::RightBracket) => Ok((Turn::End, rest_of(tokens))),
            Some(Sign::Comma) => Ok((Turn::More(None), rest_of(tokens))),
            _ => parser.item_value(tokens),
        }
    }
}

/// The properties of an object literal behind its `{`.
#[derive(Drop)]
pub struct Properties;

impl Row for Properties {
    type Part = Property;

    ghost turn = { λ self end d. spec.a_property end d };

    /// A property, or the `}` behind the last.
    #[tactic(auto, unfolding(js_grammar::specs::Expressions::a_property))]
    fn read_turn<'a, N: Nested>(
        &self,
        parser: &Parser<N>,
        tokens: &'a [Token],
    ) -> Read<'a, Turn<Property>> {
        match next_sign(tokens) {
            Some(Sign::RightBrace) => Ok((Turn::End, rest_of(tokens))),
            _ => parser.named_property(tokens),
        }
    }
}

/// Members, indexes and calls.
#[derive(Drop)]
pub struct Suffixes {
    pub left: LeftSide,
}

impl Row for Suffixes {
    type Part = Suffix;

    ghost turn = { λ self end d. spec.a_suffix end d self.left };

    /// A suffix, where one begins here.
    #[tactic(auto, unfolding(js_grammar::specs::Expressions::a_suffix))]
    fn read_turn<'a, N: Nested>(
        &self,
        parser: &Parser<N>,
        tokens: &'a [Token],
    ) -> Read<'a, Turn<Suffix>> {
        let place = place_at(parser.end, tokens);
        match (self.left, next_sign(tokens)) {
            (_, Some(Sign::Dot)) => {
                let (name, rest) = read_word(parser.alloc, parser.end, rest_of(tokens))?;
                let node = SuffixNode::Member(name);
                Ok((Turn::More(Suffix { place, node }), rest))
            }
            (_, Some(Sign::LeftBracket)) => {
                let (index, rest) = parser.expression(Form::Plain, rest_of(tokens))?;
                let node = SuffixNode::Index(index);
                let suffix = Turn::More(Suffix { place, node });
                closed(parser.end, Sign::RightBracket, suffix, rest)
            }
            (LeftSide::Call, Some(Sign::LeftParenthesis)) => {
                let (given, rest) = parser.arguments(rest_of(tokens))?;
                let node = SuffixNode::Call(given);
                Ok((Turn::More(Suffix { place, node }), rest))
            }
            _ => Ok((Turn::End, tokens)),
        }
    }
}

impl<N: Nested> Parser<N> {
    /// Expressions that commas part.
    #[tactic(auto, unfolding(js_grammar::specs::Expressions::expression, js_grammar::specs::Expressions::a_part, js_grammar::specs::Readers::row_of))]
    pub fn expression<'a>(&self, form: Form, tokens: &'a [Token]) -> Read<'a, Expression>
        requires { N.holds self.now.nested }
        ensures { Reads (spec.expression self.now.end (N.readers self.now.nested) form tokens.now) result }
    {
        let (first, rest) = self.nested.value(form, tokens)?;
        let Some(Sign::Comma) = next_sign(rest) else {
            return Ok((first, rest));
        };
        let place = place_at(self.end, tokens);
        let (all, rest) = self.row_behind(&Parts { form }, first, tokens, rest_of(rest))?;
        Ok((joined(place, all), rest))
    }

    /// An expression in `(` and `)`.
    #[tactic(auto, unfolding(js_grammar::specs::Expressions::in_parentheses))]
    pub fn in_parentheses<'a>(&self, tokens: &'a [Token]) -> Read<'a, Expression>
        requires { N.holds self.now.nested }
        ensures { Reads (spec.in_parentheses self.now.end (N.readers self.now.nested) tokens.now) result }
    {
        let rest = expect(self.end, Sign::LeftParenthesis, tokens)?;
        let (inside, rest) = self.expression(Form::Plain, rest)?;
        closed(self.end, Sign::RightParenthesis, inside, rest)
    }

    /// Arguments behind `(`.
    #[tactic(auto, unfolding(js_grammar::specs::Expressions::arguments))]
    fn arguments<'a>(&self, tokens: &'a [Token]) -> Read<'a, ExpressionList>
        requires { N.holds self.now.nested }
        ensures { Reads (spec.arguments self.now.end (N.readers self.now.nested) tokens.now) result }
    {
        match next_sign(tokens) {
            Some(Sign::RightParenthesis) => Ok((ExpressionList::new(self.alloc), rest_of(tokens))),
            _ => self.row(&Arguments, tokens),
        }
    }

    /// An item of an array literal, and whether a comma or the `]` stands behind it.
    #[tactic(auto, unfolding(js_grammar::specs::Expressions::item_value))]
    fn item_value<'a>(&self, tokens: &'a [Token]) -> Read<'a, Turn<Option<Expression>>>
        requires { N.holds self.now.nested }
        ensures { Reads (spec.item_value self.now.end (N.readers self.now.nested) tokens.now) result }
    {
        let (value, rest) = self.nested.value(Form::Plain, tokens)?;
        listed(self.end, Sign::RightBracket, Some(value), rest)
    }

    /// A property of an object literal, and whether a comma or the `}` stands behind it.
    #[tactic(auto, unfolding(js_grammar::specs::Expressions::named_property))]
    fn named_property<'a>(&self, tokens: &'a [Token]) -> Read<'a, Turn<Property>>
        requires { N.holds self.now.nested }
        ensures { Reads (spec.named_property self.now.end (N.readers self.now.nested) tokens.now) result }
    {
        let Some(name) = next_name(self.alloc, tokens)? else {
            return Err(refused(self.end, ReadKind::Unexpected, tokens));
        };
        if is_accessor(tokens) {
            return Err(refused(self.end, ReadKind::Unsupported, tokens));
        }
        let rest = expect(self.end, Sign::Colon, rest_of(tokens))?;
        let (value, rest) = self.nested.value(Form::Plain, rest)?;
        let property = Property { name, value };
        listed(self.end, Sign::RightBrace, property, rest)
    }

    /// A function from its parameters on.
    #[tactic(auto, unfolding(js_grammar::specs::Expressions::function_from))]
    pub fn function_from<'a>(
        &self,
        name: Option<BoundName>,
        tokens: &'a [Token],
    ) -> Read<'a, Function>
        requires { N.holds self.now.nested }
        ensures { Reads (spec.function_from self.now.end (N.readers self.now.nested) name tokens.now) result }
    {
        let rest = expect(self.end, Sign::LeftParenthesis, tokens)?;
        let (parameters, rest) = read_parameters(self.alloc, self.end, rest)?;
        let rest = expect(self.end, Sign::LeftBrace, rest)?;
        let statements = Statements {
            around: in_function(),
        };
        let (body, rest) = self.row(&statements, rest)?;
        let function = Function {
            name,
            parameters,
            names: NameList::new(self.alloc),
            body,
        };
        closed(self.end, Sign::RightBrace, function, rest)
    }

    /// A function expression behind its word.
    #[tactic(auto, unfolding(js_grammar::specs::Expressions::function_expression))]
    fn function_expression<'a>(&self, tokens: &'a [Token]) -> Read<'a, Function>
        requires { N.holds self.now.nested }
        ensures { Reads (spec.function_expression self.now.end (N.readers self.now.nested) tokens.now) result }
    {
        match next_sign(tokens) {
            Some(Sign::LeftParenthesis) => self.function_from(None, tokens),
            _ => {
                let (name, rest) = read_name(self.alloc, self.end, tokens)?;
                self.function_from(Some(name), rest)
            }
        }
    }

    /// Arguments in brackets, or none where they are left out.
    #[tactic(auto, unfolding(js_grammar::specs::Expressions::new_arguments))]
    fn new_arguments<'a>(&self, tokens: &'a [Token]) -> Read<'a, ExpressionList>
        requires { N.holds self.now.nested }
        ensures { Reads (spec.new_arguments self.now.end (N.readers self.now.nested) tokens.now) result }
    {
        match next_sign(tokens) {
            Some(Sign::LeftParenthesis) => self.arguments(rest_of(tokens)),
            _ => Ok((ExpressionList::new(self.alloc), tokens)),
        }
    }

    /// `new` behind its word.
    #[tactic(auto, unfolding(js_grammar::specs::Expressions::new_expression))]
    fn new_expression<'a>(&self, place: Place, tokens: &'a [Token]) -> Read<'a, Expression>
        requires { N.holds self.now.nested }
        ensures { Reads (spec.new_expression self.now.end (N.readers self.now.nested) place tokens.now) result }
    {
        let (callee, rest) = self.nested.callee(tokens)?;
        let (given, rest) = self.new_arguments(rest)?;
        Ok((
            Expression::construction(self.alloc, place, callee, given)?,
            rest,
        ))
    }

    /// An expression that begins with a word, behind that word.
    #[inline(never)]
    fn word_value<'a>(&self, word: &Text, place: Place, tokens: &'a [Token]) -> Read<'a, Expression>
        requires { N.holds self.now.nested }
        ensures { Reads (spec.word_value self.now.end (N.readers self.now.nested) (keyword_of word.now) word.now place tokens.now) result }
    {
        match keyword_of(word.units()) {
            None => {
                let name = unbound(self.alloc, word)?;
                Ok((leaf(place, ExpressionNode::Name(name)), tokens))
            }
            Some(Keyword::This) => Ok((leaf(place, ExpressionNode::This), tokens)),
            Some(Keyword::Null) => Ok((leaf(place, ExpressionNode::Null), tokens)),
            Some(Keyword::True) => Ok((leaf(place, ExpressionNode::True), tokens)),
            Some(Keyword::False) => Ok((leaf(place, ExpressionNode::False), tokens)),
            Some(Keyword::New) => self.new_expression(place, tokens),
            Some(Keyword::Function) => {
                let (function, rest) = self.function_expression(tokens)?;
                Ok((Expression::function(self.alloc, place, function)?, rest))
            }
            Some(keyword) => Err(ReadAnswer::Refused(refused_word(keyword), place)),
        }
    }

    /// An expression without operators and suffixes.
    #[tactic(auto, unfolding(js_grammar::specs::Expressions::primary))]
    fn primary<'a>(&self, tokens: &'a [Token]) -> Read<'a, Expression>
        requires { N.holds self.now.nested }
        ensures { Reads (spec.primary self.now.end (N.readers self.now.nested) tokens.now) result }
    {
        let [token, rest @ ..] = tokens else {
            return Err(refused(self.end, ReadKind::Unexpected, tokens));
        };
        let place = token.place;
        match &token.kind {
            TokenKind::Number(number) => {
                let node = ExpressionNode::Number(*number);
                Ok((Expression { place, node }, rest))
            }
            TokenKind::Text(text) => {
                let node = ExpressionNode::Text(text.copy(self.alloc)?);
                Ok((Expression { place, node }, rest))
            }
            TokenKind::Pattern(literal) => {
                let node = ExpressionNode::Pattern(literal.copy()?);
                Ok((Expression { place, node }, rest))
            }
            TokenKind::Word(word) => self.word_value(word, place, rest),
            TokenKind::Sign(Sign::LeftParenthesis) => self.in_parentheses(tokens),
            TokenKind::Sign(Sign::LeftBracket) => self.array(place, tokens),
            TokenKind::Sign(Sign::LeftBrace) => self.object(place, tokens),
            TokenKind::Sign(_) => Err(ReadAnswer::Refused(ReadKind::Unexpected, place)),
        }
    }

    /// An array literal from its `[` on.
    #[inline(never)]
    fn array<'a>(&self, place: Place, tokens: &'a [Token]) -> Read<'a, Expression>
        requires { N.holds self.now.nested }
        ensures { Reads (spec.sign_value self.now.end (N.readers self.now.nested) sign.LeftBracket place tokens.now (rest_of tokens.now)) result }
    {
        let (items, rest) = self.row(&Items, rest_of(tokens))?;
        let node = ExpressionNode::Array(items);
        Ok((Expression { place, node }, rest))
    }

    /// An object literal from its `{` on.
    #[inline(never)]
    fn object<'a>(&self, place: Place, tokens: &'a [Token]) -> Read<'a, Expression>
        requires { N.holds self.now.nested }
        ensures { Reads (spec.sign_value self.now.end (N.readers self.now.nested) sign.LeftBrace place tokens.now (rest_of tokens.now)) result }
    {
        let (properties, rest) = self.row(&Properties, rest_of(tokens))?;
        let node = ExpressionNode::Object(properties);
        Ok((Expression { place, node }, rest))
    }

    /// An expression with its members, indexes and calls.
    #[tactic(auto, unfolding(js_grammar::specs::Expressions::suffixed))]
    pub fn suffixed<'a>(&self, left: LeftSide, tokens: &'a [Token]) -> Read<'a, Expression>
        requires { N.holds self.now.nested }
        ensures { Reads (spec.suffixed self.now.end (N.readers self.now.nested) left tokens.now) result }
    {
        let place = place_at(self.end, tokens);
        let (first, rest) = self.primary(tokens)?;
        if !begins_suffix(left, rest) {
            return Ok((first, rest));
        }
        let (others, rest) = self.row(&Suffixes { left }, rest)?;
        Ok((suffixed_by(self.alloc, place, first, others)?, rest))
    }

    /// An expression, and `++` or `--` behind it on the same line.
    #[tactic(auto, unfolding(js_grammar::specs::Expressions::postfix))]
    fn postfix<'a>(&self, tokens: &'a [Token]) -> Read<'a, Expression>
        requires { N.holds self.now.nested }
        ensures { Reads (spec.postfix self.now.end (N.readers self.now.nested) tokens.now) result }
    {
        let (target, rest) = self.suffixed(LeftSide::Call, tokens)?;
        let Some(op) = next_postfix(rest) else {
            return Ok((target, rest));
        };
        if !is_target(&target) {
            return Err(refused(self.end, ReadKind::Unexpected, rest));
        }
        let place = place_at(self.end, rest);
        let node = Expression::update(self.alloc, place, UpdateForm::Postfix, op, target)?;
        Ok((node, rest_of(rest)))
    }

    /// An expression with its prefix operators.
    #[tactic(auto, unfolding(js_grammar::specs::Expressions::unary))]
    pub fn unary<'a>(&self, tokens: &'a [Token]) -> Read<'a, Expression>
        requires { N.holds self.now.nested }
        ensures { Reads (spec.unary self.now.end (N.readers self.now.nested) tokens.now) result }
    {
        match (next_unary(tokens), next_update(tokens)) {
            (Some(op), _) => self.operated(op, tokens),
            (None, Some(op)) => self.updated(op, tokens),
            (None, None) => self.postfix(tokens),
        }
    }

    /// A prefix operator and its operand.
    #[inline(never)]
    fn operated<'a>(&self, op: UnaryOp, tokens: &'a [Token]) -> Read<'a, Expression>
        requires { N.holds self.now.nested }
        ensures { Reads (spec.unary_by self.now.end (N.readers self.now.nested) (Some op) None tokens.now) result }
    {
        let place = place_at(self.end, tokens);
        let (operand, rest) = self.nested.operand(rest_of(tokens))?;
        Ok((Expression::unary(self.alloc, place, op, operand)?, rest))
    }

    /// `++` or `--` and its operand.
    #[inline(never)]
    fn updated<'a>(&self, op: UpdateOp, tokens: &'a [Token]) -> Read<'a, Expression>
        requires { N.holds self.now.nested }
        ensures { Reads (spec.unary_by self.now.end (N.readers self.now.nested) None (Some op) tokens.now) result }
    {
        let (target, rest) = self.nested.operand(rest_of(tokens))?;
        if !is_target(&target) {
            return Err(refused(self.end, ReadKind::Unexpected, tokens));
        }
        let place = place_at(self.end, tokens);
        let node = Expression::update(self.alloc, place, UpdateForm::Prefix, op, target)?;
        Ok((node, rest))
    }

    #[tactic(auto, unfolding(js_grammar::specs::Expressions::conditional))]
    fn conditional<'a>(&self, form: Form, tokens: &'a [Token]) -> Read<'a, Expression>
        requires { N.holds self.now.nested }
        ensures { Reads (spec.conditional self.now.end (N.readers self.now.nested) form tokens.now) result }
    {
        let place = place_at(self.end, tokens);
        let (condition, rest) = self.operators(form, tokens)?;
        match next_sign(rest) {
            Some(Sign::Question) => self.choice(form, place, condition, rest),
            _ => Ok((condition, rest)),
        }
    }

    /// A condition and what is chosen by it, from its `?` on.
    #[inline(never)]
    fn choice<'a>(
        &self,
        form: Form,
        place: Place,
        condition: Expression,
        tokens: &'a [Token],
    ) -> Read<'a, Expression>
        requires { N.holds self.now.nested }
        ensures { Reads (spec.conditional_by self.now.end (N.readers self.now.nested) form (Some sign.Question) place condition tokens.now) result }
    {
        let (where_true, rest) = self.nested.value(form, rest_of(tokens))?;
        let rest = expect(self.end, Sign::Colon, rest)?;
        let (where_false, rest) = self.nested.value(form, rest)?;
        let node = Expression::conditional(self.alloc, place, condition, where_true, where_false)?;
        Ok((node, rest))
    }

    #[tactic(auto, unfolding(js_grammar::specs::Expressions::assignment))]
    pub fn assignment<'a>(&self, form: Form, tokens: &'a [Token]) -> Read<'a, Expression>
        requires { N.holds self.now.nested }
        ensures { Reads (spec.assignment self.now.end (N.readers self.now.nested) form tokens.now) result }
    {
        let (target, rest) = self.conditional(form, tokens)?;
        match next_assign(rest) {
            Some(op) => self.assigned(form, op, target, rest),
            None => Ok((target, rest)),
        }
    }

    /// An assignment to this target, from its operator on.
    #[inline(never)]
    fn assigned<'a>(
        &self,
        form: Form,
        op: AssignOp,
        target: Expression,
        tokens: &'a [Token],
    ) -> Read<'a, Expression>
        requires { N.holds self.now.nested }
        ensures { Reads (spec.assigned_by self.now.end (N.readers self.now.nested) form (Some op) target tokens.now) result }
    {
        if !is_target(&target) {
            return Err(refused(self.end, ReadKind::Unexpected, tokens));
        }
        let place = place_at(self.end, tokens);
        let (value, rest) = self.nested.value(form, rest_of(tokens))?;
        Ok((
            Expression::assignment(self.alloc, place, target, op, value)?,
            rest,
        ))
    }
}
