// Expressions, as the tokens that they are printed as.
#![tactic(auto, using(crate::proofs::Nodes::nodes))]

ghost use Rattle.std.specs.Prelude.{◌≡◌, OnOk};
ghost use Rattle.js_tree.specs.Tree as tree;
ghost use Rattle.js_tree.specs.Tree.{optional_of, expressions_of, items_of};
ghost use Rattle.js_tree.specs.View.{properties_of, suffix_of, suffixes_of, operands_of, function_of, optional_box};
ghost use Rattle.js_grammar.specs.Printing.{
  nowhere,
  expression_tokens,
  optional_tokens,
  expressions_tokens,
  items_tokens,
  item_tokens,
  properties_tokens,
  suffix_tokens,
  suffixes_tokens,
  operands_tokens,
  own_name_tokens,
  parameters_tokens,
  function_tokens,
};
ghost use Rattle.js_printer.specs.Written.{written};

use crate::printer::Printer;
use js_pattern_reader::PatternLiteral;
use js_tree::{
    AssignOp, BoundName, Expression, ExpressionNode, Function, FunctionPart, Keyword, Operand,
    Property, Sign, Suffix, SuffixNode, UnaryOp, UpdateForm, UpdateOp,
};
use utf16_text::Memory;
use whole_number::Whole;

impl Printer {
    #[cycle(print)]
    pub fn put_expression(&mut self, e: &Expression) -> Result<(), Memory>
        ensures { OnOk result (self.new ≡ written self.old (expression_tokens e.now)) }
    {
        match &e.node {
            ExpressionNode::Number(number) => self.put_number(*number),
            ExpressionNode::Text(text) => self.put_text(text),
            ExpressionNode::Pattern(literal) => self.put_pattern_expression(literal),
            ExpressionNode::True => self.put_keyword(Keyword::True),
            ExpressionNode::False => self.put_keyword(Keyword::False),
            ExpressionNode::Null => self.put_keyword(Keyword::Null),
            ExpressionNode::This => self.put_keyword(Keyword::This),
            ExpressionNode::Name(x) => self.put_word(&x.name),
            ExpressionNode::Array(all) => self.put_array(all.as_slice()),
            ExpressionNode::Object(all) => self.put_object(all.as_slice()),
            ExpressionNode::Function(FunctionPart::Whole(f)) => self.put_function_expression(f),
            ExpressionNode::Function(FunctionPart::Numbered(n)) => self.put_numbered_expression(*n),
            ExpressionNode::Suffixed(first, all) => self.put_suffixed(first, all.as_slice()),
            ExpressionNode::New(callee, all) => self.put_new(callee, all.as_slice()),
            ExpressionNode::Update(form, op, target) => self.put_update_expression(
                *form, *op, target,
            ),
            ExpressionNode::Unary(op, operand) => self.put_unary_expression(*op, operand),
            ExpressionNode::Chain(first, all) => self.put_chain(first, all.as_slice()),
            ExpressionNode::Conditional(condition, a, b) => self.put_conditional(condition, a, b),
            ExpressionNode::Assign(target, op, value) => self.put_assignment(target, *op, value),
            ExpressionNode::Comma(all) => self.put_comma_expression(all.as_slice()),
        }
    }

    // Each kind of node that has parts: its tokens, which don't depend on its place.

    fn put_pattern_expression(&mut self, literal: &PatternLiteral) -> Result<(), Memory>
        ensures { OnOk result (self.new ≡ written self.old (expression_tokens (tree.Pattern nowhere literal.now))) }
    {
        self.put_sign(Sign::LeftParenthesis)?;
        self.put_pattern(literal)?;
        self.put_sign(Sign::RightParenthesis)
    }

    #[cycle(print)]
    fn put_array(&mut self, all: &[Option<Expression>]) -> Result<(), Memory>
        ensures { OnOk result (self.new ≡ written self.old (expression_tokens (tree.Array nowhere (items_of all.now)))) }
    {
        self.put_sign(Sign::LeftBracket)?;
        self.put_items(all)?;
        self.put_sign(Sign::RightBracket)
    }

    #[cycle(print)]
    fn put_object(&mut self, all: &[Property]) -> Result<(), Memory>
        ensures { OnOk result (self.new ≡ written self.old (expression_tokens (tree.Object nowhere (properties_of all.now)))) }
    {
        self.put_sign(Sign::LeftParenthesis)?;
        self.put_sign(Sign::LeftBrace)?;
        self.put_properties(all)?;
        self.put_sign(Sign::RightBrace)?;
        self.put_sign(Sign::RightParenthesis)
    }

    #[cycle(print)]
    fn put_function_expression(&mut self, f: &Function) -> Result<(), Memory>
        ensures { OnOk result (self.new ≡ written self.old (expression_tokens (tree.Function nowhere (function_of f.now)))) }
    {
        self.put_sign(Sign::LeftParenthesis)?;
        self.put_keyword(Keyword::Function)?;
        self.put_own_name(f)?;
        self.put_function(f)?;
        self.put_sign(Sign::RightParenthesis)
    }

    fn put_numbered_expression(&mut self, n: u32) -> Result<(), Memory>
        ensures { OnOk result (self.new ≡ written self.old (expression_tokens (tree.Numbered nowhere n))) }
    {
        self.put_sign(Sign::LeftParenthesis)?;
        self.put_keyword(Keyword::Function)?;
        self.put_number(Whole::from(n))?;
        self.put_sign(Sign::RightParenthesis)
    }

    #[cycle(print)]
    fn put_suffixed(&mut self, first: &Expression, all: &[Suffix]) -> Result<(), Memory>
        ensures { OnOk result (self.new ≡ written self.old (expression_tokens (tree.Suffixed nowhere first.now (suffixes_of all.now)))) }
    {
        self.put_sign(Sign::LeftParenthesis)?;
        self.put_expression(first)?;
        self.put_suffixes(all)?;
        self.put_sign(Sign::RightParenthesis)
    }

    #[cycle(print)]
    fn put_new(&mut self, callee: &Expression, all: &[Expression]) -> Result<(), Memory>
        ensures { OnOk result (self.new ≡ written self.old (expression_tokens (tree.New nowhere callee.now (expressions_of all.now)))) }
    {
        self.put_sign(Sign::LeftParenthesis)?;
        self.put_keyword(Keyword::New)?;
        self.put_expression(callee)?;
        self.put_sign(Sign::LeftParenthesis)?;
        self.put_expressions(all)?;
        self.put_sign(Sign::RightParenthesis)?;
        self.put_sign(Sign::RightParenthesis)
    }

    #[cycle(print)]
    fn put_update_expression(
        &mut self,
        form: UpdateForm,
        op: UpdateOp,
        target: &Expression,
    ) -> Result<(), Memory>
        ensures { OnOk result (self.new ≡ written self.old (expression_tokens (tree.Update nowhere form op target.now))) }
    {
        match form {
            UpdateForm::Prefix => {
                self.put_sign(Sign::LeftParenthesis)?;
                self.put_update(op)?;
                self.put_expression(target)?;
                self.put_sign(Sign::RightParenthesis)
            }
            UpdateForm::Postfix => {
                self.put_sign(Sign::LeftParenthesis)?;
                self.put_expression(target)?;
                self.put_update(op)?;
                self.put_sign(Sign::RightParenthesis)
            }
        }
    }

    #[cycle(print)]
    fn put_unary_expression(&mut self, op: UnaryOp, operand: &Expression) -> Result<(), Memory>
        ensures { OnOk result (self.new ≡ written self.old (expression_tokens (tree.Unary nowhere op operand.now))) }
    {
        self.put_sign(Sign::LeftParenthesis)?;
        self.put_unary(op)?;
        self.put_expression(operand)?;
        self.put_sign(Sign::RightParenthesis)
    }

    #[cycle(print)]
    fn put_chain(&mut self, first: &Expression, all: &[Operand]) -> Result<(), Memory>
        ensures { OnOk result (self.new ≡ written self.old (expression_tokens (tree.Chain nowhere first.now (operands_of all.now)))) }
    {
        self.put_sign(Sign::LeftParenthesis)?;
        self.put_expression(first)?;
        self.put_operands(all)?;
        self.put_sign(Sign::RightParenthesis)
    }

    #[cycle(print)]
    fn put_conditional(
        &mut self,
        condition: &Expression,
        a: &Expression,
        b: &Expression,
    ) -> Result<(), Memory>
        ensures { OnOk result (self.new ≡ written self.old (expression_tokens (tree.Conditional nowhere condition.now a.now b.now))) }
    {
        self.put_sign(Sign::LeftParenthesis)?;
        self.put_expression(condition)?;
        self.put_sign(Sign::Question)?;
        self.put_expression(a)?;
        self.put_sign(Sign::Colon)?;
        self.put_expression(b)?;
        self.put_sign(Sign::RightParenthesis)
    }

    #[cycle(print)]
    fn put_assignment(
        &mut self,
        target: &Expression,
        op: AssignOp,
        value: &Expression,
    ) -> Result<(), Memory>
        ensures { OnOk result (self.new ≡ written self.old (expression_tokens (tree.Assign nowhere target.now op value.now))) }
    {
        self.put_sign(Sign::LeftParenthesis)?;
        self.put_expression(target)?;
        self.put_assign(op)?;
        self.put_expression(value)?;
        self.put_sign(Sign::RightParenthesis)
    }

    #[cycle(print)]
    fn put_comma_expression(&mut self, all: &[Expression]) -> Result<(), Memory>
        ensures { OnOk result (self.new ≡ written self.old (expression_tokens (tree.Comma nowhere (expressions_of all.now)))) }
    {
        self.put_sign(Sign::LeftParenthesis)?;
        self.put_expressions(all)?;
        self.put_sign(Sign::RightParenthesis)
    }

    #[cycle(print)]
    pub fn put_boxed(&mut self, o: &Option<Box<Expression>>) -> Result<(), Memory>
        ensures { OnOk result (self.new ≡ written self.old (optional_tokens (optional_box o.now))) }
    {
        match o {
            None => Ok(()),
            Some(e) => self.put_expression(e),
        }
    }

    #[cycle(print)]
    fn put_expressions(&mut self, all: &[Expression]) -> Result<(), Memory>
        ensures { OnOk result (self.new ≡ written self.old (expressions_tokens (expressions_of all.now))) }
    {
        let mut left = all;
        while let [one, rest @ ..] = left {
            self.put_expression(one)?;
            self.put_comma_if(!rest.is_empty())?;
            left = rest;
        }
        Ok(())
    }

    #[cycle(print)]
    fn put_items(&mut self, all: &[Option<Expression>]) -> Result<(), Memory>
        ensures { OnOk result (self.new ≡ written self.old (items_tokens (items_of all.now))) }
    {
        let mut left = all;
        while let [one, rest @ ..] = left {
            self.put_item(one, !rest.is_empty())?;
            left = rest;
        }
        Ok(())
    }

    #[cycle(print)]
    fn put_item(&mut self, item: &Option<Expression>, more: bool) -> Result<(), Memory>
        ensures { OnOk result (self.new ≡ written self.old (item_tokens (optional_of item.now) more)) }
    {
        match item {
            None => self.put_sign(Sign::Comma),
            Some(e) => {
                self.put_expression(e)?;
                self.put_comma_if(more)
            }
        }
    }

    #[cycle(print)]
    fn put_properties(&mut self, all: &[Property]) -> Result<(), Memory>
        ensures { OnOk result (self.new ≡ written self.old (properties_tokens (properties_of all.now))) }
    {
        let mut left = all;
        while let [one, rest @ ..] = left {
            self.put_text(&one.name)?;
            self.put_sign(Sign::Colon)?;
            self.put_expression(&one.value)?;
            self.put_comma_if(!rest.is_empty())?;
            left = rest;
        }
        Ok(())
    }

    #[cycle(print)]
    fn put_suffix(&mut self, one: &Suffix) -> Result<(), Memory>
        ensures { OnOk result (self.new ≡ written self.old (suffix_tokens (suffix_of one.now.place one.now.node))) }
    {
        match &one.node {
            SuffixNode::Member(name) => {
                self.put_sign(Sign::Dot)?;
                self.put_word(name)
            }
            SuffixNode::Index(e) => {
                self.put_sign(Sign::LeftBracket)?;
                self.put_expression(e)?;
                self.put_sign(Sign::RightBracket)
            }
            SuffixNode::Call(all) => {
                self.put_sign(Sign::LeftParenthesis)?;
                self.put_expressions(all.as_slice())?;
                self.put_sign(Sign::RightParenthesis)
            }
        }
    }

    #[cycle(print)]
    fn put_suffixes(&mut self, all: &[Suffix]) -> Result<(), Memory>
        ensures { OnOk result (self.new ≡ written self.old (suffixes_tokens (suffixes_of all.now))) }
    {
        let mut left = all;
        while let [one, rest @ ..] = left {
            self.put_suffix(one)?;
            left = rest;
        }
        Ok(())
    }

    #[cycle(print)]
    fn put_operands(&mut self, all: &[Operand]) -> Result<(), Memory>
        ensures { OnOk result (self.new ≡ written self.old (operands_tokens (operands_of all.now))) }
    {
        let mut left = all;
        while let [one, rest @ ..] = left {
            self.put_binary(one.op)?;
            self.put_expression(&one.value)?;
            left = rest;
        }
        Ok(())
    }

    fn put_own_name(&mut self, f: &Function) -> Result<(), Memory>
        ensures { OnOk result (self.new ≡ written self.old (own_name_tokens (function_of f.now))) }
    {
        match &f.name {
            None => Ok(()),
            Some(x) => self.put_word(&x.name),
        }
    }

    fn put_parameters(&mut self, all: &[BoundName]) -> Result<(), Memory>
        ensures { OnOk result (self.new ≡ written self.old (parameters_tokens all.now)) }
    {
        let mut left = all;
        while let [one, rest @ ..] = left {
            self.put_word(&one.name)?;
            self.put_comma_if(!rest.is_empty())?;
            left = rest;
        }
        Ok(())
    }

    #[cycle(print)]
    pub fn put_function(&mut self, f: &Function) -> Result<(), Memory>
        ensures { OnOk result (self.new ≡ written self.old (function_tokens (function_of f.now))) }
    {
        self.put_sign(Sign::LeftParenthesis)?;
        self.put_parameters(f.parameters.as_slice())?;
        self.put_sign(Sign::RightParenthesis)?;
        self.put_sign(Sign::LeftBrace)?;
        self.put_statements(f.body.as_slice())?;
        self.put_sign(Sign::RightBrace)
    }
}
