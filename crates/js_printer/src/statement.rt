// Statements, as the tokens that they are printed as.
#![tactic(auto, using(crate::proofs::Nodes::nodes))]

ghost use Rattle.std.specs.Prelude.{◌≡◌, ◌∷◌, [], OnOk};
ghost use Rattle.js_tree.specs.Tree as tree;
ghost use Rattle.js_tree.specs.declared.sign.Sign.TheVariants as sign;
ghost use Rattle.js_tree.specs.Tree.{optional_of, statements_of};
ghost use Rattle.js_tree.specs.View.{
  function_of,
  declarations_of,
  branches_of,
  clauses_of,
  optional_box,
  optional_statement,
  start_of,
  optional_start,
  target_of,
  optional_catch,
};
ghost use Rattle.js_grammar.specs.Printing.{
  nowhere,
  sign_token,
  keyword_token,
  statement_tokens,
  statements_tokens,
  otherwise_tokens,
  finally_tokens,
  first_value_tokens,
  declarations_tokens,
  branches_tokens,
  start_tokens,
  target_tokens,
  test_tokens,
  clauses_tokens,
  catch_tokens,
};
ghost use Rattle.js_printer.specs.Written.{written};

use crate::printer::Printer;
use js_tree::{
    BoundName, Branch, Catch, Clause, Declared, Expression, ForStart, ForTarget, Function,
    FunctionPart, Keyword, Sign, Statement, StatementNode,
};
use utf16_text::Memory;
use whole_number::Whole;

impl Printer {
    #[cycle(print)]
    pub fn put_statement(&mut self, s: &Statement) -> Result<(), Memory>
        ensures { OnOk result (self.new ≡ written self.old (statement_tokens s.now)) }
    {
        match &s.node {
            StatementNode::Block(all) => self.put_block(all.as_slice()),
            StatementNode::Empty => self.put_sign(Sign::Semicolon),
            StatementNode::Expression(e) => self.put_expression_statement(e),
            StatementNode::Debugger => self.put_word_statement(Keyword::Debugger),
            StatementNode::Var(all) => self.put_var(all.as_slice()),
            StatementNode::If(all, otherwise) => self.put_if(all.as_slice(), otherwise),
            StatementNode::DoWhile(body, condition) => self.put_do_while(body, condition),
            StatementNode::While(condition, body) => self.put_while(condition, body),
            StatementNode::For(start, condition, step, body) => self.put_for(
                start, condition, step, body,
            ),
            StatementNode::ForIn(target, object, body) => self.put_for_in(target, object, body),
            StatementNode::Continue => self.put_word_statement(Keyword::Continue),
            StatementNode::Break => self.put_word_statement(Keyword::Break),
            StatementNode::Return(e) => self.put_return(e),
            StatementNode::Throw(e) => self.put_throw(e),
            StatementNode::Switch(e, all) => self.put_switch(e, all.as_slice()),
            StatementNode::Try(block, catch, last) => self.put_try(block, catch, last),
            StatementNode::Function(x, FunctionPart::Whole(f)) => self.put_function_declaration(
                x, f,
            ),
            StatementNode::Function(x, FunctionPart::Numbered(n)) => self.put_numbered_declaration(
                x, *n,
            ),
        }
    }

    /// Writes a statement of one word.
    fn put_word_statement(&mut self, keyword: Keyword) -> Result<(), Memory>
        ensures { OnOk result (self.new ≡ written (written self.old (keyword_token keyword ∷ [])) (sign_token sign.Semicolon ∷ [])) }
    {
        self.put_keyword(keyword)?;
        self.put_sign(Sign::Semicolon)
    }

    #[cycle(print)]
    fn put_block(&mut self, all: &[Statement]) -> Result<(), Memory>
        ensures { OnOk result (self.new ≡ written self.old (statement_tokens (tree.Block nowhere (statements_of all.now)))) }
    {
        self.put_sign(Sign::LeftBrace)?;
        self.put_statements(all)?;
        self.put_sign(Sign::RightBrace)
    }

    #[cycle(print)]
    fn put_expression_statement(&mut self, e: &Expression) -> Result<(), Memory>
        ensures { OnOk result (self.new ≡ written self.old (statement_tokens (tree.Evaluate nowhere e.now))) }
    {
        self.put_expression(e)?;
        self.put_sign(Sign::Semicolon)
    }

    #[cycle(print)]
    fn put_var(&mut self, all: &[Declared]) -> Result<(), Memory>
        ensures { OnOk result (self.new ≡ written self.old (statement_tokens (tree.Var nowhere (declarations_of all.now)))) }
    {
        self.put_keyword(Keyword::Var)?;
        self.put_declarations(all)?;
        self.put_sign(Sign::Semicolon)
    }

    #[cycle(print)]
    fn put_if(&mut self, all: &[Branch], otherwise: &Option<Box<Statement>>) -> Result<(), Memory>
        ensures { OnOk result (self.new ≡ written self.old (statement_tokens (tree.If nowhere (branches_of all.now) (optional_statement otherwise.now)))) }
    {
        self.put_branches(all)?;
        self.put_otherwise(otherwise)
    }

    #[cycle(print)]
    fn put_do_while(&mut self, body: &Statement, condition: &Expression) -> Result<(), Memory>
        ensures { OnOk result (self.new ≡ written self.old (statement_tokens (tree.DoWhile nowhere body.now condition.now))) }
    {
        self.put_keyword(Keyword::Do)?;
        self.put_statement(body)?;
        self.put_keyword(Keyword::While)?;
        self.put_sign(Sign::LeftParenthesis)?;
        self.put_expression(condition)?;
        self.put_sign(Sign::RightParenthesis)?;
        self.put_sign(Sign::Semicolon)
    }

    #[cycle(print)]
    fn put_while(&mut self, condition: &Expression, body: &Statement) -> Result<(), Memory>
        ensures { OnOk result (self.new ≡ written self.old (statement_tokens (tree.While nowhere condition.now body.now))) }
    {
        self.put_keyword(Keyword::While)?;
        self.put_sign(Sign::LeftParenthesis)?;
        self.put_expression(condition)?;
        self.put_sign(Sign::RightParenthesis)?;
        self.put_statement(body)
    }

    #[cycle(print)]
    fn put_for(
        &mut self,
        start: &Option<Box<ForStart>>,
        condition: &Option<Box<Expression>>,
        step: &Option<Box<Expression>>,
        body: &Statement,
    ) -> Result<(), Memory>
        ensures { OnOk result (self.new ≡ written self.old (statement_tokens (tree.For nowhere (optional_start start.now) (optional_box condition.now) (optional_box step.now) body.now))) }
    {
        self.put_keyword(Keyword::For)?;
        self.put_sign(Sign::LeftParenthesis)?;
        self.put_start(start)?;
        self.put_sign(Sign::Semicolon)?;
        self.put_boxed(condition)?;
        self.put_sign(Sign::Semicolon)?;
        self.put_boxed(step)?;
        self.put_sign(Sign::RightParenthesis)?;
        self.put_statement(body)
    }

    #[cycle(print)]
    fn put_for_in(
        &mut self,
        target: &ForTarget,
        object: &Expression,
        body: &Statement,
    ) -> Result<(), Memory>
        ensures { OnOk result (self.new ≡ written self.old (statement_tokens (tree.ForIn nowhere (target_of target.now) object.now body.now))) }
    {
        self.put_keyword(Keyword::For)?;
        self.put_sign(Sign::LeftParenthesis)?;
        self.put_target(target)?;
        self.put_keyword(Keyword::In)?;
        self.put_expression(object)?;
        self.put_sign(Sign::RightParenthesis)?;
        self.put_statement(body)
    }

    #[cycle(print)]
    fn put_return(&mut self, e: &Option<Box<Expression>>) -> Result<(), Memory>
        ensures { OnOk result (self.new ≡ written self.old (statement_tokens (tree.Return nowhere (optional_box e.now)))) }
    {
        self.put_keyword(Keyword::Return)?;
        self.put_boxed(e)?;
        self.put_sign(Sign::Semicolon)
    }

    #[cycle(print)]
    fn put_throw(&mut self, e: &Expression) -> Result<(), Memory>
        ensures { OnOk result (self.new ≡ written self.old (statement_tokens (tree.Throw nowhere e.now))) }
    {
        self.put_keyword(Keyword::Throw)?;
        self.put_expression(e)?;
        self.put_sign(Sign::Semicolon)
    }

    #[cycle(print)]
    fn put_switch(&mut self, e: &Expression, all: &[Clause]) -> Result<(), Memory>
        ensures { OnOk result (self.new ≡ written self.old (statement_tokens (tree.Switch nowhere e.now (clauses_of all.now)))) }
    {
        self.put_keyword(Keyword::Switch)?;
        self.put_sign(Sign::LeftParenthesis)?;
        self.put_expression(e)?;
        self.put_sign(Sign::RightParenthesis)?;
        self.put_sign(Sign::LeftBrace)?;
        self.put_clauses(all)?;
        self.put_sign(Sign::RightBrace)
    }

    #[cycle(print)]
    fn put_try(
        &mut self,
        block: &Statement,
        catch: &Option<Box<Catch>>,
        last: &Option<Box<Statement>>,
    ) -> Result<(), Memory>
        ensures { OnOk result (self.new ≡ written self.old (statement_tokens (tree.Try nowhere block.now (optional_catch catch.now) (optional_statement last.now)))) }
    {
        self.put_keyword(Keyword::Try)?;
        self.put_statement(block)?;
        self.put_catch(catch)?;
        self.put_finally(last)
    }

    #[cycle(print)]
    fn put_function_declaration(&mut self, x: &BoundName, f: &Function) -> Result<(), Memory>
        ensures { OnOk result (self.new ≡ written self.old (statement_tokens (tree.Declare nowhere x.now (function_of f.now)))) }
    {
        self.put_keyword(Keyword::Function)?;
        self.put_word(&x.name)?;
        self.put_function(f)
    }

    fn put_numbered_declaration(&mut self, x: &BoundName, n: u32) -> Result<(), Memory>
        ensures { OnOk result (self.new ≡ written self.old (statement_tokens (tree.DeclareNumbered nowhere x.now n))) }
    {
        self.put_keyword(Keyword::Function)?;
        self.put_word(&x.name)?;
        self.put_number(Whole::from(n))
    }

    #[cycle(print)]
    pub fn put_statements(&mut self, all: &[Statement]) -> Result<(), Memory>
        ensures { OnOk result (self.new ≡ written self.old (statements_tokens (statements_of all.now))) }
    {
        let mut left = all;
        while let [one, rest @ ..] = left {
            self.put_statement(one)?;
            left = rest;
        }
        Ok(())
    }

    #[cycle(print)]
    fn put_otherwise(&mut self, o: &Option<Box<Statement>>) -> Result<(), Memory>
        ensures { OnOk result (self.new ≡ written self.old (otherwise_tokens (optional_statement o.now))) }
    {
        match o {
            None => Ok(()),
            Some(s) => {
                self.put_keyword(Keyword::Else)?;
                self.put_statement(s)
            }
        }
    }

    #[cycle(print)]
    fn put_finally(&mut self, o: &Option<Box<Statement>>) -> Result<(), Memory>
        ensures { OnOk result (self.new ≡ written self.old (finally_tokens (optional_statement o.now))) }
    {
        match o {
            None => Ok(()),
            Some(s) => {
                self.put_keyword(Keyword::Finally)?;
                self.put_statement(s)
            }
        }
    }

    #[cycle(print)]
    fn put_first_value(&mut self, o: &Option<Expression>) -> Result<(), Memory>
        ensures { OnOk result (self.new ≡ written self.old (first_value_tokens (optional_of o.now))) }
    {
        match o {
            None => Ok(()),
            Some(e) => {
                self.put_sign(Sign::Assign)?;
                self.put_expression(e)
            }
        }
    }

    #[cycle(print)]
    fn put_declarations(&mut self, all: &[Declared]) -> Result<(), Memory>
        ensures { OnOk result (self.new ≡ written self.old (declarations_tokens (declarations_of all.now))) }
    {
        let mut left = all;
        while let [one, rest @ ..] = left {
            self.put_word(&one.name.name)?;
            self.put_first_value(&one.value)?;
            self.put_comma_if(!rest.is_empty())?;
            left = rest;
        }
        Ok(())
    }

    #[cycle(print)]
    fn put_branches(&mut self, all: &[Branch]) -> Result<(), Memory>
        ensures { OnOk result (self.new ≡ written self.old (branches_tokens (branches_of all.now))) }
    {
        let mut left = all;
        while let [one, rest @ ..] = left {
            self.put_keyword(Keyword::If)?;
            self.put_sign(Sign::LeftParenthesis)?;
            self.put_expression(&one.condition)?;
            self.put_sign(Sign::RightParenthesis)?;
            self.put_statement(&one.body)?;
            self.put_else_if(!rest.is_empty())?;
            left = rest;
        }
        Ok(())
    }

    #[cycle(print)]
    fn put_start(&mut self, o: &Option<Box<ForStart>>) -> Result<(), Memory>
        ensures { OnOk result (self.new ≡ written self.old (start_tokens (optional_start o.now))) }
    {
        match o {
            None => Ok(()),
            Some(start) => self.put_some_start(start),
        }
    }

    #[cycle(print)]
    fn put_some_start(&mut self, start: &ForStart) -> Result<(), Memory>
        ensures { OnOk result (self.new ≡ written self.old (start_tokens (start_of start.now))) }
    {
        match start {
            ForStart::Var(_, all) => {
                self.put_keyword(Keyword::Var)?;
                self.put_declarations(all.as_slice())
            }
            ForStart::Expression(e) => self.put_expression(e),
        }
    }

    #[cycle(print)]
    fn put_target(&mut self, target: &ForTarget) -> Result<(), Memory>
        ensures { OnOk result (self.new ≡ written self.old (target_tokens (target_of target.now))) }
    {
        match target {
            ForTarget::Expression(e) => self.put_expression(e),
            ForTarget::Declared(one) => {
                self.put_keyword(Keyword::Var)?;
                self.put_word(&one.name.name)?;
                self.put_first_value(&one.value)
            }
        }
    }

    #[cycle(print)]
    fn put_test(&mut self, o: &Option<Expression>) -> Result<(), Memory>
        ensures { OnOk result (self.new ≡ written self.old (test_tokens (optional_of o.now))) }
    {
        match o {
            None => {
                self.put_keyword(Keyword::Default)?;
                self.put_sign(Sign::Colon)
            }
            Some(e) => {
                self.put_keyword(Keyword::Case)?;
                self.put_expression(e)?;
                self.put_sign(Sign::Colon)
            }
        }
    }

    #[cycle(print)]
    fn put_clauses(&mut self, all: &[Clause]) -> Result<(), Memory>
        ensures { OnOk result (self.new ≡ written self.old (clauses_tokens (clauses_of all.now))) }
    {
        let mut left = all;
        while let [one, rest @ ..] = left {
            self.put_test(&one.test)?;
            self.put_statements(one.body.as_slice())?;
            left = rest;
        }
        Ok(())
    }

    #[cycle(print)]
    fn put_catch(&mut self, o: &Option<Box<Catch>>) -> Result<(), Memory>
        ensures { OnOk result (self.new ≡ written self.old (catch_tokens (optional_catch o.now))) }
    {
        match o {
            None => Ok(()),
            Some(catch) => {
                self.put_keyword(Keyword::Catch)?;
                self.put_sign(Sign::LeftParenthesis)?;
                self.put_word(&catch.name.name)?;
                self.put_sign(Sign::RightParenthesis)?;
                self.put_statement(&catch.body)
            }
        }
    }
}
