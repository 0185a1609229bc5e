// The parts of trees that are named or nested, in the order of reading.
use anyhow::{Result, bail};
use js_tree::{
    BoundName, Branch, Catch, Clause, Declared, Expression, ExpressionNode, ForStart, ForTarget,
    FunctionPart, Operand, Property, Statement, StatementNode, Suffix, SuffixNode,
};

/// A part of a tree.
#[derive(Clone, Copy)]
pub enum Part<'p> {
    Name(&'p BoundName),
    Function(&'p FunctionPart),
    Expression(&'p Expression),
    Statement(&'p Statement),
}

pub type Parts<'p> = Vec<Part<'p>>;

/// Puts the parts of an expression behind others.
pub fn put_expression<'p>(e: &'p Expression, parts: &mut Parts<'p>) -> Result<()> {
    match &e.node {
        ExpressionNode::Number(_) | ExpressionNode::Text(_) | ExpressionNode::True => {}
        ExpressionNode::Pattern(_) | ExpressionNode::False | ExpressionNode::Null => {}
        ExpressionNode::This => {}
        ExpressionNode::Name(x) => parts.push(Part::Name(x))?,
        ExpressionNode::Function(part) => parts.push(Part::Function(part))?,
        ExpressionNode::Array(all) => put_items(all.as_slice(), parts)?,
        ExpressionNode::Object(all) => put_properties(all.as_slice(), parts)?,
        ExpressionNode::Suffixed(first, all) => {
            parts.push(Part::Expression(&**first))?;
            put_suffixes(all.as_slice(), parts)?;
        }
        ExpressionNode::New(callee, all) => {
            parts.push(Part::Expression(&**callee))?;
            put_expressions(all.as_slice(), parts)?;
        }
        ExpressionNode::Unary(_, operand) => parts.push(Part::Expression(&**operand))?,
        ExpressionNode::Update(_, _, target) => parts.push(Part::Expression(&**target))?,
        ExpressionNode::Chain(first, all) => {
            parts.push(Part::Expression(&**first))?;
            put_operands(all.as_slice(), parts)?;
        }
        ExpressionNode::Conditional(condition, a, b) => {
            parts.push(Part::Expression(&**condition))?;
            parts.push(Part::Expression(&**a))?;
            parts.push(Part::Expression(&**b))?;
        }
        ExpressionNode::Assign(target, _, value) => {
            parts.push(Part::Expression(&**target))?;
            parts.push(Part::Expression(&**value))?;
        }
        ExpressionNode::Comma(all) => put_expressions(all.as_slice(), parts)?,
    }
    Ok(())
}

fn put_expressions<'p>(all: &'p [Expression], parts: &mut Parts<'p>) -> Result<()> {
    for e in all {
        parts.push(Part::Expression(e))?;
    }
    Ok(())
}

fn put_items<'p>(all: &'p [Option<Expression>], parts: &mut Parts<'p>) -> Result<()> {
    for item in all {
        put_optional(item.as_ref(), parts)?;
    }
    Ok(())
}

fn put_properties<'p>(all: &'p [Property], parts: &mut Parts<'p>) -> Result<()> {
    for property in all {
        parts.push(Part::Expression(&property.value))?;
    }
    Ok(())
}

fn put_suffixes<'p>(all: &'p [Suffix], parts: &mut Parts<'p>) -> Result<()> {
    for suffix in all {
        put_suffix(suffix, parts)?;
    }
    Ok(())
}

fn put_operands<'p>(all: &'p [Operand], parts: &mut Parts<'p>) -> Result<()> {
    for operand in all {
        parts.push(Part::Expression(&operand.value))?;
    }
    Ok(())
}

fn put_optional<'p>(e: Option<&'p Expression>, parts: &mut Parts<'p>) -> Result<()> {
    if let Some(e) = e {
        parts.push(Part::Expression(e))?;
    }
    Ok(())
}

fn put_boxed<'p>(e: &'p Option<Box<Expression>>, parts: &mut Parts<'p>) -> Result<()> {
    if let Some(e) = e {
        parts.push(Part::Expression(&**e))?;
    }
    Ok(())
}

fn put_suffix<'p>(suffix: &'p Suffix, parts: &mut Parts<'p>) -> Result<()> {
    match &suffix.node {
        SuffixNode::Member(_) => {}
        SuffixNode::Index(e) => parts.push(Part::Expression(e))?,
        SuffixNode::Call(all) => put_expressions(all.as_slice(), parts)?,
    }
    Ok(())
}

/// Puts the parts of a statement behind others.
pub fn put_statement<'p>(s: &'p Statement, parts: &mut Parts<'p>) -> Result<()> {
    match &s.node {
        StatementNode::Empty | StatementNode::Debugger => {}
        StatementNode::Continue | StatementNode::Break => {}
        StatementNode::Block(all) => put_statements(all.as_slice(), parts)?,
        StatementNode::Expression(e) | StatementNode::Throw(e) => {
            parts.push(Part::Expression(&**e))?;
        }
        StatementNode::Var(all) => put_all_declared(all.as_slice(), parts)?,
        StatementNode::If(all, otherwise) => {
            put_branches(all.as_slice(), parts)?;
            put_given(otherwise, parts)?;
        }
        StatementNode::Return(value) => put_boxed(value, parts)?,
        StatementNode::Switch(value, all) => {
            parts.push(Part::Expression(&**value))?;
            put_clauses(all.as_slice(), parts)?;
        }
        StatementNode::Try(block, catch, last) => {
            parts.push(Part::Statement(&**block))?;
            put_catch(catch, parts)?;
            put_given(last, parts)?;
        }
        StatementNode::Function(x, part) => {
            parts.push(Part::Name(x))?;
            parts.push(Part::Function(part))?;
        }
        a_loop => put_loop(a_loop, parts)?,
    }
    Ok(())
}

fn put_loop<'p>(node: &'p StatementNode, parts: &mut Parts<'p>) -> Result<()> {
    match node {
        StatementNode::DoWhile(body, condition) => {
            parts.push(Part::Statement(&**body))?;
            parts.push(Part::Expression(&**condition))?;
        }
        StatementNode::While(condition, body) => {
            parts.push(Part::Expression(&**condition))?;
            parts.push(Part::Statement(&**body))?;
        }
        StatementNode::For(start, condition, step, body) => {
            put_start(start, parts)?;
            put_boxed(condition, parts)?;
            put_boxed(step, parts)?;
            parts.push(Part::Statement(&**body))?;
        }
        StatementNode::ForIn(target, object, body) => {
            put_target(target, parts)?;
            parts.push(Part::Expression(&**object))?;
            parts.push(Part::Statement(&**body))?;
        }
        _ => bail!("no loop"),
    }
    Ok(())
}

fn put_branches<'p>(all: &'p [Branch], parts: &mut Parts<'p>) -> Result<()> {
    for branch in all {
        parts.push(Part::Expression(&branch.condition))?;
        parts.push(Part::Statement(&branch.body))?;
    }
    Ok(())
}

fn put_clauses<'p>(all: &'p [Clause], parts: &mut Parts<'p>) -> Result<()> {
    for clause in all {
        put_optional(clause.test.as_ref(), parts)?;
        put_statements(clause.body.as_slice(), parts)?;
    }
    Ok(())
}

fn put_catch<'p>(catch: &'p Option<Box<Catch>>, parts: &mut Parts<'p>) -> Result<()> {
    if let Some(catch) = catch {
        parts.push(Part::Name(&catch.name))?;
        parts.push(Part::Statement(&catch.body))?;
    }
    Ok(())
}

/// Puts statements behind others.
pub fn put_statements<'p>(all: &'p [Statement], parts: &mut Parts<'p>) -> Result<()> {
    for s in all {
        parts.push(Part::Statement(s))?;
    }
    Ok(())
}

fn put_given<'p>(s: &'p Option<Box<Statement>>, parts: &mut Parts<'p>) -> Result<()> {
    if let Some(s) = s {
        parts.push(Part::Statement(&**s))?;
    }
    Ok(())
}

fn put_declared<'p>(one: &'p Declared, parts: &mut Parts<'p>) -> Result<()> {
    parts.push(Part::Name(&one.name))?;
    put_optional(one.value.as_ref(), parts)
}

fn put_all_declared<'p>(all: &'p [Declared], parts: &mut Parts<'p>) -> Result<()> {
    for one in all {
        put_declared(one, parts)?;
    }
    Ok(())
}

fn put_start<'p>(start: &'p Option<Box<ForStart>>, parts: &mut Parts<'p>) -> Result<()> {
    let Some(start) = start else {
        return Ok(());
    };
    match &**start {
        ForStart::Var(_, all) => put_all_declared(all.as_slice(), parts)?,
        ForStart::Expression(e) => parts.push(Part::Expression(e))?,
    }
    Ok(())
}

fn put_target<'p>(target: &'p ForTarget, parts: &mut Parts<'p>) -> Result<()> {
    match target {
        ForTarget::Expression(e) => parts.push(Part::Expression(e))?,
        ForTarget::Declared(one) => put_declared(one, parts)?,
    }
    Ok(())
}
