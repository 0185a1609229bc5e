// What the grammar decides about nodes.
ghost use Rattle.std.specs.Prelude.{◌≡◌, ◌++◌, ◌∷◌, IfOk, IfErr, Some, None, length};
ghost use Rattle.js_grammar.specs.Readers.{unbound};
ghost use Rattle.js_grammar.specs.Expressions.{joined, chained, suffixed_by};
ghost use Rattle.js_grammar.specs.Statements.{has_part, before_in};

use js_tree::{
    Bound, BoundName, Catch, Clause, ClauseList, Declared, DeclaredList, Expression,
    ExpressionList, ExpressionNode, Keyword, OperandList, Place, Statement, SuffixList,
};
use std::alloc::Global;
use utf16_text::{Memory, Text};

/// What commas part; one expression alone is itself.
pub fn joined(place: Place, all: ExpressionList) -> Expression
    ensures { result ≡ joined place all }
{
    let mut items = all.into_vec();
    if items.len() == 1 {
        if let Some(only) = items.pop() {
            return only;
        }
    }
    let node = ExpressionNode::Comma(ExpressionList::from_vec(items));
    Expression { place, node }
}

/// The clauses of a `switch` that has a `default` between these.
pub fn with_default(
    cases: ClauseList,
    default: Clause,
    others: ClauseList,
) -> Result<ClauseList, Memory>
    ensures { IfOk result (λ all. all ≡ cases ++ default ∷ others) }
{
    let mut all = cases.into_vec();
    let mut behind = others.into_vec();
    all.push(default)?;
    all.append(&mut behind)?;
    Ok(ClauseList::from_vec(all))
}

/// Whether a `try` has a handler or a last block.
pub fn has_part(catch: &Option<Catch>, last: &Option<Statement>) -> bool
    ensures { result ≡ has_part catch.now last.now }
{
    match (catch, last) {
        (None, None) => false,
        _ => true,
    }
}

/// The one declared name before `in`; elsewhere the names.
pub fn before_in(next: Option<Keyword>, names: DeclaredList) -> Result<Declared, DeclaredList>
    ensures found { IfOk result (λ x. before_in next names ≡ Some x) }
    ensures others { IfErr result (λ all. (all ≡ names) × (before_in next names ≡ None)) }
{
    if names.len() != 1 || !matches!(next, Some(Keyword::In)) {
        return Err(names);
    }
    let mut items = names.into_vec();
    match items.pop() {
        Some(only) => Ok(only),
        None => Err(DeclaredList::from_vec(items)),
    }
}

/// A name that stands in no scope yet.
pub fn unbound(alloc: Global, word: &Text) -> Result<BoundName, Memory>
    ensures { IfOk result (λ x. x ≡ unbound word.now) }
{
    let name = word.copy(alloc)?;
    Ok(BoundName {
        name,
        bound: Bound::Unbound,
    })
}

/// The operators of one level behind an expression, where there are any.
pub fn chained(
    alloc: Global,
    place: Place,
    first: Expression,
    others: OperandList,
) -> Result<Expression, Memory>
    ensures { IfOk result (λ e. e ≡ chained place first others) }
{
    if others.is_empty() {
        return Ok(first);
    }
    Expression::chain(alloc, place, first, others)
}

/// What follows an expression, where anything does.
pub fn suffixed_by(
    alloc: Global,
    place: Place,
    first: Expression,
    others: SuffixList,
) -> Result<Expression, Memory>
    ensures { IfOk result (λ e. e ≡ suffixed_by place first others) }
{
    if others.is_empty() {
        return Ok(first);
    }
    Expression::suffixed(alloc, place, first, others)
}
