// What trees are printed as that no script spells, and texts with escapes; script_cases prints all that is read. The
// expected texts are written by hand from the rules in docs/DECISIONS.md, "The language".
use js_pattern_reader::PatternLiteral;
use js_printer::print;
use js_tree::{
    Bound, BoundName, Expression, ExpressionNode, FunctionPart, Place, Script, Statement,
    StatementNode,
};
use std::alloc::Global;
use std::test::Fail;
use utf16_text::{List, Text};

const HERE: Place = Place { line: 1, column: 1 };

/// The statement of one expression.
fn evaluated(alloc: Global, node: ExpressionNode) -> Result<Statement, Fail> {
    let e = Box::new(alloc, Expression { place: HERE, node })?;
    Ok(Statement {
        place: HERE,
        node: StatementNode::Expression(e),
    })
}

fn pattern(alloc: Global, body: &str, flags: &str) -> Result<ExpressionNode, Fail> {
    let body = Text::from_str(alloc, body)?;
    let flags = Text::from_str(alloc, flags)?;
    let literal = PatternLiteral::read(alloc, body, flags).map_err(|_| "no pattern")?;
    Ok(ExpressionNode::Pattern(literal))
}

fn declared(alloc: Global, name: &str, number: u32) -> Result<Statement, Fail> {
    let name = BoundName {
        name: Text::from_str(alloc, name)?,
        bound: Bound::Unbound,
    };
    Ok(Statement {
        place: HERE,
        node: StatementNode::Function(name, FunctionPart::Numbered(number)),
    })
}

fn printed(alloc: Global, all: Vec<Statement>) -> Result<String, Fail> {
    let script = Script::new(List::from_vec(all)).ok_or("too large")?;
    let bytes = print(alloc, &script)?;
    Ok(String::from_utf8(bytes).map_err(|_| "no text")?)
}

#[test]
fn each_statement_is_a_line(rt: HostRuntime) -> Result<(), Fail> {
    let alloc = rt.alloc();
    assert_eq!(rt; printed(alloc, Vec::new(alloc))?.as_str(), "");
    let text = Text::from_str(alloc, "a \"\\\né")?;
    let all = vec![in alloc;
        evaluated(alloc, ExpressionNode::Text(text))?,
        evaluated(alloc, ExpressionNode::Function(FunctionPart::Numbered(7)))?,
        declared(alloc, "g", 0)?,
        evaluated(alloc, pattern(alloc, "é*", "g")?)?,
    ]?;
    let lines =
        "\"a \\\"\\\\\\u000a\\u00e9\" ;\n( function 7 ) ;\nfunction g 0\n( /\\u00e9*/g ) ;\n";
    assert_eq!(rt; printed(alloc, all)?.as_str(), lines);
    Ok(())
}
