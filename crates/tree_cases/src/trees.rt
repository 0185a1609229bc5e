// What no clause says: that scripts can be made, and how places and refusals are printed.
use js_tree::{
    Expression, ExpressionNode, Place, ReadAnswer, ReadKind, Script, Statement, StatementList,
};
use std::test::Fail;

const AT: Place = Place { line: 1, column: 9 };

#[test]
fn scripts_are_made(rt: HostRuntime) -> Result<(), Fail> {
    let alloc = rt.alloc();
    let value = Expression {
        place: AT,
        node: ExpressionNode::Null,
    };
    let mut body = StatementList::new(alloc);
    body.push(alloc, Statement::throw(alloc, AT, value)?)?;
    let script = Script::new(body).ok_or("too large")?;
    assert_eq!(rt; script.body().len(), 1);
    assert_eq!(rt; script.into_body().at(0).place, AT);
    Ok(())
}

#[test]
fn refusals_are_printed(rt: HostRuntime) -> Result<(), Fail> {
    let alloc = rt.alloc();
    let refused = ReadAnswer::Refused(ReadKind::BadToken, AT);
    assert_eq!(rt;
        format!(in alloc; "{refused}")?.as_str(),
        "bad token at 1:9"
    );
    let memory = ReadAnswer::Memory;
    assert_eq!(rt; format!(in alloc; "{memory}")?.as_str(), "out of memory");
    Ok(())
}
