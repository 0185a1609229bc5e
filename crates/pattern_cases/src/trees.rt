// Trees as they stand in the table, whose head says how.
use anyhow::Result;
use js_pattern::{Assertion, Bounds, Class, ClassItem, Node, NodeKind, Set};
use std::alloc::Global;
use utf16_text::Text;

/// A tree in the words of the table.
#[cycle(tree)]
pub(crate) fn described(alloc: Global, node: &Node) -> Result<String> {
    match &node.kind {
        NodeKind::Unit(unit) => written(alloc, *unit),
        NodeKind::Any => word(alloc, "any"),
        NodeKind::Class(class) => class_described(alloc, class),
        NodeKind::Assertion(assertion) => word(alloc, assertion_word(*assertion)),
        NodeKind::Reference(number) => Ok(format!(in alloc; "={number}")?),
        NodeKind::Row(terms) => {
            let terms = all_described(alloc, terms.as_slice(), " ")?;
            Ok(format!(in alloc; "[{}]", terms.as_str())?)
        }
        NodeKind::Alternatives(rows) => all_described(alloc, rows.as_slice(), "|"),
        NodeKind::Group(number, body) => {
            let body = described(alloc, body)?;
            match number {
                None => Ok(format!(in alloc; "(: {})", body.as_str())?),
                Some(number) => Ok(format!(in alloc; "({number} {})", body.as_str())?),
            }
        }
        NodeKind::Repeat(part, bounds) => {
            let part = described(alloc, part)?;
            repeated(alloc, part.as_str(), *bounds)
        }
    }
}

#[cycle(tree)]
fn all_described(alloc: Global, nodes: &[Node], mark: &str) -> Result<String> {
    let Some((first, others)) = nodes.split_first() else {
        return Ok(String::new(alloc));
    };
    let mut line = described(alloc, first)?;
    if !others.is_empty() {
        line.push_str(mark)?;
        line.push_str(all_described(alloc, others, mark)?.as_str())?;
    }
    Ok(line)
}

fn word(alloc: Global, word: &str) -> Result<String> {
    Ok(String::from_str(alloc, word)?)
}

fn written(alloc: Global, unit: u16) -> Result<String> {
    case_rows::written_text(alloc, &Text::from_units(alloc, &[unit])?)
}

fn assertion_word(assertion: Assertion) -> &'static str {
    match assertion {
        Assertion::Start => "start",
        Assertion::End => "end",
        Assertion::Boundary => "boundary",
        Assertion::NoBoundary => "no-boundary",
    }
}

fn set_word(set: Set) -> &'static str {
    match set {
        Set::Digit => "digit",
        Set::NoDigit => "no-digit",
        Set::Word => "word",
        Set::NoWord => "no-word",
        Set::Space => "space",
        Set::NoSpace => "no-space",
    }
}

fn class_described(alloc: Global, class: &Class) -> Result<String> {
    let mut line = word(alloc, if class.excludes { "not<" } else { "<" })?;
    for (index, item) in class.items.as_slice().iter().enumerate() {
        if index > 0 {
            line.push_str(" ")?;
        }
        line.push_str(item_described(alloc, *item)?.as_str())?;
    }
    line.push_str(">")?;
    Ok(line)
}

fn item_described(alloc: Global, item: ClassItem) -> Result<String> {
    match item {
        ClassItem::Set(set) => word(alloc, set_word(set)),
        ClassItem::Range(first, last) if first == last => written(alloc, first),
        ClassItem::Range(first, last) => {
            let first = written(alloc, first)?;
            let last = written(alloc, last)?;
            Ok(format!(in alloc; "{}..{}", first.as_str(), last.as_str())?)
        }
    }
}

/// A part with its bounds, `?` where they are lazy, and the groups within it, where there are such.
fn repeated(alloc: Global, part: &str, bounds: Bounds) -> Result<String> {
    let Bounds {
        from_group,
        to_group,
        least,
        most,
        greedy,
    } = bounds;
    let mut line = match most {
        None => format!(in alloc; "{part}{{{least},}}")?,
        Some(most) => format!(in alloc; "{part}{{{least},{most}}}")?,
    };
    if !greedy {
        line.push_str("?")?;
    }
    if from_group < to_group {
        line.push_str(format!(in alloc; "/{from_group}..{to_group}")?.as_str())?;
    }
    Ok(line)
}
