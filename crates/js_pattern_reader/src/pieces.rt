// The pieces of a pattern.
ghost use Rattle.std.specs.Prelude.{◌≡◌, ◌∷◌, IfOk};
ghost use Rattle.js_pattern.specs.View.{tree_of};
ghost use Rattle.js_pattern_reader.specs.Pieces.{
  atom_tree,
  capture,
  class_piece,
  escape_piece,
  escaped_piece,
  next_piece,
  no_capture,
  open_piece,
  piece_by,
  stands_alone,
};
ghost use Rattle.js_pattern_reader.specs.Spots.{ReadsAt};

use crate::classes::class_of;
use crate::escapes::{ClassAtom, Escape, escape_at};
use crate::{MOST_GROUPS, PatternAnswer};
use js_pattern::{Assertion, Class, ClassItem, ClassItemList, Node, NodeKind};
use std::alloc::Global;
use utf16_text::{List, Memory};

/// The units that are left, and how many groups have begun.
#[derive(Clone, Copy)]
pub struct Cursor<'a> {
    pub rest: &'a [u16],
    pub groups: u8,
}

/// What stands next in a pattern.
#[derive(Drop)]
pub enum Piece {
    /// The end of the pattern or of a group. It isn't taken.
    End,
    /// `|`.
    Bar,
    Assertion(Assertion),
    /// A part that can be repeated.
    Atom(Node),
    /// The beginning of a group, with its number where it is kept.
    Open(Option<u8>),
}

/// What was read, and where it was left.
pub type ReadAt<'a, T> = Result<(T, Cursor<'a>), PatternAnswer>;

fn node(kind: NodeKind) -> Node
    ensures { result ≡ tree_of kind }
{
    Node { kind }
}

fn atom(kind: NodeKind) -> Piece
    ensures { result ≡ Piece.Atom (tree_of kind) }
{
    Piece::Atom(node(kind))
}

fn atom_node(alloc: Global, atom: ClassAtom) -> Result<Node, Memory>
    ensures { IfOk result (λ x. x ≡ atom_tree atom) }
{
    match atom {
        ClassAtom::Unit(unit) => Ok(node(NodeKind::Unit(unit))),
        ClassAtom::Set(set) => {
            let mut items: ClassItemList = List::new(alloc);
            items.push(alloc, ClassItem::Set(set))?;
            let excludes = false;
            Ok(node(NodeKind::Class(Class { excludes, items })))
        }
    }
}

fn escape_piece(alloc: Global, escape: Escape) -> Result<Piece, Memory>
    ensures { IfOk result (λ p. p ≡ escape_piece escape) }
{
    match escape {
        Escape::Atom(atom) => Ok(Piece::Atom(atom_node(alloc, atom)?)),
        Escape::Assertion(assertion) => Ok(Piece::Assertion(assertion)),
        Escape::Reference(number) => Ok(atom(NodeKind::Reference(number))),
    }
}

fn escaped_piece<'a>(alloc: Global, count: usize, groups: u8, units: &'a [u16]) -> ReadAt<'a, Piece>
    ensures { ReadsAt (escaped_piece count groups units.now) result }
{
    match units.split_first() {
        None => Err(PatternAnswer::Bad),
        Some((unit, behind)) => {
            let (escape, rest) = escape_at(count, *unit, behind)?;
            let piece = escape_piece(alloc, escape)?;
            Ok((piece, Cursor { rest, groups }))
        }
    }
}

/// A group behind `(?`; look-ahead isn't supported.
fn no_capture<'a>(groups: u8, units: &'a [u16]) -> ReadAt<'a, Piece>
    ensures { ReadsAt (no_capture groups units.now) result }
{
    match units.split_first() {
        None => Err(PatternAnswer::Bad),
        Some((unit, rest)) => match *unit {
            58 => Ok((Piece::Open(None), Cursor { rest, groups })), // `:`
            61 => Err(PatternAnswer::Unsupported), // `=`
            33 => Err(PatternAnswer::Unsupported), // `!`
            _ => Err(PatternAnswer::Bad),
        },
    }
}

fn capture<'a>(groups: u8, rest: &'a [u16]) -> ReadAt<'a, Piece>
    ensures { ReadsAt (capture groups rest.now) result }
{
    if groups >= MOST_GROUPS {
        return Err(PatternAnswer::Unsupported);
    }
    let piece = Piece::Open(Some(groups));
    let groups = groups + 1;
    Ok((piece, Cursor { rest, groups }))
}

/// A group behind `(`; it is kept but for `(?`.
fn open_piece<'a>(groups: u8, units: &'a [u16]) -> ReadAt<'a, Piece>
    ensures { ReadsAt (open_piece groups units.now) result }
{
    match units.split_first() {
        None => capture(groups, units),
        Some((unit, rest)) => {
            if *unit == 63 {
                no_capture(groups, rest)
            } else {
                capture(groups, units)
            }
        }
    }
}

fn class_piece<'a>(alloc: Global, groups: u8, units: &'a [u16]) -> ReadAt<'a, Piece>
    ensures { ReadsAt (class_piece groups units.now) result }
{
    let (class, rest) = class_of(alloc, units)?;
    let piece = atom(NodeKind::Class(class));
    Ok((piece, Cursor { rest, groups }))
}

/// Any unit but `*`, `+`, `?`, `]`, `{` and `}`.
fn stands_alone(unit: u16) -> bool
    ensures { result ≡ stands_alone unit }
{
    !matches!(unit, 42 | 43 | 63 | 93 | 123 | 125)
}

/// The piece by its first unit, and the units behind that.
fn piece_by<'a>(
    alloc: Global,
    count: usize,
    at: Cursor<'a>,
    unit: u16,
    rest: &'a [u16],
) -> ReadAt<'a, Piece>
    requires { at.rest.now ≡ unit ∷ rest.now }
    ensures { ReadsAt (piece_by count at.entry.groups unit rest.now) result }
{
    let groups = at.groups;
    match unit {
        41 => Ok((Piece::End, at)), // `)`
        124 => Ok((Piece::Bar, Cursor { rest, groups })), // `|`
        94 => Ok((Piece::Assertion(Assertion::Start), Cursor { rest, groups })), // `^`
        36 => Ok((Piece::Assertion(Assertion::End), Cursor { rest, groups })), // `$`
        46 => Ok((atom(NodeKind::Any), Cursor { rest, groups })), // `.`
        91 => class_piece(alloc, groups, rest), // `[`
        40 => open_piece(groups, rest), // `(`
        92 => escaped_piece(alloc, count, groups, rest), // `\`
        _ => {
            if stands_alone(unit) {
                Ok((atom(NodeKind::Unit(unit)), Cursor { rest, groups }))
            } else {
                Err(PatternAnswer::Bad)
            }
        }
    }
}

/// The piece that comes next, in a pattern of so many groups.
pub fn next_piece<'a>(alloc: Global, count: usize, at: Cursor<'a>) -> ReadAt<'a, Piece>
    ensures { ReadsAt (next_piece count at.entry.rest.now at.entry.groups) result }
{
    match at.rest.split_first() {
        None => Ok((Piece::End, at)),
        Some((unit, rest)) => piece_by(alloc, count, at, *unit, rest),
    }
}
