// The body of a pattern.
ghost use Rattle.std.specs.Prelude.{◌≡◌, ◌++◌, ◌∷◌, [], OnOk, IfOk};
ghost use Rattle.js_pattern_reader.specs.Answers.{Gives};
ghost use Rattle.js_pattern_reader.specs.Reading.{
  all_rows,
  body_of,
  group_body,
  group_end,
  inside_of,
  next_turn,
  quantified,
  row_of,
  term,
  tree_of_rows,
  whole_by,
};
ghost use Rattle.js_pattern_reader.specs.Spots.{ReadsAt, spot_of};

use crate::counts::{behind, greedy_at, quantifier};
use crate::groups::groups_in;
use crate::pieces::{Cursor, Piece, ReadAt, next_piece};
use crate::{MOST_NESTED, PatternAnswer};
use js_pattern::{Bounds, Node, NodeKind, NodeList};
use std::alloc::Global;
use utf16_text::{List, Memory, Text};

/// A term, a bar, or the end of what is read here.
#[derive(Drop)]
pub enum Turn {
    End,
    Bar,
    Term(Node),
}

/// A body: its tree, and how many groups it keeps.
#[derive(Drop)]
pub struct Body {
    pub root: Node,
    pub groups: u8,
}

fn boxed(alloc: Global, node: Node) -> Result<Box<Node>, Memory>
    ensures { IfOk result (λ b. b.value ≡ node) }
{
    Ok(Box::new(alloc, node)?)
}

fn add_row(alloc: Global, rows: &mut NodeList, terms: NodeList) -> Result<(), Memory>
    ensures { OnOk result (rows.new ≡ rows.old ++ row_of terms ∷ []) }
{
    let kind = NodeKind::Row(terms);
    rows.push(alloc, Node { kind })
}

// Rows that bars part; one alone is itself.
fn tree_of_rows(rows: NodeList) -> Node
    ensures { result ≡ tree_of_rows rows }
{
    if rows.len() != 1 {
        let kind = NodeKind::Alternatives(rows);
        return Node { kind };
    }
    let mut items = rows.into_vec();
    match items.pop() {
        Some(row) => row,
        None => {
            let kind = NodeKind::Alternatives(List::from_vec(items));
            Node { kind }
        }
    }
}

/// A part that was read, with its quantifier; so many groups had begun before it.
fn quantified<'a>(alloc: Global, part: Node, from_group: u8, at: Cursor<'a>) -> ReadAt<'a, Node>
    ensures { ReadsAt (quantified part from_group (spot_of at.entry)) result }
{
    let groups = at.groups;
    let (counts, rest) = quantifier(at.rest)?;
    match counts {
        None => Ok((part, Cursor { rest, groups })),
        Some(counts) => {
            let (greedy, rest) = greedy_at(rest);
            let bounds = Bounds {
                from_group,
                to_group: groups,
                least: counts.least,
                most: counts.most,
                greedy,
            };
            let kind = NodeKind::Repeat(boxed(alloc, part)?, bounds);
            Ok((Node { kind }, Cursor { rest, groups }))
        }
    }
}

#[derive(Clone, Copy)]
struct Reader {
    alloc: Global,
    /// How many groups the pattern keeps.
    count: usize,
}

impl Reader {
    fn term<'a>(self, part: Node, from_group: u8, at: Cursor<'a>) -> ReadAt<'a, Turn>
        ensures { ReadsAt (term part from_group (spot_of at.entry)) result }
    {
        let (node, after) = quantified(self.alloc, part, from_group, at)?;
        Ok((Turn::Term(node), after))
    }

    /// The `)` behind what stands in a group.
    fn group_end<'a>(self, number: Option<u8>, body: Node, at: Cursor<'a>) -> ReadAt<'a, Node>
        ensures { ReadsAt (group_end number body (spot_of at.entry)) result }
    {
        let groups = at.groups;
        let rest = behind(41, at.rest)?;
        let kind = NodeKind::Group(number, boxed(self.alloc, body)?);
        Ok((Node { kind }, Cursor { rest, groups }))
    }

    #[cycle(rows)]
    fn group<'a>(self, room: u32, number: Option<u8>, at: Cursor<'a>) -> ReadAt<'a, Node>
        ensures { ReadsAt (group_body (inside_of self.count room) number (spot_of at.entry)) result }
    {
        if room == 0 {
            return Err(PatternAnswer::Unsupported);
        }
        match self.rows(room - 1, at) {
            Err(answer) => Err(answer),
            Ok((body, after)) => self.group_end(number, body, after),
        }
    }

    #[cycle(rows)]
    fn turn<'a>(self, room: u32, at: Cursor<'a>) -> ReadAt<'a, Turn>
        ensures { ReadsAt (next_turn self.count (inside_of self.count room) (spot_of at.entry)) result }
    {
        let from_group = at.groups;
        let (piece, after) = next_piece(self.alloc, self.count, at)?;
        match piece {
            Piece::End => Ok((Turn::End, after)),
            Piece::Bar => Ok((Turn::Bar, after)),
            Piece::Assertion(assertion) => {
                let kind = NodeKind::Assertion(assertion);
                Ok((Turn::Term(Node { kind }), after))
            }
            Piece::Atom(node) => self.term(node, from_group, after),
            Piece::Open(number) => {
                let (group, rest) = self.group(room, number, after)?;
                self.term(group, from_group, rest)
            }
        }
    }

    /// Rows of terms up to `)` or the end, where so many more groups may be nested.
    #[cycle(rows)]
    fn rows<'a>(self, room: u32, at: Cursor<'a>) -> ReadAt<'a, Node>
        ensures { ReadsAt (all_rows self.count (inside_of self.count room) (spot_of at.entry)) result }
    {
        let alloc = self.alloc;
        let mut rows: NodeList = List::new(alloc);
        let mut terms: NodeList = List::new(alloc);
        let mut here = at;
        let mut turns = at.rest.len() + 1;
        while turns > 0 {
            turns -= 1;
            match self.turn(room, here) {
                Err(answer) => return Err(answer),
                Ok((turn, after)) => match turn {
                    Turn::End => {
                        add_row(alloc, &mut rows, terms)?;
                        return Ok((tree_of_rows(rows), after));
                    }
                    Turn::Bar => {
                        add_row(alloc, &mut rows, terms)?;
                        terms = List::new(alloc);
                        here = after;
                    }
                    Turn::Term(node) => {
                        terms.push(alloc, node)?;
                        here = after;
                    }
                },
            }
        }
        Err(PatternAnswer::Bad)
    }
}

fn whole(root: Node, groups: u8, rest: &[u16]) -> Result<Body, PatternAnswer>
    ensures { Gives (λ b. (b.root, b.groups)) result (whole_by root groups rest.now) }
{
    match rest.split_first() {
        Some(_) => Err(PatternAnswer::Bad),
        None => Ok(Body { root, groups }),
    }
}

/// The body of a pattern, or its first refusal.
pub fn read_body(alloc: Global, body: &Text) -> Result<Body, PatternAnswer>
    ensures { Gives (λ b. (b.root, b.groups)) result (body_of body.now) }
{
    let rest = body.units();
    let reader = Reader {
        alloc,
        count: groups_in(rest),
    };
    match reader.rows(MOST_NESTED, Cursor { rest, groups: 0 }) {
        Err(answer) => Err(answer),
        Ok((root, after)) => whole(root, after.groups, after.rest),
    }
}
