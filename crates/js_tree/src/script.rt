// Whole scripts.
ghost use Rattle.std.specs.Prelude.{◌≡◌, ◌↔◌, IsSome, IfSome};
ghost use Rattle.js_tree.specs.Script.{IsNumberable};

use crate::StatementList;
use crate::count::{LIMIT, count_statements};
use std::marker::Model;

/// A script: its statements, which have fewer than 2^32 nodes and names (ECMA-262 5.1, section 14).
#[derive(Drop)]
pub struct Script {
    body: StatementList,
}

impl Model for Script {
    ghost use Rattle.std.specs.Prelude.{List};
    ghost use Rattle.std.specs.Coded.{coded_list};
    ghost use Rattle.js_tree.specs.Tree.{StatementTree};
    ghost use Rattle.js_tree.specs.Code.{statement_code};
    ghost use Rattle.js_tree.specs.Script.{IsNumberable};

    ghost Value = { List StatementTree };

    ghost coded = { coded_list statement_code };

    ghost view = { λ s. s.body };

    ghost invariant = { λ s. IsNumberable s.body };
}

impl Script {
    /// The script of these statements; None where their nodes and names, with the lists between them, are 2^32 or more.
    pub fn new(body: StatementList) -> Option<Script>
        ensures some { IsSome result ↔ IsNumberable body }
        ensures value { IfSome result (λ s. s ≡ body) }
    {
        if count_statements(body.as_slice(), 0) >= LIMIT {
            return None;
        }
        Some(Script { body })
    }

    /// The statements.
    pub fn body(&self) -> &StatementList
        ensures value { result.now ≡ self.now }
        ensures numberable { IsNumberable self.now }
    {
        &self.body
    }

    /// The statements, which are moved.
    pub fn into_body(self) -> StatementList
        ensures value { result ≡ self }
        ensures numberable { IsNumberable result }
    {
        let Script { body } = self;
        body
    }
}
