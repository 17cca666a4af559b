//! The operator table as a value of the program.
ghost use Rattle.std.specs.Prelude.{◌≡◌, ◌↔◌, IsTrue, Option, Some};
ghost use Rattle.std.specs.List.{Contains};
ghost use Rattle.scc_bits_kinds.specs.declared.rule.Rule.{Rule};
ghost use Rattle.scc_bits_kinds.specs.Table.{rule_of};
ghost use Rattle.scc_bits_kinds.specs.Rows.{every_row, ascend, place};

use crate::group::Group;
use crate::op::Op;
use crate::rows::ROWS;
use crate::rule::Rule;

/// One row of an operator table.
#[derive(Clone, Copy, PartialEq, Eq)]
pub struct Row {
    pub op: Op,
    pub left: Group,
    pub right: Group,
    pub rule: Rule,
}

/// An operator table. Its rows ascend by operator, left and right group where `find` looks in it.
#[derive(Clone, Copy, PartialEq, Eq)]
pub struct Table<const N: usize> {
    pub rows: [Row; N],
}

/// Where a row stands in a table's order.
#[tactic(auto, using(crate::proofs::Places::op_tag, crate::proofs::Places::group_tag))]
fn place(op: Op, left: Group, right: Group) -> u32
    ensures { result ≡ place op left right }
{
    64 * (op as u32) + (8 * (left as u32) + right as u32)
}

impl Row {
    fn place(&self) -> u32
        ensures { result ≡ place self.now.op self.now.left self.now.right }
    {
        place(self.op, self.left, self.right)
    }
}

impl<const N: usize> Table<N> {
    /// The rule of the row of an operator and two groups, None where the table has no such row.
    pub fn find(&self, op: Op, left: Group, right: Group) -> Option<Rule>
        requires ascending { IsTrue (ascend self.now.rows) }
        ensures { (rule : Rule) → (result ≡ Some rule) ↔ Contains self.now.rows (record { op = op; left = left; right = right; rule = rule }) }
    {
        find_row(&self.rows, op, left, right)
    }
}

fn find_row(rows: &[Row], op: Op, left: Group, right: Group) -> Option<Rule>
    requires ascending { IsTrue (ascend rows.now) }
    ensures { (rule : Rule) → (result ≡ Some rule) ↔ Contains rows.now (record { op = op; left = left; right = right; rule = rule }) }
{
    let place = place(op, left, right);
    match rows.binary_search_by_key(&place, |row| row.place()) {
        Ok(at) => Some(rows[at].rule),
        Err(_) => None,
    }
}

/// The operator table of the source language: a row for each rule, in ascending order, and no other
/// (C++ \[expr\]; IEEE 1666-2011, 7.5, 7.6 and 7.9).
pub fn operators() -> Table<828>
    ensures rows { result.rows ≡ every_row }
    ensures ascending { IsTrue (ascend result.rows) }
{
    let rows = &ROWS;
    Table { rows: *rows }
}

/// What the operator table has at the row of an operator and two groups, by the search of `Table::find`.
pub fn find_rule(op: Op, left: Group, right: Group) -> Option<Rule>
    ensures { result ≡ rule_of op left right }
{
    find_row(&ROWS, op, left, right)
}
