//! Prints statements.
ghost use Rattle.std.specs.Prelude.{◌≡◌, ◌<◌, ◌+◌, ◌++◌, length, IfOk, OnOk};
ghost use Rattle.scc_svtext.specs.Fixed.{fixed_text};
ghost use Rattle.scc_svtext.specs.Pieces.{blanks};
ghost use Rattle.scc_svtext.specs.StmtText.{arm_text, stmt_text, stmts_text};
ghost use Rattle.scc_svtext.specs.Tasks.{rest_text};
ghost use Rattle.scc_svtext.specs.declared.fixed.Fixed.TheVariants as piece_text;

use crate::digits::{blank, fixed, literal};
use crate::expr::{expr, left};
use crate::fixed::Fixed;
use crate::split::split;
use crate::task::{Rest, Task};
use scc_base::{NoMemory, Text};
use scc_svtree::{SvArm, SvStmt};
use std::alloc::Global;

// Two blanks more. So deep a text would not fit into any memory.
fn deeper(indent: u32) -> Result<u32, NoMemory>
    ensures { IfOk result (λ n. n ≡ indent + 2) }
{
    indent.checked_add(2).ok_or(NoMemory)
}

// Appends a fixed piece behind so many blanks.
fn line(out: &mut Text, indent: u32, piece: Fixed) -> Result<(), NoMemory>
    ensures { OnOk result (out.new ≡ out.old ++ (blanks indent ++ fixed_text piece)) }
{
    blank(out, indent)?;
    fixed(out, piece)
}

// Appends the first line of an arm, and gives its body. Only the clause needs the names.
fn begin_arm<'a>(
    out: &mut Text,
    names: &[Text],
    a: &'a SvArm,
    indent: u32,
) -> Result<&'a [SvStmt], NoMemory>
    ensures text { IfOk result (λ body. out.new ++ (stmts_text names.now body.now (indent + 2) ++ blanks indent ++ fixed_text piece_text.End) ≡ out.old ++ arm_text names.now a.now indent) }
    ensures grows { OnOk result (length out.old < length out.new) }
{
    blank(out, indent)?;
    literal(out, a.label.width, a.label.value)?;
    fixed(out, Fixed::ArmOpen)?;
    Ok(a.body.as_slice())
}

// Appends the first line of a statement, and gives what follows it.
fn begin<'a>(
    alloc: Global,
    out: &mut Text,
    names: &[Text],
    s: &'a SvStmt,
    indent: u32,
) -> Result<Rest<'a>, NoMemory>
    ensures text { IfOk result (λ r. out.new ++ rest_text names.now indent r ≡ out.old ++ stmt_text names.now s.now indent) }
    ensures grows { OnOk result (length out.old < length out.new) }
{
    blank(out, indent)?;
    match s {
        SvStmt::Assign { left: l, value } => {
            left(out, names, *l)?;
            fixed(out, Fixed::Assign)?;
            expr(alloc, out, names, value)?;
            fixed(out, Fixed::LineEnd)?;
            Ok(Rest::Nothing)
        }
        SvStmt::If { test, yes, no } => {
            fixed(out, Fixed::If)?;
            expr(alloc, out, names, test)?;
            fixed(out, Fixed::Then)?;
            Ok(Rest::If {
                yes: yes.as_slice(),
                no: no.as_slice(),
            })
        }
        SvStmt::Case { of, arms } => {
            fixed(out, Fixed::Case)?;
            expr(alloc, out, names, of)?;
            fixed(out, Fixed::CaseOpen)?;
            Ok(Rest::Case(arms.as_slice()))
        }
    }
}

/// Appends statements, each behind so many blanks. A stack of tasks stands in place of a recursion.
pub fn stmts(
    alloc: Global,
    out: &mut Text,
    names: &[Text],
    list: &[SvStmt],
    indent: u32,
) -> Result<(), NoMemory>
    ensures { OnOk result (out.new ≡ out.old ++ stmts_text names.now list.now indent) }
{
    let mut tasks = Vec::new(alloc);
    tasks.push(Task::Stmts { list, indent })?;
    while let Some(task) = tasks.pop() {
        match task {
            Task::Line { piece, indent } => line(out, indent, piece)?,
            Task::Stmts { list, indent } => {
                if let Some((s, more)) = split(list) {
                    tasks.push(Task::Stmts { list: more, indent })?;
                    match begin(alloc, out, names, s, indent)? {
                        Rest::Nothing => {}
                        Rest::If { yes, no } => {
                            tasks.extend_from_slice(&[
                                Task::Line {
                                    piece: Fixed::End,
                                    indent,
                                },
                                Task::Otherwise { list: no, indent },
                                Task::Stmts {
                                    list: yes,
                                    indent: deeper(indent)?,
                                },
                            ])?;
                        }
                        Rest::Case(arms) => {
                            tasks.extend_from_slice(&[
                                Task::Line {
                                    piece: Fixed::CaseEnd,
                                    indent,
                                },
                                Task::Arms {
                                    list: arms,
                                    indent: deeper(indent)?,
                                },
                            ])?;
                        }
                    }
                }
            }
            Task::Otherwise { list, indent } => {
                if let Some(_) = split(list) {
                    line(out, indent, Fixed::Else)?;
                    tasks.push(Task::Stmts {
                        list,
                        indent: deeper(indent)?,
                    })?;
                }
            }
            Task::Arms { list, indent } => {
                if let Some((arm, more)) = split(list) {
                    let body = begin_arm(out, names, arm, indent)?;
                    tasks.extend_from_slice(&[
                        Task::Arms { list: more, indent },
                        Task::Line {
                            piece: Fixed::End,
                            indent,
                        },
                        Task::Stmts {
                            list: body,
                            indent: deeper(indent)?,
                        },
                    ])?;
                }
            }
        }
    }
    Ok(())
}
