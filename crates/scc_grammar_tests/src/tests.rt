//! Trees of small sources, and the places at which others cease to be of the grammar.
mod expressions;
mod items;
mod levels;
mod shown;
mod shown_items;
mod shown_stmts;
mod statements;
mod worked;
mod wrong_items;
mod wrong_statements;

use expressions::{EXPRESSIONS, TYPES};
use items::ITEMS;
use levels::{CHAINS, LEVELS};
use scc_base::{List, MemFiles, Names, Place, Stop};
use scc_grammar::parse;
use scc_tokens::{JoinFault, join};
use scc_tree::{FileTree, ItemNode, Stmt, StmtNode};
use shown::{Shown, expr, ty};
use shown_items::file;
use shown_stmts::stmts;
use statements::STATEMENTS;
use std::alloc::{AllocError, Global};
use std::test::Fail;
use worked::{
    COUNTER, LOGARITHM, LOGARITHM_TREE, PLACED, QUEUE, QUEUE_HEADER, QUEUE_TREE, STAGES,
    STAGES_TREE,
};
use wrong_items::WRONG_ITEMS;
use wrong_statements::WRONG_STATEMENTS;

// The declarations before each row: a class, two templates, an alias and an enumeration. `T` is a type too, `W` and `A` are none.
const BEFORE: &str =
    "struct C {}; template<int W> struct V {}; template<class T> struct P {}; typedef int I; enum E { A };\n";

// What is shown of a source that is read.
enum View {
    // All items, with their places.
    Placed,
    // The items behind the first ones, as many as this.
    Items(usize),
    // The statements of the last function.
    Statements,
    // The value that the last function returns first.
    Value,
    // The type of the first local of the last function.
    Type,
    // How many items there are.
    Count,
}

fn last_body(tree: &FileTree) -> Option<&List<Stmt>> {
    let count = tree.items.len();
    let last = tree.items.get(count.saturating_sub(1))?;
    match &last.node {
        ItemNode::Function(f) => f.body.as_ref(),
        _ => None,
    }
}

// The first statement of the last function.
fn first_statement(tree: &FileTree) -> Option<&Stmt> {
    last_body(tree)?.get(0)
}

fn show(s: &mut Shown, tree: &FileTree, view: &View) {
    match view {
        View::Placed => file(s, tree, 0),
        View::Items(skipped) => file(s, tree, *skipped),
        View::Count => s.size(tree.items.len()),
        View::Statements => match last_body(tree) {
            Some(body) => stmts(s, body),
            None => s.word("no body"),
        },
        View::Value => match first_statement(tree) {
            Some(of) => match of.node.get() {
                StmtNode::Return(Some(e)) => expr(s, e),
                _ => s.word("no value"),
            },
            None => s.word("no statement"),
        },
        View::Type => match first_statement(tree) {
            Some(of) => match of.node.get() {
                StmtNode::Local(l) => ty(s, &l.ty),
                _ => s.word("no type"),
            },
            None => s.word("no statement"),
        },
    }
}

// The line and the column of a place, and the code.
fn show_place(alloc: Global, text: &[u8], place: Place, code: u16) -> Result<String, AllocError> {
    let mut line: u32 = 1;
    let mut column: u32 = 1;
    for b in text.iter().take(place.at as usize) {
        if *b == b'\n' {
            line = line.saturating_add(1);
            column = 1;
        } else {
            column = column.saturating_add(1);
        }
    }
    format!(in alloc; "{line}:{column} E{code}")
}

fn show_stop(alloc: Global, text: &[u8], stop: &Stop) -> Result<String, AllocError> {
    match stop {
        Stop::Refused(r) => show_place(alloc, text, r.place, r.code.number()),
        Stop::NoMemory => String::from_str(alloc, "no memory"),
    }
}

// What a root and the files that it includes are read as; the text is that of the root.
fn read(alloc: Global, files: &mut MemFiles, text: &[u8], view: &View) -> Result<String, Fail> {
    files.add("a.cpp", text)?;
    let mut roots = Vec::new(alloc);
    roots.push(String::from_str(alloc, "a.cpp")?)?;
    let mut names = Names::new(alloc)?;
    let mut sources = List::new(alloc);
    let tokens = match join(alloc, roots.as_slice(), files, &mut names, &mut sources) {
        Ok(tokens) => tokens,
        Err(JoinFault::Stop(stop)) => return Ok(show_stop(alloc, text, &stop)?),
        Err(_) => return Ok(String::from_str(alloc, "missing")?),
    };
    match parse(alloc, &tokens) {
        Ok(tree) => {
            let mut shown = Shown::new(alloc, &names, matches!(view, View::Placed));
            show(&mut shown, &tree, view);
            Ok(shown.finish()?)
        }
        Err(stop) => Ok(show_stop(alloc, text, &stop)?),
    }
}

// A row between what stands before and behind it.
fn read_row(
    alloc: Global,
    before: &str,
    row: &str,
    behind: &str,
    view: &View,
) -> Result<String, Fail> {
    let text = format!(in alloc; "{BEFORE}{before}{row}{behind}")?;
    read(alloc, &mut MemFiles::new(alloc), text.as_bytes(), view)
}

// How many items a source has, or the place at which it is refused.
fn counted(alloc: Global, text: &[u8]) -> Result<String, Fail> {
    read(alloc, &mut MemFiles::new(alloc), text, &View::Count)
}

// Whether a line of a table is a row, and not a remark on the rows behind it.
fn is_row(line: &str) -> bool {
    !line.is_empty() && !line.starts_with("//")
}

// A row: a source, and what is wanted of it behind `=>`.
fn row_of(line: &str) -> (&str, &str) {
    match line.split_once("=>") {
        Some((row, want)) => (row.trim_end(), want.trim_start()),
        None => (line, "no row"),
    }
}

#[test]
fn trees(rt: HostRuntime) -> Result<(), Fail> {
    let tables: &[(&str, &str, &str, View)] = &[
        (EXPRESSIONS, "void f() {\nreturn ", ";\n}", View::Value),
        (TYPES, "void f() {\n", " x;\n}", View::Type),
        (STATEMENTS, "void f() {\n", "\n}", View::Statements),
        (ITEMS, "", "", View::Items(5)),
    ];
    for (table, before, behind, view) in tables {
        for line in table.split('\n') {
            if is_row(line) {
                let (row, want) = row_of(line);
                let got = read_row(rt.alloc(), before, row, behind, view)?;
                assert_eq!(rt; got.as_str(), want, "{row}");
            }
        }
    }
    Ok(())
}

#[test]
fn places_of_faults(rt: HostRuntime) -> Result<(), Fail> {
    let tables = [
        (WRONG_STATEMENTS, "void f() {\n", "\n}"),
        (WRONG_ITEMS, "", ""),
    ];
    for (table, before, behind) in &tables {
        for line in table.split('\n') {
            if is_row(line) {
                let (row, want) = row_of(line);
                let got = read_row(rt.alloc(), before, row, behind, &View::Count)?;
                assert_eq!(rt; got.as_str(), want, "{row}");
            }
        }
    }
    Ok(())
}

#[test]
fn places_of_nodes(rt: HostRuntime) -> Result<(), Fail> {
    let rows: &[(&str, &str)] = &PLACED;
    for (text, want) in rows {
        let got = read(
            rt.alloc(),
            &mut MemFiles::new(rt.alloc()),
            text.as_bytes(),
            &View::Placed,
        )?;
        assert_eq!(rt; got.as_str(), *want, "{text}");
    }
    Ok(())
}

#[test]
fn whole_sources(rt: HostRuntime) -> Result<(), Fail> {
    let rows = [
        (LOGARITHM, LOGARITHM_TREE),
        (STAGES, STAGES_TREE),
        (QUEUE, QUEUE_TREE),
    ];
    for (text, want) in rows {
        let mut files = MemFiles::new(rt.alloc());
        files.add("fifo.h", QUEUE_HEADER.as_bytes())?;
        let got = read(rt.alloc(), &mut files, text.as_bytes(), &View::Items(0))?;
        assert_eq!(rt; got.as_str(), want, "{text}");
    }
    let text = "#include <systemc.h>\ntemplate<int W> struct S { sc_uint<W";
    let got = counted(rt.alloc(), text.as_bytes())?;
    assert_eq!(rt; got.as_str(), "2:37 E201");
    Ok(())
}

// Where the counter's first so many bytes are refused: at their end, but for the first letters of a type's name in angle
// brackets, which are another name there, and for the `+` of a `++`.
fn cut_place(cut: usize) -> usize {
    match cut {
        49..=51 => 48,
        74..=79 => 73,
        164 => 163,
        _ => cut,
    }
}

#[test]
fn every_cut_of_a_source(rt: HostRuntime) -> Result<(), Fail> {
    let text = COUNTER.as_bytes();
    for cut in 0..text.len().saturating_sub(1) {
        let part = text.get(..cut).unwrap_or(text);
        let got = counted(rt.alloc(), part)?;
        let want = match cut {
            0 | 20 | 21 => String::from_str(rt.alloc(), "0")?,
            1..=19 => String::from_str(rt.alloc(), "1:1 E105")?,
            _ => {
                let at = u32::try_from(cut_place(cut)).unwrap_or(0);
                show_place(rt.alloc(), part, Place { file: 0, at }, 201)?
            }
        };
        assert_eq!(rt; got.as_str(), want.as_str(), "{cut}");
    }
    Ok(())
}

// So many copies of a piece.
fn push_copies(text: &mut String, piece: &str, count: u32) -> Result<(), AllocError> {
    for _ in 0..count {
        text.push_str(piece)?;
    }
    Ok(())
}

// A row of nested parts, as one text.
fn push_nested(
    text: &mut String,
    row: &(&str, &str, &str, &str, &str, u32, &str),
) -> Result<(), AllocError> {
    let (before, open, middle, close, behind, count, _) = row;
    text.push_str(before)?;
    push_copies(text, open, *count)?;
    text.push_str(middle)?;
    push_copies(text, close, *count)?;
    text.push_str(behind)
}

#[test]
fn nesting(rt: HostRuntime) -> Result<(), Fail> {
    let rows: &[(&str, &str, &str, &str, &str, u32, &str)] = &LEVELS;
    for row in rows {
        let mut text = String::new(rt.alloc());
        push_nested(&mut text, row)?;
        let got = counted(rt.alloc(), text.as_bytes())?;
        let (before, open, .., count, want) = row;
        assert_eq!(rt; got.as_str(), *want, "{before} {open} {count}");
    }
    Ok(())
}

// A chain of many links, as one text.
fn push_chain(text: &mut String, before: &str, link: &str, behind: &str) -> Result<(), AllocError> {
    text.push_str(before)?;
    push_copies(text, link, 20_000)?;
    text.push_str(behind)
}

#[test]
fn long_chains(rt: HostRuntime) -> Result<(), Fail> {
    let rows: &[(&str, &str, &str, &str)] = &CHAINS;
    for (before, link, behind, want) in rows {
        let mut text = String::new(rt.alloc());
        push_chain(&mut text, before, link, behind)?;
        let got = counted(rt.alloc(), text.as_bytes())?;
        assert_eq!(rt; got.as_str(), *want, "{link}");
    }
    Ok(())
}
