//! Tokens and joined files, row by row.
use scc_base::{List, MemFiles, Names, Stop};
use scc_bits::{Kind, Word};
use scc_tokens::{JoinFault, Joined, MARKS, Token, TokenKind, WORDS, join};
use std::alloc::{AllocError, Global};
use std::test::Fail;

// A number, with its kind.
fn number(alloc: Global, kind: Kind, word: Word) -> Result<String, AllocError> {
    let value = word.bits;
    match kind {
        Kind::Native { bits, signed: true } => format!(in alloc; "{value}:s{bits}"),
        Kind::Native { bits, .. } => format!(in alloc; "{value}:u{bits}"),
        _ => format!(in alloc; "{value}:?"),
    }
}

fn listed(list: &[&'static str], i: u8) -> &'static str {
    match list.get(i as usize) {
        Some(text) => *text,
        None => "?",
    }
}

fn spelling(alloc: Global, names: &Names, kind: TokenKind) -> Result<String, AllocError> {
    match kind {
        TokenKind::Word(i) => String::from_str(alloc, listed(&WORDS, i)),
        TokenKind::Mark(i) => String::from_str(alloc, listed(&MARKS, i)),
        TokenKind::Ident(n) if names.has(n) => String::from_str(alloc, names.text(n)),
        TokenKind::Number(kind, word) => number(alloc, kind, word),
        TokenKind::Text => String::from_str(alloc, "TEXT"),
        _ => String::from_str(alloc, "?"),
    }
}

fn show_token(alloc: Global, names: &Names, t: Token) -> Result<String, AllocError> {
    let text = spelling(alloc, names, t.kind)?;
    let (file, at) = (t.place.file, t.place.at);
    format!(in alloc; "{text}@{file}.{at} ")
}

fn show_tokens(alloc: Global, names: &Names, joined: &Joined) -> Result<String, AllocError> {
    let mut shown = String::new(alloc);
    for t in joined.tokens.as_slice() {
        shown.push_str(show_token(alloc, names, *t)?.as_str())?;
    }
    let (file, at) = (joined.end.file, joined.end.at);
    shown.push_str(format!(in alloc; "end@{file}.{at}")?.as_str())?;
    Ok(shown)
}

fn show_fault(alloc: Global, fault: &JoinFault) -> Result<String, AllocError> {
    match fault {
        JoinFault::Stop(Stop::Refused(r)) => {
            let (code, file, at) = (r.code.number(), r.place.file, r.place.at);
            format!(in alloc; "E{code}@{file}.{at}")
        }
        JoinFault::Stop(Stop::NoMemory) => String::from_str(alloc, "no memory"),
        JoinFault::Missing(name) => {
            let mut shown = String::from_str(alloc, "missing ")?;
            for b in name.bytes() {
                shown.push(char::from(*b))?;
            }
            Ok(shown)
        }
        JoinFault::Failed(_) => String::from_str(alloc, "failed"),
    }
}

// What joining one root gives, whose file and others are held.
fn joined(alloc: Global, files: &mut MemFiles, root: &str) -> Result<String, Fail> {
    let mut roots = Vec::new(alloc);
    roots.push(String::from_str(alloc, root)?)?;
    let mut names = Names::new(alloc)?;
    let mut sources = List::new(alloc);
    match join(alloc, roots.as_slice(), files, &mut names, &mut sources) {
        Ok(joined) => Ok(show_tokens(alloc, &names, &joined)?),
        Err(fault) => Ok(show_fault(alloc, &fault)?),
    }
}

fn joined_text(alloc: Global, text: &str) -> Result<String, Fail> {
    let mut files = MemFiles::new(alloc);
    files.add("a.cpp", text.as_bytes())?;
    joined(alloc, &mut files, "a.cpp")
}

#[test]
fn rows(rt: HostRuntime) -> Result<(), Fail> {
    let rows: &[(&str, &str)] = &ROWS;
    for (text, want) in rows {
        let got = joined_text(rt.alloc(), text)?;
        assert_eq!(rt; got.as_str(), *want, "{text}");
    }
    Ok(())
}

#[test]
fn files(rt: HostRuntime) -> Result<(), Fail> {
    let rows: &[(&str, &str, &str, &str, &str, &str)] = &FILES;
    for (text, first, first_text, second, second_text, want) in rows {
        let mut files = MemFiles::new(rt.alloc());
        files.add("a.cpp", text.as_bytes())?;
        files.add(first, first_text.as_bytes())?;
        files.add(second, second_text.as_bytes())?;
        let got = joined(rt.alloc(), &mut files, "a.cpp")?;
        assert_eq!(rt; got.as_str(), *want, "{text}");
    }
    Ok(())
}

// How many tokens joining one root gives, or its fault.
fn counted(alloc: Global, files: &mut MemFiles, root: &str) -> Result<String, Fail> {
    let mut roots = Vec::new(alloc);
    roots.push(String::from_str(alloc, root)?)?;
    let mut names = Names::new(alloc)?;
    let mut sources = List::new(alloc);
    match join(alloc, roots.as_slice(), files, &mut names, &mut sources) {
        Ok(joined) => {
            let n = joined.tokens.len();
            Ok(format!(in alloc; "{n}")?)
        }
        Err(fault) => Ok(show_fault(alloc, &fault)?),
    }
}

// What joining one file gives that is this text and so many times that piece.
fn repeated(alloc: Global, head: &str, piece: &str, n: u32) -> Result<String, Fail> {
    let mut text = String::from_str(alloc, head)?;
    for _ in 0..n {
        text.push_str(piece)?;
    }
    let mut files = MemFiles::new(alloc);
    files.add("a.cpp", text.as_bytes())?;
    files.add("b.h", b"")?;
    counted(alloc, &mut files, "a.cpp")
}

#[test]
fn limits(rt: HostRuntime) -> Result<(), Fail> {
    let rows: &[(&str, &str, u32, &str)] = &LIMITS;
    for (head, piece, n, want) in rows {
        let got = repeated(rt.alloc(), head, piece, *n)?;
        assert_eq!(rt; got.as_str(), *want, "{piece}");
    }
    Ok(())
}

#[test]
fn long_limits(rt: HostRuntime) -> Result<(), Fail> {
    let rows: &[(&str, &str, u32, &str)] = &LONG_LIMITS;
    for (head, piece, n, want) in rows {
        let got = repeated(rt.alloc(), head, piece, *n)?;
        assert_eq!(rt; got.as_str(), *want, "{piece}");
    }
    Ok(())
}

// A chain of so many files, each of which includes the next.
fn chain(alloc: Global, count: u32) -> Result<String, Fail> {
    let mut files = MemFiles::new(alloc);
    for i in 1..count {
        let next = u64::from(i) + 1;
        let name = format!(in alloc; "l{i}")?;
        let text = format!(in alloc; "#include \"l{next}\"")?;
        files.add(name.as_str(), text.as_bytes())?;
    }
    let last = format!(in alloc; "l{count}")?;
    files.add(last.as_str(), b"x")?;
    counted(alloc, &mut files, "l1")
}

// A file that includes so many others.
fn fan(alloc: Global, count: u32) -> Result<String, Fail> {
    let mut files = MemFiles::new(alloc);
    let mut text = String::new(alloc);
    for i in 0..count {
        let name = format!(in alloc; "h{i}")?;
        files.add(name.as_str(), b"x")?;
        text.push_str(format!(in alloc; "#include \"{name}\"\n")?.as_str())?;
    }
    files.add("a.cpp", text.as_bytes())?;
    counted(alloc, &mut files, "a.cpp")
}

#[test]
fn many_files(rt: HostRuntime) -> Result<(), Fail> {
    assert_eq!(rt; chain(rt.alloc(), 16)?.as_str(), "1");
    assert_eq!(rt; chain(rt.alloc(), 17)?.as_str(), "E106@15.0");
    assert_eq!(rt; fan(rt.alloc(), 63)?.as_str(), "63");
    assert_eq!(rt; fan(rt.alloc(), 64)?.as_str(), "E109@0.935");
    Ok(())
}

// A head, a piece with how often it stands behind it, and how many tokens it joins to, or its refusal; counted by hand from the limits.
const LIMITS: [(&str, &str, u32, &str); 4] = [
    ("", "a", 255, "1"),
    ("", "a", 256, "E103@0.0"),
    ("", "#include \"b.h\"\n", 4_096, "0"),
    ("", "#include \"b.h\"\n", 4_097, "E109@0.61440"),
];

const LONG_LIMITS: [(&str, &str, u32, &str); 6] = [
    ("", "a ", 262_144, "262144"),
    ("", "a ", 262_145, "E110@0.524288"),
    ("", " ", 1_048_576, "0"),
    ("", " ", 1_048_577, "E108@0.0"),
    ("#define A\n", "A ", 262_144, "0"),
    ("#define A\n", "A ", 262_145, "E110@0.524298"),
];

// The text of a file, and its joined tokens with file and byte of each and where the file ends, or its refusal with its place. Each was worked
// out by hand from the rules of tokens, directives and macros.
const ROWS: [(&str, &str); 170] = [
    ("", "end@0.0"),
    ("a", "a@0.0 end@0.1"),
    ("a b\tc\r\nd", "a@0.0 b@0.2 c@0.4 d@0.7 end@0.8"),
    ("ab_1 _x", "ab_1@0.0 _x@0.5 end@0.7"),
    ("x=1;", "x@0.0 =@0.1 1:s32@0.2 ;@0.3 end@0.4"),
    ("a<b", "a@0.0 <@0.1 b@0.2 end@0.3"),
    ("a<<b", "a@0.0 <<@0.1 b@0.3 end@0.4"),
    ("a<<=b", "a@0.0 <<=@0.1 b@0.4 end@0.5"),
    (">>=", ">>=@0.0 end@0.3"),
    (">> =", ">>@0.0 =@0.3 end@0.4"),
    ("a->b", "a@0.0 ->@0.1 b@0.3 end@0.4"),
    ("a- >b", "a@0.0 -@0.1 >@0.3 b@0.4 end@0.5"),
    ("::x", "::@0.0 x@0.2 end@0.3"),
    (": :", ":@0.0 :@0.2 end@0.3"),
    ("++ --", "++@0.0 --@0.3 end@0.5"),
    ("+++", "++@0.0 +@0.2 end@0.3"),
    ("!a!=b", "!@0.0 a@0.1 !=@0.2 b@0.4 end@0.5"),
    ("a&&b&c", "a@0.0 &&@0.1 b@0.3 &@0.4 c@0.5 end@0.6"),
    ("{}()[]", "{@0.0 }@0.1 (@0.2 )@0.3 [@0.4 ]@0.5 end@0.6"),
    (
        "?.,~%^|",
        "?@0.0 .@0.1 ,@0.2 ~@0.3 %@0.4 ^@0.5 |@0.6 end@0.7",
    ),
    ("..", ".@0.0 .@0.1 end@0.2"),
    ("0", "0:s32@0.0 end@0.1"),
    ("00", "0:s32@0.0 end@0.2"),
    ("017", "15:s32@0.0 end@0.3"),
    ("08", "E103@0.0"),
    ("0x1f", "31:s32@0.0 end@0.4"),
    ("0XFF", "255:s32@0.0 end@0.4"),
    ("0x", "E103@0.0"),
    ("0xg", "E103@0.0"),
    ("0b101", "5:s32@0.0 end@0.5"),
    ("0B2", "E103@0.0"),
    ("0b", "E103@0.0"),
    ("2147483647", "2147483647:s32@0.0 end@0.10"),
    ("2147483648", "2147483648:s64@0.0 end@0.10"),
    ("4294967296", "4294967296:s64@0.0 end@0.10"),
    (
        "9223372036854775807",
        "9223372036854775807:s64@0.0 end@0.19",
    ),
    ("9223372036854775808", "E103@0.0"),
    ("0x7fffffff", "2147483647:s32@0.0 end@0.10"),
    ("0x80000000", "2147483648:u32@0.0 end@0.10"),
    ("0xffffffff", "4294967295:u32@0.0 end@0.10"),
    ("0x100000000", "4294967296:s64@0.0 end@0.11"),
    ("0x7fffffffffffffff", "9223372036854775807:s64@0.0 end@0.18"),
    ("0x8000000000000000", "9223372036854775808:u64@0.0 end@0.18"),
    ("18446744073709551615", "E103@0.0"),
    ("18446744073709551616", "E103@0.0"),
    (
        "18446744073709551615u",
        "18446744073709551615:u64@0.0 end@0.21",
    ),
    ("037777777777", "4294967295:u32@0.0 end@0.12"),
    ("1u", "1:u32@0.0 end@0.2"),
    ("1U", "1:u32@0.0 end@0.2"),
    ("1l", "1:s64@0.0 end@0.2"),
    ("1ul", "1:u64@0.0 end@0.3"),
    ("1lu", "1:u64@0.0 end@0.3"),
    ("1LL", "1:s64@0.0 end@0.3"),
    ("1ull", "1:u64@0.0 end@0.4"),
    ("1llU", "1:u64@0.0 end@0.4"),
    ("1lL", "E103@0.0"),
    ("1uu", "E103@0.0"),
    ("1lul", "E103@0.0"),
    ("1.5", "E103@0.0"),
    ("1e5", "E103@0.0"),
    ("1_0", "1:s32@0.0 _0@0.1 end@0.3"),
    (
        "9223372036854775808u",
        "9223372036854775808:u64@0.0 end@0.20",
    ),
    ("// c", "end@0.4"),
    ("// c\na", "a@0.5 end@0.6"),
    ("a/b", "a@0.0 /@0.1 b@0.2 end@0.3"),
    ("a//b\nc", "a@0.0 c@0.5 end@0.6"),
    ("a /* b */ c", "a@0.0 c@0.10 end@0.11"),
    ("/* b\n c */ a", "a@0.11 end@0.12"),
    ("/**/a", "a@0.4 end@0.5"),
    ("/* /* */ a", "a@0.9 end@0.10"),
    ("/*/ a", "E102@0.0"),
    ("/* a", "E102@0.0"),
    ("a */", "a@0.0 *@0.2 /@0.3 end@0.4"),
    ("/***/a", "a@0.5 end@0.6"),
    ("\"abc\"", "TEXT@0.0 end@0.5"),
    ("\"a\\\"b\"", "TEXT@0.0 end@0.6"),
    ("\"a", "E103@0.0"),
    ("\"a\nb\"", "E103@0.0"),
    ("\"a\\\nb\"", "E103@0.0"),
    ("\"a\tb\"", "E101@0.2"),
    ("\"é\"", "E101@0.1"),
    ("'a'", "E103@0.0"),
    ("'a", "E103@0.0"),
    ("'\\''", "E103@0.0"),
    ("'é'", "E103@0.0"),
    ("\"\"", "TEXT@0.0 end@0.2"),
    ("@", "E101@0.0"),
    ("a $", "E101@0.2"),
    ("`", "E101@0.0"),
    ("\\", "E101@0.0"),
    ("\0", "E101@0.0"),
    ("a\u{7f}", "E101@0.1"),
    ("é", "E101@0.0"),
    ("#", "E105@0.0"),
    ("a #", "E101@0.2"),
    ("# a # b", "E101@0.4"),
    ("int sc_core x", "int@0.0 sc_core@0.4 x@0.12 end@0.13"),
    ("bool else if", "bool@0.0 else@0.5 if@0.10 end@0.12"),
    ("double", "E104@0.0"),
    ("and x", "E104@0.0"),
    (
        "sc_bigint<8>",
        "sc_bigint@0.0 <@0.9 8:s32@0.10 >@0.11 end@0.12",
    ),
    (
        "async_reset_signal_is",
        "async_reset_signal_is@0.0 end@0.21",
    ),
    ("sc_lv", "E104@0.0"),
    ("sc_core::x", "x@0.9 end@0.10"),
    ("sc_core :: x", "x@0.11 end@0.12"),
    ("sc_dt::sc_core::x", "x@0.16 end@0.17"),
    ("sc_core x", "sc_core@0.0 x@0.8 end@0.9"),
    ("sc_core sc_core::x", "sc_core@0.0 x@0.17 end@0.18"),
    ("std::x", "std@0.0 ::@0.3 x@0.5 end@0.6"),
    ("sc_core", "sc_core@0.0 end@0.7"),
    ("#define A b\nA", "b@0.12 end@0.13"),
    ("#define A A B\n#define B A\nA", "A@0.26 A@0.26 end@0.27"),
    ("#define A\nA b", "b@0.12 end@0.13"),
    (
        "#define A 1 + 2\nA A",
        "1:s32@0.16 +@0.16 2:s32@0.16 1:s32@0.18 +@0.18 2:s32@0.18 end@0.19",
    ),
    ("#define A(x) b", "E105@0.0"),
    ("#define A (x)\nA", "(@0.14 x@0.14 )@0.14 end@0.15"),
    ("#define int x", "E105@0.0"),
    ("#define", "E105@0.0"),
    ("#define A 08\n", "E103@0.10"),
    ("#define A double\n", "E104@0.10"),
    ("#define double int\n", "E104@0.8"),
    ("#define A 'c'\n", "E103@0.10"),
    ("#define A b\n#define A c\nA", "c@0.24 end@0.25"),
    ("#define A b\n#undef A\nA", "A@0.21 end@0.22"),
    ("#undef A B", "E105@0.0"),
    ("#undef", "E105@0.0"),
    ("#define S sc_core\nS::x", "x@0.21 end@0.22"),
    ("#define C ::\nsc_core C x", "x@0.23 end@0.24"),
    (
        "#define A B\n#define B C\n#define C A\nA B C",
        "A@0.36 B@0.38 C@0.40 end@0.41",
    ),
    ("#ifdef A\nx\n#else\ny\n#endif", "y@0.17 end@0.25"),
    (
        "#define A\n#ifdef A\nx\n#else\ny\n#endif\nz",
        "x@0.19 z@0.36 end@0.37",
    ),
    ("#ifndef A\nx\n#endif", "x@0.10 end@0.18"),
    ("#ifdef SCC_SYNTHESIS\nx\n#endif", "x@0.21 end@0.29"),
    ("#ifdef A\n08 double @@\n#endif", "E101@0.19"),
    ("#ifdef A\n08 double 'c'\n#endif\nx", "x@0.30 end@0.31"),
    (
        "#ifdef A\n#ifdef B\nx\n#else\ny\n#endif\n#else\nz\n#endif",
        "z@0.41 end@0.49",
    ),
    ("#ifdef A\n#define A x\n#endif\nA", "A@0.28 end@0.29"),
    ("#endif", "E105@0.0"),
    ("#else", "E105@0.0"),
    ("#ifdef A\n#else\n#else\n#endif", "E105@0.15"),
    (
        "#ifdef A\n#ifdef B\n#else\n#else\n#endif\n#endif",
        "E105@0.24",
    ),
    ("#ifdef A\nx", "E107@0.0"),
    ("#ifndef A\nx\n#ifdef B\n#endif", "E107@0.0"),
    ("#ifdef A B\n#endif", "E105@0.0"),
    ("#ifdef\n#endif", "E105@0.0"),
    ("#ifdef 1\n#endif", "E105@0.0"),
    ("#ifdef double\n#endif", "E104@0.7"),
    ("#ifdef A\n#endif x", "end@0.17"),
    ("#ifdef A\n#else x\n#endif\ny", "y@0.24 end@0.25"),
    ("#ifndef A\n#else x\n#endif\ny", "E105@0.10"),
    ("#if 1\n#endif", "E105@0.0"),
    ("#elif", "E105@0.0"),
    ("#ifdef A\n#if 0\n#endif\nx\n#endif", "E105@0.24"),
    ("#include <systemc>\na", "a@0.19 end@0.20"),
    ("#include <systemc.h>\na", "a@0.21 end@0.22"),
    ("#include \"systemc.h\"\na", "a@0.21 end@0.22"),
    ("#include \"systemc\"\na", "a@0.19 end@0.20"),
    ("#include <vector>", "E105@0.0"),
    ("#include systemc", "E105@0.0"),
    ("#include \"none.h\"", "missing none.h"),
    ("#include", "E105@0.0"),
    ("#pragma once\na", "a@0.13 end@0.14"),
    ("#pragma twice", "E105@0.0"),
    ("#pragma", "E105@0.0"),
    ("#error x", "E105@0.0"),
    (" /* c */ # /* d */ define A b\nA", "b@0.30 end@0.31"),
    ("#define A /* x\n y */ b\nA", "b@0.23 end@0.24"),
    ("#define A b // c\nA", "b@0.17 end@0.18"),
    ("#define A b\r\nA\r\n", "b@0.13 end@0.16"),
    ("a\n  #define b c\nb", "a@0.0 c@0.16 end@0.17"),
];

// The text of the root, the names and texts of two files beside it, and what it joins to; worked out by hand likewise.
const FILES: [(&str, &str, &str, &str, &str, &str); 9] = [
    (
        "#include \"b.h\"\nx",
        "b.h",
        "y",
        "",
        "",
        "y@1.0 x@0.15 end@0.16",
    ),
    (
        "#include \"b.h\"\n#include \"b.h\"\nx",
        "b.h",
        "#ifndef B\n#define B\ny\n#endif\n",
        "",
        "",
        "y@1.20 x@0.30 end@0.31",
    ),
    (
        "#include \"b.h\"\n#include \"b.h\"\nx",
        "b.h",
        "#pragma once\ny",
        "",
        "",
        "y@1.13 x@0.30 end@0.31",
    ),
    (
        "#include \"d/c.h\"\nx",
        "d/c.h",
        "#include \"e.h\"\ny",
        "d/e.h",
        "z",
        "z@2.0 y@1.15 x@0.17 end@0.18",
    ),
    ("#include \"b.h\"\nx", "b.h", "y @", "", "", "E101@1.2"),
    (
        "#include \"b.h\"\nx",
        "b.h",
        "#include \"b.h\"\n",
        "",
        "",
        "E106@1.0",
    ),
    (
        "#ifdef A\n#include \"b.h\"\n#endif\nx",
        "",
        "",
        "",
        "",
        "x@0.31 end@0.32",
    ),
    (
        "sc_core\n#include \"b.h\"\n",
        "b.h",
        ":: y",
        "",
        "",
        "y@1.3 end@0.23",
    ),
    (
        "#include \"b.h\"\n#endif",
        "b.h",
        "#ifdef A\n",
        "",
        "",
        "E107@1.0",
    ),
];
