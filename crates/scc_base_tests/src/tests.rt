//! Each call but `lost`, with ample memory.
use scc_base::{
    Boxed, CalmFiles, CalmSink, Code, FileFault, Files, List, MemFiles, MemSink, Name, Names,
    NoMemory, Path, PathPart, Place, Refusal, Sink, SinkFault, Status, Stop, Tally, Text, push,
    put_all,
};
use std::test::Fail;

/// A list of three, by its calls that read.
#[test]
fn lists_hold_their_elements(rt: HostRuntime) -> Result<(), Fail> {
    let alloc = rt.alloc();
    let mut list = List::new(alloc);
    assert!(rt; list.is_empty());
    for x in [3u32, 1, 2] {
        list.push(x)?;
    }
    assert!(rt; !list.is_empty());
    assert_eq!(rt; list.len(), 3);
    assert_eq!(rt; list.get(1).copied(), Some(1));
    assert_eq!(rt; list.get(3).copied(), None);
    assert_eq!(rt; list.as_slice(), [3u32, 1, 2].as_slice());
    assert_eq!(rt; list.into_vec().as_slice(), [3u32, 1, 2].as_slice());
    Ok(())
}

/// Lists that are joined and shortened, and vectors that grow.
#[test]
fn lists_grow_and_shrink(rt: HostRuntime) -> Result<(), Fail> {
    let alloc = rt.alloc();
    let mut items = Vec::new(alloc);
    push(&mut items, 3u32)?;
    push(&mut items, 1)?;
    assert_eq!(rt; items.as_slice(), [3u32, 1].as_slice());

    let mut list = List::from_vec(items);
    let mut others = List::new(alloc);
    others.push(2u32)?;
    others.push(5)?;
    list.append(others)?;
    list.append(List::new(alloc))?;
    assert_eq!(rt; list.as_slice(), [3u32, 1, 2, 5].as_slice());

    list.truncate(5);
    assert_eq!(rt; list.len(), 4);
    assert_eq!(rt; list.pop(), Some(5));
    list.truncate(1);
    assert_eq!(rt; list.as_slice(), [3u32].as_slice());
    assert_eq!(rt; list.pop(), Some(3));
    assert_eq!(rt; list.pop(), None);
    assert!(rt; list.is_empty());
    Ok(())
}

#[test]
fn texts_boxes_and_statuses(rt: HostRuntime) -> Result<(), Fail> {
    let alloc = rt.alloc();
    let mut text = Text::new(alloc);
    text.push_bytes(b"sc_")?;
    text.push_bytes(b"in")?;
    assert_eq!(rt; text.bytes(), b"sc_in".as_slice());
    let mut text = Text::from_bytes(alloc, b"sc_")?;
    assert_eq!(rt; text.bytes(), b"sc_".as_slice());
    text.push_bytes(b"out")?;
    assert_eq!(rt; text.bytes(), b"sc_out".as_slice());

    let boxed = Boxed::new(alloc, 7u32)?;
    assert_eq!(rt; *boxed.get(), 7);
    assert_eq!(rt; boxed.into_inner(), 7);

    assert_eq!(rt; Status::new(5).number(), 5);
    Ok(())
}

#[test]
fn names_have_numbers(rt: HostRuntime) -> Result<(), Fail> {
    let mut names = Names::new(rt.alloc())?;
    let clock = names.intern("clk")?;
    for (number, text) in [(0, "read"), (7, "or_reduce"), (13, "switch"), (14, "clk")] {
        let name = Name(number);
        assert!(rt; names.has(name));
        assert_eq!(rt; names.text(name), text);
    }
    assert_eq!(rt; clock.0, 14);
    assert!(rt; !names.has(Name(15)));
    Ok(())
}

/// A path of more parts than it holds without memory of its own.
#[test]
fn paths_have_their_parts(rt: HostRuntime) -> Result<(), Fail> {
    let alloc = rt.alloc();
    let parts = [
        PathPart::Member(Name(14)),
        PathPart::Index(0),
        PathPart::Index(3),
        PathPart::Member(Name(15)),
        PathPart::Index(1),
    ];
    let mut path = Path::new(alloc);
    assert_eq!(rt; path.len(), 0);
    for part in parts {
        path.push(part)?;
    }
    assert_eq!(rt; path.len(), 5);
    assert_eq!(rt; path.as_slice(), parts.as_slice());
    let mut path = Path::of(alloc, &parts[..2])?;
    assert_eq!(rt; path.as_slice(), &parts[..2]);
    path.push(PathPart::Index(3))?;
    assert_eq!(rt; path.as_slice(), &parts[..3]);
    Ok(())
}

/// A count up to its limit, past it by one and by much, and on from there.
#[test]
fn tallies_stop_past_their_limits(rt: HostRuntime) {
    for (limit, first, second, count, over) in [
        (3, 0, 0, 0, false),
        (3, 1, 2, 3, false),
        (3, 3, 1, 4, true),
        (3, 9, 9, 4, true),
        (3, 1, u64::MAX, 4, true),
        (0, 0, 0, 0, false),
        (0, 1, 0, 1, true),
        (u32::MAX, 0xffff_ffff, 0, 0xffff_ffff, false),
        (u32::MAX, u64::MAX, u64::MAX, 0x1_0000_0000, true),
    ] {
        let tally = Tally::new(limit).plus(first).plus(second);
        assert_eq!(rt; tally.count(), count, "{first} and {second} of {limit}");
        assert_eq!(rt; tally.is_over(), over, "{first} and {second} of {limit}");
    }
}

#[test]
fn refusals_have_places(rt: HostRuntime) {
    let place = Place { file: 1, at: 20 };
    let other = Place { file: 0, at: 7 };
    let mut refusal = Refusal {
        code: Code::DuplicateName,
        place,
        other: None,
    };
    let stop = Stop::refused(Code::DuplicateName, place);
    assert!(rt; matches!(&stop, Stop::Refused(r) if *r == refusal));
    refusal.other = Some(other);
    let stop = Stop::refused_beside(Code::DuplicateName, place, other);
    assert!(rt; matches!(&stop, Stop::Refused(r) if *r == refusal));
    let stop = Stop::from(NoMemory);
    assert!(rt; matches!(&stop, Stop::NoMemory));
}

#[test]
fn codes_have_numbers_and_texts(rt: HostRuntime) {
    for (code, number, text) in [
        (Code::BadByte, 101, "bad byte"),
        (Code::FileTooLong, 108, "file too long"),
        (Code::TooDeep, 202, "too deep"),
        (Code::UnknownName, 301, "unknown name"),
        (Code::WideLoss, 310, "wide loss"),
        (Code::ClockAsData, 408, "clock as data"),
        (Code::LoopMayNotWait, 509, "loop may not wait"),
        (Code::IndexTooWide, 605, "index too wide"),
        (Code::SvUnexpected, 701, "sv unexpected"),
        (Code::StimValue, 803, "stim value"),
    ] {
        assert_eq!(rt; code.number(), number);
        assert_eq!(rt; code.text(), text);
    }
}

/// Files and outputs in memory. An output of one byte a call takes as many turns as there are bytes.
#[test]
fn the_outside_in_memory(rt: HostRuntime) -> Result<(), Fail> {
    let alloc = rt.alloc();
    let mut files = MemFiles::new(alloc);
    files.add("a.cpp", b"old")?;
    files.add("a.cpp", b"12345")?;
    files.fail_at(2)?;
    let first = files.read(alloc, "a.cpp", 3);
    assert!(rt; matches!(&first, Ok(bytes) if bytes.as_slice() == b"123".as_slice()));
    let second = files.read(alloc, "a.cpp", 3);
    assert!(rt; matches!(&second, Err(FileFault::Failed)));
    let third = files.read(alloc, "a.cpp", 9);
    assert!(rt; matches!(&third, Ok(bytes) if bytes.as_slice() == b"12345".as_slice()));
    let fourth = files.read(alloc, "b.cpp", 9);
    assert!(rt; matches!(&fourth, Err(FileFault::Missing)));

    let mut calm = CalmFiles::new(alloc);
    calm.add("a.cpp", b"12345")?;
    let held = calm.read(alloc, "a.cpp", 0);
    assert!(rt; matches!(&held, Ok(bytes) if bytes.is_empty()));
    let missing = calm.read(alloc, "", 9);
    assert!(rt; matches!(&missing, Err(FileFault::Missing)));

    let mut sink = MemSink::new(alloc, 1);
    sink.fail_at(6)?;
    assert!(rt; put_all(&mut sink, b"12345").is_ok());
    assert!(rt; matches!(put_all(&mut sink, b"6"), Err(SinkFault::Failed)));
    assert!(rt; matches!(sink.write(b"67"), Ok(1)));
    assert_eq!(rt; sink.bytes(), b"123456".as_slice());

    let mut calm = CalmSink::new(alloc);
    assert!(rt; put_all(&mut calm, b"123").is_ok());
    assert!(rt; matches!(calm.write(b"45"), Ok(2)));
    assert_eq!(rt; calm.bytes(), b"12345".as_slice());
    Ok(())
}
