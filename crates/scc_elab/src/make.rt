//! Objects are made.
use crate::args::{pass_all, size_of};
use crate::elements::begin_vector;
use crate::walk::{RAW, location_of, value_of};
use crate::worth::stored;
use scc_base::{Code, NoMemory, Place, Stop, lost, push};
use scc_bits::Kind;
use scc_elab_state::frames::Frame;
use scc_elab_state::grown::Grown;
use scc_elab_state::numbers::{put_number, zero_of};
use scc_elab_state::program::{class_of, function_of};
use scc_elab_state::spots::SpotId;
use scc_elab_state::things::ThingSort;
use scc_elab_state::work::{Stack, Work};
use scc_plain_tree::{Base, Plain, PlainArg, PlainLeft, PlainStmt};

/// Makes one thing. Of an object of a class the members and the constructor are still to be done.
pub fn make_one<'t>(
    args: &'t [PlainArg],
    base: Base,
    at: SpotId,
    place: Place,
    p: &'t Plain,
    stack: &mut Stack<'t>,
    g: &mut Grown,
) -> Result<(), Stop> {
    let sort = match base {
        Base::Class(class) => return make_object(args, class, at, place, p, stack, g),
        Base::Number(kind) => ThingSort::Variable(zero_of(kind)?),
        Base::Signal(kind) => ThingSort::Signal(kind),
        Base::Input(kind) => port_of(kind, false),
        Base::Output(kind) => port_of(kind, true),
        Base::ModuleName => return Err(Stop::from(lost())),
    };
    let _number = g.add_object(at, place, sort)?;
    Ok(())
}

fn port_of(kind: Kind, output: bool) -> ThingSort {
    ThingSort::Port {
        kind,
        output,
        bound: None,
    }
}

fn make_object<'t>(
    args: &'t [PlainArg],
    class: u32,
    at: SpotId,
    place: Place,
    p: &'t Plain,
    stack: &mut Stack<'t>,
    g: &mut Grown,
) -> Result<(), Stop> {
    let object = g.add_object(at, place, ThingSort::Module(class))?;
    let constructor = class_of(p, class)?.constructor;
    if let Some(function) = constructor {
        pass_all(args, function, object, p, g)?;
    }
    let frame = Frame {
        class,
        function: constructor,
        object,
        this: at,
        process: None,
    };
    push(&mut g.frames, frame)?;
    Ok(begin(class, constructor, p, stack, g)?)
}

// The members, the statements that belong to none of them, and the body of a constructor.
fn begin<'t>(
    class: u32,
    constructor: Option<u32>,
    p: &'t Plain,
    stack: &mut Stack<'t>,
    g: &mut Grown,
) -> Result<(), NoMemory> {
    stack.then(Work::Leave)?;
    let mut group = 0;
    let mut end = 0;
    if let Some(number) = constructor {
        let function = function_of(p, number)?;
        let alloc = g.alloc;
        let groups = g.groups.of(alloc, number, function)?;
        let inits = function.inits.as_slice();
        stack.then(Work::Statements(function.body.as_slice()))?;
        stack.then(Work::Statements(slice_of(inits, groups.rest, inits.len())?))?;
        group = groups.first;
        end = groups.end;
    }
    stack.then(Work::Members {
        class,
        next: 0,
        group,
        end,
    })
}

/// The statements from one to the one before another.
pub fn slice_of(list: &[PlainStmt], first: usize, end: usize) -> Result<&[PlainStmt], NoMemory> {
    if first <= end && end <= list.len() {
        Ok(&list[first..end])
    } else {
        Err(lost())
    }
}

/// A `new`. Refused as E404 for a local variable and where one was made before.
pub fn make_new<'t>(
    left: &'t PlainLeft,
    base: Base,
    args: &'t [PlainArg],
    place: Place,
    p: &'t Plain,
    stack: &mut Stack<'t>,
    g: &mut Grown,
) -> Result<(), Stop> {
    let located = location_of(left, RAW, p, g)?;
    let Some(at) = located.at else {
        return Err(Stop::from(lost()));
    };
    if g.spots.local_of(at)?.is_some() {
        // E404.
        return Err(Stop::refused(Code::Constructor, place));
    }
    let Some(pointer) = g.spots.pointer(at)? else {
        return Ok(());
    };
    if g.spots.note_new(at)? {
        return Err(Stop::refused(Code::Constructor, place));
    }
    stack.then(Work::Lead { pointer, to: at })?;
    if located.vector {
        let size = size_of(args, p, g)?;
        return Ok(begin_vector(at, size, base, place, stack, g)?);
    }
    make_one(args, base, at, place, p, stack, g)?;
    match base {
        Base::Number(kind) => fill(args, kind, at, p, g),
        _ => Ok(()),
    }
}

// Gives a variable that `new` made its number.
fn fill(args: &[PlainArg], kind: Kind, at: SpotId, p: &Plain, g: &mut Grown) -> Result<(), Stop> {
    for arg in args {
        if let PlainArg::Value(e) = arg {
            let value = value_of(e, p, g)?;
            put_number(g, at, stored(value, kind)?)?;
        }
    }
    Ok(())
}
