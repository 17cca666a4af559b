//! What stands at a location, by the declarations.
ghost use Rattle.std.specs.Prelude.{◌≡◌};
ghost use Rattle.scc_plain_look.specs.Held as spec;

use scc_plain_tree::{Base, Plain, PlainFunction, Reach, Shape};

/// What stands at a location, but for the sizes of its arrays. A reference is the thing that it leads to.
#[derive(Clone, Copy)]
pub(crate) struct Held {
    pub base: Base,
    pub reach: Reach,
    pub vector: bool,
    /// How many arrays are round it.
    pub dims: usize,
}

fn direct(base: Base) -> Held
    ensures { result ≡ spec.direct base }
{
    Held {
        base,
        reach: Reach::Direct,
        vector: false,
        dims: 0,
    }
}

fn held_by(s: &Shape) -> Held
    ensures { result ≡ spec.held_by s.now }
{
    Held {
        base: s.base,
        reach: s.reach,
        vector: s.vector,
        dims: s.sizes.len(),
    }
}

fn is_pointer(reach: Reach) -> bool
    ensures { result ≡ spec.is_pointer reach }
{
    match reach {
        Reach::Direct => false,
        Reach::Pointer => true,
        Reach::Reference => false,
    }
}

fn is_direct(reach: Reach) -> bool
    ensures { result ≡ spec.is_direct reach }
{
    match reach {
        Reach::Direct => true,
        Reach::Pointer => false,
        Reach::Reference => false,
    }
}

/// Whether nothing of an array, vector or pointer is left to take.
pub(crate) fn is_single(h: Held) -> bool
    ensures { result ≡ spec.is_single h }
{
    h.dims == 0 && !h.vector && !is_pointer(h.reach)
}

fn is_number_base(base: Base) -> bool
    ensures { result ≡ spec.is_number_base base }
{
    match base {
        Base::Number(_) => true,
        Base::Class(_) => false,
        Base::Input(_) => false,
        Base::Output(_) => false,
        Base::Signal(_) => false,
        Base::ModuleName => false,
    }
}

fn is_port_base(base: Base) -> bool
    ensures { result ≡ spec.is_port_base base }
{
    match base {
        Base::Number(_) => false,
        Base::Class(_) => false,
        Base::Input(_) => true,
        Base::Output(_) => true,
        Base::Signal(_) => true,
        Base::ModuleName => false,
    }
}

/// Whether it is one number.
pub(crate) fn is_number(h: Held) -> bool
    ensures number { result ≡ spec.is_number h }
{
    is_number_base(h.base) && is_single(h)
}

/// Whether it is one port or signal.
pub(crate) fn is_port(h: Held) -> bool
    ensures port { result ≡ spec.is_port h }
{
    is_port_base(h.base) && is_single(h)
}

/// Whether it is one pointer or reference.
pub(crate) fn is_leading(h: Held) -> bool
    ensures leading { result ≡ spec.is_leading h }
{
    !is_direct(h.reach) && h.dims == 0
}

/// What a pointer leads to.
pub(crate) fn followed(h: Held) -> Option<Held>
    ensures followed { result ≡ spec.followed h }
{
    if is_pointer(h.reach) && h.dims == 0 {
        return Some(Held {
            base: h.base,
            reach: Reach::Direct,
            vector: h.vector,
            dims: 0,
        });
    }
    None
}

/// An element of an array or vector.
pub(crate) fn element(h: Held) -> Option<Held>
    ensures element { result ≡ spec.element h }
{
    if h.dims > 0 {
        return Some(Held {
            base: h.base,
            reach: h.reach,
            vector: h.vector,
            dims: h.dims - 1,
        });
    }
    if h.vector && !is_pointer(h.reach) {
        return Some(direct(h.base));
    }
    None
}

fn member_of(p: &Plain, class: u32, n: u32) -> Option<Held>
    ensures { result ≡ spec.class_member p.now (Base.Class class) n }
{
    let class = p.classes.as_slice().get(class as usize)?;
    let member = class.members.as_slice().get(n as usize)?;
    Some(held_by(&member.shape))
}

fn class_member(p: &Plain, base: Base, n: u32) -> Option<Held>
    ensures { result ≡ spec.class_member p.now base n }
{
    match base {
        Base::Number(_) => None,
        Base::Class(class) => member_of(p, class, n),
        Base::Input(_) => None,
        Base::Output(_) => None,
        Base::Signal(_) => None,
        Base::ModuleName => None,
    }
}

/// The member of that number.
pub(crate) fn member(p: &Plain, n: u32, h: Held) -> Option<Held>
    ensures member { result ≡ spec.member p.now n h }
{
    if is_single(h) {
        class_member(p, h.base, n)
    } else {
        None
    }
}

/// What a local variable holds.
pub(crate) fn local(f: &PlainFunction, n: u32) -> Option<Held>
    ensures local { result ≡ spec.local f.now n }
{
    let member = f.locals.as_slice().get(n as usize)?;
    Some(held_by(&member.shape))
}

/// The object whose function it is.
pub(crate) fn this(f: &PlainFunction) -> Option<Held>
    ensures this { result ≡ spec.this f.now }
{
    let class = f.class?;
    Some(direct(Base::Class(class)))
}

/// The result of the call of that number.
pub(crate) fn answer(p: &Plain, calls: &[u32], n: u32) -> Option<Held>
    ensures answer { result ≡ spec.answer p.now calls.now n }
{
    let function = calls.get(n as usize)?;
    let function = p.functions.as_slice().get(*function as usize)?;
    let kind = function.result?;
    Some(direct(Base::Number(kind)))
}
