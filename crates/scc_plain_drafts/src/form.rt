//! What variables hold, and locations.
ghost use Rattle.std.specs.Prelude.{◌≡◌, IfOk, None};
ghost use Rattle.scc_plain_drafts.specs.Forms.{AreTold, Classes, base_in, form_in};
ghost use Rattle.scc_plain_spec.specs.Forms as spec;
ghost use Rattle.scc_plain_drafts.specs.Flows.{formed, shape_in, type_base_in, typed_in};
ghost use Rattle.scc_plain_spec.specs.Types.{kind_in, same_base};
ghost use Rattle.scc_plain_view.specs.Plains.{reach_of};

use crate::draft::is_kind;
use scc_base::{NoMemory, lost};
use scc_bits::Kind;
use scc_plain_tree::{Base, PlainLeft, Reach, Shape};
use scc_templates as templates;
use scc_templates::TypeOf;
use scc_tree::Hold;

/// What a variable holds, but for the sizes of its arrays.
#[derive(Clone, Copy, PartialEq, Eq)]
pub struct Form {
    pub base: Base,
    pub reach: Reach,
    /// Whether it is an `sc_vector` of the base (IEEE 1666-2011, 8.5).
    pub vector: bool,
    /// How many arrays are round it.
    pub dims: u32,
}

/// A location, with what it holds. A reference is the thing that it leads to.
#[derive(Drop)]
pub struct Loc {
    pub left: PlainLeft,
    pub form: Form,
    /// The kind of the bits that are picked.
    pub pick: Option<Kind>,
}

/// A base with the number of its class.
pub fn base_of(base: templates::Base) -> Base
    ensures { (n : Classes) → base_in n result ≡ type_base_in n base }
{
    match base {
        templates::Base::Number(kind) => Base::Number(kind),
        templates::Base::Class(i) => Base::Class(i.0),
        templates::Base::Input(kind) => Base::Input(kind),
        templates::Base::Output(kind) => Base::Output(kind),
        templates::Base::Signal(kind) => Base::Signal(kind),
        templates::Base::ModuleName => Base::ModuleName,
    }
}

fn is_same(a: Base, b: Base) -> bool
    ensures { (n : Classes) → AreTold n a b → result ≡ same_base (base_in n a) (base_in n b) }
{
    match (a, b) {
        (Base::Number(j), Base::Number(k)) => is_kind(j, k),
        (Base::Class(i), Base::Class(j)) => i == j,
        (Base::Input(j), Base::Input(k)) => is_kind(j, k),
        (Base::Output(j), Base::Output(k)) => is_kind(j, k),
        (Base::Signal(j), Base::Signal(k)) => is_kind(j, k),
        (Base::ModuleName, Base::ModuleName) => true,
        _ => false,
    }
}

/// What `*` and `&` say of a declared name.
pub fn reach_of(hold: Hold) -> Reach
    ensures { reach_of result ≡ spec.reach_of hold }
{
    match hold {
        Hold::Direct => Reach::Direct,
        Hold::Pointer => Reach::Pointer,
        Hold::Reference => Reach::Reference,
    }
}

/// The kind of a type that is a number's.
pub fn number_kind(t: TypeOf) -> Option<Kind>
    ensures { (n : Classes) → result ≡ kind_in (typed_in n t) }
{
    if t.vector {
        return None;
    }
    match t.base {
        templates::Base::Number(kind) => Some(kind),
        _ => None,
    }
}

impl Form {
    /// That of one thing by itself.
    pub fn direct(base: Base) -> Form
        ensures form { (n : Classes) → form_in n result ≡ spec.direct (base_in n base) }
        ensures base { result.base ≡ base }
    {
        Form {
            base,
            reach: Reach::Direct,
            vector: false,
            dims: 0,
        }
    }

    /// That of a shape.
    pub fn of(shape: &Shape) -> Result<Form, NoMemory>
        ensures form { IfOk result (λ f. (n : Classes) → form_in n f ≡ spec.form_of (shape_in n shape.now)) }
        ensures is { IfOk result (λ f. f ≡ formed shape.now) }
    {
        Ok(Form {
            base: shape.base,
            reach: shape.reach,
            vector: shape.vector,
            dims: u32::try_from(shape.sizes.len()).map_err(|_| lost())?,
        })
    }

    /// Whether it is a pointer, or arrays of them.
    pub fn is_pointer(self) -> bool
        ensures { (n : Classes) → result ≡ spec.is_pointer (form_in n self) }
    {
        self.reach == Reach::Pointer
    }

    /// Whether nothing of an array, vector or pointer is left to take.
    pub fn is_whole(self) -> bool
        ensures { (n : Classes) → result ≡ spec.is_whole (form_in n self) }
    {
        if self.dims != 0 {
            return false;
        }
        if self.vector {
            return false;
        }
        !self.is_pointer()
    }

    /// Whether two hold things of one type.
    pub fn is_like(self, other: Form) -> bool
        ensures { (n : Classes) → AreTold n self.base other.base → result ≡ spec.is_like (form_in n self) (form_in n other) }
    {
        if !is_same(self.base, other.base) {
            return false;
        }
        self.vector == other.vector
    }

    /// The kind of a port's or signal's value.
    pub fn port_kind(self) -> Option<Kind>
        ensures { (n : Classes) → result ≡ spec.port_kind (base_in n self.base) }
    {
        match self.base {
            Base::Input(kind) | Base::Output(kind) | Base::Signal(kind) => Some(kind),
            _ => None,
        }
    }

    /// The kind of a number's, port's or signal's value.
    pub fn value_kind(self) -> Option<Kind>
        ensures { (n : Classes) → result ≡ spec.value_kind (base_in n self.base) }
    {
        match self.base {
            Base::Number(kind) => Some(kind),
            _ => self.port_kind(),
        }
    }

    /// Whether it is one port or signal.
    pub fn is_port(self) -> bool
        ensures { (n : Classes) → result ≡ spec.is_port (form_in n self) }
    {
        if !self.is_whole() {
            return false;
        }
        self.port_kind().is_some()
    }
}

impl Loc {
    /// A location of which no bits are picked.
    pub fn new(left: PlainLeft, form: Form) -> Loc
        ensures { result ≡ record { left = left; form = form; pick = None } }
    {
        Loc {
            left,
            form,
            pick: None,
        }
    }
}
