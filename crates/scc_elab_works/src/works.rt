//! What construction has still to do. Constructors nest as deep as there are objects, blocks as deep as a `switch` has labels, so what is
//! still to be done is kept in a list.
ghost use Rattle.std.specs.Prelude.{◌≡◌, IfOk};
ghost use Rattle.scc_elab_works.specs.Works.{at_in, passed_in};

use scc_base::{NoMemory, Place};
use scc_elab_store::Part;
use scc_plain_tree::{Base, PlainArg, PlainFunction, PlainStmt};
use std::alloc::Global;

/// The constructor of an object that stands at a path, and how many constructors may run inside it. A class without a constructor has
/// no function.
pub struct At<'t> {
    pub function: Option<&'t PlainFunction>,
    pub object: u32,
    pub path: Vec<Part>,
    pub levels: u32,
}

impl<'t> Drop for At<'t> {
    fn drop(self) {
        let At {
            function: _function,
            object: _object,
            path: _path,
            levels: _levels,
        } = self;
    }
}

impl<'t> At<'t> {
    /// The same.
    pub fn copied(&self, alloc: Global) -> Result<At<'t>, NoMemory>
        ensures { IfOk result (λ a. at_in a ≡ at_in self.now) }
    {
        Ok(At {
            function: self.function,
            object: self.object,
            path: Vec::from_slice(alloc, self.path.as_slice())?,
            levels: self.levels,
        })
    }
}

/// Statements of a constructor.
pub struct RunOf<'t> {
    pub at: At<'t>,
    pub list: &'t [PlainStmt],
}

impl<'t> Drop for RunOf<'t> {
    fn drop(self) {
        let RunOf {
            at: _at,
            list: _list,
        } = self;
    }
}

/// A loop, which may have so many turns more. Its test is a list of one `if`, or empty.
pub struct LoopOf<'t> {
    pub at: At<'t>,
    pub left: u32,
    pub place: Place,
    pub test: &'t [PlainStmt],
    pub body: &'t [PlainStmt],
}

impl<'t> Drop for LoopOf<'t> {
    fn drop(self) {
        let LoopOf {
            at: _at,
            left: _left,
            place: _place,
            test: _test,
            body: _body,
        } = self;
    }
}

/// A pointer at a path is given the object that was made there; the last process of the constructor in which `new` stands.
pub struct LeadOf {
    pub path: Vec<Part>,
    pub last: Option<u32>,
}

impl Drop for LeadOf {
    fn drop(self) {
        let LeadOf {
            path: _path,
            last: _last,
        } = self;
    }
}

/// Arguments, evaluated in a constructor that runs.
pub struct Args<'t> {
    pub at: At<'t>,
    pub list: &'t [PlainArg],
}

impl<'t> Drop for Args<'t> {
    fn drop(self) {
        let Args {
            at: _at,
            list: _list,
        } = self;
    }
}

impl<'t> Args<'t> {
    /// The same.
    pub fn copied(&self, alloc: Global) -> Result<Args<'t>, NoMemory>
        ensures { IfOk result (λ a. passed_in a ≡ passed_in self.now) }
    {
        Ok(Args {
            at: self.at.copied(alloc)?,
            list: self.list,
        })
    }
}

/// What each element of an array is: a pointer or reference, or a thing or vector of a base.
#[derive(Clone, Copy)]
pub struct Form {
    pub is_pointer: bool,
    pub is_vector: bool,
    pub base: Base,
    pub place: Place,
}

/// An array of these sizes at a path; without sizes one thing.
pub struct ArrayOf<'t> {
    pub form: Form,
    pub args: Args<'t>,
    pub path: Vec<Part>,
    pub sizes: &'t [u32],
}

impl<'t> Drop for ArrayOf<'t> {
    fn drop(self) {
        let ArrayOf {
            form: _form,
            args: _args,
            path: _path,
            sizes: _sizes,
        } = self;
    }
}

/// So many elements of an array from one on, each an array of these sizes.
pub struct ElementsOf<'t> {
    pub form: Form,
    pub args: Args<'t>,
    pub path: Vec<Part>,
    pub sizes: &'t [u32],
    pub next: u32,
    pub count: u32,
}

impl<'t> Drop for ElementsOf<'t> {
    fn drop(self) {
        let ElementsOf {
            form: _form,
            args: _args,
            path: _path,
            sizes: _sizes,
            next: _next,
            count: _count,
        } = self;
    }
}

/// So many elements of a vector from one on.
pub struct VectorOf {
    pub levels: u32,
    pub path: Vec<Part>,
    pub next: u32,
    pub count: u32,
    pub base: Base,
    pub place: Place,
}

impl Drop for VectorOf {
    fn drop(self) {
        let VectorOf {
            levels: _levels,
            path: _path,
            next: _next,
            count: _count,
            base: _base,
            place: _place,
        } = self;
    }
}

/// What is still to be done.
#[derive(Drop)]
pub enum Work<'t> {
    Run(RunOf<'t>),
    /// A block's end.
    Shut,
    /// A loop's own test.
    Again(LoopOf<'t>),
    /// The test let a turn in.
    Turn(LoopOf<'t>),
    Lead(LeadOf),
    Array(ArrayOf<'t>),
    Elements(ElementsOf<'t>),
    Vector(VectorOf),
    /// An object is made.
    Made,
}
