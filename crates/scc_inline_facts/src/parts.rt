//! What a statement comes to by itself, and the lists of statements that it holds.
ghost use Rattle.std.specs.Prelude.{◌≡◌, ◌+◌, ℕ, [], ◌∷◌, map, IfOk, Some, None};
ghost use Rattle.scc_elab_spec.specs.Program.{End, Function, Plain};
ghost use Rattle.scc_inline_size_laws.specs.Counts.{height_in, passed_size, result_size, size_in};
ghost use Rattle.scc_plain_view.specs.Codes.{stmt_code};
ghost use Rattle.scc_plain_view.specs.Terms.{argument_of};
ghost use Rattle.scc_inline_facts.specs.Parted.{parts_height, parts_size};

use scc_base::{NoMemory, lost};
use scc_bits::Kind;
use scc_plain_tree::{PlainArg, PlainNode, PlainStmt};

/// A statement as its copy counts.
#[derive(Clone, Copy)]
pub struct Parts<'t> {
    /// How many statements its copy is, aside from what follows.
    pub own: u64,
    /// The local that it declares without a value.
    pub declares: Option<u32>,
    pub calls: Option<Called<'t>>,
    pub first: Option<&'t [PlainStmt]>,
    pub second: Option<&'t [PlainStmt]>,
}

/// A call of a function.
#[derive(Clone, Copy)]
pub struct Called<'t> {
    pub function: u32,
    pub args: &'t [PlainArg],
}

/// The parts of a statement. Those of a construction have no copy.
pub fn parts_of(s: &PlainStmt) -> Parts<'_>
    ensures size { (sizes : ℕ → ℕ) (p : Plain) (f : Function) → parts_size sizes p f result ≡ size_in sizes p f (stmt_code s.now End) }
    ensures height { (heights : ℕ → ℕ) (p : Plain) (f : Function) → parts_height heights p f result ≡ height_in heights p f (stmt_code s.now End) }
{
    match &s.node {
        PlainNode::Declare(local) => Parts {
            own: 0,
            declares: Some(*local),
            calls: None,
            first: None,
            second: None,
        },
        PlainNode::Call { function, args, .. } => Parts {
            own: 0,
            declares: None,
            calls: Some(Called {
                function: *function,
                args: args.as_slice(),
            }),
            first: None,
            second: None,
        },
        PlainNode::If { yes, no, .. } => Parts {
            own: 1,
            declares: None,
            calls: None,
            first: Some(yes.as_slice()),
            second: Some(no.as_slice()),
        },
        PlainNode::Loop { body, .. } => holding(body.as_slice()),
        PlainNode::Block(body) => holding(body.as_slice()),
        PlainNode::Return(value) => match value {
            Some(_) => plain(2),
            None => plain(1),
        },
        PlainNode::Assign { .. }
        | PlainNode::Point { .. }
        | PlainNode::Write { .. }
        | PlainNode::Exit(_)
        | PlainNode::Wait(_) => plain(1),
        PlainNode::Make { .. }
        | PlainNode::Bind { .. }
        | PlainNode::Process { .. }
        | PlainNode::Sense(_)
        | PlainNode::Quiet
        | PlainNode::Reset { .. } => plain(0),
    }
}

// So many statements that hold none.
fn plain<'t>(own: u64) -> Parts<'t>
    ensures { result ≡ record { own = own; declares = None; calls = None; first = None; second = None } }
{
    Parts {
        own,
        declares: None,
        calls: None,
        first: None,
        second: None,
    }
}

// A statement that holds one list.
fn holding(body: &[PlainStmt]) -> Parts<'_>
    ensures { result ≡ record { own = 1; declares = None; calls = None; first = Some body.entry; second = None } }
{
    Parts {
        own: 1,
        declares: None,
        calls: None,
        first: Some(body),
        second: None,
    }
}

/// How many parameters a call gives values or targets: a module's name has no copy.
pub fn passed(args: &[PlainArg]) -> Result<u64, NoMemory>
    ensures { IfOk result (λ n. n ≡ passed_size (map argument_of args.now)) }
{
    let mut count = 0u64;
    for arg in args {
        count = one_more(count, arg)?;
    }
    Ok(count)
}

fn one_more(count: u64, arg: &PlainArg) -> Result<u64, NoMemory>
    ensures { IfOk result (λ n. n ≡ count + passed_size (argument_of arg.now ∷ [])) }
{
    match count.checked_add(one_passed(arg)) {
        Some(more) => Ok(more),
        None => Err(lost()),
    }
}

fn one_passed(arg: &PlainArg) -> u64
    ensures { result ≡ passed_size (argument_of arg.now ∷ []) }
{
    match arg {
        PlainArg::Value(_) => 1,
        PlainArg::Target(_) => 1,
        PlainArg::ModuleName => 0,
    }
}

/// Whether a call has a result, as a number.
pub fn results(kind: Option<Kind>) -> u64
    ensures { result ≡ result_size kind }
{
    match kind {
        Some(_) => 1,
        None => 0,
    }
}
