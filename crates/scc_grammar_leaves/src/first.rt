//! What the next token begins.
ghost use Rattle.std.specs.Prelude.{◌≡◌, true};
ghost use Rattle.scc_grammar_terminals.specs.Answer.{Gives};
ghost use Rattle.scc_grammar_terminals.specs.First as f;
ghost use Rattle.scc_grammar_terminals.specs.Operators as o;
ghost use Rattle.scc_grammar_spec.specs.ParseExpressions as e;
ghost use Rattle.scc_grammar_terminals.specs.Text.{name_at, pick, next_is, next_says};
ghost use Rattle.scc_reading.specs.Reading.{is_next, token};

use scc_base::{Name, Place};
use scc_bits::Op;
use scc_grammar_terminals::halt::{Halt, place_of};
use scc_grammar_terminals::next::{begins_constant, begins_new_word, begins_paren_open};
use scc_grammar_terminals::reader::Read;
use scc_grammar_terminals::table::Table;
use scc_grammar_terminals::terminal::{Seen, Terminal};
use scc_tree::UnaryOp;

/// An identifier, with its place.
pub fn name_at(ts: &[Seen]) -> Read<'_, (Name, Place)>
    ensures { Gives (λ x. (x.0, x.1.now)) result (name_at ts.now) }
{
    match ts {
        [
            Seen {
                terminal: Terminal::Ident(x),
                place,
            },
            rest @ ..,
        ] => Ok(((*x, *place), rest)),
        _ => Err(Halt::Unexpected(place_of(ts))),
    }
}

/// What closes a list between angle brackets, and whether it closes the list around it, too.
pub fn close(inside: bool, ts: &[Seen]) -> Read<'_, bool>
    ensures { Gives (λ x. (x.0, x.1.now)) result (e.close inside ts.now) }
{
    match ts {
        [
            Seen {
                terminal: Terminal::Greater,
                ..
            },
            rest @ ..,
        ] => Ok((false, rest)),
        [
            Seen {
                terminal: Terminal::ShiftRight,
                ..
            },
            rest @ ..,
        ] if inside => Ok((true, rest)),
        _ => Err(Halt::Unexpected(place_of(ts))),
    }
}

/// The same, where the last part may have closed it.
pub fn close_unless(both: bool, inside: bool, ts: &[Seen]) -> Read<'_, bool>
    ensures { Gives (λ x. (x.0, x.1.now)) result (e.close_unless both inside ts.now) }
{
    if both {
        return Ok((false, ts));
    }
    close(inside, ts)
}

/// Whether a `>` or `>>` is next.
pub fn begins_close(ts: &[Seen]) -> bool
    ensures { result ≡ is_next (next_says (f.closing true)) ts.now }
{
    matches!(
        ts,
        [
            Seen {
                terminal: Terminal::Greater | Terminal::ShiftRight,
                ..
            },
            ..
        ]
    )
}

/// Whether what is next makes an operand of the type before it.
pub fn goes_on(ts: &[Seen]) -> bool
    ensures { result ≡ is_next (next_is f.goes_on) ts.now }
{
    matches!(
        ts,
        [
            Seen {
                terminal: Terminal::ParenOpen | Terminal::Scope,
                ..
            },
            ..
        ]
    )
}

/// Whether an index, the arguments of a call or a member is next.
pub fn begins_part(ts: &[Seen]) -> bool
    ensures { result ≡ is_next (next_is f.begins_part) ts.now }
{
    matches!(
        ts,
        [
            Seen {
                terminal: Terminal::BracketOpen
                    | Terminal::ParenOpen
                    | Terminal::Dot
                    | Terminal::Arrow,
                ..
            },
            ..
        ]
    )
}

/// The operator before an operand that a token is.
pub fn unary_operator(t: Terminal) -> Option<UnaryOp>
    ensures { result ≡ o.unary_operator t }
{
    match t {
        Terminal::Plus => Some(UnaryOp::Plus),
        Terminal::Minus => Some(UnaryOp::Neg),
        Terminal::Star => Some(UnaryOp::Deref),
        Terminal::And => Some(UnaryOp::Address),
        Terminal::Inverse(op) => Some(op),
        _ => None,
    }
}

/// The operator before an operand, with its place.
pub fn unary_operator_at(ts: &[Seen]) -> Read<'_, (UnaryOp, Place)>
    ensures { Gives (λ x. (x.0, x.1.now)) result (token (pick o.unary_operator) ts.now) }
{
    match ts {
        [t, rest @ ..] => match unary_operator(t.terminal) {
            Some(op) => Ok(((op, t.place), rest)),
            None => Err(Halt::Unexpected(place_of(ts))),
        },
        [] => Err(Halt::Unexpected(None)),
    }
}

/// Whether an operator before an operand is next.
pub fn begins_operated(ts: &[Seen]) -> bool
    ensures { result ≡ is_next (next_is f.begins_operated) ts.now }
{
    match ts {
        [t, ..] => unary_operator(t.terminal).is_some(),
        [] => false,
    }
}

/// The operator of a level that a token is, the tightest level first.
pub fn operator(level: u32, t: Terminal) -> Option<Op>
    ensures { result ≡ o.operator level t }
{
    match (level, t) {
        (0, Terminal::Star) => Some(Op::Mul),
        (0, Terminal::Divide(op)) => Some(op),
        (1, Terminal::Plus) => Some(Op::Add),
        (1, Terminal::Minus) => Some(Op::Sub),
        (2, Terminal::ShiftLeft) => Some(Op::Shl),
        (2, Terminal::ShiftRight) => Some(Op::Shr),
        (3, Terminal::Less) => Some(Op::Lt),
        (3, Terminal::Greater) => Some(Op::Gt),
        (3, Terminal::Order(op)) => Some(op),
        (4, Terminal::Equal(op)) => Some(op),
        (5, Terminal::And) => Some(Op::And),
        (6, Terminal::Xor) => Some(Op::Xor),
        (7, Terminal::Or) => Some(Op::Or),
        (8, Terminal::LogAnd) => Some(Op::LogAnd),
        (9, Terminal::LogOr) => Some(Op::LogOr),
        _ => None,
    }
}

/// An operator of a level, with its place.
pub fn operator_at(k: u32, ts: &[Seen]) -> Read<'_, (Op, Place)>
    ensures { Gives (λ x. (x.0, x.1.now)) result (token (pick (o.operator k)) ts.now) }
{
    match ts {
        [t, rest @ ..] => match operator(k, t.terminal) {
            Some(op) => Ok(((op, t.place), rest)),
            None => Err(Halt::Unexpected(place_of(ts))),
        },
        [] => Err(Halt::Unexpected(None)),
    }
}

/// Whether an operator of a level is next.
pub fn begins_operator(k: u32, ts: &[Seen]) -> bool
    ensures { result ≡ is_next (next_says (o.operator k)) ts.now }
{
    match ts {
        [t, ..] => operator(k, t.terminal).is_some(),
        [] => false,
    }
}

/// Whether a type without `const` is next.
pub fn begins_base(names: &Table, ts: &[Seen]) -> bool
    ensures { result ≡ is_next (next_is (f.begins_base names.now)) ts.now }
{
    match ts {
        [t, ..] => match t.terminal {
            Terminal::Bool
            | Terminal::Int
            | Terminal::Short
            | Terminal::Long(_)
            | Terminal::Signed
            | Terminal::Unsigned
            | Terminal::Sized(_)
            | Terminal::Holder(_)
            | Terminal::ClockInput
            | Terminal::ModuleName => true,
            Terminal::Ident(x) => names.is_type(x),
            _ => false,
        },
        [] => false,
    }
}

/// Whether a type is next.
pub fn begins_type(names: &Table, ts: &[Seen]) -> bool
    ensures { result ≡ is_next (next_is (f.begins_type names.now)) ts.now }
{
    begins_constant(ts) || begins_base(names, ts)
}

/// Whether an operand is next that begins with no type, bracket or operator.
pub fn begins_primary(names: &Table, ts: &[Seen]) -> bool
    ensures { result ≡ is_next (next_says (f.primary_start names.now)) ts.now }
{
    match ts {
        [t, ..] => match t.terminal {
            Terminal::Number(_, _)
            | Terminal::Truth(_)
            | Terminal::This
            | Terminal::Null
            | Terminal::StaticCast
            | Terminal::Concat => true,
            Terminal::Ident(x) => !names.is_type(x),
            _ => false,
        },
        [] => false,
    }
}

/// Whether an expression is next.
pub fn begins_expr(names: &Table, ts: &[Seen]) -> bool
    ensures { result ≡ is_next (next_is (f.begins_expr names.now)) ts.now }
{
    begins_base(names, ts)
        || begins_primary(names, ts)
        || begins_operated(ts)
        || begins_paren_open(ts)
}

/// Whether an argument of a template is next.
pub fn begins_ty_arg(names: &Table, ts: &[Seen]) -> bool
    ensures { result ≡ is_next (next_is (f.begins_ty_arg names.now)) ts.now }
{
    begins_constant(ts) || begins_expr(names, ts)
}

/// Whether an expression or a `new` is next.
pub fn begins_argument(names: &Table, ts: &[Seen]) -> bool
    ensures { result ≡ is_next (next_is (f.begins_argument names.now)) ts.now }
{
    begins_new_word(ts) || begins_expr(names, ts)
}
