//! Values and locations of trees. A chain of operators and one of pointers are as long as their source, so they are gone along by
//! loops.
ghost use Rattle.std.specs.Prelude.{◌≡◌, ◌<◌, ◌||◌, nat_lt, true, false, map, option_map, IfSome};
ghost use Rattle.scc_plain_tree.specs.declared.expr.PlainExpr.{size-PlainExpr};
ghost use Rattle.scc_plain_tree.specs.declared.expr.PlainLeft.{size-PlainLeft};
ghost use Rattle.scc_elab_spec.specs.Worth.{spot};
ghost use Rattle.scc_elab_worth.specs.Meant.{IsSpot, IsWorth, site_of};
ghost use Rattle.scc_elab_worth.specs.Said.{Gives, and_said};
ghost use Rattle.scc_elab_worth.specs.Sites.{around, spot_of};
ghost use Rattle.scc_elab_worth.specs.Spots.{element};
ghost use Rattle.scc_elab_worth.specs.Worths as spec;
ghost use Rattle.scc_plain_view.specs.Terms.{left_of, term_of};

use crate::depth::{ROOM, deeper};
use crate::numbers::{above, bit, choice, kept, number, operated, range};
use crate::spots::{Located, Site, followed, local, member, this, within};
use scc_base::{Code, Place, Stop, lost, push};
use scc_bits::{Kind, Value};
use scc_elab_store::Part;
use scc_plain_tree::{PlainBase, PlainExpr, PlainExprNode, PlainLeft, PlainPart, PlainPick};

/// The value of an expression. Refused as E404 where it reads a port or signal, and E405.
pub fn value_of(s: &Site, e: &PlainExpr) -> Result<Value, Stop>
    ensures { IsWorth result (site_of (around s.now)) (term_of e.now) }
{
    value(s, e, ROOM)
}

/// Where a left side leads: in a target what lies behind null is null, else it is refused as E405; a reference at the end is followed, or
/// is to be given something. Refused as `value_of`.
pub fn location_of(s: &Site, left: &PlainLeft, soft: bool, follow: bool) -> Result<Located, Stop>
    ensures { IsSpot spot_of result (spot (site_of (around s.now)) soft follow (left_of left.now)) }
{
    find(s, left, soft, follow, ROOM)
}

// The operand that stands first, and is as deep as a chain of operators is long.
fn first_operand<'t>(s: &Site, e: &'t PlainExpr) -> Option<&'t PlainExpr>
    ensures size { IfSome result (λ x. size-PlainExpr x.now < size-PlainExpr e.now) }
    ensures known { IfSome result (λ x. (spec.expr (around s.now) e.now).known ≡ and_said (spec.expr (around s.now) x.now).known (spec.expr (around s.now) e.now).over) }
{
    match e.node.get() {
        PlainExprNode::Convert(of) => Some(of),
        PlainExprNode::Operate { left, .. } => Some(left),
        PlainExprNode::Choose { test, .. } => Some(test),
        PlainExprNode::Pick { of, .. } => Some(of),
        _ => None,
    }
}

// The pointer that a location follows.
fn pointer_of<'t>(s: &Site, left: &'t PlainLeft, soft: bool) -> Option<&'t PlainLeft>
    ensures size { IfSome result (λ x. size-PlainLeft x.now < size-PlainLeft left.now) }
    ensures at { IfSome result (λ x. (spec.left (around s.now) left.now).at soft true ≡ and_said ((spec.left (around s.now) x.now).at soft true) ((spec.left (around s.now) left.now).over soft true)) }
{
    match &left.base {
        PlainBase::Follow(pointer) => Some(pointer.get()),
        PlainBase::Local(_) | PlainBase::This | PlainBase::Answer(_) => None,
    }
}

#[cycle(worth)]
#[tactic(auto, using(crate::proofs::Chains::over_all_push))]
fn value(s: &Site, e: &PlainExpr, room: u32) -> Result<Value, Stop>
    ensures { Gives (λ v. v) result (spec.expr (around s.now) e.now).known }
{
    let room = deeper(room)?;
    let mut spine = Vec::new(s.alloc);
    let mut here = e;
    while let Some(inner) = first_operand(s, here) {
        push(&mut spine, here)?;
        here = inner;
    }
    let mut value = leaf(s, here, room);
    while let Some(outer) = spine.pop() {
        match value {
            Ok(v) => value = over(s, outer, v, room),
            Err(stop) => return Err(stop),
        }
    }
    value
}

// The value of an expression without operands that stand first.
#[cycle(worth)]
fn leaf(s: &Site, e: &PlainExpr, room: u32) -> Result<Value, Stop>
    ensures { Gives (λ v. v) result (spec.expr (around s.now) e.now).known }
{
    match e.node.get() {
        PlainExprNode::Lit(word) => number(e.kind, word.bits),
        PlainExprNode::Load(left) => load(s, left, e.kind, room),
        // E404.
        PlainExprNode::Read(_) => Err(Stop::refused(Code::Constructor, e.place)),
        PlainExprNode::Join(parts) => joined(s, parts.as_slice(), e.kind, room),
        _ => Err(Stop::from(lost())),
    }
}

// The value of an expression from that of the operand that stands first.
#[cycle(worth)]
fn over(s: &Site, e: &PlainExpr, v: Value, room: u32) -> Result<Value, Stop>
    ensures { Gives (λ v. v) result ((spec.expr (around s.now) e.now).over v) }
{
    match e.node.get() {
        PlainExprNode::Convert(_) => kept(e.kind, v),
        PlainExprNode::Operate { op, right, .. } => match right {
            Some(right) => match value(s, right, room) {
                Ok(b) => operated(e.place, e.kind, *op, v, b),
                Err(stop) => Err(stop),
            },
            None => operated(e.place, e.kind, *op, v, v),
        },
        PlainExprNode::Choose { yes, no, .. } => match value(s, yes, room) {
            Ok(yes) => match value(s, no, room) {
                Ok(no) => choice(e.kind, v, yes, no),
                Err(stop) => Err(stop),
            },
            Err(stop) => Err(stop),
        },
        PlainExprNode::Pick { pick, .. } => picked(s, pick, e.kind, v, room),
        _ => Err(Stop::from(lost())),
    }
}

#[cycle(worth)]
fn picked(s: &Site, pick: &PlainPick, kind: Kind, v: Value, room: u32) -> Result<Value, Stop>
    ensures { Gives (λ v. v) result ((spec.pick (around s.now) pick.now).bits kind v) }
{
    match pick {
        PlainPick::Bit { at, .. } => match value(s, at, room) {
            Ok(at) => bit(v, at),
            Err(stop) => Err(stop),
        },
        PlainPick::Range { h, l, .. } => range(kind, *h, *l, v),
    }
}

// What stands at a location, or bits of it.
#[cycle(worth)]
fn load(s: &Site, left: &PlainLeft, kind: Kind, room: u32) -> Result<Value, Stop>
    ensures { Gives (λ v. v) result (and_said ((spec.left (around s.now) left.now).at false true) (spec.held (around s.now) kind (spec.left (around s.now) left.now).pick)) }
{
    match find(s, left, false, true, room) {
        Ok(located) => held(s, &left.pick, kind, &located, room),
        Err(stop) => Err(stop),
    }
}

// The kind of the whole number that is read: that of which bits are taken, else that of the expression.
fn kind_read(s: &Site, pick: &Option<PlainPick>, kind: Kind) -> Kind
    ensures { result ≡ spec.kind_read (option_map (spec.pick (around s.now)) pick.now) kind }
{
    match pick {
        Some(PlainPick::Bit { of, .. } | PlainPick::Range { of, .. }) => *of,
        None => kind,
    }
}

#[cycle(worth)]
fn held(
    s: &Site,
    pick: &Option<PlainPick>,
    kind: Kind,
    located: &Located,
    room: u32,
) -> Result<Value, Stop>
    ensures { Gives (λ v. v) result (spec.held (around s.now) kind (option_map (spec.pick (around s.now)) pick.now) (spot_of located.now)) }
{
    let Some(at) = &located.at else {
        return Err(Stop::from(lost()));
    };
    match number(kind_read(s, pick, kind), s.store.word(at)) {
        Ok(v) => match pick {
            Some(pick) => picked(s, pick, kind, v, room),
            None => Ok(v),
        },
        Err(stop) => Err(stop),
    }
}

#[cycle(worth)]
fn joined(s: &Site, parts: &[PlainExpr], kind: Kind, room: u32) -> Result<Value, Stop>
    ensures { Gives (λ v. v) result (spec.all_joined kind (map (spec.expr (around s.now)) parts.now)) }
{
    match parts {
        [] => number(kind, 0),
        [first, rest @ ..] => match value(s, first, room) {
            Ok(v) => behind(s, v, rest, kind, room),
            Err(stop) => Err(stop),
        },
    }
}

#[cycle(worth)]
fn behind(s: &Site, v: Value, parts: &[PlainExpr], kind: Kind, room: u32) -> Result<Value, Stop>
    ensures { Gives (λ v. v) result (spec.joined_behind kind (map (spec.expr (around s.now)) parts.now) v) }
{
    match parts {
        [] => Ok(v),
        [_first, _rest @ ..] => below(s, v.word().bits, parts, kind, room),
    }
}

// The words of numbers below a word.
#[cycle(worth)]
fn below(s: &Site, word: u128, parts: &[PlainExpr], kind: Kind, room: u32) -> Result<Value, Stop>
    ensures { Gives (λ v. v) result (spec.joined_below kind (map (spec.expr (around s.now)) parts.now) word) }
{
    let mut whole = word;
    for part in parts {
        match value(s, part, room) {
            Ok(v) => whole = above(whole, v)?,
            Err(stop) => return Err(stop),
        }
    }
    number(kind, whole)
}

#[cycle(worth)]
fn find(s: &Site, left: &PlainLeft, soft: bool, follow: bool, room: u32) -> Result<Located, Stop>
    ensures { Gives spot_of result ((spec.left (around s.now) left.now).at soft follow) }
{
    match &left.base {
        PlainBase::Follow(pointer) => match pointer_at(s, pointer.get(), soft, room) {
            Ok(at) => beyond(s, left, soft, follow, at, room),
            Err(stop) => Err(stop),
        },
        PlainBase::Local(_) | PlainBase::This | PlainBase::Answer(_) => {
            based(s, left, soft, follow, room)
        }
    }
}

// A location of which the end is followed, too.
#[cycle(worth)]
#[tactic(auto, using(crate::proofs::Chains::beyond_all_push))]
fn pointer_at(s: &Site, left: &PlainLeft, soft: bool, room: u32) -> Result<Located, Stop>
    ensures { Gives spot_of result ((spec.left (around s.now) left.now).at soft true) }
{
    let room = deeper(room)?;
    let mut spine = Vec::new(s.alloc);
    let mut here = left;
    while let Some(inner) = pointer_of(s, here, soft) {
        push(&mut spine, here)?;
        here = inner;
    }
    let mut at = based(s, here, soft, true, room);
    while let Some(outer) = spine.pop() {
        match at {
            Ok(located) => at = beyond(s, outer, soft, true, located, room),
            Err(stop) => return Err(stop),
        }
    }
    at
}

// A location that follows no pointer.
#[cycle(worth)]
fn based(s: &Site, left: &PlainLeft, soft: bool, follow: bool, room: u32) -> Result<Located, Stop>
    ensures { Gives spot_of result ((spec.left (around s.now) left.now).at soft follow) }
{
    let parts = left.parts.as_slice();
    let first = match &left.base {
        PlainBase::Local(n) => local(s, left.place, soft, follow || is_more(parts), *n),
        PlainBase::This => this(s),
        PlainBase::Answer(_) => Err(Stop::refused(Code::Constructor, left.place)),
        PlainBase::Follow(_) => Err(Stop::from(lost())),
    };
    match first {
        Ok(at) => walked(s, parts, left.place, soft, follow, at, room),
        Err(stop) => Err(stop),
    }
}

// A location by where the pointer stands that it follows.
#[cycle(worth)]
fn beyond(
    s: &Site,
    left: &PlainLeft,
    soft: bool,
    follow: bool,
    pointer: Located,
    room: u32,
) -> Result<Located, Stop>
    ensures { Gives spot_of result ((spec.left (around s.now) left.now).over soft follow (spot_of pointer)) }
{
    match &left.base {
        PlainBase::Follow(_) => match followed(s, left.place, soft, pointer) {
            Ok(at) => walked(s, left.parts.as_slice(), left.place, soft, follow, at, room),
            Err(stop) => Err(stop),
        },
        PlainBase::Local(_) | PlainBase::This | PlainBase::Answer(_) => Err(Stop::from(lost())),
    }
}

fn is_more(parts: &[PlainPart]) -> bool
    ensures { result ≡ spec.is_more parts.now }
{
    match parts {
        [] => false,
        [_first, _rest @ ..] => true,
    }
}

// Whether a reference is followed before so many more parts.
fn goes_on(follow: bool, more: usize) -> bool
    ensures { result ≡ (follow || nat_lt 0 more) }
{
    follow || more > 0
}

// Parts from left to right.
#[cycle(worth)]
fn walked(
    s: &Site,
    parts: &[PlainPart],
    place: Place,
    soft: bool,
    follow: bool,
    from: Located,
    room: u32,
) -> Result<Located, Stop>
    ensures { Gives spot_of result (spec.walked place soft follow (map (spec.part (around s.now)) parts.now) (spot_of from)) }
{
    let mut at = from;
    let mut left = parts.len();
    for part in parts {
        left = left.saturating_sub(1);
        match step(s, part, place, soft, goes_on(follow, left), at, room) {
            Ok(next) => at = next,
            Err(stop) => return Err(stop),
        }
    }
    Ok(at)
}

#[cycle(worth)]
fn step(
    s: &Site,
    part: &PlainPart,
    place: Place,
    soft: bool,
    follow: bool,
    at: Located,
    room: u32,
) -> Result<Located, Stop>
    ensures { Gives spot_of result (spec.part (around s.now) part.now place soft follow (spot_of at)) }
{
    match part {
        PlainPart::Member(number) => member(s, place, soft, follow, *number, at),
        PlainPart::Index(index) => element(s, index, at, room),
    }
}

// An element of what stands somewhere. Behind null the index isn't looked at.
#[cycle(worth)]
fn element(s: &Site, index: &PlainExpr, of: Located, room: u32) -> Result<Located, Stop>
    ensures { Gives spot_of result (element (spec.expr (around s.now) index.now).known (spot_of of)) }
{
    let Located { at, base, vector } = of;
    match at {
        None => Ok(Located {
            at: None,
            base,
            vector,
        }),
        Some(there) => match value(s, index, room) {
            Ok(v) => Ok(Located {
                at: Some(within(there, Part::Element(v.bits()))?),
                base,
                vector,
            }),
            Err(stop) => Err(stop),
        },
    }
}
