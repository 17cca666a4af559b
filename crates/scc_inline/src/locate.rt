//! Copies of locations and expressions: names become cells as far as indices are static.
ghost use Rattle.std.specs.Prelude.{◌<◌, IfSome};
ghost use Rattle.scc_plain_tree.specs.declared.expr.PlainExpr.{size-PlainExpr};

use crate::scope::{Growing, Here, Scope};
use scc_base::{Boxed, List, NoMemory, Path, Place, lost};
use scc_core::{
    CellName, Copies, CoreBase, CoreExpr, CoreExprNode, CoreLeft, CorePart, CorePick, LEVELS,
    NameStep, Spot, deeper,
};
use scc_inline_facts::{first_base, pointers};
use scc_plain_tree::{
    Base, PlainBase, PlainExpr, PlainExprNode, PlainLeft, PlainPart, PlainPick, Reach,
};
use std::alloc::Global;
use std::mem;

// A location that is being built.
struct Draft<'a> {
    place: Place,
    base: CoreBase,
    /// Where a whole name stands among those of the cells.
    spot: Option<Spot>,
    parts: List<CorePart>,
    /// The sizes of the arrays in which it stands so far.
    sizes: &'a [u32],
    /// What stands there when the arrays are gone through.
    holds: Option<Base>,
    /// Whether it is a pointer or reference.
    pointer: bool,
}

// A location, and what stands there.
#[derive(Drop)]
struct Found {
    left: CoreLeft,
    holds: Option<Base>,
}

// One call at each exit of what owns a draft, in place of the drops of all fields.
impl Drop for Draft<'_> {
    fn drop(self) {
        let Draft {
            place: _,
            base: _base,
            spot: _,
            parts: _parts,
            sizes: _,
            holds: _,
            pointer: _,
        } = self;
    }
}

impl Draft<'_> {
    // The location of a draft: a whole name is its cell, a port below the top its root's.
    fn finished(self, g: &Growing, pick: Option<CorePick>) -> CoreLeft {
        let Draft {
            place,
            mut base,
            spot,
            parts,
            sizes: _,
            holds: _,
            pointer,
        } = self;
        let cell = match spot {
            Some(spot) if parts.is_empty() && pointer => g.places.pointer(spot),
            Some(spot) if parts.is_empty() => g.places.cell(spot),
            _ => None,
        };
        if let Some(cell) = cell {
            base = CoreBase::Cell(g.places.root(&g.cells, cell));
        }
        CoreLeft {
            place,
            base,
            parts,
            pick,
        }
    }
}

impl Growing {
    /// The location of a function's copy. A reference at its end is followed unless `raw`.
    pub fn left(
        &self,
        left: &PlainLeft,
        scope: &Scope,
        here: &Here,
        raw: bool,
    ) -> Result<CoreLeft, NoMemory> {
        self.left_in(left, scope, here, raw, LEVELS)
    }

    /// The expression of a function's copy.
    pub fn expr(&self, e: &PlainExpr, scope: &Scope, here: &Here) -> Result<CoreExpr, NoMemory> {
        self.expr_in(e, scope, here, LEVELS)
    }

    #[cycle(located)]
    fn left_in(
        &self,
        left: &PlainLeft,
        scope: &Scope,
        here: &Here,
        raw: bool,
        levels: u32,
    ) -> Result<CoreLeft, NoMemory> {
        let levels = deeper(levels)?;
        let chain = pointers(self.alloc, left)?;
        let mut outer = chain.len();
        let mut made = None;
        for one in chain.iter().rev() {
            outer = outer.saturating_sub(1);
            made = Some(self.level(one, scope, here, made, raw && outer == 0, levels)?);
        }
        match made {
            Some(Found { left, holds: _ }) => Ok(left),
            None => Err(lost()),
        }
    }

    // A location whose pointer is copied, if it has one.
    #[cycle(located)]
    fn level(
        &self,
        left: &PlainLeft,
        scope: &Scope,
        here: &Here,
        pointer: Option<Found>,
        raw: bool,
        levels: u32,
    ) -> Result<Found, NoMemory> {
        let mut draft = self.begun(left, scope, here, pointer, raw)?;
        let mut rest = left.parts.len();
        for part in left.parts.as_slice() {
            rest = rest.saturating_sub(1);
            draft = match part {
                PlainPart::Index(at) => {
                    let at = self.expr_in(at, scope, here, levels)?;
                    self.element(draft, at)?
                }
                PlainPart::Member(member) => self.member(draft, here, *member, rest > 0 || !raw)?,
            };
        }
        let pick = match &left.pick {
            Some(pick) => Some(self.pick(pick, scope, here, levels)?),
            None => None,
        };
        let holds = draft.holds;
        let left = draft.finished(self, pick);
        Ok(Found { left, holds })
    }

    // What a location begins with.
    fn begun<'a>(
        &self,
        left: &PlainLeft,
        scope: &Scope,
        here: &Here<'a>,
        pointer: Option<Found>,
        raw: bool,
    ) -> Result<Draft<'a>, NoMemory> {
        let place = left.place;
        let holds = first_base(here.function, left);
        match (&left.base, pointer) {
            (PlainBase::Local(local), _) => {
                let follow = !left.parts.is_empty() || !raw;
                self.local(*local, scope, here, place, follow)
            }
            (PlainBase::This, _) => self.this(scope, place, holds),
            (PlainBase::Answer(call), _) => {
                let cell = scope.answers.get(call).copied().ok_or(lost())?;
                Ok(drafted(self.alloc, place, CoreBase::Cell(cell), None, holds))
            }
            (PlainBase::Follow(_), Some(Found { left, holds })) => {
                let base = followed(self.alloc, left)?;
                Ok(drafted(self.alloc, place, base, None, holds))
            }
            (PlainBase::Follow(_), None) => Err(lost()),
        }
    }

    fn local<'a>(
        &self,
        local: u32,
        scope: &Scope,
        here: &Here<'a>,
        place: Place,
        follow: bool,
    ) -> Result<Draft<'a>, NoMemory> {
        let member = here.function.locals.get(local as usize).ok_or(lost())?;
        let shape = &member.shape;
        let first = scope.cell(local)?;
        let (base, spot) = if shape.sizes.is_empty() {
            (CoreBase::Cell(first), None)
        } else {
            let name = self.local_name(scope.number(local)?, member.name, List::new(self.alloc))?;
            let spot = self.places.name(&name);
            (CoreBase::Prefix(name), spot)
        };
        let mut made = drafted(self.alloc, place, base, spot, Some(shape.base));
        made.sizes = shape.sizes.as_slice();
        made.pointer = shape.reach != Reach::Direct;
        if shape.reach == Reach::Reference && follow {
            made = self.follow(made)?;
        }
        Ok(made)
    }

    // The object whose function it is.
    fn this<'a>(
        &self,
        scope: &Scope,
        place: Place,
        holds: Option<Base>,
    ) -> Result<Draft<'a>, NoMemory> {
        let alloc = self.alloc;
        let this = scope.this.as_ref().ok_or(lost())?;
        let mut copy = Copies::plain(alloc).left(&this.left)?;
        let mut base = mem::replace(&mut copy.base, CoreBase::Null);
        let parts = mem::replace(&mut copy.parts, List::new(alloc));
        if let CoreBase::Follow { soft, .. } = &mut base {
            *soft = this.soft;
        }
        let mut made = drafted(alloc, place, base, this.spot, holds);
        made.parts = parts;
        Ok(made)
    }

    // What a reference leads to.
    fn follow<'a>(&self, of: Draft<'a>) -> Result<Draft<'a>, NoMemory> {
        let place = of.place;
        let holds = of.holds;
        let sizes = of.sizes;
        let mut reference = of;
        reference.pointer = true;
        let left = reference.finished(self, None);
        let mut made = drafted(self.alloc, place, followed(self.alloc, left)?, None, holds);
        made.sizes = sizes;
        Ok(made)
    }

    // An element of what a draft names.
    fn element<'a>(&self, of: Draft<'a>, at: CoreExpr) -> Result<Draft<'a>, NoMemory> {
        let mut made = of;
        let size = match made.sizes.split_first() {
            Some((size, rest)) => {
                made.sizes = rest;
                *size
            }
            None => u32::MAX,
        };
        let whole = matches!(made.base, CoreBase::Prefix(_)) && made.parts.is_empty();
        if !whole {
            made.parts.push(CorePart::Index { size, at })?;
            return Ok(made);
        }
        let size = match made.spot {
            _ if size != u32::MAX => size,
            Some(spot) => self.places.vector(spot).unwrap_or(0),
            None => 0,
        };
        match self.known().value(&at).and_then(|v| v.small()) {
            Some(i) if i < size => {
                drop(at);
                self.extended(made, NameStep::Index(i))
            }
            _ => {
                made.parts.push(CorePart::Index { size, at })?;
                Ok(made)
            }
        }
    }

    // A member of the object that a draft names; a reference is followed where that is asked for.
    fn member<'a>(
        &self,
        of: Draft<'a>,
        here: &Here<'a>,
        number: u32,
        follow: bool,
    ) -> Result<Draft<'a>, NoMemory> {
        let Some(Base::Class(class)) = of.holds else {
            return Err(lost());
        };
        let class = here.source.plain.classes.get(class as usize).ok_or(lost())?;
        let member = class.members.get(number as usize).ok_or(lost())?;
        let mut made = of;
        if matches!(made.base, CoreBase::Prefix(_)) && made.parts.is_empty() {
            made = self.extended(made, NameStep::Member(member.name))?;
        } else {
            made.parts.push(CorePart::Member(member.name))?;
        }
        made.sizes = member.shape.sizes.as_slice();
        made.holds = Some(member.shape.base);
        made.pointer = member.shape.reach != Reach::Direct;
        if member.shape.reach == Reach::Reference && follow {
            made = self.follow(made)?;
        }
        Ok(made)
    }

    // A name with one more step.
    fn extended<'a>(&self, of: Draft<'a>, step: NameStep) -> Result<Draft<'a>, NoMemory> {
        let mut made = of;
        made.spot = made.spot.and_then(|at| self.places.step(at, step));
        if let CoreBase::Prefix(name) = &mut made.base {
            name.extend(step)?;
        }
        Ok(made)
    }

    #[cycle(located)]
    fn expr_in(
        &self,
        e: &PlainExpr,
        scope: &Scope,
        here: &Here,
        levels: u32,
    ) -> Result<CoreExpr, NoMemory> {
        let levels = deeper(levels)?;
        let mut made = None;
        for node in spine(self.alloc, e)?.iter().rev() {
            made = Some(self.over(node, scope, here, made, levels)?);
        }
        made.ok_or(lost())
    }

    // The copy of an expression whose first operand is copied, if it has one.
    #[cycle(located)]
    fn over(
        &self,
        e: &PlainExpr,
        scope: &Scope,
        here: &Here,
        first: Option<CoreExpr>,
        levels: u32,
    ) -> Result<CoreExpr, NoMemory> {
        let node = match (e.node.get(), first) {
            (PlainExprNode::Lit(word), _) => CoreExprNode::Lit(*word),
            (PlainExprNode::Load(left), _) => {
                CoreExprNode::Load(self.left_in(left, scope, here, false, levels)?)
            }
            (PlainExprNode::Read(left), _) => {
                CoreExprNode::Read(self.left_in(left, scope, here, false, levels)?)
            }
            (PlainExprNode::Join(parts), _) => {
                CoreExprNode::Join(self.list(parts.as_slice(), scope, here, levels)?)
            }
            (PlainExprNode::Convert(_), Some(of)) => CoreExprNode::Convert(of),
            (PlainExprNode::Operate { op, right, .. }, Some(left)) => {
                let right = match right {
                    Some(right) => Some(self.expr_in(right, scope, here, levels)?),
                    None => None,
                };
                CoreExprNode::Operate {
                    op: *op,
                    left,
                    right,
                }
            }
            (PlainExprNode::Choose { yes, no, .. }, Some(test)) => {
                let yes = self.expr_in(yes, scope, here, levels)?;
                let no = self.expr_in(no, scope, here, levels)?;
                CoreExprNode::Choose { test, yes, no }
            }
            (PlainExprNode::Pick { pick, .. }, Some(of)) => {
                let pick = self.pick(pick, scope, here, levels)?;
                CoreExprNode::Pick { of, pick }
            }
            (_, None) => return Err(lost()),
        };
        CoreExpr::new(self.alloc, e.place, e.kind, node)
    }

    #[cycle(located)]
    fn list(
        &self,
        list: &[PlainExpr],
        scope: &Scope,
        here: &Here,
        levels: u32,
    ) -> Result<List<CoreExpr>, NoMemory> {
        let mut made = List::new(self.alloc);
        for e in list {
            made.push(self.expr_in(e, scope, here, levels)?)?;
        }
        Ok(made)
    }

    #[cycle(located)]
    fn pick(
        &self,
        pick: &PlainPick,
        scope: &Scope,
        here: &Here,
        levels: u32,
    ) -> Result<CorePick, NoMemory> {
        match pick {
            PlainPick::Bit { of, at } => {
                let at = self.expr_in(at, scope, here, levels)?;
                Ok(CorePick::Bit { of: *of, at })
            }
            PlainPick::Range { of, h, l } => Ok(CorePick::Range {
                of: *of,
                h: *h,
                l: *l,
            }),
        }
    }
}

fn drafted<'a>(
    alloc: Global,
    place: Place,
    base: CoreBase,
    spot: Option<Spot>,
    holds: Option<Base>,
) -> Draft<'a> {
    Draft {
        place,
        base,
        spot,
        parts: List::new(alloc),
        sizes: &[],
        holds,
        pointer: false,
    }
}

fn followed(alloc: Global, left: CoreLeft) -> Result<CoreBase, NoMemory> {
    Ok(CoreBase::Follow {
        pointer: Boxed::new(alloc, left)?,
        soft: false,
    })
}

// The operand of an expression that stands first in it.
fn first_operand(e: &PlainExpr) -> Option<&PlainExpr>
    ensures { IfSome result (λ x. size-PlainExpr x.now < size-PlainExpr e.now) }
{
    match e.node.get() {
        PlainExprNode::Convert(of) => Some(of),
        PlainExprNode::Operate { left, .. } => Some(left),
        PlainExprNode::Choose { test, .. } => Some(test),
        PlainExprNode::Pick { of, .. } => Some(of),
        _ => None,
    }
}

// An expression and its first operands, from the outermost on.
fn spine(alloc: Global, e: &PlainExpr) -> Result<Vec<&PlainExpr>, NoMemory> {
    let mut found = Vec::new(alloc);
    let mut here = e;
    scc_base::push(&mut found, here)?;
    while let Some(inner) = first_operand(here) {
        here = inner;
        scc_base::push(&mut found, here)?;
    }
    Ok(found)
}
