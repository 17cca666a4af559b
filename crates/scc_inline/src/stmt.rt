//! Copies of statements, calls by their bodies.
ghost use Rattle.std.specs.Prelude.{◌≡◌, ℕ, List, ◌∷◌, false, IfErr, IfOk, OnOk};
ghost use Rattle.std.specs.List.{list_any};
ghost use Rattle.scc_core_spec.specs.Program.{Cell as CellOf};
ghost use Rattle.scc_elab_spec.specs.Numbering.{first_locals, result_root, whole_local};
ghost use Rattle.scc_elab_spec.specs.Program.{Plain as ProgramOf};
ghost use Rattle.scc_plain_view.specs.Plains.{function_of};
ghost use Rattle.scc_plain_view.specs.Terms.{left_of};
ghost use Rattle.scc_semantics.specs.Location as location;
ghost use Rattle.scc_semantics.specs.Location.{Root, same_root};
ghost use Rattle.scc_inline.specs.Named.{IsFresh, IsHere, IsKept, Stands, added, one_more};
ghost use Rattle.scc_inline.specs.Begun.{Keeps};
ghost use Rattle.scc_inline.specs.Refusals.{MayChoose};

use crate::scope::{Growing, Here, Scope, This};
use scc_base::{Boxed, Code, List, NoMemory, Place, Stop, lost};
use scc_core::{
    CoreBase, CoreExpr, CoreLeft, CoreNode, CorePart, CoreStmt, Count, Pointed, deeper, pointers,
};
use scc_inline_facts::{alone, facts_at};
use scc_plain_tree::{
    PlainArg, PlainCount, PlainExpr, PlainFunction, PlainLeft, PlainNode, PlainStmt, PlainTarget,
    Reach,
};

// A call up to its body.
#[derive(Drop)]
struct Begun {
    // The copy of the function.
    child: Scope,
    // What is set before its body.
    before: List<CoreStmt>,
    // Whether it is on the caller's own object.
    same: bool,
}

impl Growing {
    /// The copied body of a function; then the locals that it doesn't declare get their numbers.
    #[cycle(copied)]
    pub fn body(
        &mut self,
        scope: &mut Scope,
        here: &Here,
        room: u32,
    ) -> Result<List<CoreStmt>, Stop>
        ensures stop { IfErr result MayChoose }
        ensures keeps { OnOk result (Keeps self.old self.new) }
    {
        let body = self.stmts(here.function.body.as_slice(), scope, here, room, 0)?;
        self.give_rest(scope, here.function)?;
        Ok(body)
    }

    // The copies of some statements, inside so many open blocks of the function.
    #[cycle(copied)]
    fn stmts(
        &mut self,
        list: &[PlainStmt],
        scope: &mut Scope,
        here: &Here,
        room: u32,
        depth: u32,
    ) -> Result<List<CoreStmt>, Stop>
        ensures stop { IfErr result MayChoose }
        ensures keeps { OnOk result (Keeps self.old self.new) }
    {
        let room = deeper(room)?;
        let mut out = List::new(self.alloc);
        for s in list {
            match &s.node {
                PlainNode::Declare(local) => self.declare(*local, scope, here, s.place, &mut out)?,
                PlainNode::Return(value) => {
                    if let Some(value) = value {
                        self.answer(value, scope, here, s.place, &mut out)?;
                    }
                    out.push(at(s.place, CoreNode::Exit(depth)))?;
                }
                _ => {
                    let node = self.node(s, scope, here, room, depth)?;
                    out.push(at(s.place, node))?;
                }
            }
        }
        Ok(out)
    }

    // What a `return` sets the result to.
    #[inline(never)]
    fn answer(
        &self,
        value: &PlainExpr,
        scope: &Scope,
        here: &Here,
        place: Place,
        out: &mut List<CoreStmt>,
    ) -> Result<(), NoMemory> {
        let value = self.expr(value, scope, here)?;
        let answer = scope.answer.ok_or(lost())?;
        out.push(self.assign(place, answer, value))
    }

    // The copy of a statement that stays one. The arms are functions of their own, so that the frames of 1,024 nested calls
    // fit the stack.
    #[cycle(copied)]
    #[inline(never)]
    fn node(
        &mut self,
        s: &PlainStmt,
        scope: &mut Scope,
        here: &Here,
        room: u32,
        depth: u32,
    ) -> Result<CoreNode, Stop>
        ensures stop { IfErr result MayChoose }
        ensures keeps { OnOk result (Keeps self.old self.new) }
    {
        match &s.node {
            PlainNode::Assign { left, value } => {
                self.give_whole(scope, here.function, left)?;
                Ok(self.assignment(left, value, scope, here)?)
            }
            PlainNode::Write { to, value } => Ok(self.assignment(to, value, scope, here)?),
            PlainNode::Point { left, target } => self.point(left, target, scope, here, s.place),
            PlainNode::Call { .. } => self.call(s, scope, here, room),
            PlainNode::If { test, yes, no } => {
                let test = self.expr(test, scope, here)?;
                let yes = self.stmts(yes.as_slice(), scope, here, room, depth)?;
                let no = self.stmts(no.as_slice(), scope, here, room, depth)?;
                Ok(CoreNode::If { test, yes, no })
            }
            PlainNode::Block(body) => {
                let depth = depth.saturating_add(1);
                Ok(CoreNode::Block(self.stmts(body.as_slice(), scope, here, room, depth)?))
            }
            PlainNode::Loop { count, body } => {
                self.repeat(body.as_slice(), count.as_ref(), scope, here, room, depth)
            }
            PlainNode::Exit(n) => Ok(CoreNode::Exit(*n)),
            PlainNode::Wait(n) => Ok(CoreNode::Wait { n: *n }),
            // No statement of a construction stands in a process.
            _ => Err(lost().into()),
        }
    }

    #[inline(never)]
    fn assignment(
        &self,
        left: &PlainLeft,
        value: &PlainExpr,
        scope: &Scope,
        here: &Here,
    ) -> Result<CoreNode, NoMemory> {
        let left = self.left(left, scope, here, false)?;
        let value = self.expr(value, scope, here)?;
        Ok(CoreNode::Assign { left, value })
    }

    // A loop; the counter of a counted one stands as a literal inside.
    #[cycle(copied)]
    #[inline(never)]
    fn repeat(
        &mut self,
        body: &[PlainStmt],
        count: Option<&PlainCount>,
        scope: &mut Scope,
        here: &Here,
        room: u32,
        depth: u32,
    ) -> Result<CoreNode, Stop>
        ensures stop { IfErr result MayChoose }
        ensures keeps { OnOk result (Keeps self.old self.new) }
    {
        let number = scope.next_loop();
        let may = here.facts.loops.get(number).copied().unwrap_or(false);
        let count = match count {
            Some(count) => Some(self.count(count, scope, here)?),
            None => None,
        };
        let counter = match &count {
            Some(count) if may && self.counts(count) => Some(count.cell),
            _ => None,
        };
        if let Some(counter) = counter {
            self.count_by(counter)?;
        }
        let body = self.stmts(body, scope, here, room, depth)?;
        if let Some(counter) = counter {
            self.counters.swap_remove(&counter);
        }
        Ok(CoreNode::Loop { count, body })
    }

    // Whether a count is static.
    fn counts(&self, c: &Count) -> bool {
        let known = self.known_here();
        known.value(&c.start).is_some()
            && known.value(&c.bound).is_some()
            && known.value(&c.step).is_some()
    }

    fn count(&self, c: &PlainCount, scope: &Scope, here: &Here) -> Result<Count, NoMemory> {
        Ok(Count {
            cell: scope.cell(c.counter)?,
            start: self.expr(&c.start, scope, here)?,
            compare: c.compare,
            bound: self.expr(&c.bound, scope, here)?,
            step_op: c.step_op,
            step: self.expr(&c.step, scope, here)?,
        })
    }

    // The call of a function: its result is 0 at first, its parameters are set, and its body stands after these.
    #[cycle(copied)]
    #[inline(never)]
    fn call(
        &mut self,
        s: &PlainStmt,
        scope: &mut Scope,
        here: &Here,
        room: u32,
    ) -> Result<CoreNode, Stop>
        ensures stop { IfErr result MayChoose }
        ensures keeps { OnOk result (Keeps self.old self.new) }
    {
        let PlainNode::Call { function, .. } = &s.node else {
            return Err(lost().into());
        };
        let callee = here
            .source
            .plain
            .functions
            .get(*function as usize)
            .ok_or(lost())?;
        let facts = facts_at(here.source.facts, *function)?;
        let mut begun = self.enter(s, callee, scope, here)?;
        let inner = Here {
            source: here.source,
            function: callee,
            facts,
        };
        let body = self.body(&mut begun.child, &inner, room)?;
        finished(begun, body, scope)
    }

    // A call up to its body.
    #[inline(never)]
    fn enter(
        &mut self,
        s: &PlainStmt,
        callee: &PlainFunction,
        scope: &mut Scope,
        here: &Here,
    ) -> Result<Begun, Stop>
        ensures stop { IfErr result MayChoose }
        ensures keeps { OnOk result (Keeps self.old self.new) }
    {
        let PlainNode::Call {
            number,
            object,
            args,
            ..
        } = &s.node
        else {
            return Err(lost().into());
        };
        let mut child = self.called(callee, *number, scope)?;
        let own = match object {
            Some(object) => Some(self.object(object, scope, here)?),
            None => None,
        };
        let before = self.params(args.as_slice(), callee, &child, scope, here, s.place)?;
        // A call without an object is on the same one, which the callee has for so long.
        let same = own.is_none() && callee.class.is_some();
        child.this = if same { scope.this.take() } else { own };
        Ok(Begun {
            child,
            before,
            same,
        })
    }

    // A new copy of a function, whose result and parameters have their numbers.
    #[inline(never)]
    fn called(
        &mut self,
        callee: &PlainFunction,
        call: u32,
        scope: &mut Scope,
    ) -> Result<Scope, NoMemory>
        ensures keeps { OnOk result (Keeps self.old self.new) }
        ensures names { (p : ProgramOf) (f : ℕ) (front : List CellOf) (cs : List ℕ) (i : ℕ) (roots : List Root) → IsHere p f (call ∷ cs) (function_of callee.now) → IsFresh i (call ∷ cs) roots → Stands p f front cs i self.old scope.old roots
            → IfOk result (λ child. Stands p f front (call ∷ cs) i self.new child (added (added roots (result_root i (call ∷ cs) callee.now.result)) (first_locals i (call ∷ cs) callee.now.params))) }
        ensures caller { (p : ProgramOf) (f : ℕ) (front : List CellOf) (cs : List ℕ) (i : ℕ) (roots : List Root) → IsHere p f (call ∷ cs) (function_of callee.now) → IsFresh i (call ∷ cs) roots → Stands p f front cs i self.old scope.old roots
            → OnOk result (Stands p f front cs i self.new scope.new (added (added roots (result_root i (call ∷ cs) callee.now.result)) (first_locals i (call ∷ cs) callee.now.params))) }
    {
        let mut child = Scope::new(self.alloc, callee, None)?;
        self.give_answer(callee, call, scope, &mut child)?;
        self.give_params(callee, &mut child)?;
        Ok(child)
    }

    // The result of a call gets its number and its cell.
    fn give_answer(
        &mut self,
        callee: &PlainFunction,
        call: u32,
        scope: &mut Scope,
        child: &mut Scope,
    ) -> Result<(), NoMemory>
        ensures keeps { OnOk result (Keeps self.old self.new) }
        ensures kept { OnOk result (IsKept scope.old scope.new) }
        ensures names { (p : ProgramOf) (f : ℕ) (front : List CellOf) (cs : List ℕ) (i : ℕ) (roots : List Root) → IsHere p f cs (function_of callee.now) → list_any (same_root (location.Answer i cs)) roots ≡ false
            → Stands p f front cs i self.old child.old roots → OnOk result (Stands p f front cs i self.new child.new (added roots (result_root i cs callee.now.result))) }
    {
        match callee.result {
            Some(kind) => {
                let cell = self.add_answer(callee, kind)?;
                child.answer = Some(cell);
                scope.note_answer(call, cell)
            }
            None => Ok(()),
        }
    }

    // The parameters of a function get their numbers and cells.
    fn give_params(&mut self, callee: &PlainFunction, child: &mut Scope) -> Result<(), NoMemory>
        ensures keeps { OnOk result (Keeps self.old self.new) }
        ensures names { (p : ProgramOf) (f : ℕ) (front : List CellOf) (cs : List ℕ) (i : ℕ) (roots : List Root) → IsHere p f cs (function_of callee.now) → Stands p f front cs i self.old child.old roots
            → OnOk result (Stands p f front cs i self.new child.new (added roots (first_locals i cs callee.now.params))) }
    {
        for param in 0..callee.params {
            self.give(child, callee, param)?;
        }
        Ok(())
    }

    // The object of a call, which no index that isn't static may choose.
    fn object(&self, object: &PlainLeft, scope: &Scope, here: &Here) -> Result<This, Stop>
        ensures stop { IfErr result MayChoose }
    {
        let left = self.left(object, scope, here, false)?;
        self.check(&left)?;
        let spot = match &left.base {
            CoreBase::Prefix(name) if left.parts.is_empty() => self.places.name(name),
            _ => None,
        };
        Ok(This {
            left,
            spot,
            soft: true,
        })
    }

    // What a call sets before its body.
    #[inline(never)]
    fn params(
        &self,
        args: &[PlainArg],
        callee: &PlainFunction,
        child: &Scope,
        scope: &Scope,
        here: &Here,
        place: Place,
    ) -> Result<List<CoreStmt>, Stop>
        ensures stop { IfErr result MayChoose }
    {
        let mut out = List::new(self.alloc);
        if let Some(answer) = child.answer {
            out.push(self.zero(place, answer)?)?;
        }
        for (k, arg) in args.iter().enumerate() {
            let param = callee.locals.get(k).ok_or(lost())?;
            let cell = child.cell(u32::try_from(k).map_err(|_| lost())?)?;
            match arg {
                PlainArg::Value(value) => {
                    let value = self.expr(value, scope, here)?;
                    out.push(self.assign(place, cell, value))?;
                }
                PlainArg::Target(target) => {
                    let target = self.target(target, scope, here, place)?;
                    if param.shape.reach == Reach::Reference {
                        self.check(&target)?;
                    }
                    let to = Pointed::Declared(cell);
                    out.push(at(place, CoreNode::Alias { to, target }))?;
                }
                PlainArg::ModuleName => return Err(lost().into()),
            }
        }
        Ok(out)
    }

    // Whether all indices of a location are static, the counters of the counted loops round it taken as literals.
    fn check(&self, left: &CoreLeft) -> Result<(), Stop>
        ensures stop { IfErr result MayChoose }
    {
        let known = self.known_here();
        for one in &pointers(self.alloc, left)? {
            for part in one.parts.as_slice() {
                if let CorePart::Index { at, .. } = part
                    && known.value(at).is_none()
                {
                    return Err(Stop::refused(Code::StaticIndex, left.place)); // E512
                }
            }
        }
        Ok(())
    }

    // A declaration without a value: each element is 0, or a pointer that leads nowhere.
    #[inline(never)]
    fn declare(
        &mut self,
        local: u32,
        scope: &mut Scope,
        here: &Here,
        place: Place,
        out: &mut List<CoreStmt>,
    ) -> Result<(), NoMemory>
        ensures keeps { OnOk result (Keeps self.old self.new) }
        ensures names { (p : ProgramOf) (f : ℕ) (front : List CellOf) (cs : List ℕ) (i : ℕ) (roots : List Root) → IsHere p f cs (function_of here.now.function.now) → Stands p f front cs i self.old scope.old roots
            → OnOk result (Stands p f front cs i self.new scope.new (one_more roots (location.Local i cs local))) }
    {
        self.give(scope, here.function, local)?;
        let shape = &here
            .function
            .locals
            .get(local as usize)
            .ok_or(lost())?
            .shape;
        let first = scope.cell(local)?;
        let mut count = 1u32;
        for size in shape.sizes.as_slice() {
            count = count.checked_mul(*size).ok_or(lost())?;
        }
        for k in 0..count {
            if shape.reach == Reach::Direct {
                let cell = first.checked_add(k).ok_or(lost())?;
                out.push(self.zero(place, cell)?)?;
            } else {
                out.push(at(place, CoreNode::Block(List::new(self.alloc))))?;
            }
        }
        Ok(())
    }

    // A pointer or reference is given what it leads to: at its declaration, or later.
    #[inline(never)]
    fn point(
        &mut self,
        left: &PlainLeft,
        target: &PlainTarget,
        scope: &mut Scope,
        here: &Here,
        place: Place,
    ) -> Result<CoreNode, Stop>
        ensures stop { IfErr result MayChoose }
        ensures keeps { OnOk result (Keeps self.old self.new) }
        ensures names { (p : ProgramOf) (f : ℕ) (front : List CellOf) (cs : List ℕ) (i : ℕ) (roots : List Root) → IsHere p f cs (function_of here.now.function.now) → Stands p f front cs i self.old scope.old roots
            → OnOk result (Stands p f front cs i self.new scope.new (added roots (whole_local i cs (left_of left.now)))) }
    {
        self.give_whole(scope, here.function, left)?;
        let declares = declared_by(left, scope, here)?;
        let to = match declares {
            Some(cell) => Pointed::Declared(cell),
            None => Pointed::Assigned(self.left(left, scope, here, true)?),
        };
        let target = self.target(target, scope, here, place)?;
        Ok(CoreNode::Alias { to, target })
    }

    fn target(
        &self,
        target: &PlainTarget,
        scope: &Scope,
        here: &Here,
        place: Place,
    ) -> Result<CoreLeft, NoMemory> {
        match target {
            PlainTarget::Null => Ok(CoreLeft::new(self.alloc, place, CoreBase::Null)),
            PlainTarget::Address(left) => self.left(left, scope, here, false),
            PlainTarget::Copy(left) => {
                let inner = self.left(left, scope, here, false)?;
                let base = CoreBase::Follow {
                    pointer: Boxed::new(self.alloc, inner)?,
                    soft: false,
                };
                Ok(CoreLeft::new(self.alloc, left.place, base))
            }
        }
    }

    fn assign(&self, place: Place, cell: u32, value: CoreExpr) -> CoreStmt {
        let left = CoreLeft::new(self.alloc, place, CoreBase::Cell(cell));
        at(place, CoreNode::Assign { left, value })
    }
}

// The call's statements, once its body is copied.
#[inline(never)]
fn finished(begun: Begun, body: List<CoreStmt>, scope: &mut Scope) -> Result<CoreNode, Stop>
    ensures stop { IfErr result MayChoose }
{
    let Begun {
        mut child,
        mut before,
        same,
    } = begun;
    before.append(body)?;
    if same {
        scope.this = child.this.take();
    }
    Ok(CoreNode::Block(before))
}

// The cell of a local pointer or reference whose declaration gives it what it leads to: the first statement that does,
// where it is no parameter and wasn't declared without.
fn declared_by(left: &PlainLeft, scope: &mut Scope, here: &Here) -> Result<Option<u32>, NoMemory>
    ensures { OnOk result (IsKept scope.old scope.new) }
{
    let Some(local) = alone(left) else {
        return Ok(None);
    };
    let declared = here.facts.declared.get(local as usize).copied();
    let own = local >= here.function.params && declared == Some(false);
    if own && scope.points_first(local) {
        return Ok(Some(scope.cell(local)?));
    }
    Ok(None)
}

fn at(place: Place, node: CoreNode) -> CoreStmt {
    CoreStmt { place, node }
}
