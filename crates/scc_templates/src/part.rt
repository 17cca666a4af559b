//! What stands after an expression: indices, members and calls. No constant has bits to pick or functions of its own to
//! call, but numbers have the calls of the language.
ghost use Rattle.std.specs.Prelude.{IfErr};
ghost use Rattle.scc_templates_scopes.specs.Refusals.{MayStop};

use crate::bodies::FunctionKey;
use crate::expression::converted;
use crate::session::Templates;
use crate::task::{BodyTask, Scope, Tasks, ValueTask};
use scc_base::{Code, Name, Place, Stop, lost};
use scc_bits::{Kind, Op, Value, has_bits};
use scc_templates_scopes::kinds::INT;
use scc_templates_scopes::operator::operate_one;
use scc_templates_scopes::refuse::{gone, refuse};
use scc_templates_scopes::ty::InstanceId;
use scc_tree::{Expr, ExprNode, Part, PartNode};

/// What an expression names before it is taken as a value.
#[derive(Clone, Copy)]
pub(crate) enum Thing {
    Value(Value),
    /// A function, with the place of its name.
    Function {
        scope: Option<InstanceId>,
        name: Name,
        place: Place,
    },
    /// The name of a call of the language, on a number.
    Method {
        name: Name,
        of: Value,
    },
    /// What is no value and has no parts.
    Other,
}

// The calls of the language by the numbers of their names.
const READ: u32 = 0;

const RANGE: u32 = 5;

const AND_REDUCE: u32 = 6;

const OR_REDUCE: u32 = 7;

const XOR_REDUCE: u32 = 8;

const TO_INT: u32 = 9;

const TO_UINT: u32 = 10;

const TO_INT64: u32 = 11;

const TO_UINT64: u32 = 12;

fn native(bits: u8, signed: bool) -> Kind {
    Kind::Native { bits, signed }
}

/// The answer of a call of the language without arguments (IEEE 1666-2011, section 7.2: reductions and conversions).
fn method(name: Name, of: Value, place: Place) -> Result<Value, Stop>
    ensures stop { IfErr result MayStop }
{
    if !has_bits(of.kind()) {
        return refuse(Code::Mismatch, place); // E304
    }
    match name.0 {
        AND_REDUCE => operate_one(Op::AndReduce, of, place),
        OR_REDUCE => operate_one(Op::OrReduce, of, place),
        XOR_REDUCE => operate_one(Op::XorReduce, of, place),
        TO_INT => converted(of, INT, place),
        TO_UINT => converted(of, native(32, false), place),
        TO_INT64 => converted(of, native(64, true), place),
        TO_UINT64 => converted(of, native(64, false), place),
        _ => refuse(Code::Mismatch, place),
    }
}

impl Templates {
    pub(crate) fn parts<'t>(
        &mut self,
        at: Scope,
        parts: &'t [Part],
        place: Place,
        tasks: &mut Tasks<'t>,
    ) -> Result<(), Stop>
        ensures stop { IfErr result MayStop }
    {
        let Some((part, rest)) = parts.split_first() else {
            return Ok(());
        };
        let of = self.thing.ok_or(lost())?;
        tasks.value(ValueTask::Parts { at, rest, place })?;
        match &part.node {
            PartNode::Index(e) => {
                tasks.value(ValueTask::Mismatch(place))?;
                tasks.demand(at, e)?;
                Ok(())
            }
            PartNode::Member(name) => self.dot(of, *name, part.place, place),
            PartNode::Arrow(_) => refuse(Code::Mismatch, place),
            PartNode::Call(args) => self.call(of, at, args.as_slice(), place, tasks),
        }
    }

    // `.name`.
    fn dot(&mut self, of: Thing, name: Name, own: Place, place: Place) -> Result<(), Stop>
        ensures stop { IfErr result MayStop }
    {
        let Thing::Value(of) = of else {
            return refuse(Code::Mismatch, place);
        };
        if TO_UINT64 < name.0 {
            return refuse(Code::UnknownName, own); // E301
        }
        self.thing = Some(Thing::Method { name, of });
        Ok(())
    }

    fn call<'t>(
        &mut self,
        of: Thing,
        at: Scope,
        args: &'t [Expr],
        place: Place,
        tasks: &mut Tasks<'t>,
    ) -> Result<(), Stop>
        ensures stop { IfErr result MayStop }
    {
        match of {
            Thing::Function {
                scope,
                name,
                place: own,
            } => {
                tasks.value(ValueTask::Called { name: own, place })?;
                let constructor = false;
                let f = FunctionKey {
                    scope,
                    name,
                    constructor,
                };
                tasks.body(BodyTask::Find { f, place: own })?;
                Ok(())
            }
            Thing::Method { name, of } => self.method(name, of, at, args, place, tasks),
            Thing::Value(_) => {
                let takes_range = args.len() == 2;
                no_call(takes_range, at, args, place, tasks)
            }
            Thing::Other => no_call(false, at, args, place, tasks),
        }
    }

    // A call of the language.
    fn method<'t>(
        &mut self,
        name: Name,
        of: Value,
        at: Scope,
        args: &'t [Expr],
        place: Place,
        tasks: &mut Tasks<'t>,
    ) -> Result<(), Stop>
        ensures stop { IfErr result MayStop }
    {
        if READ < name.0 && name.0 < RANGE {
            // These stand as statements alone, and there their arguments are looked at.
            self.thing = Some(Thing::Other);
            return Ok(());
        }
        if name.0 == RANGE {
            let takes_range = args.len() == 2;
            return no_call(takes_range, at, args, place, tasks);
        }
        if args.len() != 0 {
            return no_call(false, at, args, place, tasks);
        }
        self.give(method(name, of, place)?)
    }

    /// Arguments that nothing takes.
    pub(crate) fn arguments<'t>(
        &mut self,
        at: Scope,
        args: &'t [Expr],
        tasks: &mut Tasks<'t>,
    ) -> Result<(), Stop>
        ensures stop { IfErr result MayStop }
    {
        let Some((e, rest)) = args.split_first() else {
            return Ok(());
        };
        tasks.value(ValueTask::Arguments { at, rest })?;
        match e.node.get() {
            ExprNode::Make { ty: _, args } => {
                let rest = args.as_slice();
                tasks.value(ValueTask::Arguments { at, rest })?;
            }
            ExprNode::Text => {}
            _ => tasks.value(ValueTask::Thing { at, e })?,
        }
        Ok(())
    }

    /// The ends of a range of bits.
    pub(crate) fn bounds<'t>(
        &mut self,
        at: Scope,
        args: &'t [Expr],
        tasks: &mut Tasks<'t>,
    ) -> Result<(), Stop>
        ensures stop { IfErr result MayStop }
    {
        let Some((e, rest)) = args.split_first() else {
            return Ok(());
        };
        tasks.value(ValueTask::Bounds { at, rest })?;
        tasks.demand(at, e)?;
        Ok(())
    }

    /// A call of a function, whose body was looked for.
    pub(crate) fn called<T>(&mut self, name: Place, place: Place) -> Result<T, Stop>
        ensures stop { IfErr result MayStop }
    {
        match self.body {
            None => refuse(Code::UnknownName, name),
            Some(_) => refuse(Code::NotConstant, place), // E305
        }
    }

    /// The thing as a value, at last.
    pub(crate) fn answer(&self) -> Result<Value, Stop>
        ensures stop { IfErr result MayStop }
    {
        match self.thing {
            Some(Thing::Value(v)) => Ok(v),
            _ => gone(),
        }
    }
}

// Brackets that call nothing: their arguments are looked at first.
fn no_call<'t>(
    takes_range: bool,
    at: Scope,
    args: &'t [Expr],
    place: Place,
    tasks: &mut Tasks<'t>,
) -> Result<(), Stop>
    ensures stop { IfErr result MayStop }
{
    let rest = args;
    tasks.value(ValueTask::Mismatch(place))?;
    if takes_range {
        tasks.value(ValueTask::Bounds { at, rest })?;
    } else {
        tasks.value(ValueTask::Arguments { at, rest })?;
    }
    Ok(())
}
