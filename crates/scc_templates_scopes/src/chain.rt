//! The chain of instances under evaluation, which has a most (this project's profile).
ghost use Rattle.std.specs.Prelude.{◌≡◌, ◌≤◌, ◌∷◌, ◌++◌, ℕ, List, [], IfErr, None, Option, Some, false, true};
ghost use Rattle.scc_templates_scopes.specs.Chains.{IsChain, Lengthens, Within, adds, counted, held, same_held};
ghost use Rattle.scc_templates_scopes.specs.Refusals.{MayStop};

use crate::refuse::refuse;
use crate::ty::InstanceId;
use scc_base::{Code, Place, Stop};

/// The most members of a chain.
pub const CHAIN: u32 = 64;

/// The members so far: instances whose constants are evaluated, and templates whose defaults are. An instance is no
/// further member directly after itself.
#[derive(Clone, Copy)]
pub struct Chain {
    length: u32,
    last: Option<InstanceId>,
}

/// How many members an evaluation adds to a chain at most, and the first of them, where all that reach so far begin with
/// one instance. After that instance it is one less.
#[derive(Clone, Copy)]
pub struct Reach {
    most: u32,
    first: Option<InstanceId>,
}

fn is_same(a: Option<InstanceId>, b: Option<InstanceId>) -> bool
    ensures { result ≡ same_held (held a) (held b) }
{
    match (a, b) {
        (Some(a), Some(b)) => a.0 == b.0,
        _ => false,
    }
}

impl Chain {
    pub fn new() -> Chain
        ensures { IsChain result [] }
    {
        Chain {
            length: 0,
            last: None,
        }
    }

    fn longer(self, last: Option<InstanceId>, at: Place) -> Result<Chain, Stop>
        ensures stop { IfErr result MayStop }
        ensures is { (ms : List (Option ℕ)) → IsChain self ms → same_held (held last) (held self.last) ≡ false → Lengthens result (held last ∷ ms) at }
    {
        if self.length >= CHAIN {
            return refuse(Code::TemplateDepth, at); // E308
        }
        let length = self.length + 1;
        Ok(Chain { length, last })
    }

    /// The chain after which an instance stands.
    pub fn with(self, i: InstanceId, at: Place) -> Result<Chain, Stop>
        ensures stop { IfErr result MayStop }
        ensures is { (ms : List (Option ℕ)) → IsChain self ms → Lengthens result (Some i.0 ∷ ms) at }
    {
        if is_same(Some(i), self.last) {
            return Ok(self);
        }
        self.longer(Some(i), at)
    }

    /// The chain after which a template stands whose defaults are worked out.
    pub fn filling(self, at: Place) -> Result<Chain, Stop>
        ensures stop { IfErr result MayStop }
        ensures is { (ms : List (Option ℕ)) → IsChain self ms → Lengthens result (None ∷ ms) at }
    {
        self.longer(None, at)
    }

    /// Whether there is room for what an evaluation adds.
    pub fn holds(self, reach: Reach) -> bool
        ensures { (ms xs : List (Option ℕ)) → IsChain self ms → Within reach xs → result ≡ true → counted (xs ++ ms) ≤ 64 }
    {
        match self.length.checked_add(reach.behind(self.last)) {
            Some(length) => length <= CHAIN,
            None => false,
        }
    }
}

impl Reach {
    pub fn new() -> Reach
        ensures { Within result [] }
    {
        Reach {
            most: 0,
            first: None,
        }
    }

    // What it adds after a member.
    fn behind(self, last: Option<InstanceId>) -> u32
        ensures { result ≡ adds self (held last) }
    {
        if is_same(self.first, last) {
            self.most.saturating_sub(1)
        } else {
            self.most
        }
    }

    /// What a member adds in which this is evaluated; a template has no number.
    pub fn of(self, member: Option<InstanceId>) -> Reach
        ensures { (xs : List (Option ℕ)) → Within self xs → Within result (xs ++ held member ∷ []) }
    {
        Reach {
            most: self.behind(member).saturating_add(1),
            first: member,
        }
    }

    /// What both add.
    pub fn or(self, other: Reach) -> Reach
        ensures first { (xs : List (Option ℕ)) → Within self xs → Within result xs }
        ensures second { (xs : List (Option ℕ)) → Within other xs → Within result xs }
    {
        if other.most < self.most {
            return self;
        }
        if self.most < other.most {
            return other;
        }
        let first = if is_same(self.first, other.first) {
            self.first
        } else {
            None
        };
        Reach {
            most: self.most,
            first,
        }
    }
}
