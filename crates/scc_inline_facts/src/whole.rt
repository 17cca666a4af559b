//! Locals that locations name as a whole.
ghost use Rattle.std.specs.Prelude.{◌≡◌, ℕ, List};
ghost use Rattle.scc_base.specs.declared.refusal.Place.{Place};
ghost use Rattle.scc_elab_spec.specs.Numbering.{whole_local};
ghost use Rattle.scc_elab_spec.specs.Term.{Left};
ghost use Rattle.scc_plain_view.specs.Terms.{left_of};
ghost use Rattle.scc_inline_facts.specs.Whole.{base_of, root_of, step_of};

use scc_plain_tree::{PlainBase, PlainLeft, PlainPart};

/// The local that a location names as a whole, bits of it aside.
pub fn alone(left: &PlainLeft) -> Option<u32>
    ensures { (i : ℕ) (cs : List ℕ) → root_of i cs result ≡ whole_local i cs (left_of left.now) }
{
    match left.parts.as_slice().split_last() {
        Some((part, _)) => within(part),
        None => local_of(&left.base),
    }
}

// A part of something is no local.
fn within(part: &PlainPart) -> Option<u32>
    ensures { (i : ℕ) (cs : List ℕ) (l : Left) → root_of i cs result ≡ whole_local i cs (step_of part.now l) }
{
    match part {
        PlainPart::Member(_) => None,
        PlainPart::Index(_) => None,
    }
}

fn local_of(base: &PlainBase) -> Option<u32>
    ensures { (i : ℕ) (cs : List ℕ) (p : Place) → root_of i cs result ≡ whole_local i cs (base_of base.now p) }
{
    match base {
        PlainBase::Local(local) => Some(*local),
        PlainBase::This => None,
        PlainBase::Answer(_) => None,
        PlainBase::Follow(_) => None,
    }
}
