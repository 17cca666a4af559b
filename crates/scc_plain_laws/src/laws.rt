//! Laws of accepted sources.
ghost use Rattle.std.specs.Prelude.{◌≡◌, ℕ, Bool, List, None, Some};
ghost use Rattle.scc_tree.specs.declared.item.FileTree.{FileTree};
ghost use Rattle.scc_semantics.specs.Process.{State};
ghost use Rattle.scc_semantics.specs.Start.{IsStart};
ghost use Rattle.scc_core_spec.specs.Resolved.{Made};
ghost use Rattle.scc_semantics.specs.Location.{Location};
ghost use Rattle.scc_core_spec.specs.Constants.{constants_of};
ghost use Rattle.scc_core_spec.specs.Source.{Home};
ghost use Rattle.scc_base.specs.declared.refusal.Place.{Place};
ghost use Rattle.scc_bits_kinds.specs.declared.kind.Kind.{Kind};
ghost use Rattle.scc_bits_kinds.specs.declared.op.Op.{Op};
ghost use Rattle.scc_elab_spec.specs.Typed.{IsTyped};
ghost use Rattle.scc_plain_spec.specs.Drafts.{Draft, operate, operate_one, cast, choose, concat};
ghost use Rattle.scc_plain_spec.specs.Meant.{Meant, taken, indexed, followed, addressed};
ghost use Rattle.scc_plain_spec.specs.Forms.{Loc};
ghost use Rattle.scc_templates_spec.specs.World.{Owner};
ghost use Rattle.scc_plain_laws.specs.DraftsTyped.{AllTyped};
ghost use Rattle.scc_plain_laws.specs.MeantTyped.{IsTypedLoc, IsTypedMeant};
ghost use Rattle.scc_plain_spec.specs.Designs.{Compiled, compiled, any_home, design_in};

/// The design of each accepted source has a start, so that what is promised of all starts is about something.
pub fn an_accepted_source_has_a_start()
    ensures { (many : Bool) (tree : FileTree) (top : ℕ) (c : Compiled) → compiled many tree top ≡ Some (Made c) → (s : State) × IsStart (design_in c) s }
{}

/// What is constant in an accepted source doesn't turn on the places that stand for locals.
pub fn constants_are_those_of_any_home()
    ensures { (many : Bool) (tree : FileTree) (top : ℕ) (c : Compiled) → compiled many tree top ≡ Some (Made c) → (home : Home) (l : Location) → constants_of home c.core l ≡ constants_of any_home c.core l }
{}

/// The stages after the grammar have an answer for each source and top: a program that the static stage doesn't refuse has its top, whose constructor is run.
pub fn the_stages_answer()
    ensures { (many : Bool) (tree : FileTree) (top : ℕ) → compiled many tree top ≡ None → ⊥ }
{}

/// Operators of expressions have the kinds that they say: what is made by an operator, a cast, a choice or a concatenation of expressions in which they do.
pub fn operators_have_the_kinds_that_they_say()
    ensures two { (p at : Place) (o : Op) (a b x : Draft) → IsTyped a.term → IsTyped b.term → (operate p at o a b).value ≡ Some x → IsTyped x.term }
    ensures one { (p : Place) (o : Op) (a x : Draft) → IsTyped a.term → (operate_one p o a).value ≡ Some x → IsTyped x.term }
    ensures cast { (p : Place) (k : Kind) (a x : Draft) → IsTyped a.term → (cast p k a).value ≡ Some x → IsTyped x.term }
    ensures choice { (p : Place) (test a b x : Draft) → IsTyped test.term → IsTyped a.term → IsTyped b.term → (choose p test a b).value ≡ Some x → IsTyped x.term }
    ensures joined { (p : Place) (xs : List Draft) (x : Draft) → AllTyped xs → (concat p xs).value ≡ Some x → IsTyped x.term }
{}

/// So it is with the value of what an expression means, with its elements and bits, with its address, and with what it leads to.
pub fn values_elements_and_bits_have_the_kinds_that_they_say()
    ensures value { (p : Place) (m : Meant) (x : Draft) → IsTypedMeant m → (taken p m).value ≡ Some x → IsTyped x.term }
    ensures element { (p : Place) (m : Meant) (i : Draft) (n : Meant) → IsTypedMeant m → IsTyped i.term → (indexed p m i).value ≡ Some n → IsTypedMeant n }
    ensures behind { (p : Place) (o : Owner) (m : Meant) (l : Loc) → IsTypedMeant m → (followed p o m).value ≡ Some l → IsTypedLoc l }
    ensures address { (p : Place) (m n : Meant) → IsTypedMeant m → (addressed p m).value ≡ Some n → IsTypedMeant n }
{}
