//! Laws that cite the definitions.
ghost use Rattle.std.specs.Prelude.{◌≡◌, ℕ, Bool, [], ◌∷◌, map, true, false, Some};
ghost use Rattle.scc_base.specs.declared.code.Code.TheVariants as reason;
ghost use Rattle.scc_bits_kinds.specs.declared.op.Op.TheVariants as op;
ghost use Rattle.scc_bits_kinds.specs.declared.kind.Kind.TheVariants as kind;
ghost use Rattle.scc_tree.specs.declared.item.FileTree.{FileTree};
ghost use Rattle.scc_tree.specs.declared.ty.Family.TheVariants as family;
ghost use Rattle.scc_templates_spec.specs.Walked.{pure, fault};
ghost use Rattle.scc_templates_spec.specs.SourceView.{source_of};
ghost use Rattle.scc_plain_spec.specs.Numbers.{int, number, operated, concatenated, chosen};
ghost use Rattle.scc_plain_spec.specs.Types.{sized, one, OfNumber};
ghost use Rattle.scc_templates_spec.specs.Statements.{End};
ghost use Rattle.scc_plain_spec.specs.Bodies.{body};
ghost use Rattle.scc_plain_spec.specs.Switch.{start};
ghost use Rattle.scc_plain_spec.specs.Room.{no_room, nothing};
ghost use Rattle.scc_semantics.specs.Location as location;
ghost use Rattle.scc_inline_spec.specs.Inlined.{home_of};
ghost use Rattle.scc_elab_spec.specs.Worked.{program as calling, made as called};
ghost use Rattle.scc_core_spec.specs.Resolved.{Made, Stopped};
ghost use Rattle.scc_core_spec.specs.First.{refused, refused_beside};
ghost use Rattle.scc_plain_spec.specs.Program.{program_of};
ghost use Rattle.scc_plain_spec.specs.Designs.{Compiled, compiled, design_in, first_refusal, IsDesignOf};
ghost use Rattle.scc_plain_spec.specs.Asked.{constant_of, instance_of, value_in};
ghost use Rattle.scc_base.specs.declared.refusal.Refusal.{Refusal};
ghost use Rattle.scc_plain_spec.specs.Scope.{Number_};
ghost use Rattle.scc_plain_spec.specs.WorkedProgram.{program_by, body_by, bare, bare_program, second};
ghost use Rattle.scc_plain_spec.specs.WorkedTemplates.{templated, body as hiding_body, hidden, counting, args, named, literal as literal_tree};
ghost use Rattle.scc_plain_spec.specs.WorkedBodies.{with_body, for_body, for_code, switch_body, switch_code, late_body, call_body, call_code, endless_body, twice_body, wait_body, width_body, break_body};
ghost use Rattle.scc_plain_spec.specs.WorkedScopes.{scoped_body, scoped_code, asking};
ghost use Rattle.scc_plain_spec.specs.WorkedConstructors.{constructing, constructed};
ghost use Rattle.scc_templates_spec.specs.WorkedSource.{at, both};
ghost use Rattle.scc_plain_spec.specs.Worked.{here, loaded, sum, nowhere, unasked, around};
ghost use Rattle.scc_plain_spec.specs.Names.{file_names};
ghost use Rattle.scc_plain_spec.specs.Drafts.{literal, operate, concat};
ghost use Rattle.scc_plain_spec.specs.Meant.{Valued, indexed};
ghost use Rattle.scc_templates_spec.specs.World.{Constant, File, In};
ghost use Rattle.scc_plain_spec.specs.Keys.{behind_chain};

/// An `int` 3 beside a `sc_biguint<8>` counts as a number of two bits; a division by 0 and a sum with a bit vector are refused; two parts are one number.
pub fn constants_are_computed()
    ensures sum { operated here op.Add (number (kind.Big 8) 250) (number int 3) ≡ pure (number (kind.Wide 9 false) 253) }
    ensures divisor { operated here op.Div (number int 3) (number int 0) ≡ fault reason.Divisor here }
    ensures row { operated here op.Add (number (kind.Bv 8) 3) (number int 0) ≡ fault reason.Mismatch here }
    ensures parts { concatenated here (number (kind.Uint 4) 10 ∷ number (kind.Uint 4) 5 ∷ []) ≡ pure (number (kind.Uint 8) 165) }
    ensures choice { chosen here true (number int 3) (number kind.Bool 1) ≡ pure (number int 3) }
{}

/// `sc_uint` has 1 to 64 bits.
pub fn widths_are_bounded()
    ensures most { sized here family.Uint (number int 64) ≡ pure (one (OfNumber (kind.Uint 64))) }
    ensures more { sized here family.Uint (number int 65) ≡ fault reason.Width here }
    ensures none { sized here family.Uint (number int 0) ≡ fault reason.Width here }
    ensures file { file_names (record { items = []; end = here }) ≡ [] }
{}

/// A file without declarations has no constants.
pub fn what_is_not_declared_means_nothing()
    ensures { behind_chain (record { items = []; end = here }) 1 [] (Constant File 0 0) here ≡ fault reason.UnknownName here }
{}

/// A sum of two numbers has no conversions of its own; an `int` is no part of a concatenation; the number 3 has no bits that are named.
pub fn expressions_have_kinds()
    ensures sum { operate here here op.Add (loaded int) (literal here (number (kind.Uint 8) 1)) ≡ pure sum }
    ensures beside { (concat here (literal here (number (kind.Uint 8) 1) ∷ loaded int ∷ [])) ≡ fault reason.Mismatch here }
    ensures bit { indexed here (Valued (literal here (number int 3))) (literal here (number int 0)) ≡ fault reason.Mismatch here }
{}

/// Nothing is written of no statements.
pub fn no_statements_write_nothing()
    ensures nothing { (body nowhere unasked around start [] End no_room).value ≡ Some (record { it = nothing; room = no_room }) }
{}

/// A class without members is a program; a top that nothing declares is refused at the end, and a name that is declared twice before all.
#[tactic(auto, unfolding(scc_templates_spec::specs::Stage::staged_from))]
pub fn a_top_is_a_program()
    ensures program { program_by bare 20 ≡ Made bare_program }
    ensures unknown { program_by bare 21 ≡ Stopped (refused reason.UnknownName (at 9)) }
    ensures stopped { program_by both 20 ≡ Stopped second }
{}

/// A parameter is replaced up to a local variable of its name; a specialisation goes before its template.
#[tactic(auto, unfolding(scc_templates_spec::specs::Stage::staged_from))]
pub fn templates_are_substituted()
    ensures constant { (behind_chain counting 12 [] (Constant (In 0 (args 2)) 0 0) here).value ≡ Some (Number_ (number int 1)) }
    ensures hides { program_by (templated hiding_body) 21 ≡ Made hidden }
{}

/// A loop that counts, a `switch` with a label behind `default`, a call before its statement; and a call in a loop's head, which is refused before what stands behind it.
#[tactic(auto, unfolding(scc_templates_spec::specs::Stage::staged_from))]
pub fn bodies_are_written()
    ensures loops { body_by (program_by (with_body for_body) 20) 1 ≡ Some for_code }
    ensures switches { body_by (program_by (with_body switch_body) 20) 1 ≡ Some switch_code }
    ensures calls { body_by (program_by (with_body call_body) 20) 1 ≡ Some call_code }
    ensures late { program_by (with_body late_body) 20 ≡ Stopped (refused reason.CallPlace (at 5)) }
{}

/// What the static stage refuses is refused first, and then there is no design.
pub fn what_is_refused_has_no_design()
    ensures refused { (many : Bool) (t : FileTree) (top : ℕ) (r : Refusal) → program_of (source_of t) top ≡ Stopped r → first_refusal many t top ≡ Some r }
    ensures design { (many : Bool) (t : FileTree) (top : ℕ) (c : Compiled) → compiled many t top ≡ Some (Made c) → IsDesignOf many t top (design_in c) }
{}

/// A constant is asked for in its scope, a class with its arguments.
pub fn constants_and_classes_are_asked_for()
    ensures constant { value_in counting (behind_chain counting 12 []) File (literal_tree 3) ≡ pure (number int 3) }
    ensures asked { constant_of counting File (literal_tree 3) ≡ pure (number int 3) }
    ensures none { instance_of nowhere 0 (args 1) here ≡ fault reason.UnknownName here }
{}

/// A constructor with an initialiser, a process and its sensitivity; a method that writes a port.
#[tactic(auto, unfolding(scc_templates_spec::specs::Stage::staged_from))]
pub fn constructors_are_written()
    ensures { program_by constructing 20 ≡ Made constructed }
{}

/// What is refused of bodies, and where.
#[tactic(auto, unfolding(scc_templates_spec::specs::Stage::staged_from))]
pub fn wrong_bodies_are_refused()
    ensures recursion { program_by (with_body endless_body) 20 ≡ Stopped (refused reason.Recursion here) }
    ensures label { program_by (with_body twice_body) 20 ≡ Stopped (refused_beside reason.DuplicateName (at 6) (at 3)) }
    ensures count { program_by (with_body wait_body) 20 ≡ Stopped (refused reason.ConstRange (at 7)) }
    ensures constant { program_by (with_body width_body) 20 ≡ Stopped (refused reason.NotConstant (at 7)) }
    ensures leaves { program_by (with_body break_body) 20 ≡ Stopped (refused reason.Mismatch (at 7)) }
{}

/// A reference in the braces of a `switch` is known up to the next label; a class isn't asked for while its own specialisations are worked out.
#[tactic(auto, unfolding(scc_templates_spec::specs::Stage::staged_from))]
pub fn names_are_known_in_their_scopes()
    ensures label { body_by (program_by (templated scoped_body) 21) 0 ≡ Some scoped_code }
    ensures special { program_by asking 33 ≡ Stopped (refused reason.TemplateDepth (at 5)) }
{}

/// A process's local stands in the call that declares it: each of two calls has its result and its parameter; a number past them is no call's.
pub fn locals_stand_in_their_calls()
    ensures homes { map (home_of calling called 0) (0 ∷ 1 ∷ 2 ∷ 3 ∷ []) ≡ location.Answer 0 (0 ∷ []) ∷ location.Local 0 (0 ∷ []) 0 ∷ location.Answer 0 (1 ∷ []) ∷ location.Local 0 (1 ∷ []) 0 ∷ [] }
    ensures past { home_of calling called 0 4 ≡ location.Local 0 [] 4 }
{}
