//! Laws that cite the definitions.
ghost use Rattle.std.specs.Prelude.{◌≡◌, [], ◌∷◌, Some, None};
ghost use Rattle.scc_base.specs.declared.code.Code.TheVariants as reason;
ghost use Rattle.scc_bits_kinds.specs.declared.kind.Kind.TheVariants as kind;
ghost use Rattle.scc_templates_spec.specs.Walk as walk;
ghost use Rattle.scc_templates_spec.specs.Walked.{fault};
ghost use Rattle.scc_templates_spec.specs.Statements.{End};
ghost use Rattle.scc_templates_spec.specs.WorkedSource.{at};
ghost use Rattle.scc_core_spec.specs.Resolved.{Stopped};
ghost use Rattle.scc_core_spec.specs.First.{refused};
ghost use Rattle.scc_plain_spec.specs.Numbers.{int};
ghost use Rattle.scc_plain_spec.specs.Worked.{here};
ghost use Rattle.scc_plain_spec.specs.WorkedProgram.{program_by, body_by};
ghost use Rattle.scc_plain_spec.specs.WorkedTemplates.{args, named, literal as literal_tree};
ghost use Rattle.scc_plain_worked.specs.WorkedMaking.{takes_number, makes_object, makes_vector, object_code, begun_by, begun_code, inits_by};
ghost use Rattle.scc_plain_worked.specs.WorkedBits.{gives, complement, bit, bit_read, element, cast, bit_term, read_term, element_term, complemented, promoted};
ghost use Rattle.scc_plain_worked.specs.WorkedChosen.{chosen as source_with, written_number, inside, beside, called_by_class, class_code, instance_by};

/// The arguments of a class that is asked for are converted as if they were written.
#[tactic(auto, unfolding(scc_templates_spec::specs::Stage::staged_from))]
pub fn arguments_are_taken_as_if_written()
    ensures class { (instance_by (args 8)).value ≡ Some (record { class = 0; args = args 8 }) }
    ensures converted { (instance_by (walk.Cons (walk.Value (kind.Uint 8) 8) walk.Nil)).value ≡ Some (record { class = 0; args = args 8 }) }
    ensures range { instance_by (walk.Cons (walk.Value (kind.Uint 33) 4294967296) walk.Nil) ≡ fault reason.ConstRange here }
    ensures sort { instance_by (walk.Cons (walk.Sort int) walk.Nil) ≡ fault reason.Arguments here }
    ensures more { instance_by (walk.Cons (walk.Value int 8) (args 8)) ≡ fault reason.Arguments here }
{}

/// A vector makes its elements without arguments; the call of an argument of an initialiser stands there, though the name has no effect.
#[tactic(auto, unfolding(scc_templates_spec::specs::Stage::staged_from))]
pub fn objects_are_made()
    ensures object { body_by (program_by (makes_object takes_number (Some End)) 21) 0 ≡ Some object_code }
    ensures elements { program_by (makes_vector takes_number (Some End)) 21 ≡ Stopped (refused reason.Mismatch (at 5)) }
    ensures bodiless { program_by (makes_vector [] None) 21 ≡ Stopped (refused reason.UnknownName (at 6)) }
    ensures begins { inits_by (program_by (begun_by (Some 23)) 20) 1 ≡ Some begun_code }
    ensures module_name { inits_by (program_by (begun_by None) 20) 1 ≡ Some begun_code }
{}

/// Of the bodies for equal arguments, inside a specialisation and outside, the first in the text counts; a body for equal arguments goes before that of the template.
#[tactic(auto, unfolding(scc_templates_spec::specs::Stage::staged_from))]
pub fn the_first_body_counts()
    ensures inner { body_by (program_by (source_with (inside ∷ beside ∷ [])) 21) 0 ≡ Some (written_number 1) }
    ensures outer { body_by (program_by (source_with (beside ∷ inside ∷ [])) 21) 0 ≡ Some (written_number 2) }
    ensures exact { body_by (program_by (source_with (beside ∷ [])) 21) 0 ≡ Some (written_number 2) }
    ensures template { body_by (program_by (source_with []) 21) 0 ≡ Some (written_number 0) }
{}

/// A function that uses no object is called by its class's name; one that uses it is refused there.
#[tactic(auto, unfolding(scc_templates_spec::specs::Stage::staged_from))]
pub fn functions_are_called_by_their_class()
    ensures called { body_by (program_by (called_by_class (literal_tree 1)) 20) 1 ≡ Some class_code }
    ensures object { program_by (called_by_class (named 29)) 20 ≡ Stopped (refused reason.Mismatch (at 5)) }
{}

/// `~` of a bit-select, of a variable or of what a port shows, is its complement, a `bool`; an element of an array and what a cast makes of a bit are promoted.
#[tactic(auto, unfolding(scc_templates_spec::specs::Stage::staged_from))]
pub fn a_bit_has_a_complement()
    ensures variable { body_by (program_by (gives (complement bit)) 20) 0 ≡ Some (complemented bit_term) }
    ensures port { body_by (program_by (gives (complement bit_read)) 20) 0 ≡ Some (complemented read_term) }
    ensures element { body_by (program_by (gives (complement element)) 20) 0 ≡ Some (promoted element_term) }
    ensures cast { body_by (program_by (gives (complement cast)) 20) 0 ≡ Some (promoted bit_term) }
{}
