//! Laws that cite the definitions.
ghost use Rattle.std.specs.Prelude.{◌≡◌, ℕ, List, [], ◌∷◌, length, option_map, Option, Some, None, true, false};
ghost use Rattle.scc_bits_kinds.specs.declared.op.Op.TheVariants as op;
ghost use Rattle.scc_core_spec.specs.Term as core;
ghost use Rattle.scc_core_spec.specs.Code as stmt;
ghost use Rattle.scc_inline_spec.specs.Static.{inlined};
ghost use Rattle.scc_inline_spec.specs.Inlined.{copied_program, copied_body, core_cells, too_large};
ghost use Rattle.scc_elab_spec.specs.Grown.{nothing, at_path};
ghost use Rattle.scc_elab_spec.specs.Made.{built, none_given, grown_of};
ghost use Rattle.scc_elab_spec.specs.Elaborated.{elaborated};
ghost use Rattle.scc_base.specs.declared.code.Code.TheVariants as reason;
ghost use Rattle.scc_core_spec.specs.First.{refused, refused_beside};
ghost use Rattle.scc_core_spec.specs.Resolved.{and_made, made_map, Made, Stopped};
ghost use Rattle.scc_elab_spec.specs.WorkedMade.{pointers, to_vectors, past_the_end, objects_of, nodes_of, targets_of};
ghost use Rattle.scc_semantics.specs.Location.{Member, Element};
ghost use Rattle.scc_elab_spec.specs.WorkedLocals.{to_locals};
ghost use Rattle.scc_elab_spec.specs.WorkedRefused.{at, to_bits, with_port, bound_twice, with_param};
ghost use Rattle.scc_elab_spec.specs.WorkedClocks.{two_clocks, edges_of};
ghost use Rattle.scc_elab_spec.specs.WorkedChosen.{chosen, choosing};
ghost use Rattle.scc_elab_spec.specs.Started.{started};
ghost use Rattle.scc_elab_spec.specs.WorkedRun.{word_after};
ghost use Rattle.scc_elab_spec.specs.Design as design;
ghost use Rattle.scc_inline_spec.specs.Stages.{accepted, compiled};
ghost use Rattle.scc_elab_spec.specs.Common.{IsRegular, AgreesOnValues, Agrees};
ghost use Rattle.scc_elab_spec.specs.Construct.{Making};
ghost use Rattle.scc_elab_spec.specs.Worth.{Site, at_now};
ghost use Rattle.scc_elab_spec.specs.Program.{Code, End};
ghost use Rattle.scc_elab_spec.specs.Worked.{here, int, program, made, copied, load};

/// `m = pick(1) + pick(0)`: each call is copied with a result and a parameter of its own.
pub fn calls_are_copied()
    ensures cells { length (core_cells program made) ≡ 5 }
    ensures body { copied_body program made 0 (record { object = 0; function = 0; place = here; is_thread = false; senses = []; edge = None; reset = None }) ≡ copied }
    ensures size { too_large program made 0 (record { object = 0; function = 0; place = here; is_thread = false; senses = []; edge = None; reset = None }) ≡ None }
{}

/// An index that isn't static chooses no object of a call.
pub fn an_index_that_is_not_static_chooses_no_object()
    ensures { inlined chosen choosing ≡ Stopped (refused reason.StaticIndex (at 3)) }
{}

/// Nothing is refused of that program's method.
pub fn calls_are_accepted()
    ensures { inlined program made ≡ Made (copied_program program made) }
{}

/// The method with its calls goes through all stages behind construction; a top without processes through all.
pub fn the_stages_accept()
    ensures calls { and_made (inlined program made) accepted ≡ Made (copied_program program made) }
    ensures top { option_map (λ t. made_map (λ c. c.processes) t) (compiled false program) ≡ Some (Made []) }
{}
