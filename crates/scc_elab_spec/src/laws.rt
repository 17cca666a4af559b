//! Laws that cite the definitions.
ghost use Rattle.std.specs.Prelude.{◌≡◌, ℕ, List, [], ◌∷◌, length, option_map, Option, Some, None, true, false};
ghost use Rattle.scc_bits_kinds.specs.declared.op.Op.TheVariants as op;
ghost use Rattle.scc_core_spec.specs.Term as core;
ghost use Rattle.scc_core_spec.specs.Code as stmt;
ghost use Rattle.scc_elab_spec.specs.Grown.{nothing, at_path};
ghost use Rattle.scc_elab_spec.specs.Made.{built, none_given, grown_of};
ghost use Rattle.scc_elab_spec.specs.Elaborated.{elaborated};
ghost use Rattle.scc_base.specs.declared.code.Code.TheVariants as reason;
ghost use Rattle.scc_core_spec.specs.First.{refused, refused_beside};
ghost use Rattle.scc_core_spec.specs.Resolved.{and_made, made_map, Made, Stopped};
ghost use Rattle.scc_elab_spec.specs.WorkedMade.{pointers, to_vectors, past_the_end, objects_of, nodes_of, targets_of};
ghost use Rattle.scc_semantics.specs.Location.{Member, Element};
ghost use Rattle.scc_elab_spec.specs.WorkedLocals.{to_locals};
ghost use Rattle.scc_elab_spec.specs.WorkedRefused.{at, to_bits, with_port, bound_twice, with_param};
ghost use Rattle.scc_elab_spec.specs.WorkedClocks.{two_clocks, edges_of};
ghost use Rattle.scc_elab_spec.specs.WorkedChosen.{chosen, choosing};
ghost use Rattle.scc_elab_spec.specs.Started.{started};
ghost use Rattle.scc_elab_spec.specs.WorkedRun.{word_after};
ghost use Rattle.scc_elab_spec.specs.Design as design;
ghost use Rattle.scc_elab_spec.specs.Common.{IsRegular, AgreesOnValues, Agrees};
ghost use Rattle.scc_elab_spec.specs.Construct.{Making};
ghost use Rattle.scc_elab_spec.specs.Worth.{Site, at_now};
ghost use Rattle.scc_elab_spec.specs.Program.{Code, End};
ghost use Rattle.scc_elab_spec.specs.Worked.{here, int, program, made, copied, load};

/// The top of that program has its one variable, which is 0.
pub fn the_top_is_made()
    ensures { option_map (λ g. length g.objects) (grown_of (built program 2 nothing [] here 0 none_given)) ≡ Some 2 }
{}

/// Its design: the top, its variable, and no process, since its constructor declares none.
pub fn the_top_is_elaborated()
    ensures { elaborated false program ≡ Some (Made (record { objects = made.objects; processes = []; targets = []; vectors = [] })) }
{}

/// Objects are made in order, a pointer leads to what `new` makes at its path, and a member that a pointer leads to keeps what was written: 3 + 0 + 1,
/// and 4 more.
pub fn pointers_lead_to_what_is_made()
    ensures { nodes_of (elaborated false pointers) ≡ design.Module 1 ∷ design.Pointer (Some 5) ∷ design.Module 0 ∷ design.Variable int 4 ∷ design.Pointer (Some 3) ∷ design.Module 0 ∷ design.Variable int 8 ∷ [] }
{}

/// What is made for an element of an array of pointers to vectors is a vector: two pointers and three signals, and no object at the vector's own path.
pub fn an_element_leads_to_a_vector()
    ensures { nodes_of (elaborated false to_vectors) ≡ design.Module 0 ∷ design.Pointer None ∷ design.Pointer None ∷ design.Signal int ∷ design.Signal int ∷ design.Signal int ∷ [] }
{}

/// The object that a pointer is, and where it leads: to an element that no array has, since -1 is no index.
pub fn a_pointer_leads_past_the_end()
    ensures { targets_of (elaborated false past_the_end) ≡ record { object = 2; path = Member 45 ∷ Element 4294967295 ∷ [] } ∷ [] }
{}

/// A constructor writes a local of the one that made its object: n is 5.
pub fn a_parameter_leads_to_a_local()
    ensures { nodes_of (elaborated false to_locals) ≡ design.Module 1 ∷ design.Pointer (Some 3) ∷ design.Variable int 5 ∷ design.Module 0 ∷ [] }
{}

/// The index of a bit is evaluated before the value, also past the end of an array.
pub fn the_index_of_a_bit_comes_first()
    ensures inside { elaborated false (to_bits 0) ≡ Some (Stopped (refused reason.EmptyPointer (at 3))) }
    ensures past { elaborated false (to_bits 1) ≡ Some (Stopped (refused reason.EmptyPointer (at 3))) }
{}

/// A port has one binding: without one it is refused where it is declared, with a second one there, beside the first.
pub fn a_port_has_one_binding()
    ensures without { elaborated false (with_port End) ≡ Some (Stopped (refused reason.Unbound (at 5))) }
    ensures twice { elaborated false (with_port bound_twice) ≡ Some (Stopped (refused_beside reason.BoundTwice (at 7) (at 6))) }
{}

/// A top with a parameter is refused before its constructor runs, in which a wait would be refused.
pub fn a_top_has_no_parameter()
    ensures { elaborated false with_param ≡ Some (Stopped (refused reason.Constructor (at 8))) }
{}

/// A second clock is refused beside the first, unless several are allowed.
pub fn two_clocks_are_refused_unless_allowed()
    ensures one { elaborated false two_clocks ≡ Some (Stopped (refused_beside reason.ClockPort (at 4) (at 3))) }
    ensures several { edges_of (elaborated true two_clocks) ≡ Some (record { root = 1; rising = true }) ∷ Some (record { root = 2; rising = true }) ∷ [] }
{}

/// The words of a start go to signals and variables in construction order: behind a top and two pointers three signals take the three words. A pointer
/// takes none.
pub fn a_start_gives_words_in_construction_order()
    ensures signal { started (objects_of (elaborated false to_vectors)) (3 ∷ 4 ∷ 5 ∷ []) (at_path (Member 42 ∷ Element 0 ∷ Element 1 ∷ [])) ≡ 4 }
    ensures pointer { started (objects_of (elaborated false to_vectors)) (3 ∷ 4 ∷ 5 ∷ []) (at_path (Member 42 ∷ Element 0 ∷ [])) ≡ 0 }
    ensures variable { started choosing.objects (7 ∷ []) (at_path (Member 95 ∷ [])) ≡ 7 }
{}

/// The method runs its calls: 1 and 0 are 1.
pub fn a_method_with_calls_runs()
    ensures { word_after ≡ Some 1 }
{}

/// Where nothing is made yet, nothing is held.
pub fn nothing_is_held_at_first()
    ensures { (s : Site) → IsRegular (at_now s nothing) }
{}

/// An expression has one word in a constructor and in the machine, where nothing is held where nothing stands.
pub fn constructors_and_processes_have_the_same_values()
    ensures { (s : Site) → IsRegular s → AgreesOnValues s }
{}

/// What the statements of a constructor make of the store, the machine makes of it: those that processes have, too.
pub fn constructors_and_processes_agree()
    ensures { (make : Making) (s : Site) (c : Code) → Agrees make s c }
{}
