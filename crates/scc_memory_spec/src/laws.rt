//! Laws that cite the definitions.
ghost use Rattle.std.specs.Prelude.{◌≡◌, ℕ, Bool, List, [], ◌∷◌, ◌++◌, codes, decimal, map, true, false, None, Some, slice_get};
ghost use Rattle.scc_semantics.specs.Location.{Location};
ghost use Rattle.scc_semantics.specs.Design.{Design};
ghost use Rattle.scc_svtree.specs.declared.module.SvModule.{SvModule};
ghost use Rattle.scc_svtree.specs.declared.expr.SvBinary.TheVariants.{Lt};
ghost use Rattle.scc_svtree.specs.Term.{Cond, Binary, Literal};
ghost use Rattle.scc_memory_spec.specs.Array.{Array, IsNamed, element_name, with_part, width_of, tree, whole};
ghost use Rattle.scc_memory_spec.specs.Taken.{IsTaken, Uses};
ghost use Rattle.scc_memory_spec.specs.Memory.{Edge, Element, End, Join, MemModule, Memory, Part, Sign, run};
ghost use Rattle.scc_memory_spec.specs.Edges.{after_edges};
ghost use Rattle.scc_memory_spec.specs.HasMemories.{HasMemories, HasParts, IsGone, StandsFor};
ghost use Rattle.scc_memory_spec.specs.Matches.{MemoryShows};
ghost use Rattle.scc_memory_spec.specs.Sound.{IsSoundMemory};
ghost use Rattle.scc_memory_spec.specs.Likened.{term_like};
ghost use Rattle.scc_memory_spec.specs.WorkedSound.{kept, twice};
ghost use Rattle.scc_memory_spec.specs.Text.{IsBlockText, IsCodeText, IsTermText, MemReads, Spelled, memory_text, spelled_in};
ghost use Rattle.scc_svtree.specs.declared.expr.SvLeft.TheVariants.{Whole};
ghost use Rattle.scc_memory_spec.specs.WorkedTaken.{buffer, buffer_vars, buffer_blocks, choosing_edge, clearing};
ghost use Rattle.scc_blocks_spec.specs.Renamed.{block_code};
ghost use Rattle.scc_memory_spec.specs.Worked.{vars, array, memory, read_code, with_memory, here};

/// The names of elements and next values, and the choice of an element by a variable: the first half, then the second.
pub fn arrays_are_found_by_name()
    ensures element { (k : ℕ) → element_name array.name k ≡ codes "m$" ++ decimal k }
    ensures next { with_part (codes "m$0") (codes "n") ≡ codes "m$0$$n" }
    ensures width { width_of vars 6 ≡ 2 }
    ensures choice { tree array 6 2 3 ≡ Cond (Binary Lt (whole 6) (Literal 2 1)) (whole 1) (Cond (Binary Lt (whole 6) (Literal 2 2)) (whole 3) (whole 5)) }
    ensures taken { (m : SvModule) (a : Array) → IsTaken m a → IsNamed m.vars a }
{}

/// An element is read at its index; at an edge the one at the address takes the value, and the others stay.
pub fn a_memory_is_read_and_written()
    ensures read { run with_memory here.elements read_code here.words 5 ≡ 5 }
    ensures past { run with_memory here.elements read_code (λ v. 3) 5 ≡ 0 }
    ensures written { (after_edges with_memory (λ v. true) here).elements 0 1 ≡ 9 }
    ensures other { (after_edges with_memory (λ v. true) here).elements 0 2 ≡ 5 }
    ensures unclocked { (after_edges with_memory (λ v. false) here).elements 0 1 ≡ 5 }
{}

/// What a module with memories shows, and whose memories it has: it has the top's name, and nothing is left of an array that gave way.
pub fn modules_with_memories_show_designs()
    ensures name { (text : Location → List ℕ) (own : List ℕ → Bool) (kept : Location → Bool) (d : Design) (top : List ℕ) (m : MemModule) → MemoryShows text own kept d top m → m.name ≡ top }
    ensures memories { (m : SvModule) (n : MemModule) (k : ℕ) (b : Memory) → HasMemories m n → slice_get n.memories k ≡ Some b → (a : Array) × StandsFor m b a }
    ensures parts { (m : SvModule) (n : MemModule) (k : ℕ) (b : Memory) → HasMemories m n → slice_get n.memories k ≡ Some b → HasParts n b }
    ensures gone { (m : SvModule) (n : MemModule) (a : Array) → HasMemories m n → IsTaken m a → IsGone n a }
{}

/// A buffer that a variable reads and writes is taken, whatever module has it.
pub fn buffers_are_taken()
    ensures { (m : SvModule) → m.vars ≡ buffer_vars → map block_code m.blocks ≡ buffer_blocks None → IsTaken m buffer }
{}

/// What an edge chooses counts: a variable takes the element that another variable chooses.
pub fn an_edge_chooses_an_element()
    ensures { (m : SvModule) → m.vars ≡ buffer_vars → Uses m buffer choosing_edge [] (0 ∷ 1 ∷ []) true }
{}

/// The same with a reset that clears its elements isn't.
pub fn arrays_that_a_reset_clears_are_not_taken()
    ensures { (m : SvModule) → map block_code m.blocks ≡ buffer_blocks (Some clearing) → IsTaken m buffer → ⊥ }
{}

/// The three forms of memories: a declaration, an element, and the lines of an edge; no statements are written as nothing.
pub fn memories_are_written_as_text()
    ensures declared { memory_text memory ≡ codes "  logic [" ++ (decimal 3 ++ (codes ":0] m [0:" ++ (decimal 2 ++ codes "];\n"))) }
    ensures element { IsTermText (spelled_in with_memory) (Element 0 (Part (Whole (record { 0 = 4 })))) (codes "m[i]") }
    ensures parts { IsTermText (spelled_in with_memory) (Join (Part (Whole (record { 0 = 4 }))) (Sign false (Part (Whole (record { 0 = 5 }))))) (codes "{i, x}") }
    ensures edge { IsBlockText with_memory (Edge true 0 None [] (0 ∷ [])) (codes "  always_ff @(posedge c) begin\n    if (m$$w) begin\n      m[m$$a] <= m$$d;\n    end\n  end\n") }
    ensures statements { (n : Spelled) → IsCodeText n 4 End [] }
    ensures whole { (bytes : List ℕ) (m : MemModule) → MemReads bytes m → IsSoundMemory m }
{}

/// A module whose ports write a memory is right, and has a text; one in which a memory has a variable's name isn't. An element counts as a choice by its index.
pub fn modules_with_memories_are_right()
    ensures right { IsSoundMemory kept }
    ensures twice { IsSoundMemory twice → ⊥ }
    ensures read { (bytes : List ℕ) × MemReads bytes kept }
    ensures element { term_like kept.memories (Element 0 (Part (Whole (record { 0 = 4 })))) ≡ Cond (whole 4) (Literal 4 0) (Literal 4 0) }
{}
