//! Laws that cite the definitions.
ghost use Rattle.std.specs.Prelude.{◌≡◌, ℕ, Bool, true, false, List, [], ◌∷◌, codes, drop, length, map, Option, Some, None};
ghost use Rattle.scc_semantics.specs.Location.{Location};
ghost use Rattle.scc_semantics.specs.Design.{Design};
ghost use Rattle.scc_svtree.specs.declared.module.SvModule.{SvModule};
ghost use Rattle.scc_hier_text.specs.declared.tree.Hier.{Hier};
ghost use Rattle.scc_blocks_spec.specs.Matches.{Matches};
ghost use Rattle.scc_hier_spec.specs.Flattened.{HierShows, of_top};
ghost use Rattle.scc_hier_spec.specs.Sound.{AreModulesNamed};
ghost use Rattle.scc_hier_spec.specs.Text.{HierReads, hier_text};
ghost use Rattle.scc_hier_spec.specs.Homes.{IsSplitUp};
ghost use Rattle.scc_hier_spec.specs.LaidOut.{IsLaidOut};
ghost use Rattle.scc_hier_spec.specs.Ports.{ArePorted};
ghost use Rattle.scc_core_spec.specs.Program as core;
ghost use Rattle.scc_core_spec.specs.WorkedRun.{counting};
ghost use Rattle.scc_elab_spec.specs.Program.{Plain};
ghost use Rattle.scc_elab_spec.specs.Design as plain;
ghost use Rattle.scc_hier_spec.specs.Homed.{AreHomesOf, IsSplitByObjects, home_in, paths_of, processes_of};
ghost use Rattle.scc_hier_spec.specs.WorkedHomes.{program, loose, design};
ghost use Rattle.scc_hier_spec.specs.Worked.{exchanged, inverts, misnamed, outer, ports, renamed, together, turned, two, written};

/// Two inverters in a row: the variables are those of the top, and each instance has its block.
pub fn two_inverters_are_flattened()
    ensures vars { (of_top two outer).vars ≡ outer.vars }
    ensures blocks { (of_top two outer).blocks ≡ inverts 0 2 ∷ inverts 2 1 ∷ [] }
    ensures homes { (of_top two outer).homes ≡ codes "p$" ∷ codes "q$" ∷ [] }
    ensures text { hier_text two ≡ written }
{}

/// The two inverters are laid out by the rules. With the port of the second to the output of the top turned round, or with a module of another name, they aren't.
pub fn two_inverters_are_laid_out()
    ensures right { IsLaidOut (codes "Two") two }
    ensures turned { IsLaidOut (codes "Two") turned → ⊥ }
    ensures named { IsLaidOut (codes "Two") misnamed → ⊥ }
{}

/// The ports of the two inverters have their names and their order. With the ports in another order, or with another name of one, they haven't.
pub fn two_inverters_have_their_ports()
    ensures right { ArePorted ports together two }
    ensures exchanged { ArePorted ports together exchanged → ⊥ }
    ensures renamed { ArePorted ports together renamed → ⊥ }
{}

/// The text of modules is read as one list of modules that can be flattened, and what they show is what their flattening shows.
pub fn modules_show_what_their_flattening_shows()
    ensures text { (many : Bool) (bytes : List ℕ) (h : Hier) → HierReads many bytes h → bytes ≡ hier_text h }
    ensures modules { (many : Bool) (bytes : List ℕ) (h : Hier) → HierReads many bytes h → AreModulesNamed h.modules }
    ensures name { (text : Location → List ℕ) (own : List ℕ → Bool) (kept : Location → Bool) (d : Design) (top : List ℕ) (h : Hier) → HierShows text own kept d top h → (m : SvModule) × Matches text own kept d m top }
    ensures objects { (m : SvModule) (paths : List (List ℕ)) (homes : List ℕ) (h : Hier) (s : IsSplitUp m paths homes h) → length (of_top h s.top).instances ≡ length (drop 1 paths) }
{}

/// Two module objects with a method each, and objects of another class in them and between them: the paths of the module objects, and where blocks are at home; a
/// method of a part is at home in the module object around it. The top is a module object whatever its class. A design's modules have the paths of its module objects.
pub fn blocks_are_at_home_in_objects()
    ensures paths { paths_of (λ n. n ∷ []) program design ≡ [] ∷ (1 ∷ []) ∷ (3 ∷ []) ∷ [] }
    ensures top { paths_of (λ n. n ∷ []) loose design ≡ [] ∷ (1 ∷ []) ∷ (3 ∷ []) ∷ [] }
    ensures homes { map (home_in program design) (None ∷ Some 1 ∷ Some 0 ∷ Some 2 ∷ Some 3 ∷ []) ≡ 0 ∷ 1 ∷ 2 ∷ 2 ∷ 0 ∷ [] }
    ensures methods { processes_of (record { top = 0; cells = []; vectors = []; processes = [] }) (1 ∷ 0 ∷ []) true ≡ None ∷ Some 1 ∷ Some 0 ∷ [] }
    ensures clocked { processes_of counting [] false ≡ Some 0 ∷ Some 0 ∷ [] }
    ensures design { (text : ℕ → List ℕ) (p : Plain) (d : plain.Design) (c : core.Program) (m : SvModule) (paths : List (List ℕ)) (homes : List ℕ) → AreHomesOf text p d c m paths homes → paths ≡ paths_of text p d }
    ensures split { (text : ℕ → List ℕ) (p : Plain) (d : plain.Design) (c : core.Program) (m : SvModule) (h : Hier) → IsSplitByObjects text p d c m h → (paths : List (List ℕ)) × (homes : List ℕ) × IsSplitUp m paths homes h }
{}
