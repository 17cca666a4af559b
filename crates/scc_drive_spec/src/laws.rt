//! Laws that cite the definitions.
ghost use Rattle.std.specs.Prelude.{◌≡◌, ◌⊎◌, ℕ, Bool, List, Option, Some, None, String, true};
ghost use Rattle.std.specs.declared.alloc.Global.{Global};
ghost use Rattle.std.specs.Io.KnownBytes.{Appends};
ghost use Rattle.scc_base.specs.Names.{fixed_names};
ghost use Rattle.scc_base.specs.Outside.{Shelf};
ghost use Rattle.scc_base.specs.declared.code.Code.{Code};
ghost use Rattle.scc_base.specs.declared.code.Code.TheVariants.{FileTooLong};
ghost use Rattle.scc_base.specs.declared.refusal.Place.{Place};
ghost use Rattle.scc_base.specs.declared.refusal.Refusal.{Refusal};
ghost use Rattle.scc_tokens_directives.specs.declared.file.Source.{Source};
ghost use Rattle.scc_tokens_directives.specs.Steps as join;
ghost use Rattle.scc_tokens.specs.Files.{first_part};
ghost use Rattle.scc_tokens_laws.specs.Faulted.{StopsAt};
ghost use Rattle.scc_tree.specs.declared.item.FileTree.{FileTree};
ghost use Rattle.scc_core_spec.specs.First.{refused as refusal_at};
ghost use Rattle.scc_core_spec.specs.Resolved.{Made};
ghost use Rattle.scc_plain_spec.specs.Designs.{Compiled, compiled, first_refusal};
ghost use Rattle.scc_drive_words.specs.declared.command.Command.TheVariants as command;
ghost use Rattle.scc_drive_words.specs.declared.command.Form.{Form};
ghost use Rattle.scc_drive_spec.specs.Words.{command_by};
ghost use Rattle.scc_drive_spec.specs.Comes.{Request, Verdict, Refuses, Absent, Accepts, Accepted, Comes, if_long};
ghost use Rattle.scc_drive_spec.specs.Output.{compiles};
ghost use Rattle.scc_drive_spec.specs.Answer.{request, has_clocks, refused, writes, CommandComes};
ghost use Rattle.scc_drive_spec.specs.Whole.{WholeTheorem, text_of_refusal};

/// What joining refuses, or a file that it asks for in vain, is what a request comes to.
pub fn what_joining_refuses_stops_first()
    ensures refused { (q : Request) (shelf : Shelf) (names : List (List ℕ)) (sources : List Source) (code : Code) (place : Place)
        → StopsAt (first_part shelf) fixed_names q.roots names sources (join.Refuses code place) → Comes q shelf (Refuses sources (refusal_at code place)) }
    ensures absent { (q : Request) (shelf : Shelf) (names : List (List ℕ)) (sources : List Source) (name : List ℕ)
        → StopsAt (first_part shelf) fixed_names q.roots names sources (join.Absent name) → Comes q shelf (Absent name) }
{}

/// Whatever the files hold, a request comes to just one thing: a refusal, a file that isn't there, or an accepted source.
pub fn what_a_request_comes_to_is_one()
    ensures one { (q : Request) (shelf : Shelf) (x y : Verdict) → Comes q shelf x → Comes q shelf y → x ≡ y }
    ensures some { (q : Request) (shelf : Shelf) → (x : Verdict) × Comes q shelf x }
{}

/// A source that some stage refuses has no design, and one with a design is refused by none.
pub fn a_refused_source_has_no_design()
    ensures { (many : Bool) (tree : FileTree) (top : ℕ) (c : Compiled) → compiled many tree top ≡ Some (Made c) → first_refusal many tree top ≡ None }
{}

/// A stimulus of too many bytes is refused at its first byte, whatever they are.
pub fn the_stimulus_comes_last()
    ensures { (file : ℕ) (r : Option Refusal) → if_long true file r ≡ Some (refusal_at FileTooLong (record { file = file; at = 0 })) }
{}

/// Wrong compilers: one that compiles a source that is refused, one that refuses a source that is accepted, one that says another refusal or another place, and one
/// that writes before it refuses.
pub fn wrong_answers_are_ruled_out()
    ensures compiled_though_refused { (shelf : Shelf) (words : List (String Global)) (m m' f f' : ℕ) (out out' err err' : Option (List ℕ)) (count : ℕ) (form : Form) (sources : List Source) (r : Refusal)
        → command_by words ≡ Some (command.Compile count form) → Comes (request (has_clocks form) words count None) shelf (Refuses sources r)
        → WholeTheorem shelf words 0 m m' f f' out out' err err' → ⊥ }
    ensures refused_though_accepted { (shelf : Shelf) (words : List (String Global)) (m m' f f' : ℕ) (out out' err err' : Option (List ℕ)) (count : ℕ) (form : Form) (a : Accepted)
        → command_by words ≡ Some (command.Compile count form) → Comes (request (has_clocks form) words count None) shelf (Accepts a)
        → WholeTheorem shelf words 1 m m' f f' out out' err err' → ⊥ }
    ensures another_refusal { (shelf : Shelf) (words : List (String Global)) (m m' f f' : ℕ) (out out' err err' : Option (List ℕ)) (count : ℕ) (form : Form) (sources : List Source) (r : Refusal)
        → command_by words ≡ Some (command.Compile count form) → Comes (request (has_clocks form) words count None) shelf (Refuses sources r)
        → WholeTheorem shelf words 1 m m' f f' out out' err err' → Appends err err' (text_of_refusal sources r) }
    ensures written_though_refused { (shelf : Shelf) (words : List (String Global)) (m m' f f' : ℕ) (out out' err err' : Option (List ℕ))
        → WholeTheorem shelf words 1 m m' f f' out out' err err' → out' ≡ out }
{}
