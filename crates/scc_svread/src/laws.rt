//! Laws of reading emitted texts, each the clause of a function that does nothing.
ghost use Rattle.std.specs.Prelude.{◌≡◌, ℕ, ◌-◌, ◌^◌, min, Bool, List, length, None};
ghost use Rattle.scc_svtree.specs.declared.module.SvModule.{SvModule};
ghost use Rattle.scc_svtree.specs.Settled.{combs_of, Order};
ghost use Rattle.scc_svtree.specs.Sound.{IsSound};
ghost use Rattle.scc_svtext.specs.ModuleText.{module_text};
ghost use Rattle.scc_svtext.specs.Emitted.{SvReads};
ghost use Rattle.scc_svread_grammar.specs.declared.raw.RawModule.{RawModule};
ghost use Rattle.scc_svread_grammar.specs.Grammar.{Reads};
ghost use Rattle.scc_svread_check.specs.Walking.{start};
ghost use Rattle.scc_svread_check.specs.Drivers.{names_of};
ghost use Rattle.scc_svread_check.specs.First.{module_walk, wrong_of};
ghost use Rattle.scc_svread_written.specs.Written.{raw_of};
ghost use Rattle.scc_svread_written.specs.Resolved.{module_of};

/// The grammar reads the text of a module without faults as that module is written.
pub fn a_module_is_read_as_it_is_written()
    ensures { (many : Bool) (m : SvModule) → IsSound many m → Reads (module_text m) (raw_of m) }
{}

/// What is written says which module it is: its names stand for one variable each, and its digits for one number.
pub fn what_is_written_says_which_module()
    ensures { (many : Bool) (m : SvModule) → IsSound many m → module_of (raw_of m) ≡ m }
{}

/// In the text of a module without faults no size, name or driver is wrong.
pub fn nothing_is_wrong_in_a_sound_module()
    ensures { (many : Bool) (m : SvModule) → IsSound many m → wrong_of many (raw_of m) ≡ None }
{}

/// A text in which no size, name or driver is wrong, and whose combinational blocks have an order, is that of the module that it says,
/// which is without faults.
pub fn a_text_with_nothing_wrong_is_sound()
    ensures { (many : Bool) (bytes : List ℕ) (raw : RawModule) → Reads bytes raw → wrong_of many raw ≡ None → Order (combs_of (module_of raw).blocks) → SvReads many bytes (module_of raw) }
{}

/// No bytes are the text of two modules without faults.
pub fn a_text_is_one_module()
    ensures { (many : Bool) (bytes : List ℕ) (m n : SvModule) → SvReads many bytes m → SvReads many bytes n → m ≡ n }
{}

/// Where each of the two walks over a text ends, is where its last line begins: what they go over has as many bytes as it says.
pub fn walks_count_the_bytes()
    ensures sizes { (bytes : List ℕ) (raw : RawModule) → Reads bytes raw → (module_walk raw start).at ≡ min (length bytes - 10) (2 ^ 64 - 1) }
    ensures names { (many : Bool) (bytes : List ℕ) (raw : RawModule) → Reads bytes raw → (names_of many raw start).at ≡ min (length bytes - 10) (2 ^ 64 - 1) }
{}
