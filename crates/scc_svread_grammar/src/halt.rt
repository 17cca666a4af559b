ghost use Rattle.std.specs.Prelude.{◌≡◌};
ghost use Rattle.scc_svread_grammar.specs.declared.halt.Halt.TheVariants as halt;

use scc_base::NoMemory;

/// Why nothing was read: with the number of bytes from the fault on.
#[derive(Clone, Copy, Debug)]
pub enum Halt {
    /// No module's text goes on so.
    Unexpected(usize),
    /// The statement or expression that begins here is too deep.
    TooDeep(usize),
    NoMemory,
}

impl From<NoMemory> for Halt {
    ghost from_gives = { λ _ e. e ≡ halt.NoMemory };

    fn from(_: NoMemory) -> Halt {
        Halt::NoMemory
    }
}
