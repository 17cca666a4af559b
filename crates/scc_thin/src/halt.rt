ghost use Rattle.std.specs.Prelude.{◌≡◌};
ghost use Rattle.scc_thin.specs.declared.halt.Halt.TheVariants as halt;

use scc_base::NoMemory;

/// Why reading a thin text stops.
#[derive(Clone, Copy)]
pub enum Halt {
    /// The text has another form.
    Other,
    /// Memory ran out.
    Memory,
}

impl From<NoMemory> for Halt {
    ghost from_gives = { λ _ e. e ≡ halt.Memory };

    fn from(_: NoMemory) -> Self {
        Halt::Memory
    }
}
