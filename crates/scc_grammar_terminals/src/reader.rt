ghost use Rattle.std.specs.Prelude.{◌≡◌, ◌<◌, ◌-◌};

use crate::halt::Halt;
use crate::table::Table;
use crate::terminal::Seen;
use std::alloc::Global;

/// What reading within a declaration needs: the names that are declared so far, and how many levels may still be opened.
#[derive(Clone, Copy)]
pub struct Reader<'a> {
    pub alloc: Global,
    pub names: &'a Table,
    pub levels: u32,
}

/// What was read, and the tokens behind it.
pub type Read<'a, T> = Result<(T, &'a [Seen]), Halt>;

impl<'a> Reader<'a> {
    /// The same within a level; one more may be opened.
    pub fn within(self) -> Reader<'a>
        requires { 0 < self.levels }
        ensures names { result.names.now ≡ self.entry.names.now }
        ensures levels { result.levels ≡ self.entry.levels - 1 }
    {
        Reader {
            levels: self.levels - 1,
            ..self
        }
    }
}
