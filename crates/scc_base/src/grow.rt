ghost use Rattle.std.specs.Prelude.{◌≡◌, [], ◌∷◌, ◌++◌, OnOk, OnErr};

use crate::NoMemory;

/// Appends an element to a vector. Where memory runs out, the vector is as it was, and the element is gone.
pub fn push<T: Drop>(items: &mut Vec<T>, x: T) -> Result<(), NoMemory>
    ensures ok { OnOk result (items.new.items ≡ items.old.items ++ x ∷ []) }
    ensures err { OnErr result (items.new.items ≡ items.old.items) }
{
    items.push(x)?;
    Ok(())
}
