//! Where numbers stand first in lists.
ghost use Rattle.std.specs.Prelude.{◌≡◌, ◌<◌, ℕ, length, nat_eq, get_or, IfOk, OnOk, Some, if◌then◌else◌};
ghost use Rattle.indexmap.specs.IndexMap.{get};
ghost use Rattle.scc_inline_cells.specs.Tables.{first_from};

use indexmap::IndexMap;
use scc_base::NoMemory;
use scc_core::numbered;
use std::alloc::Global;

/// Of each number where it stands first in a list.
pub fn positions(alloc: Global, keys: &[u32]) -> Result<IndexMap<u32, u32>, NoMemory>
    ensures { IfOk result (λ m. (n : ℕ) → get nat_eq m n ≡ first_from n 0 keys.now) }
{
    let mut found = IndexMap::new(alloc);
    let mut k = keys.len();
    while k > 0 {
        k -= 1;
        note(&mut found, keys, k)?;
    }
    Ok(found)
}

fn note(found: &mut IndexMap<u32, u32>, keys: &[u32], k: usize) -> Result<(), NoMemory>
    requires { k < length keys.now }
    ensures { OnOk result ((n : ℕ) → get nat_eq found.new n ≡ (if nat_eq (get_or keys.now k 0) n then Some k else get nat_eq found.old n)) }
{
    let number = numbered(k)?;
    found.insert(keys[k], number)?;
    Ok(())
}
