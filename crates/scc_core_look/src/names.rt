//! Processes that are told apart by their names.
ghost use Rattle.std.specs.Prelude.{◌≡◌, IfOk, is_some, map, option_and_then, true};
ghost use Rattle.scc_core.specs.Names.{of_path, size_at, walk};
ghost use Rattle.scc_core_spec.specs.IsResolved.{processes_apart};
ghost use Rattle.scc_core_view.specs.Programs.{process_of};

use crate::exits::both;
use scc_base::{NoMemory, PathPart};
use scc_core::{CoreProcess, Places};
use std::alloc::Global;

// Whether the path was noted before.
fn is_noted(names: &Places, path: &[PathPart]) -> bool
    ensures { result ≡ is_some (option_and_then (size_at names.now) (walk names.now (record { 0 = 0 }) (of_path path.now))) }
{
    match names.path(path) {
        Some(at) => names.vector(at).is_some(),
        None => false,
    }
}

/// Whether no two processes have one path.
pub fn processes_differ(alloc: Global, processes: &[CoreProcess]) -> Result<bool, NoMemory>
    ensures { IfOk result (λ b. b ≡ true → processes_apart (map process_of processes.now) ≡ true) }
{
    let mut names = Places::new(alloc)?;
    let mut differ = true;
    for process in processes {
        let path = process.name.path.as_slice();
        differ = both(differ, !is_noted(&names, path));
        names.add_vector(path, 1)?;
    }
    Ok(differ)
}
