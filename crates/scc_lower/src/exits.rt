//! Which blocks statements leave.
ghost use Rattle.std.specs.Prelude.{◌≡◌, ◌∷◌, [], IfOk};
ghost use Rattle.scc_core_view.specs.Codes.{code_of};
ghost use Rattle.scc_lower_tree_laws.specs.Stating.{greatest};

use scc_base::{NoMemory, lost};
use scc_core::{CoreNode, CoreStmt};

/// The greatest number of a block of these statements that is left, counted from 1 by nesting; 0 where none is. `depth` blocks
/// are open around them. The statements are live: they hold no `if` whose condition is static.
#[cycle(exits)]
pub fn greatest_exit(body: &[CoreStmt], depth: u32) -> Result<u32, NoMemory>
    ensures { IfOk result (λ n. n ≡ greatest depth (code_of body.now)) }
{
    let mut greatest = 0;
    for s in body {
        greatest = greatest_exit_of(s, depth)?.max(greatest);
    }
    Ok(greatest)
}

/// The same of one statement.
#[cycle(exits)]
pub fn greatest_exit_of(s: &CoreStmt, depth: u32) -> Result<u32, NoMemory>
    ensures { IfOk result (λ n. n ≡ greatest depth (code_of (s.now ∷ []))) }
{
    match &s.node {
        CoreNode::Exit(n) => match depth.checked_sub(*n) {
            Some(outer) => Ok(outer),
            None => Err(lost()),
        },
        CoreNode::Block(body) => match depth.checked_add(1) {
            Some(inner) => greatest_exit(body.as_slice(), inner),
            None => Err(lost()),
        },
        CoreNode::Loop { body, .. } => greatest_exit(body.as_slice(), depth),
        CoreNode::If { yes, no, .. } => {
            let yes = greatest_exit(yes.as_slice(), depth)?;
            let no = greatest_exit(no.as_slice(), depth)?;
            Ok(yes.max(no))
        }
        CoreNode::Assign { .. } => Ok(0),
        CoreNode::Wait { .. } => Ok(0),
        CoreNode::Alias { .. } => Ok(0),
    }
}
