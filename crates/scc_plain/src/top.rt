//! The class that a program is made for.
ghost use Rattle.std.specs.Prelude.{IfErr};
ghost use Rattle.scc_plain_drafts.specs.Refusals.{MayStop};

use scc_base::{Code, List, Name, Stop, lost};
use scc_plain_bodies::{Walk, refuse};
use scc_plain_statements::constructor_for;
use scc_templates::{ClassId, class_at};
use scc_tree::FileTree;

/// Makes the top's instance, which is the first. Refuses by E301 at the file's end where no class has the name, by E307 at its name where it
/// is a template, and by E301 there where its constructor has no body.
pub fn make_top(top: Name, tree: &FileTree, w: &mut Walk) -> Result<(), Stop>
    ensures stop { IfErr result MayStop }
{
    let Some(item) = w.templates.file_class(top) else {
        return refuse(Code::UnknownName, tree.end); // E301
    };
    let class = class_at(tree, item).ok_or(lost())?;
    let place = tree.items.get(item).ok_or(lost())?.place;
    if !class.params.is_empty() {
        return refuse(Code::Arguments, place); // E307
    }
    let number = u32::try_from(item).map_err(|_| lost())?;
    let none = List::new(w.alloc);
    let i = w
        .templates
        .instantiate(tree, ClassId(number), &none, place)?;
    constructor_for(i, place, tree, w)?;
    Ok(())
}
