//! A design as the text of a form.
ghost use Rattle.std.specs.Prelude.{◌≡◌, IfOk};
ghost use Rattle.scc_drive_forms.specs.Formed as formed;
ghost use Rattle.scc_drive_forms.specs.Formed.{IsFormed};

use crate::clocks::clocks_text;
use crate::hier::hier_text;
use crate::memory::memory_text;
use scc_base::{Names, NoMemory, Text};
use scc_drive_stages::Front;
use std::alloc::Global;

/// A form of the text of a design's module.
#[derive(Clone, Copy, PartialEq, Eq)]
pub enum TextForm {
    /// A module for each module object.
    Hier,
    /// One module with several clocks.
    Clocks,
    /// One module, arrays as memories.
    Memory,
}

/// Whether a design in this form may have several clocks.
pub fn has_clocks(form: TextForm) -> bool
    ensures { result ≡ formed.has_clocks form }
{
    match form {
        TextForm::Hier => false,
        TextForm::Clocks => true,
        TextForm::Memory => false,
    }
}

/// What the stages made of the class `top`, as a text of this form. Before it is given the module is found again in it.
pub fn form_text(
    alloc: Global,
    names: &Names,
    top: &[u8],
    front: Front,
    form: TextForm,
) -> Result<Text, NoMemory>
    ensures { IfOk result (λ t. IsFormed form top.now t) }
{
    match form {
        TextForm::Hier => hier_text(alloc, names, top, &front),
        TextForm::Clocks => clocks_text(alloc, names, top, front),
        TextForm::Memory => memory_text(alloc, names, top, &front),
    }
}
