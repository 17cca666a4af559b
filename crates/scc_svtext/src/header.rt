//! Prints ports and declarations.
ghost use Rattle.std.specs.Prelude.{◌≡◌, ◌++◌, false, flat_map, OnOk};
ghost use Rattle.scc_svtext.specs.Fixed.{fixed_text};
ghost use Rattle.scc_svtext.specs.ModuleText.{close_text, decl_text, dir_text, lead_text, port_text, ports_text};
ghost use Rattle.scc_svtext.specs.Pieces.{range_text};

use crate::digits::{fixed, number};
use crate::fixed::Fixed;
use crate::spelling::spell;
use scc_base::{NoMemory, Text};
use scc_svtree::{Dir, SvVar};

fn range(out: &mut Text, width: u32) -> Result<(), NoMemory>
    ensures { OnOk result (out.new ≡ out.old ++ range_text width) }
{
    if width <= 1 {
        return Ok(());
    }
    fixed(out, Fixed::SelectOpen)?;
    number(out, width - 1)?;
    fixed(out, Fixed::RangeClose)
}

fn direction(d: Dir) -> Fixed
    ensures { fixed_text result ≡ dir_text d }
{
    match d {
        Dir::Input => Fixed::Input,
        Dir::Output => Fixed::Output,
        Dir::Inner => Fixed::Decl,
    }
}

// Appends a declaration up to its end.
fn var(out: &mut Text, v: &SvVar) -> Result<(), NoMemory>
    ensures { OnOk result (out.new ≡ out.old ++ port_text v.now) }
{
    fixed(out, direction(v.dir))?;
    range(out, v.width)?;
    spell(out, &v.name)
}

/// Appends the line of an inner variable, and nothing for a port.
pub fn decl(out: &mut Text, v: &SvVar) -> Result<(), NoMemory>
    ensures { OnOk result (out.new ≡ out.old ++ decl_text v.now) }
{
    match v.dir {
        Dir::Inner => {
            var(out, v)?;
            fixed(out, Fixed::LineEnd)
        }
        _ => Ok(()),
    }
}

/// Appends the lines of the variables that are no ports.
pub fn decls(out: &mut Text, list: &[SvVar]) -> Result<(), NoMemory>
    ensures { OnOk result (out.new ≡ out.old ++ flat_map decl_text list.now) }
{
    for v in list {
        decl(out, v)?;
    }
    Ok(())
}

// What stands before a port: the end of the line before it, if it isn't the first.
fn lead(out: &mut Text, more: bool) -> Result<(), NoMemory>
    ensures { OnOk result (out.new ≡ out.old ++ lead_text more) }
{
    if more {
        fixed(out, Fixed::PortEnd)
    } else {
        Ok(())
    }
}

fn close(out: &mut Text, more: bool) -> Result<(), NoMemory>
    ensures { OnOk result (out.new ≡ out.old ++ close_text more) }
{
    if more {
        fixed(out, Fixed::Break)
    } else {
        Ok(())
    }
}

/// Appends the ports, each on a line of its own.
pub fn ports(out: &mut Text, list: &[SvVar]) -> Result<(), NoMemory>
    ensures { OnOk result (out.new ≡ out.old ++ ports_text false list.now) }
{
    let mut more = false;
    for v in list {
        match v.dir {
            Dir::Inner => {}
            _ => {
                lead(out, more)?;
                var(out, v)?;
                more = true;
            }
        }
    }
    close(out, more)
}
