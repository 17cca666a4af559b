ghost use Rattle.std.specs.Prelude.{◌≡◌, OnOk, OnErr, option_copied, option_map};
ghost use Rattle.scc_base.specs.Shelf.{shelf_of, Puts};

use crate::NoMemory;
use std::alloc::Global;

/// A name with the bytes that it holds.
pub struct Entry {
    name: String,
    bytes: Vec<u8>,
}

impl Drop for Entry {
    fn drop(self) {
        let Entry {
            name: _name,
            bytes: _bytes,
        } = self;
    }
}

/// The bytes of a name, from its first entry.
pub fn content_of<'a>(entries: &'a [Entry], name: &str) -> Option<&'a Vec<u8>>
    ensures { option_map (λ v. v.items) (option_copied result) ≡ shelf_of entries.now name.now }
{
    entries
        .iter()
        .find(|e| e.name.as_str() == name)
        .map(|e| &e.bytes)
}

/// Gives a name these bytes, in front of what it held.
pub fn put(
    alloc: Global,
    entries: &mut Vec<Entry>,
    name: &str,
    bytes: &[u8],
) -> Result<(), NoMemory>
    ensures ok { OnOk result (Puts (shelf_of entries.old.items) (shelf_of entries.new.items) name.now bytes.now) }
    ensures err { OnErr result (entries.new.items ≡ entries.old.items) }
{
    let entry = Entry {
        name: String::from_str(alloc, name)?,
        bytes: Vec::from_slice(alloc, bytes)?,
    };
    entries.insert(0, entry)?;
    Ok(())
}
