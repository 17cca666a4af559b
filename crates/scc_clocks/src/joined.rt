//! The variables of a module that joins others, by their names.
use indexmap::IndexMap;
use scc_base::{List, NoMemory, Text, lost, push};
use scc_svtree::{Dir, SvModule, SvVar};
use std::alloc::Global;

/// Variables, and their numbers by name.
pub struct Joined {
    alloc: Global,
    vars: List<SvVar>,
    ids: IndexMap<Vec<u8>, u32>,
}

// One call at each exit of what owns them.
impl Drop for Joined {
    fn drop(self) {
        let Joined {
            alloc: _,
            vars: _vars,
            ids: _ids,
        } = self;
    }
}

impl Joined {
    pub fn new(alloc: Global) -> Joined {
        Joined {
            alloc,
            vars: List::new(alloc),
            ids: IndexMap::new(alloc),
        }
    }

    /// The number of a name.
    pub fn id(&self, name: &[u8]) -> Option<u32> {
        self.ids.get(name).copied()
    }

    /// Adds a variable, where none has its name.
    pub fn put(&mut self, name: &[u8], width: u32, dir: Dir) -> Result<(), NoMemory> {
        if self.id(name).is_some() {
            return Ok(());
        }
        let Ok(number) = u32::try_from(self.vars.len()) else {
            return Err(lost());
        };
        self.vars.push(SvVar {
            name: Text::from_bytes(self.alloc, name)?,
            width,
            dir,
        })?;
        let key = Vec::from_slice(self.alloc, name)?;
        let _old = self.ids.insert(key, number)?;
        Ok(())
    }

    /// All variables.
    pub fn into_vars(self) -> List<SvVar> {
        let Joined {
            alloc: _,
            vars,
            ids: _ids,
        } = self;
        vars
    }

    /// The numbers of a module's variables.
    pub fn ids_of(&self, m: &SvModule) -> Result<Vec<u32>, NoMemory> {
        let mut ids = Vec::new(self.alloc);
        for v in m.vars.as_slice() {
            match self.id(v.name.bytes()) {
                Some(id) => push(&mut ids, id)?,
                None => return Err(lost()),
            }
        }
        Ok(ids)
    }
}

/// The widths of what modules declare beside inputs, by name.
pub struct Widths {
    alloc: Global,
    by_name: IndexMap<Vec<u8>, u32>,
}

// One call at each exit of what owns them.
impl Drop for Widths {
    fn drop(self) {
        let Widths {
            alloc: _,
            by_name: _by_name,
        } = self;
    }
}

impl Widths {
    /// Those of some modules.
    pub fn of(alloc: Global, parts: &[SvModule]) -> Result<Widths, NoMemory> {
        let mut widths = Widths {
            alloc,
            by_name: IndexMap::new(alloc),
        };
        for m in parts {
            widths.add(m)?;
        }
        Ok(widths)
    }

    fn add(&mut self, m: &SvModule) -> Result<(), NoMemory> {
        for v in m.vars.as_slice() {
            if v.dir != Dir::Input {
                let key = Vec::from_slice(self.alloc, v.name.bytes())?;
                let _old = self.by_name.insert(key, v.width)?;
            }
        }
        Ok(())
    }

    /// That of a name.
    pub fn width(&self, name: &[u8]) -> Option<u32> {
        self.by_name.get(name).copied()
    }
}
