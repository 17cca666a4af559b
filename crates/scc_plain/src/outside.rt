//! Bodies of member functions outside their class (C++, [class.mfct]) that the class doesn't declare.
use indexmap::IndexMap;
use scc_base::{List, Name, NoMemory, Place, lost};
use scc_plain_bodies::Walk;
use scc_templates::InstanceId;
use scc_tree::{FileTree, FunctionTree, Item, ItemNode};
use std::alloc::Global;

/// For each class body, by its item, the bodies outside its class of functions that it doesn't declare.
pub struct Outside {
    by_body: IndexMap<usize, List<u32>>,
}

// One call at each exit of what owns it.
impl Drop for Outside {
    fn drop(self) {
        let Outside { by_body: _by_body } = self;
    }
}

/// The name's place of the function whose body an item is.
pub fn name_place(item: &Item) -> Place {
    match &item.node {
        ItemNode::Outside { function, .. } => function.place,
        _ => item.place,
    }
}

impl Outside {
    /// No class body was looked at.
    pub fn new(alloc: Global) -> Outside {
        Outside {
            by_body: IndexMap::new(alloc),
        }
    }

    /// Looks at the class body of an instance, unless it was looked at before.
    pub fn note(
        &mut self,
        body: usize,
        i: InstanceId,
        class: Name,
        tree: &FileTree,
        w: &Walk,
    ) -> Result<(), NoMemory> {
        if self.by_body.get(&body).is_none() {
            let found = undeclared_in(i, class, tree, w)?;
            self.by_body.insert(body, found)?;
        }
        Ok(())
    }

    /// The items of what a class body doesn't declare, in the order of the text.
    pub fn undeclared(&self, body: usize) -> &[u32] {
        match self.by_body.get(&body) {
            Some(list) => list.as_slice(),
            None => &[],
        }
    }
}

fn undeclared_in(
    i: InstanceId,
    class: Name,
    tree: &FileTree,
    w: &Walk,
) -> Result<List<u32>, NoMemory> {
    let mut found = List::new(w.alloc);
    for item in w.templates.outside_of(class) {
        let at = tree.items.get(*item as usize).ok_or(lost())?;
        if let ItemNode::Outside { function, .. } = &at.node
            && !is_declared(i, class, function, w)
        {
            found.push(*item)?;
        }
    }
    Ok(found)
}

fn is_declared(i: InstanceId, class: Name, f: &FunctionTree, w: &Walk) -> bool {
    if f.constructor {
        f.name == class && w.templates.first_declared(i, class, true).is_some()
    } else {
        w.templates.member(i, f.name).is_some()
    }
}
