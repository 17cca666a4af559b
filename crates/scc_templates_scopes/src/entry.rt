//! What names mean (C++, [basic.lookup]), and where expressions and types stand.
use crate::layers::Layers;
use crate::ty::{Arg, InstanceId};
use scc_tree::{ClassTree, FileTree, Item, ItemNode};

/// What a name is declared as. An `item` is the number of the declaration among those of its scope: of the file, or of the
/// body of its instance's class.
#[derive(Clone, Copy, PartialEq, Eq)]
pub enum Entry {
    Class { item: usize },
    Alias { item: usize },
    /// An enumeration.
    Numbers,
    /// The enumerator of the number `at` of its enumeration.
    Enumerator { item: usize, at: usize },
    Constant { item: usize },
    Function,
    /// The member variable of that number.
    Field(usize),
    /// A parameter of a template, with what it stands for.
    Argument(Arg),
    /// The local of that number in the body.
    Local(u32),
}

/// A declaration with the instance that it stands in, None for the file and for what is no declaration of a scope.
#[derive(Clone, Copy, PartialEq, Eq)]
pub struct Found {
    pub scope: Option<InstanceId>,
    pub entry: Entry,
}

/// Which parameters of templates are known.
#[derive(Clone, Copy, PartialEq, Eq)]
pub enum Given {
    Nothing,
    /// Those of the instance's class.
    Own,
    /// Those of the body outside its class that this item is, with the instance's arguments.
    Outside(u32),
    /// Inside a default of a template's parameter: the first `count` parameters of a class. Their arguments are those
    /// that a running class use has so far, from number `base` on.
    Earlier {
        class: u32,
        base: usize,
        count: usize,
    },
}

/// Where an expression or a type stands: an instance or the file, the parameters of templates that are known, and the names
/// of the body around it.
#[derive(Clone, Copy)]
pub struct Context<'a, 'b> {
    pub tree: &'a FileTree,
    pub scope: Option<InstanceId>,
    pub given: Given,
    pub locals: Option<&'b Layers>,
}

impl<'a, 'b> Context<'a, 'b> {
    /// Outside bodies.
    pub fn outside(tree: &'a FileTree, scope: Option<InstanceId>) -> Context<'a, 'b> {
        Context {
            tree,
            scope,
            given: Given::Own,
            locals: None,
        }
    }
}

/// The class that an item declares, None where it declares something else.
pub fn class_of(item: &Item) -> Option<&ClassTree> {
    match &item.node {
        ItemNode::Class(class) => Some(class),
        _ => None,
    }
}

/// The class of a number, None where no item of that number declares one.
pub fn class_at(tree: &FileTree, item: usize) -> Option<&ClassTree> {
    class_of(tree.items.get(item)?)
}
