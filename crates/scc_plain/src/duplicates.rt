//! Names that are declared twice in one scope (C++, [basic.scope], [basic.def.odr]). Every declaration of the text is looked at, in
//! text order, whether it is used or not.
ghost use Rattle.std.specs.Prelude.{IfErr};
ghost use Rattle.scc_plain_drafts.specs.Refusals.{MayStop};

use indexmap::IndexMap;
use scc_base::{Code, Name, NoMemory, Place, Stop, lost};
use scc_tree::{
    ClassTree, Field, FileTree, ForFirst, FunctionTree, Item, ItemNode, LocalTree, Param, Stmt,
    StmtNode, SwitchItem, SwitchNode,
};
use std::alloc::Global;

// A name in a scope, which is a number.
#[derive(Clone, Copy, PartialEq, Eq, Hash)]
struct Declared {
    scope: usize,
    name: Name,
}

// The first declaration of a name in its scope.
#[derive(Clone, Copy)]
struct First {
    place: Place,
    function: bool,
    /// The first one with a body.
    body: Option<Place>,
}

// What the scopes declare so far.
struct Scopes {
    names: IndexMap<Declared, First>,
    opened: usize,
}

// One call at each exit of what owns them.
impl Drop for Scopes {
    fn drop(self) {
        let Scopes {
            names: _names,
            opened: _,
        } = self;
    }
}

/// Refuses the first name, in text order, that its scope declares before already, by E302; the other place is the first declaration. A
/// function may be declared again, with one body; the other place of a second body is the first.
pub fn find_duplicates(alloc: Global, tree: &FileTree) -> Result<(), Stop>
    ensures stop { IfErr result MayStop }
{
    let mut scopes = Scopes {
        names: IndexMap::new(alloc),
        opened: 0,
    };
    let file = scopes.open()?;
    for item in tree.items.as_slice() {
        scopes.file_item(item, file)?;
    }
    Ok(())
}

fn twice<T>(place: Place, first: Place) -> Result<T, Stop>
    ensures stop { IfErr result MayStop }
{
    Err(Stop::refused_beside(Code::DuplicateName, place, first)) // E302
}

impl Scopes {
    // A new scope.
    fn open(&mut self) -> Result<usize, NoMemory> {
        let scope = self.opened;
        self.opened = scope.checked_add(1).ok_or(lost())?;
        Ok(scope)
    }

    fn first(&self, scope: usize, name: Name) -> Option<First> {
        self.names.get(&Declared { scope, name }).copied()
    }

    fn keep(&mut self, scope: usize, name: Name, first: First) -> Result<(), NoMemory> {
        self.names.insert(Declared { scope, name }, first)?;
        Ok(())
    }

    // A declaration that may stand once.
    fn name(&mut self, scope: usize, name: Name, place: Place) -> Result<(), Stop>
        ensures stop { IfErr result MayStop }
    {
        if let Some(first) = self.first(scope, name) {
            return twice(place, first.place);
        }
        let first = First {
            place,
            function: false,
            body: None,
        };
        self.keep(scope, name, first)?;
        Ok(())
    }

    // A declaration of a function.
    fn function(&mut self, scope: usize, name: Name, place: Place, body: bool) -> Result<(), Stop>
        ensures stop { IfErr result MayStop }
    {
        let own = body.then_some(place);
        let Some(first) = self.first(scope, name) else {
            let function = true;
            let body = own;
            self.keep(
                scope,
                name,
                First {
                    place,
                    function,
                    body,
                },
            )?;
            return Ok(());
        };
        if !first.function {
            return twice(place, first.place);
        }
        match (first.body, own) {
            (Some(other), Some(_)) => twice(place, other),
            (None, Some(_)) => {
                self.keep(scope, name, First { body: own, ..first })?;
                Ok(())
            }
            (_, None) => Ok(()),
        }
    }

    // A declaration of the file. A specialisation is none of its class's name, and a class's parameters stand before it.
    fn file_item(&mut self, item: &Item, file: usize) -> Result<(), Stop>
        ensures stop { IfErr result MayStop }
    {
        match &item.node {
            ItemNode::Class(class) => {
                let scope = self.open()?;
                self.params(class.params.as_slice(), scope)?;
                if class.special.is_none() {
                    self.item_name(item, file)?;
                }
                self.class(class, scope)
            }
            ItemNode::Outside {
                params,
                function,
                ..
            } => {
                let scope = self.open()?;
                self.params(params.as_slice(), scope)?;
                self.inside(function)
            }
            _ => self.item(item, file),
        }
    }

    fn item_name(&mut self, item: &Item, scope: usize) -> Result<(), Stop>
        ensures stop { IfErr result MayStop }
    {
        match item.name {
            Some(name) => self.name(scope, name, item.place),
            None => Ok(()),
        }
    }

    // A declaration that is no class, and no body outside one.
    fn item(&mut self, item: &Item, scope: usize) -> Result<(), Stop>
        ensures stop { IfErr result MayStop }
    {
        match &item.node {
            ItemNode::Numbers(all) => {
                self.item_name(item, scope)?;
                for e in all.as_slice() {
                    self.name(scope, e.name, e.place)?;
                }
                Ok(())
            }
            ItemNode::Function(f) => {
                self.function(scope, f.name, item.place, f.body.is_some())?;
                self.inside(f)
            }
            _ => self.item_name(item, scope),
        }
    }

    fn params(&mut self, params: &[Param], scope: usize) -> Result<(), Stop>
        ensures stop { IfErr result MayStop }
    {
        for p in params {
            self.name(scope, p.name, p.place)?;
        }
        Ok(())
    }

    // The members of a class, in one scope with its parameters.
    fn class(&mut self, class: &ClassTree, scope: usize) -> Result<(), Stop>
        ensures stop { IfErr result MayStop }
    {
        let fields = class.fields.as_slice();
        let mut taken = 0;
        for (k, item) in class.items.as_slice().iter().enumerate() {
            taken = self.fields_before(fields, taken, k, scope)?;
            self.item(item, scope)?;
        }
        self.fields_before(fields, taken, class.items.len(), scope)?;
        Ok(())
    }

    // The member variables from one on that stand before an item: how many there are to there.
    fn fields_before(
        &mut self,
        fields: &[Field],
        from: usize,
        item: usize,
        scope: usize,
    ) -> Result<usize, Stop>
        ensures stop { IfErr result MayStop }
    {
        for k in from..fields.len() {
            let Some(field) = fields.get(k) else {
                return Ok(k);
            };
            if field.after as usize > item {
                return Ok(k);
            }
            self.name(scope, field.decl.name, field.decl.place)?;
        }
        Ok(fields.len())
    }

    // A function's parameters, and its body, which is a scope of its own.
    fn inside(&mut self, f: &FunctionTree) -> Result<(), Stop>
        ensures stop { IfErr result MayStop }
    {
        let scope = self.open()?;
        for p in f.params.as_slice() {
            self.name(scope, p.name, p.place)?;
        }
        match &f.body {
            Some(body) => self.block(body.as_slice()),
            None => Ok(()),
        }
    }

    #[cycle(inside)]
    fn block(&mut self, list: &[Stmt]) -> Result<(), Stop>
        ensures stop { IfErr result MayStop }
    {
        let scope = self.open()?;
        for s in list {
            self.stmt(s, scope)?;
        }
        Ok(())
    }

    // A statement with a scope of its own.
    #[cycle(inside)]
    fn alone(&mut self, s: &Stmt) -> Result<(), Stop>
        ensures stop { IfErr result MayStop }
    {
        let scope = self.open()?;
        self.stmt(s, scope)
    }

    // What stands in the braces of a `switch` is one scope.
    #[cycle(inside)]
    fn cases(&mut self, items: &[SwitchItem]) -> Result<(), Stop>
        ensures stop { IfErr result MayStop }
    {
        let scope = self.open()?;
        for item in items {
            if let SwitchNode::Stmt(s) = &item.node {
                self.stmt(s, scope)?;
            }
        }
        Ok(())
    }

    #[cycle(inside)]
    fn stmt(&mut self, s: &Stmt, scope: usize) -> Result<(), Stop>
        ensures stop { IfErr result MayStop }
    {
        match s.node.get() {
            StmtNode::Block(list) => self.block(list.as_slice()),
            StmtNode::Local(tree) => self.local(tree, scope),
            StmtNode::If { yes, no, .. } => {
                self.alone(yes)?;
                match no {
                    Some(no) => self.alone(no),
                    None => Ok(()),
                }
            }
            StmtNode::Switch { items, .. } => self.cases(items.as_slice()),
            StmtNode::While { body, .. } => self.alone(body),
            StmtNode::Do { body, .. } => self.alone(body),
            StmtNode::For { first, body, .. } => {
                self.head(first)?;
                self.alone(body)
            }
            _ => Ok(()),
        }
    }

    // The head of a `for` is a scope of its own.
    fn head(&mut self, first: &ForFirst) -> Result<(), Stop>
        ensures stop { IfErr result MayStop }
    {
        let ForFirst::Local(tree) = first else {
            return Ok(());
        };
        let scope = self.open()?;
        self.local(tree, scope)
    }

    fn local(&mut self, tree: &LocalTree, scope: usize) -> Result<(), Stop>
        ensures stop { IfErr result MayStop }
    {
        for d in tree.names.as_slice() {
            self.name(scope, d.decl.name, d.decl.place)?;
        }
        Ok(())
    }
}
