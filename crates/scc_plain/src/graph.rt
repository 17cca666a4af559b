//! Nodes of a graph that lie on a cycle. The groups of nodes that reach each other are guessed by a walk (Tarjan) and looked at, so
//! no answer rests on the guess: the groups have to be ranked, and the node that is found has to reach itself.
use scc_base::{List, NoMemory, lost};
use std::alloc::Global;

/// A graph: nodes by number from 0, each with those that it leads to.
pub struct Graph {
    rows: Vec<List<u32>>,
}

// One call at each exit of what owns it.
impl Drop for Graph {
    fn drop(self) {
        let Graph { rows: _rows } = self;
    }
}

impl Graph {
    /// So many nodes that lead nowhere.
    pub fn new(alloc: Global, nodes: usize) -> Result<Graph, NoMemory> {
        let mut rows = Vec::new(alloc);
        for _ in 0..nodes {
            rows.push(List::new(alloc))?;
        }
        Ok(Graph { rows })
    }

    /// Lets a node lead to another.
    pub fn lead(&mut self, from: u32, to: u32) -> Result<(), NoMemory> {
        match self.rows.get_mut(from as usize) {
            Some(row) => row.push(to),
            None => Err(lost()),
        }
    }

    fn row(&self, k: u32) -> &[u32] {
        match self.rows.get(k as usize) {
            Some(row) => row.as_slice(),
            None => &[],
        }
    }

    fn len(&self) -> usize {
        self.rows.len()
    }
}

// What is to be done with a node: those that it leads to are entered before it is left.
#[derive(Clone, Copy)]
enum Task {
    Enter(u32),
    Leave(u32),
}

// No number yet.
const NONE: u32 = u32::MAX;

/// The group of each node: nodes are in one where they reach each other, and a group has a higher number than those that it leads to.
#[derive(Drop)]
pub struct Groups {
    group: Vec<u32>,
}

struct Guess {
    /// The first node, by when it was entered, that a node is known to reach.
    low: Vec<u32>,
    group: Vec<u32>,
    /// Entered nodes without a group.
    open: Vec<u32>,
    tasks: Vec<Task>,
    entered: u32,
    closed: u32,
}

// One call at each exit of what owns it.
impl Drop for Guess {
    fn drop(self) {
        let Guess {
            low: _low,
            group: _group,
            open: _open,
            tasks: _tasks,
            entered: _,
            closed: _,
        } = self;
    }
}

impl Guess {
    // No node has a group yet.
    fn new(alloc: Global, nodes: usize) -> Result<Guess, NoMemory> {
        let low = vec![in alloc; NONE; nodes]?;
        let group = vec![in alloc; NONE; nodes]?;
        Ok(Guess {
            low,
            group,
            open: Vec::new(alloc),
            tasks: Vec::new(alloc),
            entered: 0,
            closed: 0,
        })
    }

    // Walks over all nodes.
    fn walk(&mut self, g: &Graph) -> Result<(), NoMemory> {
        for k in 0..g.len() {
            let k = u32::try_from(k).map_err(|_| lost())?;
            self.tasks.push(Task::Enter(k))?;
        }
        for _ in 0..usize::MAX {
            match self.tasks.pop() {
                None => return Ok(()),
                Some(Task::Enter(k)) => enter(g, self, k)?,
                Some(Task::Leave(k)) => leave(g, self, k),
            }
        }
        Err(lost())
    }

    fn into_groups(self) -> Groups {
        let Guess {
            low: _low,
            group,
            open: _open,
            tasks: _tasks,
            entered: _,
            closed: _,
        } = self;
        Groups { group }
    }
}

fn at(list: &[u32], k: u32) -> u32 {
    list.get(k as usize).copied().unwrap_or(NONE)
}

fn put(list: &mut Vec<u32>, k: u32, x: u32) {
    if let Some(place) = list.get_mut(k as usize) {
        *place = x;
    }
}

fn enter(g: &Graph, s: &mut Guess, k: u32) -> Result<(), NoMemory> {
    if at(s.low.as_slice(), k) != NONE {
        return Ok(());
    }
    put(&mut s.low, k, s.entered);
    s.entered = s.entered.saturating_add(1);
    s.open.push(k)?;
    s.tasks.push(Task::Leave(k))?;
    for j in g.row(k) {
        s.tasks.push(Task::Enter(*j))?;
    }
    Ok(())
}

// The lowest of a node and of those without a group that it leads to.
fn lowest(g: &Graph, s: &Guess, k: u32) -> u32 {
    let mut low = at(s.low.as_slice(), k);
    for j in g.row(k) {
        if at(s.group.as_slice(), *j) == NONE {
            low = low.min(at(s.low.as_slice(), *j));
        }
    }
    low
}

// A node that reaches none entered before it closes a group.
fn leave(g: &Graph, s: &mut Guess, k: u32) {
    let low = lowest(g, s, k);
    if low < at(s.low.as_slice(), k) {
        put(&mut s.low, k, low);
        return;
    }
    for _ in 0..s.open.len() {
        if let Some(j) = s.open.pop() {
            put(&mut s.group, j, s.closed);
            if j == k {
                break;
            }
        }
    }
    s.closed = s.closed.saturating_add(1);
}

impl Groups {
    /// The groups of a graph's nodes.
    pub fn of(alloc: Global, g: &Graph) -> Result<Groups, NoMemory> {
        let mut guess = Guess::new(alloc, g.len())?;
        guess.walk(g)?;
        let groups = guess.into_groups();
        if !groups.are_ranked(g)? {
            return Err(lost());
        }
        Ok(groups)
    }

    fn of_node(&self, k: u32) -> u32 {
        at(self.group.as_slice(), k)
    }

    // Whether no node leads to a higher group than its own: then none that leads to lower ones alone is on a cycle.
    fn are_ranked(&self, g: &Graph) -> Result<bool, NoMemory> {
        for k in 0..g.len() {
            let k = u32::try_from(k).map_err(|_| lost())?;
            if !self.is_ranked(g, k) {
                return Ok(false);
            }
        }
        Ok(true)
    }

    fn is_ranked(&self, g: &Graph, k: u32) -> bool {
        for j in g.row(k) {
            if self.of_node(k) < self.of_node(*j) {
                return false;
            }
        }
        true
    }

    /// Whether a node leads to one of its own group: it is on a cycle then, if the guess is right.
    pub fn is_looped(&self, g: &Graph, k: u32) -> bool {
        for j in g.row(k) {
            if self.of_node(*j) == self.of_node(k) {
                return true;
            }
        }
        false
    }
}

/// The nodes that some nodes reach, themselves too.
#[derive(Drop)]
pub struct Reached {
    seen: Vec<bool>,
}

impl Reached {
    /// What the nodes of a list reach.
    pub fn from(alloc: Global, g: &Graph, first: &[u32]) -> Result<Reached, NoMemory> {
        let mut reached = Reached {
            seen: vec![in alloc; false; g.len()]?,
        };
        let mut tasks = Vec::from_slice(alloc, first)?;
        for _ in 0..usize::MAX {
            let Some(k) = tasks.pop() else {
                return Ok(reached);
            };
            if reached.see(k) {
                tasks.extend_from_slice(g.row(k))?;
            }
        }
        Err(lost())
    }

    // Sees a node, and says whether it is new.
    fn see(&mut self, k: u32) -> bool {
        if let Some(seen) = self.seen.get_mut(k as usize) {
            let is_new = !*seen;
            *seen = true;
            return is_new;
        }
        false
    }

    pub fn has(&self, k: u32) -> bool {
        self.seen.get(k as usize).copied().unwrap_or(false)
    }
}

/// Whether a node reaches itself by one step or more.
pub fn reaches_itself(alloc: Global, g: &Graph, k: u32) -> Result<bool, NoMemory> {
    Ok(Reached::from(alloc, g, g.row(k))?.has(k))
}
