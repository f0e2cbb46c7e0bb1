ghost use Rattle.std.specs.Prelude.{◌≡◌, ◌<◌, ◌++◌, ◌∷◌, ◌↔◌, ◌⊎◌, [], length, take, Err, Some, IfOk, OnOk, OnErr};
ghost use Rattle.std.specs.List.{slice_get};

use cxx_model::{Node, OutOfMemory, TreeId};
use std::alloc::Global;
use std::marker::Model;

/// The most nodes: their numbers are below it.
const MOST: usize = 4_294_967_295;

/// The most levels of a tree. Trees are walked from the top, so a deeper one might not fit on the stack.
const MOST_LEVELS: u32 = 10_000;

/// The nodes of all trees, each with a number. Children have smaller numbers than their parents.
#[derive(Drop)]
pub struct Trees {
    nodes: Vec<Node>,
    // The levels of each tree.
    levels: Vec<u32>,
}

impl Model for Trees {
    ghost use Rattle.std.specs.Prelude.{List, ◌≤◌, length};
    ghost use Rattle.cxx_model.specs.declared.tree.Node.{Node};

    ghost Value = { List Node };

    ghost view = { λ trees. trees.nodes.items };

    ghost invariant = { λ trees. length trees.nodes.items ≤ 4294967295 };
}

impl Trees {
    pub fn new(alloc: Global) -> Trees
        ensures { result ≡ [] }
    {
        Trees {
            nodes: Vec::new(alloc),
            levels: Vec::new(alloc),
        }
    }

    /// How many nodes there are.
    pub fn length(&self) -> u32
        ensures { result ≡ length self.now }
    {
        self.nodes.len() as u32
    }

    // The levels of the tree with a number, and none where there is no such tree.
    fn levels_of(&self, number: TreeId) -> u32 {
        match self.levels.get(number.0 as usize) {
            Some(levels) => *levels,
            None => 0,
        }
    }

    // The levels of the tree that a node makes of others.
    fn levels_over(&self, node: &Node) -> u32 {
        let mut most = 0;
        for child in node.children.as_slice() {
            let levels = self.levels_of(*child);
            if most < levels {
                most = levels;
            }
        }
        most.saturating_add(1)
    }

    /// Adds a node. There are 2^32 - 1 at most, which is more than any memory of today holds: one more is answered as
    /// want of memory. So is one whose tree has more levels than the stack may hold.
    pub fn push(&mut self, node: Node) -> Result<TreeId, OutOfMemory>
        ensures number { IfOk result (λ number. number.0 ≡ length self.old) }
        ensures added { OnOk result (self.new ≡ self.old ++ node ∷ []) }
        ensures unchanged { OnErr result (self.new ≡ self.old) }
    {
        let count = self.nodes.len();
        let levels = self.levels_over(&node);
        if count == MOST || levels > MOST_LEVELS {
            return Err(OutOfMemory);
        }
        self.levels.push(levels)?;
        self.nodes.push(node)?;
        Ok(TreeId(count as u32))
    }

    pub fn node(&self, number: TreeId) -> &Node
        requires { number.0 < length self.now }
        ensures { slice_get self.now number.0 ≡ Some result.now }
    {
        &self.nodes[number.0 as usize]
    }
}
