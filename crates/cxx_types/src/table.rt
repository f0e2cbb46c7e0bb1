ghost use Rattle.std.specs.Prelude.{◌≡◌, ◌<◌, ◌≤◌, ◌+◌, ◌^◌, [], length, max, IsTrue, IfSome, ◌↔◌};
ghost use Rattle.cxx_model.specs.Types.Same.{same_type};
ghost use Rattle.cxx_model.specs.Types.Proper.{IsInOneForm, IsProper};
ghost use Rattle.cxx_model.specs.Types.Trees.{IsNormal};
ghost use Rattle.cxx_model.specs.Types.Numbers.{type_at, types_at, type_over, AreTypesBelow, IsNodeBelow};
ghost use Rattle.cxx_types.specs.Levels.{level_count, level_counts};
ghost use Rattle.cxx_types.specs.Makes.{IsMade, Makes};

use cxx_hash::Key;
use cxx_model::{OutOfMemory, TypeId, TypeNode};
use indexmap::IndexSet;
use std::alloc::Global;
use std::marker::Model;

/// The types that were met, each with a number. A contract sees the list of the types, in the order of their numbers.
#[derive(Drop)]
pub struct TypeTable {
    pub(crate) nodes: IndexSet<TypeNode, Key>,
    // The levels of each type.
    level_counts: Vec<u64>,
    // Numbers that were answered of late, each in the place of its node.
    recent: [u64; 64],
    alloc: Global,
}

// Where the number of a node is kept at hand.
fn place_of(node: &TypeNode) -> usize
    ensures { result < 64 }
{
    let place = match node {
        TypeNode::Plain(base) => *base as u64,
        TypeNode::Pointer(of) => of.0 % 64 + 16,
        TypeNode::Reference(of) => of.0 % 64 + 32,
        TypeNode::Qualified(_, of) => of.0 % 64 + 48,
        TypeNode::Array(of, _) => of.0 % 64 + 56,
        TypeNode::Function { result, .. } => result.0 % 64 + 24,
        TypeNode::Enum(number) => number.0 as u64,
        _ => 0,
    };
    (place % 64) as usize
}

impl Model for TypeTable {
    ghost use Rattle.std.specs.Prelude.{List};
    ghost use Rattle.std.specs.Coded.{coded_list};
    ghost use Rattle.cxx_model.specs.Types.Trees.{CxxType};
    ghost use Rattle.cxx_model.specs.Types.Code.{coded_type};

    ghost Value = { List CxxType };

    ghost coded = { coded_list coded_type };

    ghost use Rattle.cxx_types.specs.Table.{types_of, IsTable};

    ghost view = { λ table. types_of table.nodes.keys };

    ghost invariant = { λ table. IsTable table.nodes.keys table.level_counts.items };
}

impl TypeTable {
    ghost use Rattle.cxx_types.specs.Table.{AreNormal, AreProper};

    /// A table of no types. What it looks up is hashed by the key.
    pub fn new(alloc: Global, key: Key) -> TypeTable
        ensures { result ≡ [] }
    {
        TypeTable {
            nodes: IndexSet::with_hasher(alloc, key),
            level_counts: Vec::new(alloc),
            recent: [0; 64],
            alloc,
        }
    }

    /// The outermost part of a type, with the numbers of its parts, which are smaller.
    pub fn node(&self, number: TypeId) -> &TypeNode
        requires { number.0 < length self.now }
        ensures is { type_over self.now result.now ≡ type_at self.now number.0 }
        ensures below { IsNodeBelow number.0 result.now }
        ensures form { IsInOneForm (type_at self.now number.0) }
    {
        self.nodes.get_index(number.0 as usize).unwrap()
    }

    /// The pointers, references, arrays, functions and nested names on the longest way down a type.
    pub fn levels(&self, number: TypeId) -> u64
        requires { number.0 < length self.now }
        ensures is { result ≡ level_count (type_at self.now number.0) }
        ensures small { result + 1 < 2 ^ 64 }
    {
        // There are fewer types than numbers of type `u64`.
        let _ = self.level_counts.len();
        self.level_counts[number.0 as usize]
    }

    /// Whether two types are the same.
    pub fn same(&self, one: TypeId, two: TypeId) -> bool
        requires one_known { one.0 < length self.now }
        requires two_known { two.0 < length self.now }
        ensures is { result ≡ same_type (type_at self.now one.0) (type_at self.now two.0) }
        ensures types { IsTrue result ↔ (type_at self.now one.0 ≡ type_at self.now two.0) }
        ensures numbers { IsTrue result ↔ (one ≡ two) }
    {
        let _ = &self.nodes;
        one.0 == two.0
    }

    // Each type is in the one form.
    pub(crate) fn form(&self)
        ensures { AreNormal self.now }
    {
        let _ = &self.nodes;
    }

    // No specialisation in a type is a class of its own.
    pub(crate) fn proper(&self)
        ensures { AreProper self.now }
    {
        let _ = &self.nodes;
    }

    pub(crate) fn allocator(&self) -> Global {
        self.alloc
    }

    // The number at hand in a place, where it is that of a node.
    fn recent_number(&self, node: &TypeNode, place: usize) -> Option<TypeId>
        requires below { IsNodeBelow (length self.now) node.now }
        requires place { place < 64 }
        ensures { IfSome result (λ number. IsMade self.now (Ok number) (type_over self.now node.now)) }
    {
        let number = self.recent[place];
        match self.nodes.get_index(number as usize) {
            Some(known) if node == known => Some(TypeId(number)),
            _ => None,
        }
    }

    // Keeps a number at hand.
    fn keep(&mut self, place: usize, number: TypeId)
        requires { place < 64 }
        ensures { self.new ≡ self.old }
    {
        self.recent[place] = number.0;
    }

    // The number of a type in the one form whose parts stand in the table.
    pub(crate) fn insert(&mut self, node: TypeNode) -> Result<TypeId, OutOfMemory>
        requires below { IsNodeBelow (length self.old) node }
        requires normal { AreNormal self.old → IsNormal (type_over self.old node) }
        requires proper { AreProper self.old → IsProper (type_over self.old node) }
        ensures { Makes self.old self.new result (type_over self.old node) }
    {
        let place = place_of(&node);
        if let Some(number) = self.recent_number(&node, place) {
            return Ok(number);
        }
        let number = self.find_or_add(node)?;
        self.keep(place, number);
        Ok(number)
    }

    // The same, of a node whose number may not be at hand.
    fn find_or_add(&mut self, node: TypeNode) -> Result<TypeId, OutOfMemory>
        requires below { IsNodeBelow (length self.old) node }
        requires normal { AreNormal self.old → IsNormal (type_over self.old node) }
        requires proper { AreProper self.old → IsProper (type_over self.old node) }
        ensures { Makes self.old self.new result (type_over self.old node) }
    {
        let levels = self.levels_over(&node);
        self.level_counts.reserve(1)?;
        let (index, is_new) = self.nodes.insert_full(node)?;
        if is_new {
            self.level_counts.push(levels)?;
        }
        Ok(TypeId(index as u64))
    }

    // The most levels of some types.
    fn most_levels(&self, numbers: &[TypeId]) -> u64
        requires { AreTypesBelow (length self.now) numbers.now }
        ensures is { result ≡ level_counts (types_at self.now numbers.now) }
        ensures small { result + 1 < 2 ^ 64 }
    {
        let mut most = 0;
        for number in numbers {
            most = most.max(self.levels(*number));
        }
        most
    }

    // The levels of a type whose parts stand in the table.
    fn levels_over(&self, node: &TypeNode) -> u64
        requires { IsNodeBelow (length self.now) node.now }
        ensures { result ≡ level_count (type_over self.now node.now) }
    {
        match node {
            TypeNode::Pointer(of) => self.levels(*of) + 1,
            TypeNode::Reference(of) => self.levels(*of) + 1,
            TypeNode::Array(element, _) => self.levels(*element) + 1,
            TypeNode::Function {
                result,
                parameters,
                ..
            } => {
                self.levels(*result)
                    .max(self.most_levels(parameters.as_slice()))
                    + 1
            }
            TypeNode::Qualified(_, of) => self.levels(*of),
            TypeNode::Nested(of, _) => self.levels(*of) + 1,
            _ => 0,
        }
    }
}
