ghost use Rattle.std.specs.Prelude.{◌≡◌, ◌<◌, length, IsTrue, ◌↔◌};
ghost use Rattle.cxx_model.specs.Types.Same.{same_type};
ghost use Rattle.cxx_model.specs.Types.Trees.{unqualified, without_levels, Similar};
ghost use Rattle.cxx_model.specs.Types.Numbers.{type_at, bound_at, IsBoundBelow};

use crate::table::TypeTable;
use cxx_model::{Bound, TypeId, TypeNode};

impl TypeTable {
    // Whether two bounds are the same.
    fn same_bound(&self, one: &Bound, two: &Bound) -> bool
        requires one_below { IsBoundBelow (length self.now) one.now }
        requires two_below { IsBoundBelow (length self.now) two.now }
        ensures { IsTrue result ↔ (bound_at self.now one.now ≡ bound_at self.now two.now) }
    {
        let _ = &self.nodes;
        one == two
    }

    // Whether two types are the same without their cv words (3.9.3).
    fn is_same_unqualified(&self, one: TypeId, two: TypeId) -> bool
        requires one_known { one.0 < length self.now }
        requires two_known { two.0 < length self.now }
        ensures { IsTrue result ↔ (unqualified (type_at self.now one.0) ≡ unqualified (type_at self.now two.0)) }
    {
        match self.node(one) {
            TypeNode::Array(element, bound) => match self.node(two) {
                TypeNode::Array(other, end) => {
                    self.same_bound(bound, end) && self.is_same_unqualified(*element, *other)
                }
                TypeNode::Qualified(_, of) => self.same(one, *of),
                _ => false,
            },
            TypeNode::Qualified(_, of) => match self.node(two) {
                TypeNode::Array(_, _) => self.same(*of, two),
                TypeNode::Qualified(_, other) => self.same(*of, *other),
                _ => self.same(*of, two),
            },
            _ => match self.node(two) {
                TypeNode::Array(_, _) => false,
                TypeNode::Qualified(_, other) => self.same(one, *other),
                _ => self.same(one, two),
            },
        }
    }

    // Whether two types are the same apart from cv words at the top and at each level of pointers (4.4).
    fn is_similar(&self, one: TypeId, two: TypeId) -> bool
        requires one_known { one.0 < length self.now }
        requires two_known { two.0 < length self.now }
        ensures { IsTrue result ↔ Similar (type_at self.now one.0) (type_at self.now two.0) }
    {
        match self.node(one) {
            TypeNode::Qualified(_, of) => self.is_similar(*of, two),
            TypeNode::Pointer(of) => match self.node(two) {
                TypeNode::Qualified(_, other) => self.is_similar(one, *other),
                TypeNode::Pointer(other) => self.is_similar(*of, *other),
                _ => false,
            },
            _ => match self.node(two) {
                TypeNode::Qualified(_, other) => self.is_similar(one, *other),
                TypeNode::Pointer(_) => false,
                _ => self.is_same_unqualified(one, two),
            },
        }
    }

    /// Whether two types are the same without their cv words; those of an array are those of its innermost element
    /// (3.9.3).
    pub fn same_unqualified(&self, one: TypeId, two: TypeId) -> bool
        requires one_known { one.0 < length self.now }
        requires two_known { two.0 < length self.now }
        ensures { result ≡ same_type (unqualified (type_at self.now one.0)) (unqualified (type_at self.now two.0)) }
    {
        self.is_same_unqualified(one, two)
    }

    /// Whether two types are the same apart from cv words at the top and at each level of pointers (4.4).
    pub fn similar(&self, one: TypeId, two: TypeId) -> bool
        requires one_known { one.0 < length self.now }
        requires two_known { two.0 < length self.now }
        ensures is { result ≡ same_type (without_levels (type_at self.now one.0)) (without_levels (type_at self.now two.0)) }
        ensures similar { IsTrue result ↔ Similar (type_at self.now one.0) (type_at self.now two.0) }
    {
        self.is_similar(one, two)
    }
}
