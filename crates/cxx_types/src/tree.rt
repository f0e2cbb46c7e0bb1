ghost use Rattle.std.specs.Prelude.{◌≡◌, ◌<◌, ◌≤◌, length, IfOk};
ghost use Rattle.cxx_model.specs.Types.Numbers.{type_at, types_at, tree_at, AreTypesBelow, IsTreeBelow};
ghost use Rattle.cxx_types.specs.Trees.{trees_at, AreTreesBelow};

use crate::table::TypeTable;
use cxx_model::{
    Listed, OutOfMemory, Signature, TypeId, TypeList, TypeNode, TypeTree, copy_arguments,
    copy_bound,
};
use std::alloc::Global;

impl TypeTable {
    /// The whole tree of a type.
    #[cycle(tree_of)]
    pub fn tree_of(&self, alloc: Global, number: TypeId) -> Result<TypeTree, OutOfMemory>
        requires { number.0 < length self.now }
        ensures is { IfOk result (λ tree. tree_at self.now tree ≡ type_at self.now number.0) }
        ensures below { IfOk result (IsTreeBelow (length self.now)) }
    {
        match self.node(number) {
            TypeNode::Plain(base) => Ok(TypeTree::Plain(*base)),
            TypeNode::Class(class) => Ok(TypeTree::Class(*class)),
            TypeNode::Enum(enumeration) => Ok(TypeTree::Enum(*enumeration)),
            TypeNode::Pointer(of) => {
                let of = Box::new(alloc, self.tree_of(alloc, *of)?)?;
                Ok(TypeTree::Pointer(of))
            }
            TypeNode::Reference(of) => {
                let of = Box::new(alloc, self.tree_of(alloc, *of)?)?;
                Ok(TypeTree::Reference(of))
            }
            TypeNode::Array(element, bound) => {
                let element = Box::new(alloc, self.tree_of(alloc, *element)?)?;
                let bound = copy_bound(alloc, bound)?;
                Ok(TypeTree::Array(element, bound))
            }
            TypeNode::Function {
                result,
                parameters,
                ellipsis,
                cv,
            } => {
                let result = self.tree_of(alloc, *result)?;
                let parameters = self.trees_of(alloc, parameters.as_slice(), number)?;
                let signature = Signature {
                    result,
                    parameters,
                    ellipsis: *ellipsis,
                    cv: *cv,
                };
                let signature = Box::new(alloc, signature)?;
                Ok(TypeTree::Function(signature))
            }
            TypeNode::Qualified(cv, of) => {
                let of = Box::new(alloc, self.tree_of(alloc, *of)?)?;
                Ok(TypeTree::Qualified(*cv, of))
            }
            TypeNode::Parameter(depth, index) => Ok(TypeTree::Parameter(*depth, *index)),
            TypeNode::Special(template, arguments) => {
                let arguments = copy_arguments(alloc, arguments.as_slice())?;
                Ok(TypeTree::Special(*template, arguments))
            }
            TypeNode::Nested(of, word) => {
                let of = Box::new(alloc, self.tree_of(alloc, *of)?)?;
                let word = Listed::from_slice(alloc, word.as_slice())?;
                Ok(TypeTree::Nested(of, word))
            }
        }
    }

    // The trees of some types, each with a number below `end`.
    #[cycle(tree_of)]
    fn trees_of(
        &self,
        alloc: Global,
        numbers: &[TypeId],
        end: TypeId,
    ) -> Result<TypeList, OutOfMemory>
        requires known { end.0 < length self.now }
        requires below { AreTypesBelow end.0 numbers.now }
        ensures is { IfOk result (λ trees. trees_at self.now trees.items ≡ types_at self.now numbers.now) }
        ensures below { IfOk result (λ trees. AreTreesBelow (length self.now) trees.items) }
    {
        let mut trees = Vec::new(alloc);
        for number in numbers {
            trees.push(self.tree_of(alloc, *number)?)?;
        }
        Ok(trees)
    }
}
