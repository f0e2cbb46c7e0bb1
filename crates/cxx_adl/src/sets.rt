//! The associated classes and namespaces (3.4.2).

ghost use Rattle.std.specs.Prelude.{◌≡◌, ◌<◌, [], length, map, find, IfOk, OnOk};
ghost use Rattle.cxx_model.specs.Types.Numbers.{AreTypesBelow, type_over};
ghost use Rattle.cxx_model.specs.Facts.Declarations.{graph_at};
ghost use Rattle.cxx_model.specs.Facts.Fitted.{IsGraphBelow};
ghost use Rattle.cxx_model.specs.Facts.Pending.{is_pending as is_pending_class};
ghost use Rattle.cxx_meaning.specs.Lookups.Associated.{associated as associated_with, class_at_scope, class_of as class_of_part, of_type, own_classes as own_classes_of, sets_of, number_of_class, space_at_scope, spaces_of, with_member_classes, with_spaces, with_template_spaces};
ghost use Rattle.cxx_adl.specs.Answers.{Answers};
ghost use Rattle.cxx_adl.specs.Views.{ArePartsBelow, IsPartBelow, given, graph_of, holders_of, part_at};

use crate::asking::Asking;
use crate::numbers::add_option;
use crate::parts::Part;
use crate::scopes::Holder;
use cxx_graph::Graph;
use cxx_model::{Associated, ClassId, NumberList, ScopeId, TypeIdList, TypeNode, Wait};
use cxx_types::TypeTable;
use std::alloc::{AllocError, Global};

impl Asking<'_> {
    fn class_of_node(&self, node: &TypeNode) -> Option<u32>
        ensures { result ≡ class_of_part (of_type (type_over self.now.types.now node.now)) }
    {
        match node {
            TypeNode::Class(class) => Some(class.0),
            _ => None,
        }
    }

    // A class, or a base of one.
    fn class_in(&self, part: Part) -> Option<u32>
        requires { IsPartBelow (length self.now.types.now) part }
        ensures { result ≡ class_of_part (part_at self.now.types.now part) }
    {
        match part {
            Part::Type(of) => self.class_of_node(self.types.node(of)),
            Part::Base(class) => Some(class.0),
        }
    }

    // The class to which a scope belongs.
    fn class_at(&self, holders: &[Holder], scope: Option<ScopeId>) -> Option<u32>
        requires { holders.now ≡ holders_of self.now.graph.now.facts }
        ensures { result ≡ class_at_scope (graph_of self.now) scope }
    {
        match scope {
            Some(scope) => number_of(self.class_of(holders, scope)),
            None => None,
        }
    }

    // The innermost namespace of a scope.
    fn space_at(&self, holders: &[Holder], scope: Option<ScopeId>) -> Option<u32>
        requires { holders.now ≡ holders_of self.now.graph.now.facts }
        ensures { result ≡ space_at_scope (graph_of self.now) scope }
    {
        match scope {
            Some(scope) => Some(self.home(holders, scope).0),
            None => None,
        }
    }

    // The classes among some parts.
    #[tactic(auto, unfolding(cxx_meaning::specs::Lookups::Associated::collected))]
    fn own_classes(&self, parts: &[Part]) -> Result<Vec<u32>, AllocError>
        requires { ArePartsBelow (length self.now.types.now) parts.now }
        ensures { IfOk result (λ classes. classes.items ≡ own_classes_of (map (part_at self.now.types.now) parts.now)) }
    {
        let mut classes = Vec::new(self.alloc);
        for part in parts {
            let class = self.class_in(*part);
            add_option(&mut classes, class)?;
        }
        Ok(classes)
    }

    // Adds the classes of which parts are members.
    #[tactic(auto, unfolding(cxx_meaning::specs::Lookups::Associated::collected))]
    fn add_member_classes(
        &self,
        holders: &[Holder],
        parts: &[Part],
        classes: &mut Vec<u32>,
    ) -> Result<(), AllocError>
        requires holders { holders.now ≡ holders_of self.now.graph.now.facts }
        requires parts { ArePartsBelow (length self.now.types.now) parts.now }
        ensures { OnOk result (classes.new.items ≡ with_member_classes (graph_of self.now) (map (part_at self.now.types.now) parts.now) classes.old.items) }
    {
        for part in parts {
            let class = self.class_at(holders, self.member_scope_of(*part));
            add_option(classes, class)?;
        }
        Ok(())
    }

    // Adds the namespaces of what parts name.
    #[tactic(auto, unfolding(cxx_meaning::specs::Lookups::Associated::collected))]
    fn add_spaces(
        &self,
        holders: &[Holder],
        parts: &[Part],
        spaces: &mut Vec<u32>,
    ) -> Result<(), AllocError>
        requires holders { holders.now ≡ holders_of self.now.graph.now.facts }
        requires parts { ArePartsBelow (length self.now.types.now) parts.now }
        ensures { OnOk result (spaces.new.items ≡ with_spaces (graph_of self.now) (map (part_at self.now.types.now) parts.now) spaces.old.items) }
    {
        for part in parts {
            let space = self.space_at(holders, self.scope_of(*part));
            add_option(spaces, space)?;
        }
        Ok(())
    }

    // Adds the namespaces of the templates of specialisations.
    #[tactic(auto, unfolding(cxx_meaning::specs::Lookups::Associated::collected))]
    fn add_template_spaces(
        &self,
        holders: &[Holder],
        parts: &[Part],
        spaces: &mut Vec<u32>,
    ) -> Result<(), AllocError>
        requires holders { holders.now ≡ holders_of self.now.graph.now.facts }
        requires parts { ArePartsBelow (length self.now.types.now) parts.now }
        ensures { OnOk result (spaces.new.items ≡ with_template_spaces (graph_of self.now) (map (part_at self.now.types.now) parts.now) spaces.old.items) }
    {
        for part in parts {
            let space = self.space_at(holders, self.template_scope_of(*part));
            add_option(spaces, space)?;
        }
        Ok(())
    }

    fn spaces(&self, holders: &[Holder], parts: &[Part]) -> Result<Vec<u32>, AllocError>
        requires holders { holders.now ≡ holders_of self.now.graph.now.facts }
        requires parts { ArePartsBelow (length self.now.types.now) parts.now }
        ensures { IfOk result (λ spaces. spaces.items ≡ spaces_of (graph_of self.now) (map (part_at self.now.types.now) parts.now)) }
    {
        let mut spaces = Vec::new(self.alloc);
        self.add_spaces(holders, parts, &mut spaces)?;
        self.add_template_spaces(holders, parts, &mut spaces)?;
        Ok(spaces)
    }

    fn sets(&self, parts: &[Part], own: Vec<u32>) -> Result<Associated, AllocError>
        requires parts { ArePartsBelow (length self.now.types.now) parts.now }
        requires own { own.items ≡ own_classes_of (map (part_at self.now.types.now) parts.now) }
        ensures { IfOk result (λ sets. sets ≡ sets_of (graph_of self.now) (map (part_at self.now.types.now) parts.now)) }
    {
        let holders = self.holders()?;
        let mut classes = own;
        self.add_member_classes(&holders, parts, &mut classes)?;
        let spaces = self.spaces(&holders, parts)?;
        Ok(Associated {
            classes: NumberList::from_vec(classes),
            spaces: NumberList::from_vec(spaces),
        })
    }

    // Whether a class has to be complete before it is asked.
    fn is_pending(&self, class: ClassId) -> bool
        ensures { result ≡ is_pending_class (graph_of self.now) class.0 }
    {
        self.graph.pending(class)
    }

    // The first of some classes that is pending.
    fn first_pending(&self, classes: &[u32]) -> Option<u32>
        ensures { result ≡ find (is_pending_class (graph_of self.now)) classes.now }
    {
        for class in classes {
            if self.is_pending(ClassId(*class)) {
                return Some(*class);
            }
        }
        None
    }
}

fn number_of(class: Option<ClassId>) -> Option<u32>
    ensures { result ≡ number_of_class class }
{
    match class {
        Some(class) => Some(class.0),
        None => None,
    }
}

/// The associated classes and namespaces of the types of some arguments (3.4.2), ascending.
///
/// # Errors
///
/// The least of the classes that is pending has to be complete first (14.7.1).
#[tactic(auto, unfolding(cxx_meaning::specs::Lookups::Associated::associated))]
pub fn associated(
    alloc: Global,
    graph: &Graph,
    types: &TypeTable,
    of: &TypeIdList,
) -> Result<Associated, Wait>
    requires graph_below { IsGraphBelow (length types.now) graph.now }
    requires of_below { AreTypesBelow (length types.now) of.now }
    ensures { Answers result (associated_with (graph_at types.now graph.now) (given types.now of.now)) }
{
    let asking = Asking {
        alloc,
        graph,
        types,
    };
    let parts = asking.parts(of.as_slice())?;
    let own = asking.own_classes(&parts)?;
    if let Some(class) = asking.first_pending(&own) {
        return Err(Wait::Needs(ClassId(class)));
    }
    Ok(asking.sets(&parts, own)?)
}
