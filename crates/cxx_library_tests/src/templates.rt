//! Templates, and the classes that are reserved for their specialisations.

use crate::sample::{plain_class, special, synonym, template, unit};
use cxx_graph::{AddFault, Graph};
use cxx_model::{Argument, ClassId, Formula, Listed, TemplateId, TreeId, TypeId};
use std::alloc::Global;
use std::test::Fail;

// Seven arguments, no two of which are the same.
fn argument(alloc: Global, number: u32) -> Result<Argument, AddFault> {
    match number {
        0 => Ok(Argument::OfType(TypeId(3))),
        1 => Ok(Argument::Value(3, TypeId(2))),
        2 => Ok(Argument::Value(4, TypeId(2))),
        3 => Ok(Argument::Value(3, TypeId(3))),
        4 => computed(alloc, Formula::Parameter(0, 0)),
        5 => computed(alloc, Formula::Parameter(0, 1)),
        _ => computed(alloc, Formula::Value(3, TypeId(2))),
    }
}

fn computed(alloc: Global, formula: Formula) -> Result<Argument, AddFault> {
    Ok(Argument::Computed(Box::new(alloc, formula)?))
}

fn nth_special(graph: &mut Graph, alloc: Global, number: u32) -> Result<ClassId, AddFault> {
    let argument = argument(alloc, number)?;
    special(graph, alloc, TemplateId(0), argument)
}

// 14.4: arguments that differ make another class, and the same arguments the same one.
#[test]
fn arguments_apart(rt: HostRuntime) -> Result<(), Fail> {
    let mut graph = unit(rt.alloc())?;
    template(&mut graph, rt.alloc(), None, None, 1)?;
    for n in 0..14 {
        let class = nth_special(&mut graph, rt.alloc(), n % 7)?;
        assert!(rt; class == ClassId(n % 7));
    }
    Ok(())
}

// 14.7.1: `A<B>` where `B` is of no template, and `A<A<B>>`; type 0 stands for `B`, and type 1 for `A<B>`.
#[test]
fn specialisation_of_a_specialisation(rt: HostRuntime) -> Result<(), Fail> {
    let mut graph = unit(rt.alloc())?;
    let (plain, inner, outer) = nested(rt.alloc(), &mut graph)?;
    assert!(rt; plain == ClassId(0) && inner == ClassId(1) && outer == ClassId(2));
    assert!(rt; !is_given(&graph, plain, TypeId(1)));
    assert!(rt; is_given(&graph, inner, TypeId(0)));
    assert!(rt; is_given(&graph, outer, TypeId(1)));
    Ok(())
}

fn nested(alloc: Global, graph: &mut Graph) -> Result<(ClassId, ClassId, ClassId), AddFault> {
    let template = template(graph, alloc, None, None, 1)?;
    let plain = plain_class(graph, alloc)?;
    let inner = special(graph, alloc, template, Argument::OfType(TypeId(0)))?;
    let outer = special(graph, alloc, template, Argument::OfType(TypeId(1)))?;
    Ok((plain, inner, outer))
}

// Whether a class was reserved for the first template with a type.
fn is_given(graph: &Graph, class: ClassId, of: TypeId) -> bool {
    if class.0 >= graph.class_count() {
        return false;
    }
    match graph.specialisation(class) {
        Some(given) => {
            let arguments = [Argument::OfType(of)];
            given.template == TemplateId(0) && given.arguments.as_slice() == arguments.as_slice()
        }
        None => false,
    }
}

// 14.4: the template and how many arguments there are tell specialisations apart too.
#[test]
fn templates_and_counts_apart(rt: HostRuntime) -> Result<(), Fail> {
    let mut graph = two_templates(rt.alloc())?;
    assert!(rt; of_none(&mut graph, rt.alloc(), TemplateId(0))? == ClassId(0));
    assert!(rt; of_none(&mut graph, rt.alloc(), TemplateId(1))? == ClassId(1));
    assert!(rt; nth_special(&mut graph, rt.alloc(), 0)? == ClassId(2));
    assert!(rt; of_none(&mut graph, rt.alloc(), TemplateId(0))? == ClassId(0));
    Ok(())
}

fn add_two_templates(graph: &mut Graph, alloc: Global) -> Result<(), AddFault> {
    template(graph, alloc, None, None, 7)?;
    synonym(graph)?;
    template(graph, alloc, None, None, 9)?;
    Ok(())
}

fn two_templates(alloc: Global) -> Result<Graph, AddFault> {
    let mut graph = unit(alloc)?;
    add_two_templates(&mut graph, alloc)?;
    Ok(graph)
}

// The class of a specialisation with no argument.
fn of_none(graph: &mut Graph, alloc: Global, template: TemplateId) -> Result<ClassId, AddFault> {
    if template.0 as usize >= graph.patterns().len() {
        return Err(AddFault::Limit);
    }
    graph.reserve_class(Some(template), &Listed::new(alloc))
}

// 14: a template has the number that it was given.
#[test]
fn templates_by_number(rt: HostRuntime) -> Result<(), Fail> {
    let graph = two_templates(rt.alloc())?;
    assert!(rt; tree_of(&graph, TemplateId(0)) == Some(TreeId(7)));
    assert!(rt; tree_of(&graph, TemplateId(1)) == Some(TreeId(9)));
    Ok(())
}

fn tree_of(graph: &Graph, number: TemplateId) -> Option<TreeId> {
    if (number.0 as usize) < graph.patterns().len() {
        Some(graph.pattern(number).tree)
    } else {
        None
    }
}
