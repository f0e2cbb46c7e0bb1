//! Types by their outermost parts.

ghost use Rattle.std.specs.Prelude.{◌<◌, ◌≤◌, length, IfOk};
ghost use Rattle.cxx_candidate_tests.specs.Units.{IsPartKnown, type_by};
ghost use Rattle.cxx_model.specs.Facts.Fitted.{Fitted};
ghost use Rattle.cxx_types.specs.Makes.{Makes};

use cxx_graph::Graph;
use cxx_model::{Base, Bound, ClassId, Cv, EnumId, OutOfMemory, TypeId};
use cxx_types::TypeTable;

/// The outermost part of a type, over types that have numbers.
#[derive(Clone, Copy)]
pub(crate) enum Part {
    /// 3.9.1
    Plain(Base),
    Class(ClassId),
    Enumeration(EnumId),
    PointerTo(TypeId),
    ReferenceTo(TypeId),
    /// An array of three elements.
    ArrayOf(TypeId),
    /// A function without parameters.
    FunctionTo(TypeId),
    /// 3.9.3
    Words(Cv, TypeId),
}

const NO_WORDS: Cv = Cv {
    is_const: false,
    is_volatile: false,
};

fn make(graph: &Graph, types: &mut TypeTable, part: Part) -> Result<TypeId, OutOfMemory>
    requires { IsPartKnown graph.now (length types.old) part }
    ensures { Makes types.old types.new result (type_by types.old part) }
{
    let _ = graph;
    match part {
        Part::Plain(of) => types.plain(of),
        Part::Class(class) => types.class(class),
        Part::Enumeration(number) => types.enumeration(number),
        Part::PointerTo(of) => types.pointer_to(of),
        Part::ReferenceTo(of) => types.reference_to(of),
        Part::ArrayOf(of) => types.array_of(of, Bound::Number(3)),
        Part::FunctionTo(of) => types.function_to(of, &[], false, NO_WORDS),
        Part::Words(cv, of) => types.with_cv(of, cv),
    }
}

/// The number of a type, where what its part names is there. Each earlier number keeps its type.
pub(crate) fn made(graph: &Graph, types: &mut TypeTable, part: Part) -> Result<TypeId, OutOfMemory>
    requires known { IsPartKnown graph.now (length types.old) part }
    requires fitted { Fitted graph.now types.old }
    ensures fitted { Fitted graph.now types.new }
    ensures grown { length types.old ≤ length types.new }
    ensures known { IfOk result (λ number. number.0 < length types.new) }
{
    make(graph, types, part)
}
