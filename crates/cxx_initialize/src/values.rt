//! Values and references in initializers (8.5, 8.5.3).

ghost use Rattle.std.specs.Prelude.{◌≡◌, ◌<◌, length};
ghost use Rattle.cxx_meaning.specs.Conversions.Kinds.{kind_of as kind_of_type};
ghost use Rattle.cxx_meaning.specs.Conversions.Standard.{is_class as is_class_kind};
ghost use Rattle.cxx_tree.specs.Answered.{IsAnswered};
ghost use Rattle.cxx_tree.specs.Held.{meaning, tree, trees, type_of};
ghost use Rattle.cxx_expr.specs.Initializing as definition;
ghost use Rattle.cxx_expr.specs.Making.{IsTreeKnown};
ghost use Rattle.cxx_expr.specs.Nodes.{IsOneKnown, one_tree};
ghost use Rattle.cxx_initialize.specs.Behind as behind;

use crate::written::{is_braces_at, only_part, start_of};
use cxx_expr::conditional::is_class;
use cxx_expr::faults::{fault, not_built_at};
use cxx_expr::{Questions, convert};
use cxx_model::{FaultText, Place, Stop, TreeId, TypeId};
use cxx_standard::kind_of;
use cxx_tree::State;
use std::alloc::Global;

/// The value that stands alone.
#[tactic(auto, using(cxx_expr::proofs::Kept::later_refl))]
pub fn one_of<Q: Questions>(
    alloc: Global,
    questions: &Q,
    state: &mut State,
    place: Place,
    of: TypeId,
    one: Option<TreeId>,
) -> Result<TreeId, Stop>
    requires ready { Q.is_ready questions.now }
    requires of { of.0 < length (state.old).types }
    requires one { IsOneKnown state.old one }
    ensures { IsAnswered tree IsTreeKnown state.old state.new result (behind.one_by (Q.asks questions.now) place (type_of state.old of) (one_tree state.old one) (meaning state.old)) }
{
    match one {
        None => Err(Stop::Fault(fault(alloc, place, FaultText::OperandsDoNotFit)?)),
        Some(number) => {
            if is_braces_at(state, number) {
                return Err(Stop::Fault(fault(alloc, place, FaultText::OperandsDoNotFit)?));
            }
            convert(alloc, questions, state, place, of, number)
        }
    }
}

fn is_class_type(state: &State, of: TypeId) -> bool
    requires { of.0 < length (state.now).types }
    ensures { result ≡ is_class_kind (kind_of_type (type_of state.now of)) }
{
    is_class(kind_of(state.graph(), state.types(), of))
}

/// A value or a reference in another object.
#[tactic(auto, using(cxx_expr::proofs::Kept::later_refl, crate::proofs::Parts::one_of_only))]
pub fn value_part<Q: Questions>(
    alloc: Global,
    questions: &Q,
    state: &mut State,
    of: TypeId,
    number: TreeId,
) -> Result<TreeId, Stop>
    requires ready { Q.is_ready questions.now }
    requires of { of.0 < length (state.old).types }
    requires number { number.0 < length (trees state.old) }
    ensures { IsAnswered tree IsTreeKnown state.old state.new result (definition.value_part (Q.asks questions.now) (type_of state.old of) (tree state.old number) (meaning state.old)) }
{
    let start = start_of(state, number);
    if is_class_type(state, of) {
        return Err(Stop::Fault(not_built_at(alloc, start)?));
    }
    if is_braces_at(state, number) {
        let one = only_part(state, number);
        return one_of(alloc, questions, state, start, of, one);
    }
    convert(alloc, questions, state, start, of, number)
}
