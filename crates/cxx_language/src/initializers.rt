//! The nodes of initializers as they are read (8.5), and the arrays that they may not make (8.3.4).

ghost use Rattle.std.specs.Prelude.{◌≡◌, ◌<◌, length, IfOk};
ghost use Rattle.cxx_expr.specs.Nodes.{IsNodeHeld, node_tree};
ghost use Rattle.cxx_language.specs.Objects as definition;
ghost use Rattle.cxx_language.specs.Parts.{is_zero_bound};
ghost use Rattle.cxx_model.specs.Types.Numbers.{bound_at, type_at};
ghost use Rattle.cxx_phrases.specs.Views.{IsInitializer, initializer_of};
ghost use Rattle.cxx_cursor.specs.Asking.{AnyKnown, itself};
ghost use Rattle.cxx_cursor.specs.Reading.{IsRead};
ghost use Rattle.cxx_cursor.specs.Views.{name_at};
ghost use Rattle.cxx_tree.specs.Held.{meaning, type_of};

use cxx_cursor::{Cursor, NameToken, is_punct, node_from};
use cxx_model::{Bound, FaultText, Form, Node, Stop, Text, TypeId, TypeNode, punct};
use cxx_phrases::Initializer;
use cxx_tree::State;
use cxx_types::TypeTable;
use cxx_units::trees::faulty;
use std::alloc::AllocError;

/// The number of the production.
const INITIALIZER: u8 = 22;

fn form_text(form: Form) -> &'static [u8]
    ensures { result.now ≡ definition.form_text form }
{
    match form {
        Form::Copy => b"=",
        Form::Direct => b"(",
        Form::Aggregate => b"{",
        Form::Default => b"",
    }
}

/// The node of an initializer, from its `=` or `(` on.
pub(crate) fn initializer_node(
    state: &State,
    read: Initializer,
    from: &Cursor<'_>,
    to: &Cursor<'_>,
) -> Result<Node, AllocError>
    requires { IsInitializer state.now read }
    ensures is { IfOk result (λ node. node_tree state.now node ≡ definition.initializer_tree (initializer_of state.now read) from.now to.now) }
    ensures known { IfOk result (IsNodeHeld state.now) }
{
    let _ = state;
    let spelling = Text::from_slice(from.alloc(), form_text(read.form))?;
    Ok(node_from(INITIALIZER, spelling, from, to, read.parts))
}

fn is_empty_bound(types: &TypeTable, bound: &Bound) -> bool
    ensures { result ≡ is_zero_bound (bound_at types.now bound.now) }
{
    let _ = types;
    match bound {
        Bound::Number(number) => *number == 0,
        _ => false,
    }
}

fn is_empty_array(types: &TypeTable, number: TypeId) -> bool
    requires { number.0 < length types.now }
    ensures { result ≡ definition.is_empty_array (type_at types.now number.0) }
{
    match types.node(number) {
        TypeNode::Array(_, bound) => is_empty_bound(types, bound),
        _ => false,
    }
}

/// An array has one element at least (8.3.4).
#[tactic(auto, using(cxx_cursor::proofs::Kept::later_refl), unfolding(crate::specs::Objects::some_elements))]
pub(crate) fn some_elements(
    state: &State,
    cursor: &Cursor<'_>,
    name: &NameToken,
    of: TypeId,
) -> Result<(), Stop>
    requires { of.0 < length (state.now).types }
    ensures { IsRead itself AnyKnown state.now state.now cursor.now result (definition.some_elements (name_at name.now) (type_of state.now of) (meaning state.now) cursor.now) }
{
    if is_empty_array(state.types(), of) {
        let fault = faulty(cursor.alloc(), name.place, FaultText::OperandsDoNotFit)?;
        return Err(Stop::Fault(fault));
    }
    Ok(())
}

/// Whether an initializer stands ahead.
pub(crate) fn begins_initializer(cursor: &Cursor<'_>) -> bool
    ensures { result ≡ definition.begins_initializer cursor.now }
{
    is_punct(punct::EQUALS, cursor.kind()) || is_punct(punct::LEFT_PARENTHESIS, cursor.kind())
}
