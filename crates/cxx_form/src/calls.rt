//! The calls that the text writes, in its order.
ghost use Rattle.std.specs.Prelude.{◌≡◌, ◌<◌, ◌++◌, flat_map, length, map, IfOk, OnOk};
ghost use Rattle.cxx_phrase_text.specs.Listing.{call_of};
ghost use Rattle.cxx_tree.specs.Held.{meaning, tree, trees};
ghost use Rattle.cxx_form.specs.Definitions.{definition_calls};
ghost use Rattle.cxx_form.specs.Lines.{line_at, lines_at, AreLinesBelow, IsLineBelow};
ghost use Rattle.cxx_form.specs.Text as text;
ghost use Rattle.cxx_form.specs.Text.{calls_on};
ghost use Rattle.cxx_form.specs.Views.{facts_in};

use crate::initializers::add_among;
use crate::lines::{Line, plain_lines};
use crate::parts::{body_of, parts_of};
use cxx_model::TreeId;
use cxx_phrase_text::ListedCall;
use cxx_statement_text::add_statement_calls;
use cxx_tree::State;
use std::alloc::{AllocError, Global};

// Adds the calls of a definition of a function.
fn add_defined(
    state: &State,
    alloc: Global,
    number: TreeId,
    found: &mut Vec<ListedCall>,
) -> Result<(), AllocError>
    requires { number.0 < length (trees state.now) }
    ensures { OnOk result (map call_of found.new.items ≡ map call_of found.old.items ++ definition_calls (facts_in state.now) (tree state.now number)) }
{
    let Some(body) = body_of(state, number) else {
        return Ok(());
    };
    add_statement_calls(state, alloc, body, found)
}

// Adds the calls on a line.
fn add_calls_on(
    state: &State,
    alloc: Global,
    line: Line,
    found: &mut Vec<ListedCall>,
) -> Result<(), AllocError>
    requires { IsLineBelow (length (trees state.now)) line }
    ensures { OnOk result (map call_of found.new.items ≡ map call_of found.old.items ++ calls_on (facts_in state.now) (line_at (trees state.now) line)) }
{
    match line {
        Line::Object(tree, _) => add_among(state, parts_of(state, tree), found),
        Line::Definition(tree) => add_defined(state, alloc, tree, found),
        Line::Class(_)
        | Line::Enumeration(_, _)
        | Line::ClassDefinition(_, _)
        | Line::Function(_) => Ok(()),
    }
}

/// The calls on some lines.
pub(crate) fn on_lines(
    state: &State,
    lines: &[Line],
    alloc: Global,
) -> Result<Vec<ListedCall>, AllocError>
    requires { AreLinesBelow (length (trees state.now)) lines.now }
    ensures { IfOk result (λ found. map call_of found.items ≡ flat_map (calls_on (facts_in state.now)) (lines_at (trees state.now) lines.now)) }
{
    let mut found = Vec::new(alloc);
    for line in lines {
        add_calls_on(state, alloc, *line, &mut found)?;
    }
    Ok(found)
}

/// The calls that the plain form writes, in its order: those of an object where its line stands, those of a body where its
/// lines stand, the arguments of a call before it.
pub fn printed_calls(state: &State, alloc: Global) -> Result<Vec<ListedCall>, AllocError>
    ensures { IfOk result (λ found. map call_of found.items ≡ text.printed_calls (meaning state.now)) }
{
    let lines = plain_lines(state, alloc)?;
    let found = on_lines(state, lines.as_slice(), alloc)?;
    Ok(found)
}
