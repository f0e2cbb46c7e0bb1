//! The order in which names stand in the text.
ghost use Rattle.std.specs.Prelude.{◌≡◌, ◌++◌, [], flat_map, length, map, IfOk, OnOk};
ghost use Rattle.cxx_reading.specs.TextOrder.{with_each_new};
ghost use Rattle.cxx_form.specs.Order.{declared_on, lines as lines_of, text_order};
ghost use Rattle.cxx_tree.specs.Held.{meaning, trees};
ghost use Rattle.cxx_form.specs.Giving.{AreEnumerators, AreParts};
ghost use Rattle.cxx_form.specs.Lines.{line_at, lines_at, numbers_in, AreLinesBelow, IsLineBelow};
ghost use Rattle.cxx_form.specs.Numbered.{IsNumbering};
ghost use Rattle.cxx_form.specs.Shared.{representative as representative_of};
ghost use Rattle.cxx_form.specs.Sharing.{AreShared};
ghost use Rattle.cxx_form.specs.Views.{facts_in};

use crate::defined::add_defined;
use crate::lines::Line;
use crate::members::add_members;
use crate::numbering::Numbering;
use crate::rows::Rows;
use crate::shared::representative;
use cxx_model::FactId;
use cxx_tree::State;
use std::alloc::{AllocError, Global};

// Adds what a line declares, by first declarations.
#[tactic(auto, using(crate::proofs::Ordered::one_declared, crate::proofs::Ordered::enumeration_declared))]
fn add_declared(
    state: &State,
    alloc: Global,
    rows: &Rows,
    parts: &Rows,
    line: Line,
    found: &mut Vec<FactId>,
) -> Result<(), AllocError>
    requires rows { AreEnumerators (facts_in state.now) rows.now }
    requires parts { AreParts (facts_in state.now) parts.now }
    requires below { IsLineBelow (length (trees state.now)) line }
    ensures { OnOk result (numbers_in found.new.items ≡ numbers_in found.old.items ++ declared_on (facts_in state.now) (line_at (trees state.now) line)) }
{
    match line {
        Line::Enumeration(n, number) => {
            found.push(number)?;
            found.extend_from_slice(rows.row(n.0))?;
            Ok(())
        }
        Line::Class(number) | Line::Function(number) | Line::Object(_, number) => {
            found.push(number)?;
            Ok(())
        }
        Line::ClassDefinition(_, scope) => add_members(state, parts, scope, found),
        Line::Definition(tree) => add_defined(state, alloc, parts, tree, found),
    }
}

// What lines declare, in order.
#[tactic(auto, using(crate::proofs::Ordered::declared_more, crate::proofs::Ordered::declared_all))]
fn declared(
    state: &State,
    rows: &Rows,
    parts: &Rows,
    lines: &[Line],
    alloc: Global,
) -> Result<Vec<FactId>, AllocError>
    requires rows { AreEnumerators (facts_in state.now) rows.now }
    requires parts { AreParts (facts_in state.now) parts.now }
    requires below { AreLinesBelow (length (trees state.now)) lines.now }
    ensures { IfOk result (λ found. numbers_in found.items ≡ flat_map (declared_on (facts_in state.now)) (lines_at (trees state.now) lines.now)) }
{
    let mut found = Vec::new(alloc);
    for line in lines {
        add_declared(state, alloc, rows, parts, *line, &mut found)?;
    }
    Ok(found)
}

// The numbers of declarations in their order, each once; those that have one number stand as one.
fn numbered(
    all: &State,
    firsts: &[FactId],
    numbers: &[FactId],
    alloc: Global,
) -> Result<Numbering, AllocError>
    requires { AreShared (facts_in all.now) firsts.now }
    ensures { IfOk result (λ numbering. IsNumbering (with_each_new [] (map (representative_of (facts_in all.now)) (numbers_in numbers.now))) numbering.count numbering.slots) }
{
    let _ = all;
    let mut numbering = Numbering::new(alloc);
    for number in numbers {
        numbering.note(representative(firsts, *number).0)?;
    }
    Ok(numbering)
}

/// The numbers of names in the order in which they stand in the text, given its lines.
pub(crate) fn numbering(
    state: &State,
    firsts: &[FactId],
    rows: &Rows,
    parts: &Rows,
    lines: &[Line],
    alloc: Global,
) -> Result<Numbering, AllocError>
    requires firsts { AreShared (facts_in state.now) firsts.now }
    requires rows { AreEnumerators (facts_in state.now) rows.now }
    requires parts { AreParts (facts_in state.now) parts.now }
    requires below { AreLinesBelow (length (trees state.now)) lines.now }
    requires lines { lines_at (trees state.now) lines.now ≡ lines_of (meaning state.now) }
    ensures { IfOk result (λ numbering. IsNumbering (text_order (meaning state.now)) numbering.count numbering.slots) }
{
    let numbers = declared(state, rows, parts, lines, alloc)?;
    let numbering = numbered(state, firsts, numbers.as_slice(), alloc)?;
    Ok(numbering)
}
