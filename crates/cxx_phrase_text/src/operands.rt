//! Operands, elements and parts.
ghost use Rattle.std.specs.Prelude.{◌++◌, ◌<◌, length, IfSome};
ghost use Rattle.cxx_page.specs.Sheets.{Writes, put};
ghost use Rattle.cxx_page.specs.Sides.{closed, opened};
ghost use Rattle.cxx_tree.specs.Arena.{AreTreesBelow};
ghost use Rattle.cxx_phrase_text.specs.Named.{trees_of};
ghost use Rattle.cxx_phrase_text.specs.Phrases as phrases;
ghost use Rattle.cxx_phrase_text.specs.Written.{element_at, operand_at, phrase_at, phrase_found, phrases_at};

use crate::expressions::write_expression;
use crate::form::{is_comma, is_primary};
use crate::names::Names;
use crate::standing::{child, last_child, standing};
use crate::words::{write_closed, write_opened};
use cxx_model::TreeId;
use cxx_page::{Page, PlainFault};

// Writes an expression, in parentheses or not.
#[cycle(words)]
#[tactic(auto, using(cxx_page::proofs::Put::put_append))]
fn write_bracketed<N: Names>(
    names: &N,
    page: &mut Page,
    stands: bool,
    number: TreeId,
) -> Result<(), PlainFault>
    requires ready { N.is_ready names.now }
    requires known { number.0 < length (trees_of (N.named names.now)) }
    ensures { Writes result page.new (put (opened stands ++ ((phrase_at (N.named names.now) number).words ++ closed stands)) page.old) }
{
    write_opened(page, stands)?;
    write_expression(names, page, number)?;
    write_closed(page, stands)
}

// Writes an operand of an operator.
#[cycle(words)]
fn write_operand<N: Names>(names: &N, page: &mut Page, number: TreeId) -> Result<(), PlainFault>
    requires ready { N.is_ready names.now }
    requires known { number.0 < length (trees_of (N.named names.now)) }
    ensures { Writes result page.new (put (operand_at (N.named names.now) number) page.old) }
{
    let stands = !is_primary(standing(names.state(), number));
    write_bracketed(names, page, stands, number)
}

// Writes an element of a list (5.18).
#[cycle(words)]
pub(crate) fn write_element<N: Names>(
    names: &N,
    page: &mut Page,
    number: TreeId,
) -> Result<(), PlainFault>
    requires ready { N.is_ready names.now }
    requires known { number.0 < length (trees_of (N.named names.now)) }
    ensures { Writes result page.new (put (element_at (N.named names.now) number) page.old) }
{
    let stands = is_comma(standing(names.state(), number));
    write_bracketed(names, page, stands, number)
}

// Writes an operand, where there is one.
#[cycle(words)]
#[tactic(auto, using(cxx_page::proofs::Put::put_none))]
fn write_found_operand<N: Names>(
    names: &N,
    page: &mut Page,
    number: Option<TreeId>,
    end: TreeId,
) -> Result<(), PlainFault>
    requires ready { N.is_ready names.now }
    requires known { end.0 < length (trees_of (N.named names.now)) }
    requires within { IfSome number (λ part. part.0 < end.0) }
    ensures { Writes result page.new (put (phrases.operand (phrase_found (N.named names.now) number)) page.old) }
{
    match number {
        Some(number) => write_operand(names, page, number),
        None => Ok(()),
    }
}

// Writes an expression, where there is one.
#[cycle(words)]
#[tactic(auto, using(cxx_page::proofs::Put::put_none))]
fn write_found<N: Names>(
    names: &N,
    page: &mut Page,
    number: Option<TreeId>,
    end: TreeId,
) -> Result<(), PlainFault>
    requires ready { N.is_ready names.now }
    requires known { end.0 < length (trees_of (N.named names.now)) }
    requires within { IfSome number (λ part. part.0 < end.0) }
    ensures { Writes result page.new (put (phrase_found (N.named names.now) number).words page.old) }
{
    match number {
        Some(number) => write_expression(names, page, number),
        None => Ok(()),
    }
}

// Writes an operand by its place among the parts.
#[cycle(words)]
pub(crate) fn write_operand_part<N: Names>(
    names: &N,
    page: &mut Page,
    parts: &[TreeId],
    index: usize,
    end: TreeId,
) -> Result<(), PlainFault>
    requires ready { N.is_ready names.now }
    requires known { end.0 < length (trees_of (N.named names.now)) }
    requires earlier { AreTreesBelow end.0 parts.now }
    ensures { Writes result page.new (put (phrases.operand (phrases.part (phrases_at (N.named names.now) parts.now) index)) page.old) }
{
    write_found_operand(names, page, child(parts, index), end)
}

// Writes a part by its place.
#[cycle(words)]
pub(crate) fn write_part<N: Names>(
    names: &N,
    page: &mut Page,
    parts: &[TreeId],
    index: usize,
    end: TreeId,
) -> Result<(), PlainFault>
    requires ready { N.is_ready names.now }
    requires known { end.0 < length (trees_of (N.named names.now)) }
    requires earlier { AreTreesBelow end.0 parts.now }
    ensures { Writes result page.new (put (phrases.part (phrases_at (N.named names.now) parts.now) index).words page.old) }
{
    write_found(names, page, child(parts, index), end)
}

// Writes the last part.
#[cycle(words)]
pub(crate) fn write_last<N: Names>(
    names: &N,
    page: &mut Page,
    parts: &[TreeId],
    end: TreeId,
) -> Result<(), PlainFault>
    requires ready { N.is_ready names.now }
    requires known { end.0 < length (trees_of (N.named names.now)) }
    requires earlier { AreTreesBelow end.0 parts.now }
    ensures { Writes result page.new (put (phrases.last_part (phrases_at (N.named names.now) parts.now)).words page.old) }
{
    write_found(names, page, last_child(parts), end)
}
