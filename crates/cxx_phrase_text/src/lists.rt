//! Lists of elements: calls (5.2.2), and lists in braces (8.5.1).
ghost use Rattle.std.specs.Prelude.{[], ◌∷◌, ◌++◌, ◌≡◌, ◌<◌, ℕ, length};
ghost use Rattle.cxx_model.specs.Facts.Declarations.{type_of_option};
ghost use Rattle.cxx_model.specs.Facts.Fitted.{IsTypeNumberBelow};
ghost use Rattle.cxx_page.specs.Sheets.{Writes, put};
ghost use Rattle.cxx_page.specs.Sides.{comma_unless};
ghost use Rattle.cxx_reading.specs.Plain.{target_or as target_or_of};
ghost use Rattle.cxx_reading.specs.Words.{close_word, open_word};
ghost use Rattle.cxx_tree.specs.Arena.{number_of_option, path_of_option, AreTreesBelow};
ghost use Rattle.cxx_phrase_text.specs.Named.{trees_of};
ghost use Rattle.cxx_phrase_text.specs.Phrases as phrases;
ghost use Rattle.cxx_phrase_text.specs.Written.{brace_parts, call_parts, element_at, elements_at, phrases_at};

use crate::names::{Names, write_named};
use crate::operands::{write_element, write_operand_part};
use crate::words::write_comma_unless;
use cxx_model::{FactId, Node, TreeId, TypeId};
use cxx_page::{Page, PlainFault};
use cxx_reading::Role;

// Writes an element behind the comma before it.
#[cycle(words)]
#[tactic(auto, using(cxx_page::proofs::Put::put_append))]
fn write_next<N: Names>(
    names: &N,
    page: &mut Page,
    is_first: bool,
    number: TreeId,
    end: TreeId,
) -> Result<(), PlainFault>
    requires ready { N.is_ready names.now }
    requires known { end.0 < length (trees_of (N.named names.now)) }
    requires within { number.0 < end.0 }
    ensures { Writes result page.new (put (comma_unless is_first ++ element_at (N.named names.now) number) page.old) }
{
    write_comma_unless(page, is_first)?;
    write_element(names, page, number)
}

// Writes elements with commas between them.
#[cycle(words)]
#[tactic(auto, using(crate::proofs::Parts::child_below))]
fn write_elements<N: Names>(
    names: &N,
    page: &mut Page,
    parts: &[TreeId],
    end: TreeId,
) -> Result<(), PlainFault>
    requires ready { N.is_ready names.now }
    requires known { end.0 < length (trees_of (N.named names.now)) }
    requires earlier { AreTreesBelow end.0 parts.now }
    ensures { Writes result page.new (put (elements_at (N.named names.now) parts.now) page.old) }
{
    let mut is_first = true;
    for part in parts {
        write_next(names, page, is_first, *part, end)?;
        is_first = false;
    }
    Ok(())
}

// Writes arguments in their parentheses.
#[cycle(words)]
#[tactic(auto, using(cxx_page::proofs::Put::put_append, cxx_page::proofs::Put::put_more))]
fn write_arguments<N: Names>(
    names: &N,
    page: &mut Page,
    arguments: &[TreeId],
    end: TreeId,
) -> Result<(), PlainFault>
    requires ready { N.is_ready names.now }
    requires known { end.0 < length (trees_of (N.named names.now)) }
    requires earlier { AreTreesBelow end.0 arguments.now }
    ensures { Writes result page.new (put (open_word ∷ (elements_at (N.named names.now) arguments.now ++ close_word ∷ [])) page.old) }
{
    page.word(Role::Opens, b"(")?;
    write_elements(names, page, arguments, end)?;
    page.word(Role::Closes, b")")
}

/// Whether the function of a call is called by its name alone (13.3.1.1.1).
pub(crate) fn is_by_name(node: &Node) -> bool
    ensures { result ≡ phrases.is_by_name (path_of_option node.now.path) }
{
    node.path.is_some()
}

// Writes what is called: the function that is named, or else what gives it.
#[cycle(words)]
fn write_callee<N: Names>(
    names: &N,
    page: &mut Page,
    of: Option<TypeId>,
    target: Option<FactId>,
    is_by_name: bool,
    parts: &[TreeId],
    end: TreeId,
) -> Result<(), PlainFault>
    requires ready { N.is_ready names.now }
    requires known { end.0 < length (trees_of (N.named names.now)) }
    requires below { IsTypeNumberBelow (length (N.named names.now).held.types) of }
    requires earlier { AreTreesBelow end.0 parts.now }
    ensures { Writes result page.new (put (phrases.callee_words (N.named names.now).tags (N.named names.now).name (type_of_option (N.named names.now).held.types of) (target_or_of (number_of_option target)) is_by_name (phrases_at (N.named names.now) parts.now)) page.old) }
{
    if is_by_name {
        return write_named(names, page, of, target);
    }
    write_operand_part(names, page, parts, 0, end)
}

// The arguments of a call.
fn arguments(is_by_name: bool, parts: &[TreeId]) -> &[TreeId]
    ensures is { result.now ≡ phrases.arguments is_by_name parts.now }
    ensures below { (count : ℕ) → AreTreesBelow count parts.now → AreTreesBelow count result.now }
{
    match (is_by_name, parts) {
        (false, [_, others @ ..]) => others,
        _ => parts,
    }
}

// Writes a call (5.2.2).
#[cycle(words)]
#[tactic(auto, using(cxx_page::proofs::Put::put_append), unfolding(crate::specs::Written::call_parts))]
pub(crate) fn write_call<N: Names>(
    names: &N,
    page: &mut Page,
    of: Option<TypeId>,
    target: Option<FactId>,
    is_by_name: bool,
    parts: &[TreeId],
    end: TreeId,
) -> Result<(), PlainFault>
    requires ready { N.is_ready names.now }
    requires known { end.0 < length (trees_of (N.named names.now)) }
    requires below { IsTypeNumberBelow (length (N.named names.now).held.types) of }
    requires earlier { AreTreesBelow end.0 parts.now }
    ensures { Writes result page.new (put (call_parts (N.named names.now) (type_of_option (N.named names.now).held.types of) (target_or_of (number_of_option target)) is_by_name parts.now) page.old) }
{
    write_callee(names, page, of, target, is_by_name, parts, end)?;
    write_arguments(names, page, arguments(is_by_name, parts), end)
}

// Writes a list in braces (8.5.1).
#[cycle(words)]
#[tactic(auto, using(cxx_page::proofs::Put::put_append, cxx_page::proofs::Put::put_more), unfolding(crate::specs::Written::brace_parts))]
pub(crate) fn write_braces<N: Names>(
    names: &N,
    page: &mut Page,
    parts: &[TreeId],
    end: TreeId,
) -> Result<(), PlainFault>
    requires ready { N.is_ready names.now }
    requires known { end.0 < length (trees_of (N.named names.now)) }
    requires earlier { AreTreesBelow end.0 parts.now }
    ensures { Writes result page.new (put (brace_parts (N.named names.now) parts.now) page.old) }
{
    page.word(Role::Alone, b"{")?;
    write_elements(names, page, parts, end)?;
    page.word(Role::Alone, b"}")
}
