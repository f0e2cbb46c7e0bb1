//! Conditions, and the other expressions of statements.
ghost use Rattle.std.specs.Prelude.{◌≡◌, ◌<◌, ◌+◌, [], ◌∷◌, ◌++◌, codes, length, option_map, IfSome};
ghost use Rattle.cxx_model.specs.Facts.Fitted.{IsTypeNumberBelow};
ghost use Rattle.cxx_page.specs.Sheets.{Writes, put, put_line, put_lines};
ghost use Rattle.cxx_phrase_text.specs.Named.{trees_of, type_for};
ghost use Rattle.cxx_phrase_text.specs.Phrases.{cast_keyword as keyword_of};
ghost use Rattle.cxx_phrase_text.specs.Written.{cast_between, cast_front, cast_opened, cast_parts};
ghost use Rattle.cxx_reading.specs.Words.{keyword_word, semicolon_word};
ghost use Rattle.cxx_tree.specs.Arena.{trees_in, AreTreesBelow};
ghost use Rattle.cxx_tree.specs.Held.{trees, Held};
ghost use Rattle.cxx_statement_text.specs.Objects as objects;
ghost use Rattle.cxx_statement_text.specs.Statements as text;
ghost use Rattle.cxx_statement_text.specs.Written.{children_at, parts_in, scene_of};

use crate::lines::{write_indent, write_last_word};
use crate::names::StatementNames;
use crate::objects::{printed, write_declaration, write_object_name};
use crate::production::{CAST, DECLARATION_STATEMENT, EXPRESSION_STATEMENT};
use cxx_model::{TreeId, TypeId};
use cxx_page::{Page, PlainFault};
use cxx_phrase_text::write_expression;
use cxx_reading::Role;
use cxx_tree::State;
use std::alloc::Global;

/// The trees behind the first one.
pub(crate) fn after(parts: &[TreeId], end: TreeId) -> &[TreeId]
    requires { AreTreesBelow end.0 parts.now }
    ensures is { (held : Held) → parts_in held result.now ≡ text.after (parts_in held parts.now) }
    ensures below { AreTreesBelow end.0 result.now }
{
    let _ = end;
    match parts {
        [_, others @ ..] => others,
        [] => parts,
    }
}

// The declaration statement that stands first as a condition.
#[cycle(declared)]
pub(crate) fn declared(state: &State, parts: &[TreeId], end: TreeId) -> Option<TreeId>
    requires known { end.0 < length (trees state.now) }
    requires earlier { AreTreesBelow end.0 parts.now }
    ensures is { option_map (children_at state.now) result ≡ text.declared_in (parts_in state.now parts.now) }
    ensures below { IfSome result (λ number. number.0 < end.0) }
{
    match parts {
        [first, ..] => declared_tree(state, *first),
        [] => None,
    }
}

#[cycle(declared)]
fn declared_tree(state: &State, number: TreeId) -> Option<TreeId>
    requires { number.0 < length (trees state.now) }
    ensures is { option_map (children_at state.now) result ≡ text.declared_in (parts_in state.now (number ∷ [])) }
    ensures below { IfSome result (λ found. found.0 < number.0 + 1) }
{
    let node = state.node(number);
    match node.production {
        DECLARATION_STATEMENT => Some(number),
        CAST => declared(state, node.children.as_slice(), number),
        _ => None,
    }
}

/// Writes the expression that stands first.
#[tactic(auto, using(cxx_page::proofs::Put::put_none))]
pub(crate) fn write_first<N: StatementNames>(
    names: &N,
    page: &mut Page,
    parts: &[TreeId],
    end: TreeId,
) -> Result<(), PlainFault>
    requires ready { N.is_ready names.now }
    requires known { end.0 < length (trees_of (N.named names.now)) }
    requires earlier { AreTreesBelow end.0 parts.now }
    ensures { Writes result page.new (put (text.expression_words (scene_of (N.named names.now) (N.value names.now)) (parts_in (N.named names.now).held parts.now)) page.old) }
{
    match parts {
        [first, ..] => write_expression(names, page, *first),
        [] => Ok(()),
    }
}

pub(crate) fn write_clause_tree<N: StatementNames>(
    names: &N,
    page: &mut Page,
    number: TreeId,
) -> Result<(), PlainFault>
    requires ready { N.is_ready names.now }
    requires known { number.0 < length (trees_of (N.named names.now)) }
    ensures { Writes result page.new (put (text.clause_words (scene_of (N.named names.now) (N.value names.now)) (parts_in (N.named names.now).held (number ∷ []))) page.old) }
{
    let node = names.state().node(number);
    if node.production == EXPRESSION_STATEMENT {
        return write_first(names, page, node.children.as_slice(), number);
    }
    write_expression(names, page, number)
}

/// Writes what stands first as a part of a `for`: an expression, or what an expression statement holds.
#[tactic(auto, using(cxx_page::proofs::Put::put_none))]
pub(crate) fn write_clause<N: StatementNames>(
    names: &N,
    page: &mut Page,
    parts: &[TreeId],
    end: TreeId,
) -> Result<(), PlainFault>
    requires ready { N.is_ready names.now }
    requires known { end.0 < length (trees_of (N.named names.now)) }
    requires earlier { AreTreesBelow end.0 parts.now }
    ensures { Writes result page.new (put (text.clause_words (scene_of (N.named names.now) (N.value names.now)) (parts_in (N.named names.now).held parts.now)) page.old) }
{
    match parts {
        [first, ..] => write_clause_tree(names, page, *first),
        [] => Ok(()),
    }
}

/// Writes the value of the constant that stands first.
#[tactic(auto, using(cxx_page::proofs::Put::put_none))]
pub(crate) fn write_value<N: StatementNames>(
    names: &N,
    page: &mut Page,
    parts: &[TreeId],
    end: TreeId,
) -> Result<(), PlainFault>
    requires ready { N.is_ready names.now }
    requires known { end.0 < length (trees_of (N.named names.now)) }
    requires earlier { AreTreesBelow end.0 parts.now }
    ensures { Writes result page.new (put (text.constant_words (scene_of (N.named names.now) (N.value names.now)) (parts_in (N.named names.now).held parts.now)) page.old) }
{
    match parts {
        [first, ..] => names.write_constant(page, *first),
        [] => Ok(()),
    }
}

// ---- conditions that declare

#[tactic(auto, using(cxx_page::proofs::Put::put_none))]
fn write_first_name<N: StatementNames>(
    names: &N,
    page: &mut Page,
    numbers: &[TreeId],
) -> Result<(), PlainFault>
    requires ready { N.is_ready names.now }
    requires below { AreTreesBelow (length (trees_of (N.named names.now))) numbers.now }
    ensures { Writes result page.new (put (objects.first_name (scene_of (N.named names.now) (N.value names.now)) (trees_in (trees_of (N.named names.now)) numbers.now)) page.old) }
{
    match numbers {
        [first, ..] => write_object_name(names, page, *first),
        [] => Ok(()),
    }
}

// Writes the name of the object that a declaration declares, given the parts of its statement.
fn write_declared_name<N: StatementNames>(
    alloc: Global,
    names: &N,
    page: &mut Page,
    parts: &[TreeId],
    end: TreeId,
) -> Result<(), PlainFault>
    requires ready { N.is_ready names.now }
    requires known { end.0 < length (trees_of (N.named names.now)) }
    requires earlier { AreTreesBelow end.0 parts.now }
    ensures { Writes result page.new (put (objects.first_name (scene_of (N.named names.now) (N.value names.now)) (objects.printed_in (scene_of (N.named names.now) (N.value names.now)).facts (parts_in (N.named names.now).held parts.now))) page.old) }
{
    let held = names.state();
    let found = printed(held, alloc, parts, end)?;
    write_first_name(names, page, found.as_slice())
}

// The keyword of a cast; a conversion that nothing spells is written as a static cast.
fn cast_keyword(spelling: &[u8]) -> &[u8]
    ensures { result.now ≡ keyword_of spelling.now }
{
    match spelling {
        [] => b"static_cast",
        _ => spelling,
    }
}

#[tactic(auto, using(cxx_page::proofs::Put::put_more), unfolding(cxx_phrase_text::specs::Written::cast_opened))]
fn write_cast_opened(page: &mut Page, keyword: &[u8]) -> Result<(), PlainFault>
    ensures { Writes result page.new (put (cast_opened keyword.now) page.old) }
{
    page.word(Role::Alone, keyword)?;
    page.word(Role::Joins, b"<")
}

#[tactic(auto, using(cxx_page::proofs::Put::put_more), unfolding(cxx_phrase_text::specs::Written::cast_between))]
fn write_cast_between(page: &mut Page) -> Result<(), PlainFault>
    ensures { Writes result page.new (put cast_between page.old) }
{
    page.word(Role::Closes, b">")?;
    page.word(Role::Opens, b"(")
}

// Writes what stands before the operand of a cast.
#[tactic(auto, using(cxx_page::proofs::Put::put_append), unfolding(cxx_phrase_text::specs::Written::cast_front))]
fn write_cast_front<N: StatementNames>(
    names: &N,
    page: &mut Page,
    keyword: &[u8],
    of: Option<TypeId>,
) -> Result<(), PlainFault>
    requires ready { N.is_ready names.now }
    requires below { IsTypeNumberBelow (length (N.named names.now).held.types) of }
    ensures { Writes result page.new (put (cast_front (N.named names.now).tags keyword.now (type_for (N.named names.now) of)) page.old) }
{
    write_cast_opened(page, keyword)?;
    names.write_type(page, of)?;
    write_cast_between(page)
}

// Writes a cast of a condition that declares.
#[cycle(converted)]
#[tactic(auto, using(cxx_page::proofs::Put::put_append), unfolding(cxx_phrase_text::specs::Written::cast_parts))]
fn write_cast<N: StatementNames>(
    alloc: Global,
    names: &N,
    page: &mut Page,
    keyword: &[u8],
    of: Option<TypeId>,
    parts: &[TreeId],
    end: TreeId,
) -> Result<(), PlainFault>
    requires ready { N.is_ready names.now }
    requires below { IsTypeNumberBelow (length (N.named names.now).held.types) of }
    requires known { end.0 < length (trees_of (N.named names.now)) }
    requires earlier { AreTreesBelow end.0 parts.now }
    ensures { Writes result page.new (put (cast_parts (N.named names.now).tags keyword.now (type_for (N.named names.now) of) (text.converted_words (scene_of (N.named names.now) (N.value names.now)) (parts_in (N.named names.now).held parts.now))) page.old) }
{
    write_cast_front(names, page, keyword, of)?;
    write_converted(alloc, names, page, parts, end)?;
    page.word(Role::Closes, b")")
}

#[cycle(converted)]
fn write_converted_tree<N: StatementNames>(
    alloc: Global,
    names: &N,
    page: &mut Page,
    number: TreeId,
) -> Result<(), PlainFault>
    requires ready { N.is_ready names.now }
    requires known { number.0 < length (trees_of (N.named names.now)) }
    ensures { Writes result page.new (put (text.converted_words (scene_of (N.named names.now) (N.value names.now)) (parts_in (N.named names.now).held (number ∷ []))) page.old) }
{
    let node = names.state().node(number);
    let parts = node.children.as_slice();
    if node.production == DECLARATION_STATEMENT {
        return write_declared_name(alloc, names, page, parts, number);
    }
    let keyword = cast_keyword(node.spelling.as_slice());
    write_cast(alloc, names, page, keyword, node.of, parts, number)
}

/// Writes the object that the condition which stands first declares, converted as it is.
#[cycle(converted)]
#[tactic(auto, using(cxx_page::proofs::Put::put_none))]
pub(crate) fn write_converted<N: StatementNames>(
    alloc: Global,
    names: &N,
    page: &mut Page,
    parts: &[TreeId],
    end: TreeId,
) -> Result<(), PlainFault>
    requires ready { N.is_ready names.now }
    requires known { end.0 < length (trees_of (N.named names.now)) }
    requires earlier { AreTreesBelow end.0 parts.now }
    ensures { Writes result page.new (put (text.converted_words (scene_of (N.named names.now) (N.value names.now)) (parts_in (N.named names.now).held parts.now)) page.old) }
{
    match parts {
        [first, ..] => write_converted_tree(alloc, names, page, *first),
        [] => Ok(()),
    }
}

/// Writes the condition that stands first.
pub(crate) fn write_condition<N: StatementNames>(
    alloc: Global,
    names: &N,
    page: &mut Page,
    parts: &[TreeId],
    end: TreeId,
) -> Result<(), PlainFault>
    requires ready { N.is_ready names.now }
    requires known { end.0 < length (trees_of (N.named names.now)) }
    requires earlier { AreTreesBelow end.0 parts.now }
    ensures { Writes result page.new (put (text.condition_words (scene_of (N.named names.now) (N.value names.now)) (parts_in (N.named names.now).held parts.now)) page.old) }
{
    match declared(names.state(), parts, end) {
        Some(_) => write_converted(alloc, names, page, parts, end),
        None => write_first(names, page, parts, end),
    }
}

/// Writes a line for the object that the condition which stands first declares, where it declares one.
#[tactic(auto, using(crate::proofs::Lining::lines_none))]
pub(crate) fn write_declared_lines<N: StatementNames>(
    alloc: Global,
    names: &N,
    page: &mut Page,
    depth: u64,
    parts: &[TreeId],
    end: TreeId,
) -> Result<(), PlainFault>
    requires ready { N.is_ready names.now }
    requires known { end.0 < length (trees_of (N.named names.now)) }
    requires earlier { AreTreesBelow end.0 parts.now }
    ensures { Writes result page.new (put_lines (text.declared_lines (scene_of (N.named names.now) (N.value names.now)) depth (text.declared_in (parts_in (N.named names.now).held parts.now))) page.old) }
{
    match declared(names.state(), parts, end) {
        Some(number) => write_declaration_of(alloc, names, page, depth, number),
        None => Ok(()),
    }
}

/// Writes a line for each object that the declaration statement with a number declares.
pub(crate) fn write_declaration_of<N: StatementNames>(
    alloc: Global,
    names: &N,
    page: &mut Page,
    depth: u64,
    number: TreeId,
) -> Result<(), PlainFault>
    requires ready { N.is_ready names.now }
    requires known { number.0 < length (trees_of (N.named names.now)) }
    ensures { Writes result page.new (put_lines (text.declaration_lines (scene_of (N.named names.now) (N.value names.now)) depth (children_at (N.named names.now).held number)) page.old) }
{
    let node = names.state().node(number);
    write_declaration(alloc, names, page, depth, node.children.as_slice(), number)
}

// ---- lines

// Writes what stands behind the indentation of an expression.
#[tactic(auto, using(crate::proofs::Lining::line_append))]
fn write_first_ended<N: StatementNames>(
    names: &N,
    page: &mut Page,
    parts: &[TreeId],
    end: TreeId,
) -> Result<(), PlainFault>
    requires ready { N.is_ready names.now }
    requires known { end.0 < length (trees_of (N.named names.now)) }
    requires earlier { AreTreesBelow end.0 parts.now }
    ensures { Writes result page.new (put_line (text.expression_words (scene_of (N.named names.now) (N.value names.now)) (parts_in (N.named names.now).held parts.now) ++ semicolon_word ∷ []) page.old) }
{
    write_first(names, page, parts, end)?;
    write_last_word(page, Role::Follows, b";")
}

/// Writes an expression statement (6.2).
#[tactic(auto, using(crate::proofs::Lining::line_is))]
pub(crate) fn write_expression_line<N: StatementNames>(
    names: &N,
    page: &mut Page,
    depth: u64,
    parts: &[TreeId],
    end: TreeId,
) -> Result<(), PlainFault>
    requires ready { N.is_ready names.now }
    requires known { end.0 < length (trees_of (N.named names.now)) }
    requires earlier { AreTreesBelow end.0 parts.now }
    ensures { Writes result page.new (put_lines (text.line depth (text.expression_words (scene_of (N.named names.now) (N.value names.now)) (parts_in (N.named names.now).held parts.now) ++ semicolon_word ∷ [])) page.old) }
{
    write_indent(page, depth)?;
    write_first_ended(names, page, parts, end)
}

#[tactic(auto, using(crate::proofs::Lining::line_more))]
fn write_return_words<N: StatementNames>(
    names: &N,
    page: &mut Page,
    parts: &[TreeId],
    end: TreeId,
) -> Result<(), PlainFault>
    requires ready { N.is_ready names.now }
    requires known { end.0 < length (trees_of (N.named names.now)) }
    requires earlier { AreTreesBelow end.0 parts.now }
    ensures { Writes result page.new (put_line (keyword_word (codes "return") ∷ (text.expression_words (scene_of (N.named names.now) (N.value names.now)) (parts_in (N.named names.now).held parts.now) ++ semicolon_word ∷ [])) page.old) }
{
    page.word(Role::Alone, b"return")?;
    write_first_ended(names, page, parts, end)
}

/// Writes a `return` (6.6.3).
#[tactic(auto, using(crate::proofs::Lining::line_is))]
pub(crate) fn write_return<N: StatementNames>(
    names: &N,
    page: &mut Page,
    depth: u64,
    parts: &[TreeId],
    end: TreeId,
) -> Result<(), PlainFault>
    requires ready { N.is_ready names.now }
    requires known { end.0 < length (trees_of (N.named names.now)) }
    requires earlier { AreTreesBelow end.0 parts.now }
    ensures { Writes result page.new (put_lines (text.line depth (keyword_word (codes "return") ∷ (text.expression_words (scene_of (N.named names.now) (N.value names.now)) (parts_in (N.named names.now).held parts.now) ++ semicolon_word ∷ []))) page.old) }
{
    write_indent(page, depth)?;
    write_return_words(names, page, parts, end)
}

#[tactic(auto, using(crate::proofs::Lining::line_append))]
fn write_value_ended<N: StatementNames>(
    names: &N,
    page: &mut Page,
    parts: &[TreeId],
    end: TreeId,
) -> Result<(), PlainFault>
    requires ready { N.is_ready names.now }
    requires known { end.0 < length (trees_of (N.named names.now)) }
    requires earlier { AreTreesBelow end.0 parts.now }
    ensures { Writes result page.new (put_line (text.constant_words (scene_of (N.named names.now) (N.value names.now)) (parts_in (N.named names.now).held parts.now) ++ text.colon_word ∷ []) page.old) }
{
    write_value(names, page, parts, end)?;
    write_last_word(page, Role::Follows, b":")
}

#[tactic(auto, using(crate::proofs::Lining::line_more))]
fn write_label_words<N: StatementNames>(
    names: &N,
    page: &mut Page,
    keyword: &[u8],
    parts: &[TreeId],
    end: TreeId,
) -> Result<(), PlainFault>
    requires ready { N.is_ready names.now }
    requires known { end.0 < length (trees_of (N.named names.now)) }
    requires earlier { AreTreesBelow end.0 parts.now }
    ensures { Writes result page.new (put_line (text.label_words (scene_of (N.named names.now) (N.value names.now)) keyword.now (parts_in (N.named names.now).held parts.now)) page.old) }
{
    page.word(Role::Alone, keyword)?;
    write_value_ended(names, page, parts, end)
}

/// Writes a label (6.1).
#[tactic(auto, using(crate::proofs::Lining::line_is))]
pub(crate) fn write_label<N: StatementNames>(
    names: &N,
    page: &mut Page,
    depth: u64,
    keyword: &[u8],
    parts: &[TreeId],
    end: TreeId,
) -> Result<(), PlainFault>
    requires ready { N.is_ready names.now }
    requires known { end.0 < length (trees_of (N.named names.now)) }
    requires earlier { AreTreesBelow end.0 parts.now }
    ensures { Writes result page.new (put_lines (text.line depth (text.label_words (scene_of (N.named names.now) (N.value names.now)) keyword.now (parts_in (N.named names.now).held parts.now))) page.old) }
{
    write_indent(page, depth)?;
    write_label_words(names, page, keyword, parts, end)
}
