//! The lines of statements before their braces (6.4, 6.5).
ghost use Rattle.std.specs.Prelude.{◌≡◌, ◌<◌, [], ◌∷◌, ◌++◌, List, codes, length, IfOk};
ghost use Rattle.cxx_page.specs.Sheets.{Writes, put, put_line, put_lines};
ghost use Rattle.cxx_phrase_text.specs.Named.{trees_of};
ghost use Rattle.cxx_phrase_text.specs.Phrases.{prefix_word};
ghost use Rattle.cxx_reading.specs.Trees.{CxxTree};
ghost use Rattle.cxx_reading.specs.Words.{close_word, open_word, semicolon_word};
ghost use Rattle.cxx_tree.specs.Arena.{trees_in, AreTreesBelow};
ghost use Rattle.cxx_tree.specs.Held.{trees};
ghost use Rattle.cxx_statement_text.specs.Objects as objects;
ghost use Rattle.cxx_statement_text.specs.Statements as text;
ghost use Rattle.cxx_statement_text.specs.Written.{facts_in, parts_in, scene_of, AreTrees};

use crate::conditions::{
    after, declared, write_clause, write_clause_tree, write_condition, write_converted, write_first,
};
use crate::lines::{write_close_and, write_indent};
use crate::names::StatementNames;
use crate::objects::{is_static, printed, write_object, write_objects};
use crate::production::DECLARATION_STATEMENT;
use cxx_model::TreeId;
use cxx_page::{Page, PlainFault};
use cxx_reading::Role;
use cxx_tree::State;
use std::alloc::{AllocError, Global};

#[tactic(auto, using(crate::proofs::Lining::line_append))]
fn write_condition_ended<N: StatementNames>(
    alloc: Global,
    names: &N,
    page: &mut Page,
    parts: &[TreeId],
    end: TreeId,
) -> Result<(), PlainFault>
    requires ready { N.is_ready names.now }
    requires known { end.0 < length (trees_of (N.named names.now)) }
    requires earlier { AreTreesBelow end.0 parts.now }
    ensures { Writes result page.new (put_line (text.condition_words (scene_of (N.named names.now) (N.value names.now)) (parts_in (N.named names.now).held parts.now) ++ close_word ∷ (text.open_brace ∷ [])) page.old) }
{
    write_condition(alloc, names, page, parts, end)?;
    write_close_and(page, Role::Alone, b"{")
}

#[tactic(auto, using(crate::proofs::Lining::line_more))]
fn write_head_words<N: StatementNames>(
    alloc: Global,
    names: &N,
    page: &mut Page,
    keyword: &[u8],
    parts: &[TreeId],
    end: TreeId,
) -> Result<(), PlainFault>
    requires ready { N.is_ready names.now }
    requires known { end.0 < length (trees_of (N.named names.now)) }
    requires earlier { AreTreesBelow end.0 parts.now }
    ensures { Writes result page.new (put_line (text.head_words keyword.now (text.condition_words (scene_of (N.named names.now) (N.value names.now)) (parts_in (N.named names.now).held parts.now))) page.old) }
{
    page.word(Role::Alone, keyword)?;
    page.word(Role::Opens, b"(")?;
    write_condition_ended(alloc, names, page, parts, end)
}

/// Writes a keyword and the condition that stands first.
#[tactic(auto, using(crate::proofs::Lining::line_is))]
pub(crate) fn write_head<N: StatementNames>(
    alloc: Global,
    names: &N,
    page: &mut Page,
    depth: u64,
    keyword: &[u8],
    parts: &[TreeId],
    end: TreeId,
) -> Result<(), PlainFault>
    requires ready { N.is_ready names.now }
    requires known { end.0 < length (trees_of (N.named names.now)) }
    requires earlier { AreTreesBelow end.0 parts.now }
    ensures { Writes result page.new (put_lines (text.line depth (text.head_words keyword.now (text.condition_words (scene_of (N.named names.now) (N.value names.now)) (parts_in (N.named names.now).held parts.now)))) page.old) }
{
    write_indent(page, depth)?;
    write_head_words(alloc, names, page, keyword, parts, end)
}

#[tactic(auto, using(crate::proofs::Lining::line_append))]
fn write_converted_ended<N: StatementNames>(
    alloc: Global,
    names: &N,
    page: &mut Page,
    parts: &[TreeId],
    end: TreeId,
) -> Result<(), PlainFault>
    requires ready { N.is_ready names.now }
    requires known { end.0 < length (trees_of (N.named names.now)) }
    requires earlier { AreTreesBelow end.0 parts.now }
    ensures { Writes result page.new (put_line (text.converted_words (scene_of (N.named names.now) (N.value names.now)) (parts_in (N.named names.now).held parts.now) ++ close_word ∷ (text.open_brace ∷ [])) page.old) }
{
    write_converted(alloc, names, page, parts, end)?;
    write_close_and(page, Role::Alone, b"{")
}

#[tactic(auto, using(crate::proofs::Lining::line_more))]
fn write_negated_ended<N: StatementNames>(
    alloc: Global,
    names: &N,
    page: &mut Page,
    parts: &[TreeId],
    end: TreeId,
) -> Result<(), PlainFault>
    requires ready { N.is_ready names.now }
    requires known { end.0 < length (trees_of (N.named names.now)) }
    requires earlier { AreTreesBelow end.0 parts.now }
    ensures { Writes result page.new (put_line (prefix_word (codes "!") ∷ (text.converted_words (scene_of (N.named names.now) (N.value names.now)) (parts_in (N.named names.now).held parts.now) ++ close_word ∷ (text.open_brace ∷ []))) page.old) }
{
    page.word(Role::Leads, b"!")?;
    write_converted_ended(alloc, names, page, parts, end)
}

#[tactic(auto, using(crate::proofs::Lining::line_more))]
fn write_unless_words<N: StatementNames>(
    alloc: Global,
    names: &N,
    page: &mut Page,
    parts: &[TreeId],
    end: TreeId,
) -> Result<(), PlainFault>
    requires ready { N.is_ready names.now }
    requires known { end.0 < length (trees_of (N.named names.now)) }
    requires earlier { AreTreesBelow end.0 parts.now }
    ensures { Writes result page.new (put_line (text.head_words (codes "if") (prefix_word (codes "!") ∷ text.converted_words (scene_of (N.named names.now) (N.value names.now)) (parts_in (N.named names.now).held parts.now))) page.old) }
{
    page.word(Role::Alone, b"if")?;
    page.word(Role::Opens, b"(")?;
    write_negated_ended(alloc, names, page, parts, end)
}

/// Writes the test of an object that the condition of a loop declares.
#[tactic(auto, using(crate::proofs::Lining::line_is))]
pub(crate) fn write_unless<N: StatementNames>(
    alloc: Global,
    names: &N,
    page: &mut Page,
    depth: u64,
    parts: &[TreeId],
    end: TreeId,
) -> Result<(), PlainFault>
    requires ready { N.is_ready names.now }
    requires known { end.0 < length (trees_of (N.named names.now)) }
    requires earlier { AreTreesBelow end.0 parts.now }
    ensures { Writes result page.new (put_lines (text.line depth (text.head_words (codes "if") (prefix_word (codes "!") ∷ text.converted_words (scene_of (N.named names.now) (N.value names.now)) (parts_in (N.named names.now).held parts.now)))) page.old) }
{
    write_indent(page, depth)?;
    write_unless_words(alloc, names, page, parts, end)
}

// Writes the condition of a loop that stands first.
fn write_loop_condition<N: StatementNames>(
    names: &N,
    page: &mut Page,
    parts: &[TreeId],
    end: TreeId,
) -> Result<(), PlainFault>
    requires ready { N.is_ready names.now }
    requires known { end.0 < length (trees_of (N.named names.now)) }
    requires earlier { AreTreesBelow end.0 parts.now }
    ensures { Writes result page.new (put (text.unless_declared (text.expression_words (scene_of (N.named names.now) (N.value names.now)) (parts_in (N.named names.now).held parts.now)) (text.declared_in (parts_in (N.named names.now).held parts.now))) page.old) }
{
    match declared(names.state(), parts, end) {
        Some(_) => page.word(Role::Alone, b"true"),
        None => write_first(names, page, parts, end),
    }
}

#[tactic(auto, using(crate::proofs::Lining::line_append))]
fn write_loop_ended<N: StatementNames>(
    names: &N,
    page: &mut Page,
    parts: &[TreeId],
    end: TreeId,
) -> Result<(), PlainFault>
    requires ready { N.is_ready names.now }
    requires known { end.0 < length (trees_of (N.named names.now)) }
    requires earlier { AreTreesBelow end.0 parts.now }
    ensures { Writes result page.new (put_line (text.unless_declared (text.expression_words (scene_of (N.named names.now) (N.value names.now)) (parts_in (N.named names.now).held parts.now)) (text.declared_in (parts_in (N.named names.now).held parts.now)) ++ close_word ∷ (text.open_brace ∷ [])) page.old) }
{
    write_loop_condition(names, page, parts, end)?;
    write_close_and(page, Role::Alone, b"{")
}

#[tactic(auto, using(crate::proofs::Lining::line_more))]
fn write_while_words<N: StatementNames>(
    names: &N,
    page: &mut Page,
    parts: &[TreeId],
    end: TreeId,
) -> Result<(), PlainFault>
    requires ready { N.is_ready names.now }
    requires known { end.0 < length (trees_of (N.named names.now)) }
    requires earlier { AreTreesBelow end.0 parts.now }
    ensures { Writes result page.new (put_line (text.head_words (codes "while") (text.unless_declared (text.expression_words (scene_of (N.named names.now) (N.value names.now)) (parts_in (N.named names.now).held parts.now)) (text.declared_in (parts_in (N.named names.now).held parts.now)))) page.old) }
{
    page.word(Role::Alone, b"while")?;
    page.word(Role::Opens, b"(")?;
    write_loop_ended(names, page, parts, end)
}

/// Writes what stands before the brace of a `while` (6.5.1).
#[tactic(auto, using(crate::proofs::Lining::line_is))]
pub(crate) fn write_while_head<N: StatementNames>(
    names: &N,
    page: &mut Page,
    depth: u64,
    parts: &[TreeId],
    end: TreeId,
) -> Result<(), PlainFault>
    requires ready { N.is_ready names.now }
    requires known { end.0 < length (trees_of (N.named names.now)) }
    requires earlier { AreTreesBelow end.0 parts.now }
    ensures { Writes result page.new (put_lines (text.line depth (text.head_words (codes "while") (text.unless_declared (text.expression_words (scene_of (N.named names.now) (N.value names.now)) (parts_in (N.named names.now).held parts.now)) (text.declared_in (parts_in (N.named names.now).held parts.now))))) page.old) }
{
    write_indent(page, depth)?;
    write_while_words(names, page, parts, end)
}

#[tactic(auto, using(crate::proofs::Lining::line_append))]
fn write_do_condition<N: StatementNames>(
    names: &N,
    page: &mut Page,
    parts: &[TreeId],
    end: TreeId,
) -> Result<(), PlainFault>
    requires ready { N.is_ready names.now }
    requires known { end.0 < length (trees_of (N.named names.now)) }
    requires earlier { AreTreesBelow end.0 parts.now }
    ensures { Writes result page.new (put_line (text.expression_words (scene_of (N.named names.now) (N.value names.now)) (parts_in (N.named names.now).held parts.now) ++ close_word ∷ (semicolon_word ∷ [])) page.old) }
{
    write_first(names, page, parts, end)?;
    write_close_and(page, Role::Follows, b";")
}

#[tactic(auto, using(crate::proofs::Lining::line_more))]
fn write_do_opened<N: StatementNames>(
    names: &N,
    page: &mut Page,
    parts: &[TreeId],
    end: TreeId,
) -> Result<(), PlainFault>
    requires ready { N.is_ready names.now }
    requires known { end.0 < length (trees_of (N.named names.now)) }
    requires earlier { AreTreesBelow end.0 parts.now }
    ensures { Writes result page.new (put_line (open_word ∷ (text.expression_words (scene_of (N.named names.now) (N.value names.now)) (parts_in (N.named names.now).held parts.now) ++ close_word ∷ (semicolon_word ∷ []))) page.old) }
{
    page.word(Role::Opens, b"(")?;
    write_do_condition(names, page, parts, end)
}

#[tactic(auto, using(crate::proofs::Lining::line_more))]
fn write_do_words<N: StatementNames>(
    names: &N,
    page: &mut Page,
    parts: &[TreeId],
    end: TreeId,
) -> Result<(), PlainFault>
    requires ready { N.is_ready names.now }
    requires known { end.0 < length (trees_of (N.named names.now)) }
    requires earlier { AreTreesBelow end.0 parts.now }
    ensures { Writes result page.new (put_line (text.do_end (text.expression_words (scene_of (N.named names.now) (N.value names.now)) (parts_in (N.named names.now).held parts.now))) page.old) }
{
    page.word(Role::Alone, b"}")?;
    page.word(Role::Alone, b"while")?;
    write_do_opened(names, page, parts, end)
}

#[tactic(auto, using(crate::proofs::Lining::line_is))]
fn write_do_line<N: StatementNames>(
    names: &N,
    page: &mut Page,
    depth: u64,
    parts: &[TreeId],
    end: TreeId,
) -> Result<(), PlainFault>
    requires ready { N.is_ready names.now }
    requires known { end.0 < length (trees_of (N.named names.now)) }
    requires earlier { AreTreesBelow end.0 parts.now }
    ensures { Writes result page.new (put_lines (text.line depth (text.do_end (text.expression_words (scene_of (N.named names.now) (N.value names.now)) (parts_in (N.named names.now).held parts.now)))) page.old) }
{
    write_indent(page, depth)?;
    write_do_words(names, page, parts, end)
}

/// Writes the end of a `do` with its condition, which stands second (6.5.2).
pub(crate) fn write_do_end<N: StatementNames>(
    names: &N,
    page: &mut Page,
    depth: u64,
    parts: &[TreeId],
    end: TreeId,
) -> Result<(), PlainFault>
    requires ready { N.is_ready names.now }
    requires known { end.0 < length (trees_of (N.named names.now)) }
    requires earlier { AreTreesBelow end.0 parts.now }
    ensures { Writes result page.new (put_lines (text.line depth (text.do_end (text.expression_words (scene_of (N.named names.now) (N.value names.now)) (text.after (parts_in (N.named names.now).held parts.now))))) page.old) }
{
    write_do_line(names, page, depth, after(parts, end), end)
}

// ---- `for` (6.5.3)

#[tactic(auto, using(crate::proofs::Lining::line_append))]
fn write_step_ended<N: StatementNames>(
    names: &N,
    page: &mut Page,
    parts: &[TreeId],
    end: TreeId,
) -> Result<(), PlainFault>
    requires ready { N.is_ready names.now }
    requires known { end.0 < length (trees_of (N.named names.now)) }
    requires earlier { AreTreesBelow end.0 parts.now }
    ensures { Writes result page.new (put_line (text.clause_words (scene_of (N.named names.now) (N.value names.now)) (parts_in (N.named names.now).held parts.now) ++ close_word ∷ (text.open_brace ∷ [])) page.old) }
{
    write_clause(names, page, parts, end)?;
    write_close_and(page, Role::Alone, b"{")
}

#[tactic(auto, using(crate::proofs::Lining::line_more))]
fn write_step<N: StatementNames>(
    names: &N,
    page: &mut Page,
    parts: &[TreeId],
    end: TreeId,
) -> Result<(), PlainFault>
    requires ready { N.is_ready names.now }
    requires known { end.0 < length (trees_of (N.named names.now)) }
    requires earlier { AreTreesBelow end.0 parts.now }
    ensures { Writes result page.new (put_line (semicolon_word ∷ (text.clause_words (scene_of (N.named names.now) (N.value names.now)) (parts_in (N.named names.now).held parts.now) ++ close_word ∷ (text.open_brace ∷ []))) page.old) }
{
    page.word(Role::Follows, b";")?;
    write_step_ended(names, page, parts, end)
}

// Writes the condition of a `for` that stands first.
fn write_clause_condition<N: StatementNames>(
    names: &N,
    page: &mut Page,
    parts: &[TreeId],
    end: TreeId,
) -> Result<(), PlainFault>
    requires ready { N.is_ready names.now }
    requires known { end.0 < length (trees_of (N.named names.now)) }
    requires earlier { AreTreesBelow end.0 parts.now }
    ensures { Writes result page.new (put (text.unless_declared (text.clause_words (scene_of (N.named names.now) (N.value names.now)) (parts_in (N.named names.now).held parts.now)) (text.declared_in (parts_in (N.named names.now).held parts.now))) page.old) }
{
    match declared(names.state(), parts, end) {
        Some(_) => page.word(Role::Alone, b"true"),
        None => write_clause(names, page, parts, end),
    }
}

fn write_step_after<N: StatementNames>(
    names: &N,
    page: &mut Page,
    parts: &[TreeId],
    end: TreeId,
) -> Result<(), PlainFault>
    requires ready { N.is_ready names.now }
    requires known { end.0 < length (trees_of (N.named names.now)) }
    requires earlier { AreTreesBelow end.0 parts.now }
    ensures { Writes result page.new (put_line (semicolon_word ∷ (text.clause_words (scene_of (N.named names.now) (N.value names.now)) (text.after (parts_in (N.named names.now).held parts.now)) ++ close_word ∷ (text.open_brace ∷ []))) page.old) }
{
    write_step(names, page, after(parts, end), end)
}

#[tactic(auto, using(crate::proofs::Lining::line_append))]
fn write_test_ended<N: StatementNames>(
    names: &N,
    page: &mut Page,
    parts: &[TreeId],
    end: TreeId,
) -> Result<(), PlainFault>
    requires ready { N.is_ready names.now }
    requires known { end.0 < length (trees_of (N.named names.now)) }
    requires earlier { AreTreesBelow end.0 parts.now }
    ensures { Writes result page.new (put_line (text.unless_declared (text.clause_words (scene_of (N.named names.now) (N.value names.now)) (parts_in (N.named names.now).held parts.now)) (text.declared_in (parts_in (N.named names.now).held parts.now)) ++ semicolon_word ∷ (text.clause_words (scene_of (N.named names.now) (N.value names.now)) (text.after (parts_in (N.named names.now).held parts.now)) ++ close_word ∷ (text.open_brace ∷ []))) page.old) }
{
    write_clause_condition(names, page, parts, end)?;
    write_step_after(names, page, parts, end)
}

#[tactic(auto, using(crate::proofs::Lining::line_more))]
fn write_test<N: StatementNames>(
    names: &N,
    page: &mut Page,
    parts: &[TreeId],
    end: TreeId,
) -> Result<(), PlainFault>
    requires ready { N.is_ready names.now }
    requires known { end.0 < length (trees_of (N.named names.now)) }
    requires earlier { AreTreesBelow end.0 parts.now }
    ensures { Writes result page.new (put_line (semicolon_word ∷ (text.unless_declared (text.clause_words (scene_of (N.named names.now) (N.value names.now)) (parts_in (N.named names.now).held parts.now)) (text.declared_in (parts_in (N.named names.now).held parts.now)) ++ semicolon_word ∷ (text.clause_words (scene_of (N.named names.now) (N.value names.now)) (text.after (parts_in (N.named names.now).held parts.now)) ++ close_word ∷ (text.open_brace ∷ [])))) page.old) }
{
    page.word(Role::Follows, b";")?;
    write_test_ended(names, page, parts, end)
}

// Writes an object, where there is just one.
#[tactic(auto, using(cxx_page::proofs::Put::put_none))]
fn write_one<N: StatementNames>(
    names: &N,
    page: &mut Page,
    is_static: bool,
    numbers: &[TreeId],
) -> Result<(), PlainFault>
    requires ready { N.is_ready names.now }
    requires below { AreTreesBelow (length (trees_of (N.named names.now))) numbers.now }
    ensures { Writes result page.new (put (text.one_object (scene_of (N.named names.now) (N.value names.now)) is_static (trees_in (trees_of (N.named names.now)) numbers.now)) page.old) }
{
    match numbers {
        [one] => write_object(names, page, is_static, *one),
        _ => Ok(()),
    }
}

// Writes the object that a declaration declares, where it declares just one, given the parts of its statement.
fn write_declared_one<N: StatementNames>(
    alloc: Global,
    names: &N,
    page: &mut Page,
    parts: &[TreeId],
    end: TreeId,
) -> Result<(), PlainFault>
    requires ready { N.is_ready names.now }
    requires known { end.0 < length (trees_of (N.named names.now)) }
    requires earlier { AreTreesBelow end.0 parts.now }
    ensures { Writes result page.new (put (text.one_object (scene_of (N.named names.now) (N.value names.now)) (objects.is_static (parts_in (N.named names.now).held parts.now)) (objects.printed_in (scene_of (N.named names.now) (N.value names.now)).facts (parts_in (N.named names.now).held parts.now))) page.old) }
{
    let held = names.state();
    let found = printed(held, alloc, parts, end)?;
    let stands = is_static(held, parts, end);
    write_one(names, page, stands, found.as_slice())
}

fn write_first_tree<N: StatementNames>(
    alloc: Global,
    names: &N,
    page: &mut Page,
    number: TreeId,
) -> Result<(), PlainFault>
    requires ready { N.is_ready names.now }
    requires known { number.0 < length (trees_of (N.named names.now)) }
    ensures { Writes result page.new (put (text.first_words (scene_of (N.named names.now) (N.value names.now)) (parts_in (N.named names.now).held (number ∷ []))) page.old) }
{
    let node = names.state().node(number);
    if node.production == DECLARATION_STATEMENT {
        return write_declared_one(alloc, names, page, node.children.as_slice(), number);
    }
    write_clause_tree(names, page, number)
}

// Writes the first part of a `for`, which stands first.
#[tactic(auto, using(cxx_page::proofs::Put::put_none))]
fn write_first_part<N: StatementNames>(
    alloc: Global,
    names: &N,
    page: &mut Page,
    parts: &[TreeId],
    end: TreeId,
) -> Result<(), PlainFault>
    requires ready { N.is_ready names.now }
    requires known { end.0 < length (trees_of (N.named names.now)) }
    requires earlier { AreTreesBelow end.0 parts.now }
    ensures { Writes result page.new (put (text.first_words (scene_of (N.named names.now) (N.value names.now)) (parts_in (N.named names.now).held parts.now)) page.old) }
{
    match parts {
        [first, ..] => write_first_tree(alloc, names, page, *first),
        [] => Ok(()),
    }
}

fn write_test_after<N: StatementNames>(
    names: &N,
    page: &mut Page,
    parts: &[TreeId],
    end: TreeId,
) -> Result<(), PlainFault>
    requires ready { N.is_ready names.now }
    requires known { end.0 < length (trees_of (N.named names.now)) }
    requires earlier { AreTreesBelow end.0 parts.now }
    ensures { Writes result page.new (put_line (semicolon_word ∷ (text.unless_declared (text.clause_words (scene_of (N.named names.now) (N.value names.now)) (text.after (parts_in (N.named names.now).held parts.now))) (text.declared_in (text.after (parts_in (N.named names.now).held parts.now))) ++ semicolon_word ∷ (text.clause_words (scene_of (N.named names.now) (N.value names.now)) (text.after (text.after (parts_in (N.named names.now).held parts.now))) ++ close_word ∷ (text.open_brace ∷ [])))) page.old) }
{
    write_test(names, page, after(parts, end), end)
}

#[tactic(auto, using(crate::proofs::Lining::line_append))]
fn write_first_ended<N: StatementNames>(
    alloc: Global,
    names: &N,
    page: &mut Page,
    parts: &[TreeId],
    end: TreeId,
) -> Result<(), PlainFault>
    requires ready { N.is_ready names.now }
    requires known { end.0 < length (trees_of (N.named names.now)) }
    requires earlier { AreTreesBelow end.0 parts.now }
    ensures { Writes result page.new (put_line (text.first_words (scene_of (N.named names.now) (N.value names.now)) (parts_in (N.named names.now).held parts.now) ++ semicolon_word ∷ (text.unless_declared (text.clause_words (scene_of (N.named names.now) (N.value names.now)) (text.after (parts_in (N.named names.now).held parts.now))) (text.declared_in (text.after (parts_in (N.named names.now).held parts.now))) ++ semicolon_word ∷ (text.clause_words (scene_of (N.named names.now) (N.value names.now)) (text.after (text.after (parts_in (N.named names.now).held parts.now))) ++ close_word ∷ (text.open_brace ∷ [])))) page.old) }
{
    write_first_part(alloc, names, page, parts, end)?;
    write_test_after(names, page, parts, end)
}

#[tactic(auto, using(crate::proofs::Lining::line_more))]
fn write_for_words<N: StatementNames>(
    alloc: Global,
    names: &N,
    page: &mut Page,
    parts: &[TreeId],
    end: TreeId,
) -> Result<(), PlainFault>
    requires ready { N.is_ready names.now }
    requires known { end.0 < length (trees_of (N.named names.now)) }
    requires earlier { AreTreesBelow end.0 parts.now }
    ensures { Writes result page.new (put_line (text.for_words (text.first_words (scene_of (N.named names.now) (N.value names.now)) (parts_in (N.named names.now).held parts.now)) (text.unless_declared (text.clause_words (scene_of (N.named names.now) (N.value names.now)) (text.after (parts_in (N.named names.now).held parts.now))) (text.declared_in (text.after (parts_in (N.named names.now).held parts.now)))) (text.clause_words (scene_of (N.named names.now) (N.value names.now)) (text.after (text.after (parts_in (N.named names.now).held parts.now))))) page.old) }
{
    page.word(Role::Alone, b"for")?;
    page.word(Role::Opens, b"(")?;
    write_first_ended(alloc, names, page, parts, end)
}

/// Writes what stands before the brace of a `for`.
#[tactic(auto, using(crate::proofs::Lining::line_is))]
pub(crate) fn write_for_head<N: StatementNames>(
    alloc: Global,
    names: &N,
    page: &mut Page,
    depth: u64,
    parts: &[TreeId],
    end: TreeId,
) -> Result<(), PlainFault>
    requires ready { N.is_ready names.now }
    requires known { end.0 < length (trees_of (N.named names.now)) }
    requires earlier { AreTreesBelow end.0 parts.now }
    ensures { Writes result page.new (put_lines (text.line depth (text.for_words (text.first_words (scene_of (N.named names.now) (N.value names.now)) (parts_in (N.named names.now).held parts.now)) (text.unless_declared (text.clause_words (scene_of (N.named names.now) (N.value names.now)) (text.after (parts_in (N.named names.now).held parts.now))) (text.declared_in (text.after (parts_in (N.named names.now).held parts.now)))) (text.clause_words (scene_of (N.named names.now) (N.value names.now)) (text.after (text.after (parts_in (N.named names.now).held parts.now)))))) page.old) }
{
    write_indent(page, depth)?;
    write_for_words(alloc, names, page, parts, end)
}

fn first_objects_in(state: &State, alloc: Global, number: TreeId) -> Result<Vec<TreeId>, AllocError>
    requires { number.0 < length (trees state.now) }
    ensures { IfOk result (λ found. AreTrees state.now found.items (text.first_objects (facts_in state.now) (parts_in state.now (number ∷ [])))) }
{
    let node = state.node(number);
    if node.production == DECLARATION_STATEMENT {
        return printed(state, alloc, node.children.as_slice(), number);
    }
    Ok(no_objects(state, alloc))
}

fn no_objects(state: &State, alloc: Global) -> Vec<TreeId>
    ensures { AreTrees state.now result.items [] }
{
    let _ = state;
    Vec::new(alloc)
}

// The objects that the first part of a `for` declares, which stands first.
fn first_objects(
    state: &State,
    alloc: Global,
    parts: &[TreeId],
    end: TreeId,
) -> Result<Vec<TreeId>, AllocError>
    requires known { end.0 < length (trees state.now) }
    requires earlier { AreTreesBelow end.0 parts.now }
    ensures { IfOk result (λ found. AreTrees state.now found.items (text.first_objects (facts_in state.now) (parts_in state.now parts.now))) }
{
    match parts {
        [first, ..] => first_objects_in(state, alloc, *first),
        [] => Ok(no_objects(state, alloc)),
    }
}

fn are_several(numbers: &[TreeId]) -> bool
    ensures { (all : List CxxTree) → result ≡ text.has_several (trees_in all numbers.now) }
{
    match numbers {
        [_, _, ..] => true,
        _ => false,
    }
}

/// Whether the first part of a `for` declares several objects, which stand before it.
pub(crate) fn has_several(
    state: &State,
    alloc: Global,
    parts: &[TreeId],
    end: TreeId,
) -> Result<bool, AllocError>
    requires known { end.0 < length (trees state.now) }
    requires earlier { AreTreesBelow end.0 parts.now }
    ensures { IfOk result (λ several. several ≡ text.has_several (text.first_objects (facts_in state.now) (parts_in state.now parts.now))) }
{
    let found = first_objects(state, alloc, parts, end)?;
    let numbers = found.as_slice();
    Ok(are_several(numbers))
}

// Whether the first part of a `for`, which stands first, is static.
fn is_first_static(state: &State, parts: &[TreeId], end: TreeId) -> bool
    requires known { end.0 < length (trees state.now) }
    requires earlier { AreTreesBelow end.0 parts.now }
    ensures { result ≡ text.is_first_static (parts_in state.now parts.now) }
{
    match parts {
        [first, ..] => is_static(state, state.node(*first).children.as_slice(), *first),
        [] => false,
    }
}

/// Writes the objects that stand before a `for`.
#[tactic(auto, using(crate::proofs::Lining::lines_none))]
pub(crate) fn write_several<N: StatementNames>(
    alloc: Global,
    names: &N,
    page: &mut Page,
    depth: u64,
    parts: &[TreeId],
    end: TreeId,
) -> Result<(), PlainFault>
    requires ready { N.is_ready names.now }
    requires known { end.0 < length (trees_of (N.named names.now)) }
    requires earlier { AreTreesBelow end.0 parts.now }
    ensures { Writes result page.new (put_lines (text.several_lines (scene_of (N.named names.now) (N.value names.now)) (text.is_first_static (parts_in (N.named names.now).held parts.now)) depth (text.first_objects (scene_of (N.named names.now) (N.value names.now)).facts (parts_in (N.named names.now).held parts.now))) page.old) }
{
    let held = names.state();
    let found = first_objects(held, alloc, parts, end)?;
    let numbers = found.as_slice();
    let several = are_several(numbers);
    if several {
        let stands = is_first_static(held, parts, end);
        return write_objects(names, page, stands, depth, numbers);
    }
    Ok(())
}
