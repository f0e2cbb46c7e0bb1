//! Statements by their forms.
ghost use Rattle.std.specs.Prelude.{◌<◌, ◌+◌, ◌∷◌, ◌++◌, codes, flat_map, length, suc, IfSome};
ghost use Rattle.std.specs.List.{slice_get};
ghost use Rattle.cxx_page.specs.Sheets.{Writes, put_lines};
ghost use Rattle.cxx_phrase_text.specs.Named.{trees_of};
ghost use Rattle.cxx_phrase_text.specs.Phrases.{prefix_word};
ghost use Rattle.cxx_tree.specs.Arena.{AreTreesBelow};
ghost use Rattle.cxx_statement_text.specs.Statements as text;
ghost use Rattle.cxx_statement_text.specs.Written.{children_at, inner_in, lines_at, lines_or_empty_at, parts_in, scene_of, statement_at, statement_found, statements_at, HasRoom, HasRoomWithin};

use crate::conditions::{
    after, declared, write_declaration_of, write_declared_lines, write_expression_line,
    write_label, write_return,
};
use crate::form::{Form, form_of};
use crate::heads::{
    has_several, write_do_end, write_for_head, write_head, write_several, write_unless,
    write_while_head,
};
use crate::lines::{
    write_close_brace, write_empty, write_open_brace, write_otherwise, write_two_words_line,
};
use crate::names::StatementNames;
use crate::objects::write_declaration;
use crate::standing::{child, is_block, is_nothing};
use cxx_model::{Node, TreeId};
use cxx_page::{Page, PlainFault};
use cxx_reading::Role;
use std::alloc::Global;

#[cycle(statements)]
fn write_next<N: StatementNames>(
    alloc: Global,
    names: &N,
    page: &mut Page,
    depth: u64,
    number: TreeId,
    end: TreeId,
) -> Result<(), PlainFault>
    requires ready { N.is_ready names.now }
    requires known { end.0 < length (trees_of (N.named names.now)) }
    requires within { number.0 < end.0 }
    requires room { HasRoomWithin 1 depth end }
    ensures { Writes result page.new (put_lines (lines_at (N.named names.now) (N.value names.now) depth number) page.old) }
{
    write_lines(alloc, names, page, depth, number)
}

#[cycle(statements)]
fn write_behind<N: StatementNames>(
    alloc: Global,
    names: &N,
    page: &mut Page,
    depth: u64,
    number: TreeId,
    end: TreeId,
) -> Result<(), PlainFault>
    requires ready { N.is_ready names.now }
    requires known { end.0 < length (trees_of (N.named names.now)) }
    requires within { number.0 < end.0 }
    requires room { HasRoomWithin 1 depth end }
    ensures { Writes result page.new (put_lines (lines_or_empty_at (N.named names.now) (N.value names.now) depth number) page.old) }
{
    write_or_empty(alloc, names, page, depth, number)
}

// Writes each of some statements.
#[cycle(statements)]
#[tactic(auto, using(cxx_phrase_text::proofs::Parts::child_below))]
fn write_all<N: StatementNames>(
    alloc: Global,
    names: &N,
    page: &mut Page,
    depth: u64,
    parts: &[TreeId],
    end: TreeId,
) -> Result<(), PlainFault>
    requires ready { N.is_ready names.now }
    requires known { end.0 < length (trees_of (N.named names.now)) }
    requires earlier { AreTreesBelow end.0 parts.now }
    requires room { HasRoomWithin 1 depth end }
    ensures { Writes result page.new (put_lines (flat_map (lines_at (N.named names.now) (N.value names.now) depth) parts.now) page.old) }
{
    for part in parts {
        write_next(alloc, names, page, depth, *part, end)?;
    }
    Ok(())
}

// Writes labels and the statement behind them.
#[cycle(statements)]
#[tactic(auto, using(cxx_phrase_text::proofs::Parts::child_below))]
fn write_each<N: StatementNames>(
    alloc: Global,
    names: &N,
    page: &mut Page,
    depth: u64,
    parts: &[TreeId],
    end: TreeId,
) -> Result<(), PlainFault>
    requires ready { N.is_ready names.now }
    requires known { end.0 < length (trees_of (N.named names.now)) }
    requires earlier { AreTreesBelow end.0 parts.now }
    requires room { HasRoomWithin 1 depth end }
    ensures { Writes result page.new (put_lines (flat_map (lines_or_empty_at (N.named names.now) (N.value names.now) depth) parts.now) page.old) }
{
    for part in parts {
        write_behind(alloc, names, page, depth, *part, end)?;
    }
    Ok(())
}

// Writes a statement, and the empty one where nothing of it is written (6.1).
#[cycle(statements)]
fn write_or_empty<N: StatementNames>(
    alloc: Global,
    names: &N,
    page: &mut Page,
    depth: u64,
    number: TreeId,
) -> Result<(), PlainFault>
    requires ready { N.is_ready names.now }
    requires known { number.0 < length (trees_of (N.named names.now)) }
    requires room { HasRoom depth number }
    ensures { Writes result page.new (put_lines (lines_or_empty_at (N.named names.now) (N.value names.now) depth number) page.old) }
{
    let held = names.state();
    let is_none = is_nothing(held, alloc, number)?;
    if is_none {
        return write_empty(page, depth);
    }
    write_lines(alloc, names, page, depth, number)
}

// Writes a part by its place; of a block what stands in its braces.
#[cycle(statements)]
#[tactic(auto, using(crate::proofs::Lining::lines_none))]
fn write_found<N: StatementNames>(
    alloc: Global,
    names: &N,
    page: &mut Page,
    depth: u64,
    number: Option<TreeId>,
    end: TreeId,
) -> Result<(), PlainFault>
    requires ready { N.is_ready names.now }
    requires known { end.0 < length (trees_of (N.named names.now)) }
    requires within { IfSome number (λ part. part.0 < end.0) }
    requires room { HasRoomWithin 3 depth end }
    ensures { Writes result page.new (put_lines ((statement_found (N.named names.now) (N.value names.now) number).inner depth) page.old) }
{
    match number {
        Some(number) => write_inner(alloc, names, page, depth, number),
        None => Ok(()),
    }
}

// Writes a part by its place; of a block what stands in its braces.
#[cycle(statements)]
fn write_part<N: StatementNames>(
    alloc: Global,
    names: &N,
    page: &mut Page,
    depth: u64,
    parts: &[TreeId],
    index: usize,
    end: TreeId,
) -> Result<(), PlainFault>
    requires ready { N.is_ready names.now }
    requires known { end.0 < length (trees_of (N.named names.now)) }
    requires earlier { AreTreesBelow end.0 parts.now }
    requires room { HasRoomWithin 3 depth end }
    ensures { Writes result page.new (put_lines ((text.part (statements_at (N.named names.now) (N.value names.now) parts.now) index).inner depth) page.old) }
{
    write_found(alloc, names, page, depth, child(parts, index, end), end)
}

// Writes a part in braces.
#[cycle(statements)]
#[tactic(auto, using(crate::proofs::Lining::lines_append, crate::proofs::Lining::lines_more))]
fn write_braced<N: StatementNames>(
    alloc: Global,
    names: &N,
    page: &mut Page,
    depth: u64,
    parts: &[TreeId],
    index: usize,
    end: TreeId,
) -> Result<(), PlainFault>
    requires ready { N.is_ready names.now }
    requires known { end.0 < length (trees_of (N.named names.now)) }
    requires earlier { AreTreesBelow end.0 parts.now }
    requires room { HasRoomWithin 2 depth end }
    ensures { Writes result page.new (put_lines (text.braced (text.part (statements_at (N.named names.now) (N.value names.now) parts.now) index) depth) page.old) }
{
    write_open_brace(page, depth)?;
    write_part(alloc, names, page, depth + 1, parts, index, end)?;
    write_close_brace(page, depth)
}

// Writes a part, and the brace behind it.
#[cycle(statements)]
#[tactic(auto, using(crate::proofs::Lining::lines_append, crate::proofs::Lining::lines_more))]
fn write_closed<N: StatementNames>(
    alloc: Global,
    names: &N,
    page: &mut Page,
    depth: u64,
    parts: &[TreeId],
    index: usize,
    end: TreeId,
) -> Result<(), PlainFault>
    requires ready { N.is_ready names.now }
    requires known { end.0 < length (trees_of (N.named names.now)) }
    requires earlier { AreTreesBelow end.0 parts.now }
    requires room { HasRoomWithin 1 depth end }
    ensures { Writes result page.new (put_lines ((text.part (statements_at (N.named names.now) (N.value names.now) parts.now) index).inner (suc depth) ++ text.closed depth) page.old) }
{
    write_part(alloc, names, page, depth + 1, parts, index, end)?;
    write_close_brace(page, depth)
}

// ---- selection (6.4)

#[cycle(statements)]
#[tactic(auto, using(crate::proofs::Lining::lines_append, crate::proofs::Lining::lines_more))]
fn write_otherwise_part<N: StatementNames>(
    alloc: Global,
    names: &N,
    page: &mut Page,
    depth: u64,
    number: TreeId,
    end: TreeId,
) -> Result<(), PlainFault>
    requires ready { N.is_ready names.now }
    requires known { end.0 < length (trees_of (N.named names.now)) }
    requires within { number.0 < end.0 }
    requires room { HasRoomWithin 1 depth end }
    ensures { Writes result page.new (put_lines (text.line depth text.otherwise_words ++ ((statement_at (N.named names.now) (N.value names.now) number).inner (suc depth) ++ text.closed depth)) page.old) }
{
    write_otherwise(page, depth)?;
    write_inner(alloc, names, page, depth + 1, number)?;
    write_close_brace(page, depth)
}

// Writes what stands behind the first statement of an `if`.
#[cycle(statements)]
fn write_else<N: StatementNames>(
    alloc: Global,
    names: &N,
    page: &mut Page,
    depth: u64,
    parts: &[TreeId],
    end: TreeId,
) -> Result<(), PlainFault>
    requires ready { N.is_ready names.now }
    requires known { end.0 < length (trees_of (N.named names.now)) }
    requires earlier { AreTreesBelow end.0 parts.now }
    requires room { HasRoomWithin 1 depth end }
    ensures { Writes result page.new (put_lines (text.else_lines depth (slice_get (statements_at (N.named names.now) (N.value names.now) parts.now) 2)) page.old) }
{
    match child(parts, 2, end) {
        Some(number) => write_otherwise_part(alloc, names, page, depth, number, end),
        None => write_close_brace(page, depth),
    }
}

#[cycle(statements)]
#[tactic(auto, using(crate::proofs::Lining::lines_append, crate::proofs::Lining::lines_more))]
fn write_branches<N: StatementNames>(
    alloc: Global,
    names: &N,
    page: &mut Page,
    depth: u64,
    parts: &[TreeId],
    end: TreeId,
) -> Result<(), PlainFault>
    requires ready { N.is_ready names.now }
    requires known { end.0 < length (trees_of (N.named names.now)) }
    requires earlier { AreTreesBelow end.0 parts.now }
    requires room { HasRoomWithin 1 depth end }
    ensures { Writes result page.new (put_lines ((text.part (statements_at (N.named names.now) (N.value names.now) parts.now) 1).inner (suc depth) ++ text.else_lines depth (slice_get (statements_at (N.named names.now) (N.value names.now) parts.now) 2)) page.old) }
{
    write_part(alloc, names, page, depth + 1, parts, 1, end)?;
    write_else(alloc, names, page, depth, parts, end)
}

#[cycle(statements)]
#[tactic(auto, using(crate::proofs::Lining::lines_append, crate::proofs::Lining::lines_more))]
fn write_if<N: StatementNames>(
    alloc: Global,
    names: &N,
    page: &mut Page,
    depth: u64,
    parts: &[TreeId],
    end: TreeId,
) -> Result<(), PlainFault>
    requires ready { N.is_ready names.now }
    requires known { end.0 < length (trees_of (N.named names.now)) }
    requires earlier { AreTreesBelow end.0 parts.now }
    requires room { HasRoomWithin 1 depth end }
    ensures { Writes result page.new (put_lines (text.if_lines (scene_of (N.named names.now) (N.value names.now)) (parts_in (N.named names.now).held parts.now) (statements_at (N.named names.now) (N.value names.now) parts.now) depth) page.old) }
{
    write_declared_lines(alloc, names, page, depth, parts, end)?;
    write_head(alloc, names, page, depth, b"if", parts, end)?;
    write_branches(alloc, names, page, depth, parts, end)
}

#[cycle(statements)]
#[tactic(auto, using(crate::proofs::Lining::lines_append, crate::proofs::Lining::lines_more))]
fn write_switch<N: StatementNames>(
    alloc: Global,
    names: &N,
    page: &mut Page,
    depth: u64,
    parts: &[TreeId],
    end: TreeId,
) -> Result<(), PlainFault>
    requires ready { N.is_ready names.now }
    requires known { end.0 < length (trees_of (N.named names.now)) }
    requires earlier { AreTreesBelow end.0 parts.now }
    requires room { HasRoomWithin 1 depth end }
    ensures { Writes result page.new (put_lines (text.switch_lines (scene_of (N.named names.now) (N.value names.now)) (parts_in (N.named names.now).held parts.now) (statements_at (N.named names.now) (N.value names.now) parts.now) depth) page.old) }
{
    write_declared_lines(alloc, names, page, depth, parts, end)?;
    write_head(alloc, names, page, depth, b"switch", parts, end)?;
    write_closed(alloc, names, page, depth, parts, 1, end)
}

// ---- iteration (6.5)

// Writes a `break` in braces that are open.
#[tactic(auto, using(crate::proofs::Lining::lines_append, crate::proofs::Lining::lines_more))]
fn write_left(page: &mut Page, depth: u64) -> Result<(), PlainFault>
    requires { depth < 9223372036854775808 + 2 }
    ensures { Writes result page.new (put_lines (text.line (suc depth) text.break_words ++ text.closed depth) page.old) }
{
    write_two_words_line(page, depth + 1, b"break", Role::Follows, b";")?;
    write_close_brace(page, depth)
}

// Writes what a loop does in each round behind the declaration in its condition.
#[cycle(statements)]
#[tactic(auto, using(crate::proofs::Lining::lines_append, crate::proofs::Lining::lines_more))]
fn write_rest<N: StatementNames>(
    alloc: Global,
    names: &N,
    page: &mut Page,
    depth: u64,
    parts: &[TreeId],
    condition: &[TreeId],
    index: usize,
    end: TreeId,
) -> Result<(), PlainFault>
    requires ready { N.is_ready names.now }
    requires known { end.0 < length (trees_of (N.named names.now)) }
    requires earlier { AreTreesBelow end.0 parts.now }
    requires condition { AreTreesBelow end.0 condition.now }
    requires room { HasRoomWithin 2 depth end }
    ensures { Writes result page.new (put_lines (text.line depth (text.head_words (codes "if") (prefix_word (codes "!") ∷ text.converted_words (scene_of (N.named names.now) (N.value names.now)) (parts_in (N.named names.now).held condition.now))) ++ ((text.line (suc depth) text.break_words ++ text.closed depth) ++ text.braced (text.part (statements_at (N.named names.now) (N.value names.now) parts.now) index) depth)) page.old) }
{
    write_unless(alloc, names, page, depth, condition, end)?;
    write_left(page, depth)?;
    write_braced(alloc, names, page, depth, parts, index, end)
}

#[cycle(statements)]
#[tactic(auto, using(crate::proofs::Lining::lines_append, crate::proofs::Lining::lines_more))]
fn write_declared_round<N: StatementNames>(
    alloc: Global,
    names: &N,
    page: &mut Page,
    depth: u64,
    parts: &[TreeId],
    condition: &[TreeId],
    declaration: TreeId,
    index: usize,
    end: TreeId,
) -> Result<(), PlainFault>
    requires ready { N.is_ready names.now }
    requires known { end.0 < length (trees_of (N.named names.now)) }
    requires earlier { AreTreesBelow end.0 parts.now }
    requires condition { AreTreesBelow end.0 condition.now }
    requires declaration { declaration.0 < end.0 }
    requires room { HasRoomWithin 2 depth end }
    ensures { Writes result page.new (put_lines (text.declaration_lines (scene_of (N.named names.now) (N.value names.now)) depth (children_at (N.named names.now).held declaration) ++ (text.line depth (text.head_words (codes "if") (prefix_word (codes "!") ∷ text.converted_words (scene_of (N.named names.now) (N.value names.now)) (parts_in (N.named names.now).held condition.now))) ++ ((text.line (suc depth) text.break_words ++ text.closed depth) ++ text.braced (text.part (statements_at (N.named names.now) (N.value names.now) parts.now) index) depth))) page.old) }
{
    write_declaration_of(alloc, names, page, depth, declaration)?;
    write_rest(alloc, names, page, depth, parts, condition, index, end)
}

// Writes what a loop does in each round.
#[cycle(statements)]
fn write_round<N: StatementNames>(
    alloc: Global,
    names: &N,
    page: &mut Page,
    depth: u64,
    parts: &[TreeId],
    condition: &[TreeId],
    index: usize,
    end: TreeId,
) -> Result<(), PlainFault>
    requires ready { N.is_ready names.now }
    requires known { end.0 < length (trees_of (N.named names.now)) }
    requires earlier { AreTreesBelow end.0 parts.now }
    requires condition { AreTreesBelow end.0 condition.now }
    requires room { HasRoomWithin 2 depth end }
    ensures { Writes result page.new (put_lines (text.round_lines (scene_of (N.named names.now) (N.value names.now)) (parts_in (N.named names.now).held condition.now) (text.declared_in (parts_in (N.named names.now).held condition.now)) (text.part (statements_at (N.named names.now) (N.value names.now) parts.now) index) depth) page.old) }
{
    match declared(names.state(), condition, end) {
        Some(declaration) => write_declared_round(
            alloc,
            names,
            page,
            depth,
            parts,
            condition,
            declaration,
            index,
            end,
        ),
        None => write_part(alloc, names, page, depth, parts, index, end),
    }
}

#[cycle(statements)]
#[tactic(auto, using(crate::proofs::Lining::lines_append, crate::proofs::Lining::lines_more))]
fn write_rounds<N: StatementNames>(
    alloc: Global,
    names: &N,
    page: &mut Page,
    depth: u64,
    parts: &[TreeId],
    condition: &[TreeId],
    index: usize,
    end: TreeId,
) -> Result<(), PlainFault>
    requires ready { N.is_ready names.now }
    requires known { end.0 < length (trees_of (N.named names.now)) }
    requires earlier { AreTreesBelow end.0 parts.now }
    requires condition { AreTreesBelow end.0 condition.now }
    requires room { HasRoomWithin 1 depth end }
    ensures { Writes result page.new (put_lines (text.round_lines (scene_of (N.named names.now) (N.value names.now)) (parts_in (N.named names.now).held condition.now) (text.declared_in (parts_in (N.named names.now).held condition.now)) (text.part (statements_at (N.named names.now) (N.value names.now) parts.now) index) (suc depth) ++ text.closed depth) page.old) }
{
    write_round(alloc, names, page, depth + 1, parts, condition, index, end)?;
    write_close_brace(page, depth)
}

#[cycle(statements)]
#[tactic(auto, using(crate::proofs::Lining::lines_append, crate::proofs::Lining::lines_more))]
fn write_while<N: StatementNames>(
    alloc: Global,
    names: &N,
    page: &mut Page,
    depth: u64,
    parts: &[TreeId],
    end: TreeId,
) -> Result<(), PlainFault>
    requires ready { N.is_ready names.now }
    requires known { end.0 < length (trees_of (N.named names.now)) }
    requires earlier { AreTreesBelow end.0 parts.now }
    requires room { HasRoomWithin 1 depth end }
    ensures { Writes result page.new (put_lines (text.while_lines (scene_of (N.named names.now) (N.value names.now)) (parts_in (N.named names.now).held parts.now) (statements_at (N.named names.now) (N.value names.now) parts.now) depth) page.old) }
{
    write_while_head(names, page, depth, parts, end)?;
    write_rounds(alloc, names, page, depth, parts, parts, 1, end)
}

#[cycle(statements)]
#[tactic(auto, using(crate::proofs::Lining::lines_append, crate::proofs::Lining::lines_more))]
fn write_do<N: StatementNames>(
    alloc: Global,
    names: &N,
    page: &mut Page,
    depth: u64,
    parts: &[TreeId],
    end: TreeId,
) -> Result<(), PlainFault>
    requires ready { N.is_ready names.now }
    requires known { end.0 < length (trees_of (N.named names.now)) }
    requires earlier { AreTreesBelow end.0 parts.now }
    requires room { HasRoomWithin 1 depth end }
    ensures { Writes result page.new (put_lines (text.do_lines (scene_of (N.named names.now) (N.value names.now)) (parts_in (N.named names.now).held parts.now) (statements_at (N.named names.now) (N.value names.now) parts.now) depth) page.old) }
{
    write_two_words_line(page, depth, b"do", Role::Alone, b"{")?;
    write_part(alloc, names, page, depth + 1, parts, 0, end)?;
    write_do_end(names, page, depth, parts, end)
}

// Writes what a `for` does in each round, whose condition stands second.
#[cycle(statements)]
fn write_for_rounds<N: StatementNames>(
    alloc: Global,
    names: &N,
    page: &mut Page,
    depth: u64,
    parts: &[TreeId],
    end: TreeId,
) -> Result<(), PlainFault>
    requires ready { N.is_ready names.now }
    requires known { end.0 < length (trees_of (N.named names.now)) }
    requires earlier { AreTreesBelow end.0 parts.now }
    requires room { HasRoomWithin 1 depth end }
    ensures { Writes result page.new (put_lines (text.round_lines (scene_of (N.named names.now) (N.value names.now)) (text.after (parts_in (N.named names.now).held parts.now)) (text.declared_in (text.after (parts_in (N.named names.now).held parts.now))) (text.part (statements_at (N.named names.now) (N.value names.now) parts.now) 3) (suc depth) ++ text.closed depth) page.old) }
{
    write_rounds(alloc, names, page, depth, parts, after(parts, end), 3, end)
}

#[cycle(statements)]
#[tactic(auto, using(crate::proofs::Lining::lines_append, crate::proofs::Lining::lines_more))]
fn write_for<N: StatementNames>(
    alloc: Global,
    names: &N,
    page: &mut Page,
    depth: u64,
    parts: &[TreeId],
    end: TreeId,
) -> Result<(), PlainFault>
    requires ready { N.is_ready names.now }
    requires known { end.0 < length (trees_of (N.named names.now)) }
    requires earlier { AreTreesBelow end.0 parts.now }
    requires room { HasRoomWithin 1 depth end }
    ensures { Writes result page.new (put_lines (text.for_lines (scene_of (N.named names.now) (N.value names.now)) (parts_in (N.named names.now).held parts.now) (statements_at (N.named names.now) (N.value names.now) parts.now) depth) page.old) }
{
    write_several(alloc, names, page, depth, parts, end)?;
    write_for_head(alloc, names, page, depth, parts, end)?;
    write_for_rounds(alloc, names, page, depth, parts, end)
}

// ---- a statement

// Writes a label, or a statement behind its labels (6.1).
#[cycle(statements)]
fn write_labels<N: StatementNames>(
    alloc: Global,
    names: &N,
    page: &mut Page,
    depth: u64,
    parts: &[TreeId],
    keyword: &[u8],
    end: TreeId,
) -> Result<(), PlainFault>
    requires ready { N.is_ready names.now }
    requires known { end.0 < length (trees_of (N.named names.now)) }
    requires earlier { AreTreesBelow end.0 parts.now }
    requires room { HasRoomWithin 1 depth end }
    ensures { Writes result page.new (put_lines (text.label_lines (scene_of (N.named names.now) (N.value names.now)) keyword.now (parts_in (N.named names.now).held parts.now) (statements_at (N.named names.now) (N.value names.now) parts.now) depth) page.old) }
{
    match keyword {
        [] => write_each(alloc, names, page, depth, parts, end),
        _ => write_label(names, page, depth, keyword, parts, end),
    }
}

// Writes the statement of a node by its form.
#[cycle(statements)]
fn write_form<N: StatementNames>(
    alloc: Global,
    names: &N,
    page: &mut Page,
    depth: u64,
    form: Form,
    node: &Node,
    number: TreeId,
) -> Result<(), PlainFault>
    requires ready { N.is_ready names.now }
    requires known { number.0 < length (trees_of (N.named names.now)) }
    requires room { HasRoomWithin 1 depth number }
    requires earlier { AreTreesBelow number.0 node.now.children }
    ensures { Writes result page.new (put_lines (inner_in (N.named names.now) (N.value names.now) form node.now depth) page.old) }
{
    let spelling = node.spelling.as_slice();
    let parts = node.children.as_slice();
    match form {
        Form::Block => write_all(alloc, names, page, depth, parts, number),
        Form::Declaration => write_declaration(alloc, names, page, depth, parts, number),
        Form::Expression => write_expression_line(names, page, depth, parts, number),
        Form::If => write_if(alloc, names, page, depth, parts, number),
        Form::Switch => write_switch(alloc, names, page, depth, parts, number),
        Form::Label => write_labels(alloc, names, page, depth, parts, spelling, number),
        Form::While => write_while(alloc, names, page, depth, parts, number),
        Form::Do => write_do(alloc, names, page, depth, parts, number),
        Form::For => write_for(alloc, names, page, depth, parts, number),
        Form::Jump => write_two_words_line(page, depth, spelling, Role::Follows, b";"),
        Form::Return => write_return(names, page, depth, parts, number),
    }
}

/// Writes a statement; of a block what stands in its braces.
#[cycle(statements)]
pub(crate) fn write_inner<N: StatementNames>(
    alloc: Global,
    names: &N,
    page: &mut Page,
    depth: u64,
    number: TreeId,
) -> Result<(), PlainFault>
    requires ready { N.is_ready names.now }
    requires known { number.0 < length (trees_of (N.named names.now)) }
    requires room { HasRoomWithin 1 depth number }
    ensures { Writes result page.new (put_lines ((statement_at (N.named names.now) (N.value names.now) number).inner depth) page.old) }
{
    let node = names.state().node(number);
    write_form(
        alloc,
        names,
        page,
        depth,
        form_of(node.production),
        node,
        number,
    )
}

// Writes a statement in braces.
#[cycle(statements)]
#[tactic(auto, using(crate::proofs::Lining::lines_append, crate::proofs::Lining::lines_more))]
fn write_block<N: StatementNames>(
    alloc: Global,
    names: &N,
    page: &mut Page,
    depth: u64,
    number: TreeId,
) -> Result<(), PlainFault>
    requires ready { N.is_ready names.now }
    requires known { number.0 < length (trees_of (N.named names.now)) }
    requires room { HasRoom depth number }
    ensures { Writes result page.new (put_lines (text.braced (statement_at (N.named names.now) (N.value names.now) number) depth) page.old) }
{
    write_open_brace(page, depth)?;
    write_inner(alloc, names, page, depth + 1, number)?;
    write_close_brace(page, depth)
}

/// Writes a statement.
#[cycle(statements)]
pub(crate) fn write_lines<N: StatementNames>(
    alloc: Global,
    names: &N,
    page: &mut Page,
    depth: u64,
    number: TreeId,
) -> Result<(), PlainFault>
    requires ready { N.is_ready names.now }
    requires known { number.0 < length (trees_of (N.named names.now)) }
    requires room { HasRoom depth number }
    ensures { Writes result page.new (put_lines (lines_at (N.named names.now) (N.value names.now) depth number) page.old) }
{
    let held = names.state();
    let is_one = is_block(held, alloc, number)?;
    if is_one {
        return write_block(alloc, names, page, depth, number);
    }
    write_inner(alloc, names, page, depth, number)
}
