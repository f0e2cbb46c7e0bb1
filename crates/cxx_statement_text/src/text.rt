//! Statements, and bodies of functions.
ghost use Rattle.std.specs.Prelude.{◌<◌, length};
ghost use Rattle.cxx_page.specs.Sheets.{Writes, put_lines};
ghost use Rattle.cxx_phrase_text.specs.Named.{trees_of};
ghost use Rattle.cxx_tree.specs.Arena.{tree_in};
ghost use Rattle.cxx_statement_text.specs.Statements.{body_lines, statement_lines};
ghost use Rattle.cxx_statement_text.specs.Written.{scene_of, HasRoom};

use crate::names::StatementNames;
use crate::statements::{write_inner, write_lines};
use cxx_model::TreeId;
use cxx_page::{Page, PlainFault};
use std::alloc::Global;

/// Writes the lines of the statement with a number, at a depth.
#[tactic(auto, unfolding(crate::specs::Statements::statement_lines, crate::specs::Written::statement_at, crate::specs::Written::lines_at))]
pub fn write_statement<N: StatementNames>(
    alloc: Global,
    names: &N,
    page: &mut Page,
    depth: u64,
    number: TreeId,
) -> Result<(), PlainFault>
    requires ready { N.is_ready names.now }
    requires known { number.0 < length (trees_of (N.named names.now)) }
    requires room { HasRoom depth number }
    ensures { Writes result page.new (put_lines (statement_lines (scene_of (N.named names.now) (N.value names.now)) depth (tree_in (trees_of (N.named names.now)) number.0)) page.old) }
{
    write_lines(alloc, names, page, depth, number)
}

/// Writes what stands in the braces of a block, as the body of a function has it, at a depth.
#[tactic(auto, unfolding(crate::specs::Statements::body_lines, crate::specs::Written::statement_at))]
pub fn write_body<N: StatementNames>(
    alloc: Global,
    names: &N,
    page: &mut Page,
    depth: u64,
    number: TreeId,
) -> Result<(), PlainFault>
    requires ready { N.is_ready names.now }
    requires known { number.0 < length (trees_of (N.named names.now)) }
    requires room { HasRoom depth number }
    ensures { Writes result page.new (put_lines (body_lines (scene_of (N.named names.now) (N.value names.now)) depth (tree_in (trees_of (N.named names.now)) number.0)) page.old) }
{
    write_inner(alloc, names, page, depth, number)
}
