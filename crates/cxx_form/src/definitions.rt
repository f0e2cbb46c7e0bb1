//! Definitions of functions, line by line (8.4).
ghost use Rattle.std.specs.Prelude.{◌≡◌, ◌<◌, [], ◌∷◌, ◌++◌, length, option_map, IfSome};
ghost use Rattle.cxx_page.specs.Sheets.{Writes, put_line, put_lines};
ghost use Rattle.cxx_statement_text.specs.Statements.{close_brace};
ghost use Rattle.cxx_tree.specs.Arena.{tree_in};
ghost use Rattle.cxx_tree.specs.Held.{tree};
ghost use Rattle.cxx_form.specs.Books.{graph_of, names_of, trees_of, IsBook};
ghost use Rattle.cxx_form.specs.Definitions.{definition_words};
ghost use Rattle.cxx_form.specs.Parts.{definition_parts, head_of, inner_at};

use crate::book::Book;
use crate::defined::parameters;
use crate::heads::write_head;
use crate::parts::{body_of, declarator_of};
use cxx_model::{FactId, TreeId};
use cxx_page::{Page, PlainFault};
use cxx_reading::Role;
use cxx_statement_text::write_body;
use std::alloc::Global;

// Writes what stands in the braces of a body, where there is one.
#[tactic(auto, using(crate::proofs::Listing::no_lines))]
fn write_inner(
    alloc: Global,
    book: &Book<'_>,
    page: &mut Page,
    body: Option<TreeId>,
) -> Result<(), PlainFault>
    requires book { IsBook book.now }
    requires below { IfSome body (λ number. number.0 < length (trees_of book.now)) }
    ensures { Writes result page.new (put_lines (inner_at book.now (option_map (tree book.now.state.now) body)) page.old) }
{
    let Some(number) = body else {
        return Ok(());
    };
    write_body(alloc, book, page, 1, number)
}

#[tactic(auto, using(crate::proofs::Listing::one_line), unfolding(cxx_page::specs::Sheets::put_line))]
fn write_close(page: &mut Page) -> Result<(), PlainFault>
    ensures { Writes result page.new (put_lines ((close_brace ∷ []) ∷ []) page.old) }
{
    page.word(Role::Alone, b"}")?;
    page.end_line()
}

#[tactic(auto, using(cxx_statement_text::proofs::Lining::lines_append))]
fn write_closed(
    alloc: Global,
    book: &Book<'_>,
    page: &mut Page,
    body: Option<TreeId>,
) -> Result<(), PlainFault>
    requires book { IsBook book.now }
    requires below { IfSome body (λ number. number.0 < length (trees_of book.now)) }
    ensures { Writes result page.new (put_lines (inner_at book.now (option_map (tree book.now.state.now) body) ++ (close_brace ∷ []) ∷ []) page.old) }
{
    write_inner(alloc, book, page, body)?;
    write_close(page)
}

#[tactic(auto, using(crate::proofs::Listing::line_then), unfolding(crate::specs::Parts::definition_parts))]
fn write_parts(
    alloc: Global,
    book: &Book<'_>,
    page: &mut Page,
    declarator: Option<TreeId>,
    numbers: &[FactId],
    body: Option<TreeId>,
) -> Result<(), PlainFault>
    requires book { IsBook book.now }
    requires declarator { IfSome declarator (λ number. number.0 < length (trees_of book.now)) }
    requires body { IfSome body (λ number. number.0 < length (trees_of book.now)) }
    ensures { Writes result page.new (put_lines (definition_parts book.now (head_of book.now (option_map (tree book.now.state.now) declarator) numbers.now) (option_map (tree book.now.state.now) body)) page.old) }
{
    write_head(book, page, declarator, numbers)?;
    write_closed(alloc, book, page, body)
}

/// Writes the lines of a definition of a function.
pub(crate) fn write_definition(
    alloc: Global,
    book: &Book<'_>,
    page: &mut Page,
    number: TreeId,
) -> Result<(), PlainFault>
    requires book { IsBook book.now }
    requires known { number.0 < length (trees_of book.now) }
    ensures { Writes result page.new (put_lines (definition_words (names_of book.now) (graph_of book.now) (tree_in (trees_of book.now) number.0)) page.old) }
{
    let declarator = declarator_of(book.state, number);
    let body = body_of(book.state, number);
    let numbers = parameters(book.state, book.parts, body);
    write_parts(alloc, book, page, declarator, numbers, body)
}
