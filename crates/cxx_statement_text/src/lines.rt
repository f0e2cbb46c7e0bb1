//! Lines at a depth of indentation.
ghost use Rattle.std.specs.Prelude.{[], ◌∷◌};
ghost use Rattle.cxx_page.specs.Sheets.{Writes, put, put_line, put_lines, word_of};
ghost use Rattle.cxx_reading.specs.Words.{close_word, keyword_word, open_word};
ghost use Rattle.cxx_statement_text.specs.Statements as text;

use cxx_page::{Page, PlainFault};
use cxx_reading::Role;

/// Writes two spaces for each brace that is open.
pub(crate) fn write_indent(page: &mut Page, depth: u64) -> Result<(), PlainFault>
    ensures { Writes result page.new (put (text.indent depth) page.old) }
{
    for _ in 0..depth {
        page.word(Role::Leads, b"  ")?;
    }
    Ok(())
}

/// Ends a line with a word.
#[tactic(auto, unfolding(cxx_page::specs::Sheets::put_line))]
pub(crate) fn write_last_word(
    page: &mut Page,
    role: Role,
    spelling: &[u8],
) -> Result<(), PlainFault>
    ensures { Writes result page.new (put_line (word_of role spelling.now ∷ []) page.old) }
{
    page.word(role, spelling)?;
    page.end_line()
}

/// Ends a line with two words.
#[tactic(auto, using(crate::proofs::Lining::line_more))]
pub(crate) fn write_last_two(
    page: &mut Page,
    one: &[u8],
    role: Role,
    two: &[u8],
) -> Result<(), PlainFault>
    ensures { Writes result page.new (put_line (keyword_word one.now ∷ word_of role two.now ∷ []) page.old) }
{
    page.word(Role::Alone, one)?;
    write_last_word(page, role, two)
}

/// Ends a line with a bracket that closes, and with a word.
#[tactic(auto, using(crate::proofs::Lining::line_more))]
pub(crate) fn write_close_and(
    page: &mut Page,
    role: Role,
    spelling: &[u8],
) -> Result<(), PlainFault>
    ensures { Writes result page.new (put_line (close_word ∷ word_of role spelling.now ∷ []) page.old) }
{
    page.word(Role::Closes, b")")?;
    write_last_word(page, role, spelling)
}

/// Writes a keyword and a bracket that opens.
#[tactic(auto, using(cxx_page::proofs::Put::put_more))]
pub(crate) fn write_opened(page: &mut Page, keyword: &[u8]) -> Result<(), PlainFault>
    ensures { Writes result page.new (put (keyword_word keyword.now ∷ open_word ∷ []) page.old) }
{
    page.word(Role::Alone, keyword)?;
    page.word(Role::Opens, b"(")
}

/// Writes a line of one word.
#[tactic(auto, using(crate::proofs::Lining::line_is))]
pub(crate) fn write_word_line(
    page: &mut Page,
    depth: u64,
    role: Role,
    spelling: &[u8],
) -> Result<(), PlainFault>
    ensures { Writes result page.new (put_lines (text.line depth (word_of role spelling.now ∷ [])) page.old) }
{
    write_indent(page, depth)?;
    write_last_word(page, role, spelling)
}

/// Writes a line of a keyword and a word behind it.
#[tactic(auto, using(crate::proofs::Lining::line_is))]
pub(crate) fn write_two_words_line(
    page: &mut Page,
    depth: u64,
    keyword: &[u8],
    role: Role,
    spelling: &[u8],
) -> Result<(), PlainFault>
    ensures { Writes result page.new (put_lines (text.line depth (keyword_word keyword.now ∷ word_of role spelling.now ∷ [])) page.old) }
{
    write_indent(page, depth)?;
    write_last_two(page, keyword, role, spelling)
}

/// Writes the brace before statements.
pub(crate) fn write_open_brace(page: &mut Page, depth: u64) -> Result<(), PlainFault>
    ensures { Writes result page.new (put_lines (text.opened depth) page.old) }
{
    write_word_line(page, depth, Role::Alone, b"{")
}

/// Writes the brace behind statements.
pub(crate) fn write_close_brace(page: &mut Page, depth: u64) -> Result<(), PlainFault>
    ensures { Writes result page.new (put_lines (text.closed depth) page.old) }
{
    write_word_line(page, depth, Role::Alone, b"}")
}

/// Writes the empty statement (6.2).
pub(crate) fn write_empty(page: &mut Page, depth: u64) -> Result<(), PlainFault>
    ensures { Writes result page.new (put_lines (text.empty depth) page.old) }
{
    write_word_line(page, depth, Role::Follows, b";")
}

#[tactic(auto, using(crate::proofs::Lining::line_more))]
fn write_otherwise_words(page: &mut Page) -> Result<(), PlainFault>
    ensures { Writes result page.new (put_line text.otherwise_words page.old) }
{
    page.word(Role::Alone, b"}")?;
    write_last_two(page, b"else", Role::Alone, b"{")
}

/// Writes the line between the two statements of an `if` (6.4.1).
#[tactic(auto, using(crate::proofs::Lining::line_is))]
pub(crate) fn write_otherwise(page: &mut Page, depth: u64) -> Result<(), PlainFault>
    ensures { Writes result page.new (put_lines (text.line depth text.otherwise_words) page.old) }
{
    write_indent(page, depth)?;
    write_otherwise_words(page)
}
