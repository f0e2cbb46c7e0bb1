//! The lines that declare the functions that calls name.
ghost use Rattle.std.specs.Prelude.{◌≡◌, ◌<◌, ◌≤◌, ◌++◌, false, length, map, true, Err, IfOk, OnOk};
ghost use Rattle.cxx_model.specs.declared.limits.TheConstants.{MOST_OUTPUT};
ghost use Rattle.cxx_page.specs.Sheets.{Writes, put_line};
ghost use Rattle.cxx_tree.specs.Held.{meaning};
ghost use Rattle.cxx_form.specs.Books.{graph_of, names_of, IsBook};
ghost use Rattle.cxx_form.specs.Called as called;
ghost use Rattle.cxx_form.specs.Called.{any_long, called_words, functions_from, is_long, target_of};

use crate::book::Book;
use crate::text::write_called;
use cxx_model::FactId;
use cxx_page::{Page, PlainFault};
use cxx_phrase_text::ListedCall;
use std::alloc::Global;

#[tactic(auto, unfolding(cxx_page::specs::Sheets::put_line))]
fn write_line_of(book: &Book<'_>, page: &mut Page, number: FactId) -> Result<(), PlainFault>
    requires { IsBook book.now }
    ensures { Writes result page.new (put_line (called_words (names_of book.now) (graph_of book.now) number.0) page.old) }
{
    write_called(book, page, number)?;
    page.end_line()
}

// The line that declares a function.
fn function_text(alloc: Global, book: &Book<'_>, number: FactId) -> Result<Vec<u8>, PlainFault>
    requires { IsBook book.now }
    ensures text { IfOk result (λ text. text.items ≡ called.function_text (meaning book.now.state.now) number.0) }
    ensures within { IfOk result (λ text. length text.items ≤ MOST_OUTPUT) }
    ensures full { result ≡ Err PlainFault.Limit → MOST_OUTPUT < length (called.function_text (meaning book.now.state.now) number.0) }
{
    let mut page = Page::new(alloc);
    write_line_of(book, &mut page, number)?;
    Ok(page.into_bytes())
}

// Adds the line that declares a function.
fn add_function(
    alloc: Global,
    book: &Book<'_>,
    number: FactId,
    text: &mut Vec<u8>,
) -> Result<(), PlainFault>
    requires { IsBook book.now }
    ensures text { OnOk result (text.new.items ≡ text.old.items ++ called.function_text (meaning book.now.state.now) number.0) }
    ensures within { OnOk result (is_long (called.function_text (meaning book.now.state.now) number.0) ≡ false) }
    ensures full { result ≡ Err PlainFault.Limit → is_long (called.function_text (meaning book.now.state.now) number.0) ≡ true }
{
    let line = function_text(alloc, book, number)?;
    text.extend_from_slice(line.as_slice())?;
    Ok(())
}

/// The lines that declare the functions of some calls, one behind another.
pub(crate) fn functions_text(
    alloc: Global,
    book: &Book<'_>,
    calls: &[ListedCall],
) -> Result<Vec<u8>, PlainFault>
    requires { IsBook book.now }
    ensures text { IfOk result (λ text. text.items ≡ functions_from (meaning book.now.state.now) (map target_of calls.now)) }
    ensures within { OnOk result (any_long (meaning book.now.state.now) (map target_of calls.now) ≡ false) }
    ensures full { result ≡ Err PlainFault.Limit → any_long (meaning book.now.state.now) (map target_of calls.now) ≡ true }
{
    let mut text = Vec::new(alloc);
    for call in calls {
        add_function(alloc, book, call.target, &mut text)?;
    }
    Ok(text)
}
