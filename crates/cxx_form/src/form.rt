//! The plain form of a reading.
ghost use Rattle.std.specs.Prelude.{◌≡◌, ◌<◌, ◌≤◌, length, true, Err, IfOk};
ghost use Rattle.cxx_model.specs.declared.limits.TheConstants.{MOST_OUTPUT};
ghost use Rattle.cxx_model.specs.Facts.Fitted.{Fitted};
ghost use Rattle.cxx_model.specs.declared.options.Options.{Options};
ghost use Rattle.cxx_form.specs.Order.{lines as lines_of};
ghost use Rattle.cxx_tree.specs.Held.{meaning};
ghost use Rattle.cxx_form.specs.Books.{trees_of, IsBook};
ghost use Rattle.cxx_form.specs.Called.{is_past_output};
ghost use Rattle.cxx_form.specs.Printed.{IsPrinted};
ghost use Rattle.cxx_form.specs.Lines.{lines_at, AreLinesBelow};
ghost use Rattle.cxx_form.specs.Text.{plain_text};

use crate::book::Book;
use crate::called::functions_text;
use crate::calls::on_lines;
use crate::enumerations::{classes, declared, enumerators};
use crate::lines::{Line, lines_by};
use crate::names::{class_tags, tags};
use crate::order::numbering;
use crate::scoped::parts;
use crate::shared::shared;
use crate::text::write_lines;
use cxx_page::{Page, PlainFault, Tags};
use cxx_tree::State;
use std::alloc::Global;

/// What is printed of a reading.
#[derive(Drop)]
pub struct Printed {
    /// Its plain form.
    pub text: Vec<u8>,
    /// For each call of the plain form, in its order, the line by which the plain form declares the function that the
    /// call names; that of a member of a class with its class before the name, and without the spaces, without `static`
    /// and `virtual` before it and without `= 0` behind it.
    pub functions: Vec<u8>,
}

// The types that a state names are those of its table.
fn fitted(state: &State)
    ensures { Fitted (state.now).graph (state.now).types }
{
    let _ = state.types();
}

// The text of the lines of a state.
fn text_of(alloc: Global, book: &Book<'_>, lines: &[Line]) -> Result<Vec<u8>, PlainFault>
    requires book { IsBook book.now }
    requires is { lines_at (trees_of book.now) lines.now ≡ lines_of (meaning book.now.state.now) }
    requires below { AreLinesBelow (length (trees_of book.now)) lines.now }
    ensures text { (options : Options) → IfOk result (λ text. text.items ≡ plain_text (record { options = options; state = meaning book.now.state.now })) }
    ensures within { IfOk result (λ text. length text.items ≤ MOST_OUTPUT) }
    ensures full { (options : Options) → result ≡ Err PlainFault.Limit → MOST_OUTPUT < length (plain_text (record { options = options; state = meaning book.now.state.now })) }
{
    let mut page = Page::new(alloc);
    write_lines(alloc, book, &mut page, lines)?;
    Ok(page.into_bytes())
}

// What the lines of a state print.
fn printed_by(alloc: Global, book: &Book<'_>, lines: &[Line]) -> Result<Printed, PlainFault>
    requires book { IsBook book.now }
    requires is { lines_at (trees_of book.now) lines.now ≡ lines_of (meaning book.now.state.now) }
    requires below { AreLinesBelow (length (trees_of book.now)) lines.now }
    ensures is { (options : Options) → IfOk result (IsPrinted (record { options = options; state = meaning book.now.state.now })) }
    ensures full { (options : Options) → result ≡ Err PlainFault.Limit → is_past_output (record { options = options; state = meaning book.now.state.now }) ≡ true }
{
    let text = text_of(alloc, book, lines)?;
    let calls = on_lines(book.state, lines, alloc)?;
    let functions = functions_text(alloc, book, calls.as_slice())?;
    Ok(Printed { text, functions })
}

/// Prints the reading whose state this is. Its plain form has a line for each class, each enumeration, each function that
/// is no member and each declaration of an object, and the lines of each definition of a class and of a function, each name
/// with a number and each conversion as a cast.
pub fn print_reading(alloc: Global, state: &State) -> Result<Printed, PlainFault>
    ensures is { (options : Options) → IfOk result (IsPrinted (record { options = options; state = meaning state.now })) }
    ensures full { (options : Options) → result ≡ Err PlainFault.Limit → is_past_output (record { options = options; state = meaning state.now }) ≡ true }
{
    let firsts = classes(state, alloc)?;
    let found = lines_by(state, &firsts, alloc)?;
    let rows = enumerators(state, alloc)?;
    let places = declared(state, alloc)?;
    let scoped = parts(state, alloc)?;
    let kept = shared(state, alloc)?;
    let shares = kept.as_slice();
    let numbers = numbering(state, shares, &rows, &scoped, found.as_slice(), alloc)?;
    let names = Tags {
        classes: class_tags(state, &firsts, &numbers, alloc)?,
        enumerations: tags(state, &places, &numbers, alloc)?,
    };
    let book = Book {
        state,
        firsts: shares,
        numbering: &numbers,
        tags: &names,
        enumerators: &rows,
        parts: &scoped,
    };
    fitted(state);
    printed_by(alloc, &book, found.as_slice())
}
