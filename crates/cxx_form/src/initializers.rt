//! The initializers of declarators (8.5).
ghost use Rattle.std.specs.Prelude.{◌≡◌, ◌++◌, length, map, OnOk};
ghost use Rattle.cxx_page.specs.Sheets.{Writes, put};
ghost use Rattle.cxx_phrase_text.specs.Listing.{call_of};
ghost use Rattle.cxx_reading.specs.Trees.{in_turn};
ghost use Rattle.cxx_tree.specs.Arena.{trees_in, AreTreesBelow};
ghost use Rattle.cxx_tree.specs.Held.{trees};
ghost use Rattle.cxx_form.specs.Books.{trees_of, IsBook};
ghost use Rattle.cxx_form.specs.Parts.{initializer_among};
ghost use Rattle.cxx_form.specs.Text.{calls_of_trees, initializers_in};

use crate::book::Book;
use crate::parts::first_part;
use crate::production::INITIALIZER;
use cxx_model::TreeId;
use cxx_page::{Page, PlainFault};
use cxx_phrase_text::{ListedCall, add_calls, write_initializer};
use cxx_tree::State;
use std::alloc::AllocError;

/// Writes the initializer among the parts of a declarator, where there is one.
pub(crate) fn write_among(
    book: &Book<'_>,
    page: &mut Page,
    parts: &[TreeId],
) -> Result<(), PlainFault>
    requires book { IsBook book.now }
    requires below { AreTreesBelow (length (trees_of book.now)) parts.now }
    ensures { Writes result page.new (put (initializer_among book.now parts.now) page.old) }
{
    let Some(number) = first_part(book.state, parts, INITIALIZER) else {
        return Ok(());
    };
    write_initializer(book, page, number)
}

/// Adds the calls of the initializer among the parts of a declarator, where there is one.
pub(crate) fn add_among(
    state: &State,
    parts: &[TreeId],
    found: &mut Vec<ListedCall>,
) -> Result<(), AllocError>
    requires { AreTreesBelow (length (trees state.now)) parts.now }
    ensures { OnOk result (map call_of found.new.items ≡ map call_of found.old.items ++ calls_of_trees (initializers_in (in_turn (trees_in (trees state.now) parts.now)))) }
{
    let Some(number) = first_part(state, parts, INITIALIZER) else {
        return Ok(());
    };
    add_calls(state, number, found)
}
