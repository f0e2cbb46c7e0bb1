//! The lines of objects.
ghost use Rattle.std.specs.Prelude.{◌<◌, [], ◌∷◌, ◌++◌, length};
ghost use Rattle.cxx_model.specs.Facts.Fitted.{IsTypeNumberBelow};
ghost use Rattle.cxx_page.specs.Sheets.{Writes, put};
ghost use Rattle.cxx_reading.specs.Declarators.{no_cv};
ghost use Rattle.cxx_reading.specs.Words.{declared, semicolon_word};
ghost use Rattle.cxx_tree.specs.Arena.{tree_in, AreTreesBelow};
ghost use Rattle.cxx_expr.specs.Names.{static_class};
ghost use Rattle.cxx_phrase_text.specs.Phrases.{named_words};
ghost use Rattle.cxx_form.specs.Books.{graph_of, names_of, trees_of, type_for, IsBook};
ghost use Rattle.cxx_form.specs.Parts.{extern_words, initializer_among, object_parts};
ghost use Rattle.cxx_form.specs.Text.{object_words};

use crate::book::Book;
use crate::initializers::write_among;
use crate::outside::write_declared_outside;
use cxx_model::{FactId, Node, TreeId, TypeId};
use cxx_page::{Page, PlainFault};
use cxx_reading::Role;

// Writes `extern` where a declarator is spelled by it (7.1.1, 7.5).
#[tactic(auto, using(cxx_page::proofs::Put::put_none))]
fn write_extern(page: &mut Page, spelling: &[u8]) -> Result<(), PlainFault>
    ensures { Writes result page.new (put (extern_words spelling.now) page.old) }
{
    if spelling.is_empty() {
        return Ok(());
    }
    page.word(Role::Alone, b"extern")
}

#[tactic(auto, using(cxx_page::proofs::Put::put_append))]
fn write_end(book: &Book<'_>, page: &mut Page, parts: &[TreeId]) -> Result<(), PlainFault>
    requires book { IsBook book.now }
    requires below { AreTreesBelow (length (trees_of book.now)) parts.now }
    ensures { Writes result page.new (put (initializer_among book.now parts.now ++ semicolon_word ∷ []) page.old) }
{
    write_among(book, page, parts)?;
    page.word(Role::Follows, b";")
}

#[tactic(auto, using(cxx_page::proofs::Put::put_append))]
fn write_rest(
    book: &Book<'_>,
    page: &mut Page,
    of: Option<TypeId>,
    parts: &[TreeId],
    number: FactId,
) -> Result<(), PlainFault>
    requires book { IsBook book.now }
    requires of { IsTypeNumberBelow (length (book.now.state.now).types) of }
    requires below { AreTreesBelow (length (trees_of book.now)) parts.now }
    ensures { Writes result page.new (put (declared (names_of book.now).tags no_cv (type_for book.now of) (named_words (names_of book.now).tags (names_of book.now).name_of (static_class (graph_of book.now) number.0) number.0) ++ (initializer_among book.now parts.now ++ semicolon_word ∷ [])) page.old) }
{
    write_declared_outside(book, page, of, number)?;
    write_end(book, page, parts)
}

#[tactic(auto, using(cxx_page::proofs::Put::put_append), unfolding(crate::specs::Parts::object_parts))]
fn write_parts(
    book: &Book<'_>,
    page: &mut Page,
    node: &Node,
    number: FactId,
) -> Result<(), PlainFault>
    requires book { IsBook book.now }
    requires of { IsTypeNumberBelow (length (book.now.state.now).types) node.now.of }
    requires below { AreTreesBelow (length (trees_of book.now)) node.now.children }
    ensures { Writes result page.new (put (object_parts book.now node.now number.0) page.old) }
{
    write_extern(page, node.spelling.as_slice())?;
    write_rest(book, page, node.of, node.children.as_slice(), number)
}

/// Writes the words of a declaration of an object, by the tree of its declarator and its first declaration.
pub(crate) fn write_object(
    book: &Book<'_>,
    page: &mut Page,
    tree: TreeId,
    number: FactId,
) -> Result<(), PlainFault>
    requires book { IsBook book.now }
    requires known { tree.0 < length (trees_of book.now) }
    ensures { Writes result page.new (put (object_words (names_of book.now) (graph_of book.now) (tree_in (trees_of book.now) tree.0) number.0) page.old) }
{
    let node = book.state.node(tree);
    write_parts(book, page, node, number)
}
