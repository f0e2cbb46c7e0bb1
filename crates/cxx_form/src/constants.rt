//! The values of constants in a body (5.19), and what its statements are written with.
ghost use Rattle.std.specs.Prelude.{◌≡◌, ◌<◌, [], ◌∷◌, List, length, IfOk};
ghost use Rattle.cxx_constant.specs.Constants as constants;
ghost use Rattle.cxx_constant.specs.Known.{value_at};
ghost use Rattle.cxx_form.specs.Books.{trees_of, value_of};
ghost use Rattle.cxx_form.specs.Definitions.{value_or_zero as value_or_zero_of};
ghost use Rattle.cxx_model.specs.Facts.Declarations.{graph_at};
ghost use Rattle.cxx_page.specs.Sheets.{Writes, put};
ghost use Rattle.cxx_reading.specs.Trees.{CxxTree};
ghost use Rattle.cxx_reading.specs.Words.{value_words};
ghost use Rattle.cxx_tree.specs.Arena.{tree_in};
ghost use Rattle.cxx_tree.specs.Held.{tree, trees};

use crate::book::Book;
use crate::words::write_declared;
use cxx_constant::{ConstantFault, constant};
use cxx_model::{FactId, TreeId, TypeId};
use cxx_page::{Page, PlainFault, write_value};
use cxx_statement_text::StatementNames;
use cxx_tree::State;
use std::alloc::AllocError;

fn value_or_zero(value: Result<i128, ConstantFault>) -> i128
    ensures { (all : List CxxTree) → result ≡ value_or_zero_of (value_at all value) }
{
    match value {
        Ok(value) => value,
        Err(_) => 0,
    }
}

// The value of a constant; without one, 0.
#[tactic(auto, unfolding(cxx_tree::specs::Held::meaning))]
fn value(state: &State, number: TreeId) -> Result<i128, AllocError>
    requires { number.0 < length (trees state.now) }
    ensures { IfOk result (λ value. value ≡ value_or_zero_of (constants.constant (graph_at (state.now).types (state.now).graph) (tree state.now number))) }
{
    match state.layouts() {
        Some(layouts) => Ok(value_or_zero(constant(
            layouts,
            state.graph(),
            state.types(),
            state.trees(),
            number,
        ))),
        None => Err(AllocError),
    }
}

// Writes the value of a constant.
fn write_constant(book: &Book<'_>, page: &mut Page, number: TreeId) -> Result<(), PlainFault>
    requires { number.0 < length (trees_of book.now) }
    ensures { Writes result page.new (put (value_words (value_of book.now (tree_in (trees_of book.now) number.0))) page.old) }
{
    let value = value(book.state, number)?;
    write_value(page, value)
}

impl StatementNames for Book<'_> {
    ghost use Rattle.cxx_form.specs.Books.{value_of};

    ghost value = { value_of };

    fn write_declared(
        &self,
        page: &mut Page,
        of: Option<TypeId>,
        number: FactId,
    ) -> Result<(), PlainFault> {
        write_declared(self, page, of, number)
    }

    fn write_constant(&self, page: &mut Page, number: TreeId) -> Result<(), PlainFault> {
        write_constant(self, page, number)
    }
}
