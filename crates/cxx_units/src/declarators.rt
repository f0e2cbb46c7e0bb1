//! The declarators of a declaration (8).

ghost use Rattle.std.specs.Prelude.{◌≡◌, ◌<◌, ◌++◌, ◌∷◌, [], false, length, true, IfOk};
ghost use Rattle.cxx_reading.specs.Units as definition;
ghost use Rattle.cxx_cursor.specs.Asking.{AnyKnown, itself};
ghost use Rattle.cxx_cursor.specs.Reading.{IsRead};
ghost use Rattle.cxx_cursor.specs.Views.{declarator_of, name_of_option};
ghost use Rattle.cxx_tree.specs.Held.{meaning, tree, trees};
ghost use Rattle.cxx_units.specs.Said.{IsListed, IsListedTurn, IsSaid, is_unfit as is_unfit_by, listed_of, listed_turn, said_of};

use crate::said::{Listed as ListedTrees, Said};
use crate::trees::{faulty, with_tree};
use cxx_cursor::{Cursor, Declarator, NameToken, Turn, is_punct};
use cxx_model::{FaultText, Listed, Place, Stop, TreeId, TreeIdList, punct};
use cxx_syntax::{is_declared_void, refused};
use cxx_tree::State;
use std::alloc::{AllocError, Global};

/// The place of the name of a declarator that has one.
pub fn place_of_name(name: &Option<NameToken>) -> Place
    ensures { result ≡ (definition.token_or (name_of_option name.now)).place }
{
    match name {
        None => Place { line: 0, column: 0 },
        Some(name) => name.place,
    }
}

// Whether no such entity is declared: of a type that there is not, or an object that is `void`.
fn is_unfit(state: &State, said: Said, declarator: &Declarator) -> bool
    requires { IsSaid state.now said }
    ensures { result ≡ is_unfit_by (said_of state.now said) (declarator_of state.now declarator.now) }
{
    let layers = declarator.layers.as_slice();
    refused(state, layers, said.of).is_some()
        || (!said.is_typedef && is_declared_void(state, layers, said.of))
}

/// The declared type is made of what it may be made of, and no object is `void` (8.3, 3.9.1).
#[tactic(auto, using(cxx_cursor::proofs::Kept::later_refl), unfolding(cxx_reading::specs::Units::declared_fits))]
pub fn declared_fits(
    state: &State,
    cursor: &Cursor<'_>,
    said: Said,
    declarator: &Declarator,
) -> Result<(), Stop>
    requires { IsSaid state.now said }
    ensures { IsRead itself AnyKnown state.now state.now cursor.now result (definition.declared_fits (said_of state.now said) (declarator_of state.now declarator.now) (meaning state.now) cursor.now) }
{
    if is_unfit(state, said, declarator) {
        let place = place_of_name(&declarator.name);
        let text = FaultText::OperandsDoNotFit;
        return Err(Stop::Fault(faulty(cursor.alloc(), place, text)?));
    }
    Ok(())
}

// One declarator more.
fn with_declarator(so_far: ListedTrees, number: TreeId) -> Result<ListedTrees, AllocError>
    ensures { IfOk result (λ listed. listed ≡ record { trees = so_far.trees ++ number ∷ []; is_first = false }) }
{
    Ok(ListedTrees {
        trees: with_tree(so_far.trees, number)?,
        is_first: false,
    })
}

/// Behind a declarator.
#[tactic(auto, using(cxx_cursor::proofs::Kept::trees_append, cxx_cursor::proofs::Kept::trees_below_append, cxx_cursor::proofs::Kept::later_refl), unfolding(cxx_reading::specs::Units::declarator_ended))]
pub fn declarator_ended(
    state: &State,
    cursor: &mut Cursor<'_>,
    so_far: ListedTrees,
    number: TreeId,
) -> Result<Turn<ListedTrees, TreeIdList>, Stop>
    requires listed { IsListed state.now so_far }
    requires known { number.0 < length (trees state.now) }
    ensures { IsRead listed_turn IsListedTurn state.now state.now cursor.new result (definition.declarator_ended (listed_of state.now so_far) (tree state.now number) (meaning state.now) cursor.old) }
{
    let _ = state;
    if is_punct(punct::COMMA, cursor.kind()) {
        cursor.advance();
        return Ok(Turn::More(with_declarator(so_far, number)?));
    }
    if is_punct(punct::SEMICOLON, cursor.kind()) {
        cursor.advance();
        return Ok(Turn::Done(with_tree(so_far.trees, number)?));
    }
    Err(Stop::Fault(cursor.refused()?))
}

/// Before the first declarator.
pub fn no_declarators(alloc: Global) -> ListedTrees
    ensures { result ≡ record { trees = []; is_first = true } }
{
    ListedTrees {
        trees: Listed::new(alloc),
        is_first: true,
    }
}
