//! What may stand behind a declarator, and where a declaration would begin (clauses 7, 8).

ghost use Rattle.std.specs.Prelude.{◌≡◌, ◌<◌, length, IfOk};
ghost use Rattle.cxx_model.specs.Stops.{Faulty, fault};
ghost use Rattle.cxx_reading.specs.Declarators.{own_parameters as own_parameters_of};
ghost use Rattle.cxx_reading.specs.Reads.{kind_ahead, place_ahead};
ghost use Rattle.cxx_reading.specs.Tokens as token;
ghost use Rattle.cxx_reading.specs.Units as definition;
ghost use Rattle.cxx_cursor.specs.Asking.{AnyKnown, itself};
ghost use Rattle.cxx_cursor.specs.Reading.{IsRead};
ghost use Rattle.cxx_cursor.specs.Views.{AreTreesHeld, layers_in, name_at, specifiers_of, trees_held};
ghost use Rattle.cxx_tree.specs.Answered.{scope_of_option};
ghost use Rattle.cxx_tree.specs.Held.{meaning, type_of};

use crate::trees::faulty;
use crate::types::{is_const_type, is_made_of_class, is_reference, is_unbounded};
use cxx_cursor::{Cursor, Layer, LayerList, NameToken, Specifiers, is_punct};
use cxx_model::{
    Fault, FaultText, LeftOut, Listed, ScopeId, Stop, TokenKind, TreeIdList, TypeId, keyword, punct,
};
use cxx_names::is_incomplete;
use cxx_reading::StorageWord;
use cxx_tree::State;
use std::alloc::AllocError;

/// What separates declarators, or ends their declaration.
pub fn ends_declarator(kind: TokenKind) -> bool
    ensures { result ≡ definition.ends_declarator kind }
{
    is_punct(punct::COMMA, kind) || is_punct(punct::SEMICOLON, kind)
}

/// Behind the declarator of a synonym (7.1.3).
#[tactic(auto, using(cxx_cursor::proofs::Kept::later_refl), unfolding(cxx_reading::specs::Units::synonym_ended))]
pub fn synonym_ended(state: &State, cursor: &Cursor<'_>) -> Result<(), Stop>
    ensures { IsRead itself AnyKnown state.now state.now cursor.now result (definition.synonym_ended (meaning state.now) cursor.now) }
{
    let _ = state;
    if ends_declarator(cursor.kind()) {
        return Ok(());
    }
    Err(Stop::Fault(cursor.refused()?))
}

/// The scope of the list of parameters that a declarator itself has, where it declares a function (8.3.5).
pub fn own_parameters(state: &State, layers: &LayerList) -> Option<ScopeId>
    ensures { scope_of_option result ≡ own_parameters_of (layers_in (state.now).types layers.now) }
{
    let _ = state;
    match layers.as_slice() {
        [Layer::Function { scope, .. }, ..] => Some(*scope),
        _ => None,
    }
}

/// An object is of a complete type (3.9).
#[tactic(auto, using(cxx_cursor::proofs::Kept::later_refl), unfolding(cxx_reading::specs::Units::complete_object, cxx_tree::specs::Held::meaning))]
pub fn complete_object(
    state: &State,
    cursor: &Cursor<'_>,
    name: &NameToken,
    of: TypeId,
) -> Result<(), Stop>
    requires { of.0 < length (state.now).types }
    ensures { IsRead itself AnyKnown state.now state.now cursor.now result (definition.complete_object (name_at name.now) (type_of state.now of) (meaning state.now) cursor.now) }
{
    if is_incomplete(state.graph(), state.types(), of) {
        let fault = faulty(cursor.alloc(), name.place, FaultText::IncompleteClass)?;
        return Err(Stop::Fault(fault));
    }
    Ok(())
}

/// An object without an initializer that has to have one (8.5).
#[tactic(auto, using(cxx_cursor::proofs::Kept::later_refl), unfolding(cxx_reading::specs::Units::uninitialized, cxx_tree::specs::Held::meaning))]
pub fn uninitialized(
    state: &State,
    cursor: &Cursor<'_>,
    name: &NameToken,
    of: TypeId,
) -> Result<TreeIdList, Stop>
    requires { of.0 < length (state.now).types }
    ensures { IsRead trees_held AreTreesHeld state.now state.now cursor.now result (definition.uninitialized (name_at name.now) (type_of state.now of) (meaning state.now) cursor.now) }
{
    let types = state.types();
    if is_unbounded(types, of) || is_incomplete(state.graph(), types, of) {
        let fault = faulty(cursor.alloc(), name.place, FaultText::IncompleteClass)?;
        return Err(Stop::Fault(fault));
    }
    if is_made_of_class(types, of) {
        let fault = faulty(cursor.alloc(), name.place, FaultText::NotBuilt)?;
        return Err(Stop::Fault(fault));
    }
    if is_reference(types, of) || is_const_type(types, of) {
        let fault = faulty(cursor.alloc(), name.place, FaultText::NoConversion)?;
        return Err(Stop::Fault(fault));
    }
    Ok(Listed::new(cursor.alloc()))
}

fn is_some_storage(word: Option<StorageWord>) -> bool
    ensures { result ≡ definition.is_some_storage word }
{
    word.is_some()
}

/// Without a declarator a declaration has to define an enumeration or to name a class (clause 7).
#[tactic(auto, using(cxx_cursor::proofs::Kept::later_refl), unfolding(cxx_reading::specs::Units::nothing_declared))]
pub fn nothing_declared(
    state: &State,
    cursor: &mut Cursor<'_>,
    specifiers: &Specifiers,
) -> Result<TreeIdList, Stop>
    ensures { IsRead trees_held AreTreesHeld state.now state.now cursor.new result (definition.nothing_declared (specifiers_of state.now specifiers.now) (meaning state.now) cursor.old) }
{
    let _ = state;
    if specifiers.stands_alone && !is_some_storage(specifiers.storage) {
        cursor.advance();
        return Ok(Listed::new(cursor.alloc()));
    }
    Err(Stop::Fault(cursor.refused()?))
}

fn begins_another(number: u8) -> bool
    ensures { result ≡ definition.begins_another number }
{
    number == keyword::ASM
        || (number == keyword::EXPORT
            || (number == keyword::NAMESPACE
                || (number == keyword::USING || number == keyword::TEMPLATE)))
}

/// A keyword with which another declaration begins (7.3, 7.4, 14).
pub fn another_ahead(kind: TokenKind) -> bool
    ensures { result ≡ definition.another_ahead kind }
{
    match kind {
        TokenKind::Keyword(number) => begins_another(number),
        _ => false,
    }
}

fn begins_unbuilt(number: u8) -> bool
    ensures { result ≡ token.begins_unbuilt number }
{
    number == keyword::NAMESPACE
        || (number == keyword::USING
            || (number == keyword::TEMPLATE
                || (number == keyword::CLASS
                    || (number == keyword::STRUCT
                        || (number == keyword::UNION
                            || (number == keyword::TYPENAME || number == keyword::OPERATOR))))))
}

fn form_of_keyword(number: u8) -> FaultText
    ensures { result ≡ token.form_of_keyword number }
{
    if number == keyword::ASM {
        return FaultText::LeftOut(LeftOut::Asm);
    }
    if number == keyword::EXPORT {
        return FaultText::LeftOut(LeftOut::Export);
    }
    if begins_unbuilt(number) {
        return FaultText::NotBuilt;
    }
    FaultText::SyntaxError
}

fn form_of_kind(kind: TokenKind) -> FaultText
    ensures { result ≡ token.form_of_kind kind }
{
    match kind {
        TokenKind::Keyword(number) => form_of_keyword(number),
        _ => FaultText::SyntaxError,
    }
}

/// What stands where a declaration would begin (clause 7).
pub fn no_declaration(cursor: &Cursor<'_>) -> Result<Box<Fault>, AllocError>
    ensures { IfOk result (λ at. Faulty at.value ≡ fault (place_ahead cursor.now) (token.form_of_kind (kind_ahead cursor.now))) }
{
    cursor.faulty(form_of_kind(cursor.kind()))
}
