//! Types where they are named by themselves (8.1), over the readers of declarators.

ghost use Rattle.std.specs.Prelude.{◌≡◌, ◌<◌, length, IfOk};
ghost use Rattle.cxx_model.specs.Stops.{Faulty, fault};
ghost use Rattle.cxx_phrases.specs.Knot as definition;
ghost use Rattle.cxx_phrases.specs.Making.{GrowsType};
ghost use Rattle.cxx_phrases.specs.Views.{IsWritten, written_of};
ghost use Rattle.cxx_reading.specs.Declarators.{declared_type};
ghost use Rattle.cxx_reading.specs.Shapes.{a_type};
ghost use Rattle.cxx_reading.specs.Syntax.{specified_type};
ghost use Rattle.cxx_cursor.specs.Asking.{AnyKnown, IsTypeKnown, itself};
ghost use Rattle.cxx_cursor.specs.Outlines.{fits_of, outline_of};
ghost use Rattle.cxx_cursor.specs.Reading.{IsRead};
ghost use Rattle.cxx_cursor.specs.Views.{AreSpecifiers, IsDeclarator, declarator_of, specifiers_of};
ghost use Rattle.cxx_tree.specs.Held.{meaning, type_of};

use cxx_cursor::{Cursor, Declarator, Fits, Outline, Run, Specifiers, is_punct, joined};
use cxx_model::{Fault, FaultText, Listed, Place, Stop, TreeIdList, TypeId, punct};
use cxx_phrases::TypeShape;
use cxx_reading::{Naming, SpecifierPlace};
use cxx_syntax::{Kinds, Nested, Reader, declared, refused, specified};
use cxx_tree::State;
use std::alloc::{AllocError, Global};

fn faulty(alloc: Global, place: Place, text: FaultText) -> Result<Box<Fault>, AllocError>
    ensures { IfOk result (λ at. Faulty at.value ≡ fault place text) }
{
    Ok(Box::new(
        alloc,
        Fault {
            place,
            text,
            evidence: Listed::new(alloc),
        },
    )?)
}

// The type that specifiers name.
fn specified_here(state: &mut State, specifiers: &Specifiers) -> Result<TypeId, Stop>
    requires { AreSpecifiers state.old specifiers.now }
    ensures { GrowsType state.old state.new result (specified_type (specifiers_of state.old specifiers.now)) }
{
    match specified(state, specifiers) {
        Ok(of) => Ok(of),
        Err(_) => Err(Stop::OutOfMemory),
    }
}

fn declared_here(state: &mut State, declarator: &Declarator, of: TypeId) -> Result<TypeId, Stop>
    requires known { of.0 < length (state.old).types }
    requires declarator { IsDeclarator state.old declarator.now }
    ensures { GrowsType state.old state.new result (declared_type (declarator_of state.old declarator.now).layers (type_of state.old of)) }
{
    match declared(state, declarator.layers.as_slice(), of) {
        Ok(of) => Ok(of),
        Err(_) => Err(Stop::OutOfMemory),
    }
}

// A type that there may be, of that of the specifiers.
#[tactic(auto, using(cxx_cursor::proofs::Kept::later_trans, cxx_cursor::proofs::Kept::later_refl), unfolding(cxx_phrases::specs::Knot::type_declared))]
fn type_declared(
    state: &mut State,
    cursor: &Cursor<'_>,
    of: TypeId,
    declarator: &Declarator,
) -> Result<TypeId, Stop>
    requires known { of.0 < length (state.old).types }
    requires declarator { IsDeclarator state.old declarator.now }
    ensures { IsRead type_of IsTypeKnown state.old state.new cursor.now result (definition.type_declared (type_of state.old of) (declarator_of state.old declarator.now) (meaning state.old) cursor.now) }
{
    if refused(state, declarator.layers.as_slice(), of).is_some() {
        let text = FaultText::OperandsDoNotFit;
        return Err(Stop::Fault(faulty(cursor.alloc(), cursor.last(), text)?));
    }
    declared_here(state, declarator, of)
}

// The type of specifiers and a declarator.
#[tactic(auto, using(cxx_phrases::proofs::Carried::type_carried, cxx_cursor::proofs::Kept::layers_later, cxx_cursor::proofs::Kept::trees_later))]
fn type_made(
    state: &mut State,
    cursor: &Cursor<'_>,
    specifiers: &Specifiers,
    declarator: &Declarator,
) -> Result<TypeId, Stop>
    requires specifiers { AreSpecifiers state.old specifiers.now }
    requires declarator { IsDeclarator state.old declarator.now }
    ensures { IsRead type_of IsTypeKnown state.old state.new cursor.now result (definition.type_declared (specified_type (specifiers_of state.old specifiers.now)) (declarator_of state.old declarator.now) (meaning state.old) cursor.now) }
{
    let of = specified_here(state, specifiers)?;
    type_declared(state, cursor, of, declarator)
}

#[tactic(auto, using(cxx_cursor::proofs::Kept::trees_kept, cxx_cursor::proofs::Kept::trees_later, cxx_cursor::proofs::Kept::trees_append, cxx_cursor::proofs::Kept::trees_below_append, cxx_cursor::proofs::Kept::later_trans, cxx_cursor::proofs::Kept::later_refl), unfolding(cxx_phrases::specs::Knot::type_id_fits))]
fn type_id_fits(
    state: &mut State,
    cursor: &Cursor<'_>,
    specifiers: Specifiers,
    declarator: Declarator,
) -> Result<(TypeId, TreeIdList), Stop>
    requires specifiers { AreSpecifiers state.old specifiers }
    requires declarator { IsDeclarator state.old declarator }
    ensures { IsRead written_of IsWritten state.old state.new cursor.now result (definition.type_id_fits (specifiers_of state.old specifiers) (declarator_of state.old declarator) (meaning state.old) cursor.now) }
{
    let of = type_made(state, cursor, &specifiers, &declarator)?;
    Ok((of, joined(specifiers.parts, declarator.parts)?))
}

/// A type, with the trees of what it is written of (8.1).
#[tactic(auto, using(cxx_cursor::proofs::Kept::trees_kept, cxx_cursor::proofs::Kept::trees_later, cxx_cursor::proofs::Kept::named_kept, cxx_cursor::proofs::Kept::named_later, cxx_cursor::proofs::Kept::later_trans, cxx_cursor::proofs::Kept::later_refl), unfolding(cxx_phrases::specs::Knot::type_id_at))]
pub fn type_id_at<K: Kinds, N: Nested>(
    reader: &Reader<'_, K, N>,
    state: &mut State,
    cursor: &mut Cursor<'_>,
) -> Result<(TypeId, TreeIdList), Stop>
    requires ready { K.is_ready reader.now.kinds.now }
    requires open { N.is_open reader.now.nested.now }
    ensures { IsRead written_of IsWritten state.old state.new cursor.new result (definition.type_id_at (K.asks reader.now.kinds.now reader.now.room) (N.inner reader.now.nested.now) (meaning state.old) cursor.old) }
{
    let specifiers = reader.specifiers_at(state, cursor, SpecifierPlace::TypeId)?;
    let declarator = reader.declarator_at(state, cursor, Naming::Never)?;
    type_id_fits(state, cursor, specifiers, declarator)
}

// Behind a declarator that fits the end of the bracket has to stand.
#[tactic(auto, using(cxx_cursor::proofs::Kept::later_refl))]
fn closed_by(state: &State, cursor: &mut Cursor<'_>, fits: Fits) -> Result<TypeShape, Stop>
    ensures { IsRead itself AnyKnown state.now state.now cursor.new result (definition.closed_by (fits_of fits) (meaning state.now) cursor.old) }
{
    let _ = state;
    match fits {
        Fits::Fits => {
            if is_punct(punct::RIGHT_PARENTHESIS, cursor.kind()) {
                cursor.advance();
                return Ok(TypeShape::Closed);
            }
            Ok(TypeShape::NoType)
        }
        Fits::FitsNot => Ok(TypeShape::NoType),
    }
}

// Behind the first part of a declarator, which has no name in a type.
#[tactic(auto, using(cxx_cursor::proofs::Kept::later_trans, cxx_cursor::proofs::Kept::later_refl))]
fn abstract_by<K: Kinds, N: Nested>(
    reader: &Reader<'_, K, N>,
    state: &mut State,
    cursor: &mut Cursor<'_>,
    outline: Outline,
) -> Result<TypeShape, Stop>
    requires open { N.is_open reader.now.nested.now }
    ensures { IsRead itself AnyKnown state.old state.new cursor.new result (definition.abstract_by (N.inner reader.now.nested.now) (outline_of outline) (meaning state.old) cursor.old) }
{
    if outline.is_named {
        return Ok(TypeShape::NoType);
    }
    let fits = reader.suffixes_passed(state, cursor, outline)?;
    closed_by(state, cursor, fits)
}

// Behind a type a declarator without a name stands.
#[tactic(auto, using(cxx_cursor::proofs::Kept::later_trans, cxx_cursor::proofs::Kept::later_refl))]
fn abstract_at<K: Kinds, N: Nested>(
    reader: &Reader<'_, K, N>,
    state: &mut State,
    cursor: &mut Cursor<'_>,
) -> Result<TypeShape, Stop>
    requires ready { K.is_ready reader.now.kinds.now }
    requires open { N.is_open reader.now.nested.now }
    ensures { IsRead itself AnyKnown state.old state.new cursor.new result (definition.shape_by (K.asks reader.now.kinds.now reader.now.room) (N.inner reader.now.nested.now) a_type (meaning state.old) cursor.old) }
{
    let outline = reader.prefix_passed(state, cursor)?;
    abstract_by(reader, state, cursor, outline)
}

/// Whether a type stands ahead up to the end of a bracket, behind which the cursor stands then (8.2).
#[tactic(auto, using(cxx_cursor::proofs::Kept::later_trans, cxx_cursor::proofs::Kept::later_refl), unfolding(cxx_phrases::specs::Knot::type_passed_at))]
pub fn type_passed_at<K: Kinds, N: Nested>(
    reader: &Reader<'_, K, N>,
    state: &mut State,
    cursor: &mut Cursor<'_>,
) -> Result<TypeShape, Stop>
    requires ready { K.is_ready reader.now.kinds.now }
    requires open { N.is_open reader.now.nested.now }
    ensures { IsRead itself AnyKnown state.old state.new cursor.new result (definition.type_passed_at (K.asks reader.now.kinds.now reader.now.room) (N.inner reader.now.nested.now) (meaning state.old) cursor.old) }
{
    match reader.run_passed(state, cursor)? {
        Run::NoType => Ok(TypeShape::NoType),
        Run::AType => abstract_at(reader, state, cursor),
        Run::Surely => Ok(TypeShape::Surely),
    }
}
