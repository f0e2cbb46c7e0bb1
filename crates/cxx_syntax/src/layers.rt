//! What the layers of a declarator make of a type (8.3.1 to 8.3.5), and which of them are refused.

ghost use Rattle.std.specs.Prelude.{◌≡◌, ◌<◌, ◌+◌, ◌-◌, ◌∷◌, drop, length};
ghost use Rattle.cxx_model.specs.Types.Numbers.{type_at};
ghost use Rattle.cxx_model.specs.Types.Trees.{fundamental};
ghost use Rattle.cxx_reading.specs.Declarators as definition;
ghost use Rattle.cxx_reading.specs.Declarators.{declared_type, is_below_one, layer_on, member_layer_on, member_type, parameter_type, refused_in};
ghost use Rattle.cxx_syntax.specs.Layering.{footing_of as footing_of_type, footing_on as footing_on_layer, is_bare_void, refused_by};
ghost use Rattle.cxx_cursor.specs.Views.{AreLayersBelow, IsLayerBelow, layer_in, layers_in};
ghost use Rattle.cxx_tree.specs.Arena.{bound_of};
ghost use Rattle.cxx_tree.specs.Held.{type_of};
ghost use Rattle.cxx_tree.specs.Later.{MakesType};

use cxx_cursor::Layer;
use cxx_model::{Base, Cv, OutOfMemory, SubstitutionText, TypeId, TypeNode};
use cxx_tree::State;
use cxx_types::TypeTable;

/// What of a type decides whether a layer may stand on it.
#[derive(Clone, Copy)]
pub(crate) struct Footing {
    pub is_void: bool,
    pub is_reference: bool,
    pub is_function: bool,
}

fn is_void_base(base: Base) -> bool
    ensures { result ≡ definition.is_void (fundamental base) }
{
    match base {
        Base::Void => true,
        _ => false,
    }
}

fn is_plain_void(types: &TypeTable, of: TypeId) -> bool
    requires { of.0 < length types.now }
    ensures { result ≡ is_bare_void (type_at types.now of.0) }
{
    match types.node(of) {
        TypeNode::Plain(base) => is_void_base(*base),
        _ => false,
    }
}

// Whether a type is `void`, its cv words aside.
fn is_void(types: &TypeTable, of: TypeId) -> bool
    requires { of.0 < length types.now }
    ensures { result ≡ definition.is_void (type_at types.now of.0) }
{
    match types.node(of) {
        TypeNode::Plain(base) => is_void_base(*base),
        TypeNode::Qualified(_, bare) => is_plain_void(types, *bare),
        _ => false,
    }
}

fn is_reference(types: &TypeTable, of: TypeId) -> bool
    requires { of.0 < length types.now }
    ensures { result ≡ definition.is_reference (type_at types.now of.0) }
{
    match types.node(of) {
        TypeNode::Reference(_) => true,
        _ => false,
    }
}

fn is_function(types: &TypeTable, of: TypeId) -> bool
    requires { of.0 < length types.now }
    ensures { result ≡ definition.is_function_type (type_at types.now of.0) }
{
    match types.node(of) {
        TypeNode::Function { .. } => true,
        _ => false,
    }
}

fn footing_of(types: &TypeTable, of: TypeId) -> Footing
    requires { of.0 < length types.now }
    ensures { result ≡ footing_of_type (type_at types.now of.0) }
{
    Footing {
        is_void: is_void(types, of),
        is_reference: is_reference(types, of),
        is_function: is_function(types, of),
    }
}

// What a layer makes, as a footing.
fn footing_on(types: &TypeTable, layer: &Layer) -> Footing
    ensures { result ≡ footing_on_layer (layer_in types.now layer.now) }
{
    let _ = types;
    match layer {
        Layer::Reference => Footing {
            is_void: false,
            is_reference: true,
            is_function: false,
        },
        Layer::Function { .. } => Footing {
            is_void: false,
            is_reference: false,
            is_function: true,
        },
        _ => Footing {
            is_void: false,
            is_reference: false,
            is_function: false,
        },
    }
}

fn has_no_element(bound: Option<u64>) -> bool
    ensures { result ≡ is_below_one (bound_of bound) }
{
    match bound {
        None => false,
        Some(number) => number == 0,
    }
}

fn array_refused(bound: Option<u64>, footing: Footing) -> Option<SubstitutionText>
    ensures { result ≡ refused_by (definition.array_layer (bound_of bound)) footing }
{
    if footing.is_void || (footing.is_reference || footing.is_function) {
        return Some(SubstitutionText::ForbiddenElement);
    }
    if has_no_element(bound) {
        return Some(SubstitutionText::SizeBelowOne);
    }
    None
}

// Why no such type is made of a type (8.3.1, 8.3.2, 8.3.4).
fn refused_on(types: &TypeTable, layer: &Layer, footing: Footing) -> Option<SubstitutionText>
    ensures { result ≡ refused_by (layer_in types.now layer.now) footing }
{
    let _ = types;
    match layer {
        Layer::Pointer(_) => {
            if footing.is_reference {
                Some(SubstitutionText::PointerToReference)
            } else {
                None
            }
        }
        Layer::Reference => {
            if footing.is_reference {
                return Some(SubstitutionText::ReferenceToReference);
            }
            if footing.is_void {
                return Some(SubstitutionText::ReferenceToVoid);
            }
            None
        }
        Layer::Array(bound) => array_refused(*bound, footing),
        Layer::Function { .. } => None,
    }
}

// The layer before the last ones.
#[tactic(auto, using(std::proofs::lemmas::List::drop_more))]
fn before(layers: &[Layer], count: usize) -> &Layer
    requires { count < length layers.now }
    ensures { drop (length layers.now - (count + 1)) layers.now ≡ result.now ∷ drop (length layers.now - count) layers.now }
{
    &layers[layers.len() - 1 - count]
}

// The first layer that is refused, from the type of the specifiers inward.
#[tactic(auto, using(crate::proofs::Layering::goes_on, crate::proofs::Layering::stands, crate::proofs::Layering::stops, crate::proofs::Layering::fits))]
fn refused_in_order(types: &TypeTable, layers: &[Layer], of: TypeId) -> Option<SubstitutionText>
    requires { of.0 < length types.now }
    ensures { result ≡ refused_in (layers_in types.now layers.now) (type_at types.now of.0) }
{
    let mut footing = footing_of(types, of);
    for turn in 0..layers.len() {
        let layer = before(layers, turn);
        match refused_on(types, layer, footing) {
            Some(why) => return Some(why),
            None => footing = footing_on(types, layer),
        }
    }
    None
}

/// Why the type that a declarator declares is not made: its first layer that is refused, from the type of the specifiers
/// inward (8.3.1, 8.3.2, 8.3.4).
pub fn refused(state: &State, layers: &[Layer], of: TypeId) -> Option<SubstitutionText>
    requires { of.0 < length (state.now).types }
    ensures { result ≡ refused_in (layers_in (state.now).types layers.now) (type_of state.now of) }
{
    refused_in_order(state.types(), layers, of)
}

#[tactic(auto, using(crate::proofs::Layering::void_of_none, crate::proofs::Layering::void_of_some))]
fn is_void_under(types: &TypeTable, layers: &[Layer], of: TypeId) -> bool
    requires { of.0 < length types.now }
    ensures { result ≡ definition.is_void (declared_type (layers_in types.now layers.now) (type_at types.now of.0)) }
{
    match layers {
        [] => is_void(types, of),
        [_, ..] => false,
    }
}

/// Whether a declared type is `void`, its cv words aside.
pub fn is_declared_void(state: &State, layers: &[Layer], of: TypeId) -> bool
    requires { of.0 < length (state.now).types }
    ensures { result ≡ definition.is_void (declared_type (layers_in (state.now).types layers.now) (type_of state.now of)) }
{
    is_void_under(state.types(), layers, of)
}

fn no_words() -> Cv
    ensures { result ≡ definition.no_cv }
{
    Cv {
        is_const: false,
        is_volatile: false,
    }
}

// A type with one layer more.
#[tactic(auto, using(crate::proofs::Layering::adjusted_same, cxx_cursor::proofs::Kept::later_trans))]
fn with_layer(state: &mut State, layer: &Layer, of: TypeId) -> Result<TypeId, OutOfMemory>
    requires known { of.0 < length (state.old).types }
    requires below { IsLayerBelow (length (state.old).types) layer.now }
    ensures { MakesType state.old state.new result (layer_on (layer_in (state.old).types layer.now) (type_of state.old of)) }
{
    match layer {
        Layer::Pointer(cv) => {
            let pointer = state.pointer_to(of)?;
            state.with_cv(pointer, *cv)
        }
        Layer::Reference => state.reference_to(of),
        Layer::Array(bound) => state.array_of(of, *bound),
        Layer::Function {
            parameters,
            ellipsis,
            ..
        } => state.function_to(of, parameters.as_slice(), *ellipsis, no_words()),
    }
}

/// The type that a declarator declares, of that of the specifiers (8.3). Its layers are in the order in which they are
/// read from the name outward.
#[tactic(auto, using(crate::proofs::Layering::declared_none, crate::proofs::Layering::layer_below, crate::proofs::Layering::declared_more, crate::proofs::Layering::declared_stops, crate::proofs::Layering::declared_all))]
pub fn declared(state: &mut State, layers: &[Layer], of: TypeId) -> Result<TypeId, OutOfMemory>
    requires known { of.0 < length (state.old).types }
    requires below { AreLayersBelow (length (state.old).types) layers.now }
    ensures { MakesType state.old state.new result (declared_type (layers_in (state.old).types layers.now) (type_of state.old of)) }
{
    let mut made = of;
    for turn in 0..layers.len() {
        match with_layer(state, before(layers, turn), made) {
            Ok(next) => made = next,
            Err(memory) => return Err(memory),
        }
    }
    Ok(made)
}

// The same of a member of a class, where a function has words behind its parameters (9.3.1).
#[tactic(auto, using(crate::proofs::Layering::adjusted_same, cxx_cursor::proofs::Kept::later_trans))]
fn with_member_layer(
    state: &mut State,
    layer: &Layer,
    words: Cv,
    of: TypeId,
) -> Result<TypeId, OutOfMemory>
    requires known { of.0 < length (state.old).types }
    requires below { IsLayerBelow (length (state.old).types) layer.now }
    ensures { MakesType state.old state.new result (member_layer_on words (layer_in (state.old).types layer.now) (type_of state.old of)) }
{
    match layer {
        Layer::Function {
            parameters,
            ellipsis,
            ..
        } => state.function_to(of, parameters.as_slice(), *ellipsis, words),
        other => with_layer(state, other, of),
    }
}

// The type that a declarator of a member declares, given its layer at the name.
#[tactic(auto, using(crate::proofs::Layering::member_below, crate::proofs::Layering::member_made, crate::proofs::Layering::member_stops))]
fn declared_on(
    state: &mut State,
    layer: &Layer,
    others: &[Layer],
    words: Cv,
    of: TypeId,
) -> Result<TypeId, OutOfMemory>
    requires known { of.0 < length (state.old).types }
    requires below { IsLayerBelow (length (state.old).types) layer.now }
    requires all { AreLayersBelow (length (state.old).types) others.now }
    ensures { MakesType state.old state.new result (member_layer_on words (layer_in (state.old).types layer.now) (declared_type (layers_in (state.old).types others.now) (type_of state.old of))) }
{
    match declared(state, others, of) {
        Ok(made) => with_member_layer(state, layer, words, made),
        Err(memory) => Err(memory),
    }
}

/// The type that a declarator of a member declares; a function has the words behind its parameters (8.3.5, 9.3.1).
#[tactic(auto, using(cxx_cursor::proofs::Kept::later_refl))]
pub fn declared_member(
    state: &mut State,
    layers: &[Layer],
    words: Cv,
    of: TypeId,
) -> Result<TypeId, OutOfMemory>
    requires known { of.0 < length (state.old).types }
    requires below { AreLayersBelow (length (state.old).types) layers.now }
    ensures { MakesType state.old state.new result (member_type words (layers_in (state.old).types layers.now) (type_of state.old of)) }
{
    match layers {
        [] => Ok(of),
        [layer, others @ ..] => declared_on(state, layer, others, words, of),
    }
}

/// The type of a parameter with that declarator: an array and a function are what they decay to (8.3.5).
#[tactic(auto, using(cxx_cursor::proofs::Kept::later_trans))]
pub fn declared_parameter(
    state: &mut State,
    layers: &[Layer],
    of: TypeId,
) -> Result<TypeId, OutOfMemory>
    requires known { of.0 < length (state.old).types }
    requires below { AreLayersBelow (length (state.old).types) layers.now }
    ensures { MakesType state.old state.new result (parameter_type (layers_in (state.old).types layers.now) (type_of state.old of)) }
{
    let made = declared(state, layers, of)?;
    state.decay(made)
}
