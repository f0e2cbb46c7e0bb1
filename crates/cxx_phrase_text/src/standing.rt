//! How expressions stand as parts of others.
ghost use Rattle.std.specs.Prelude.{◌≡◌, ◌<◌, ◌-◌, ℕ, List, length, IfSome};
ghost use Rattle.std.specs.List.{slice_get};
ghost use Rattle.cxx_model.specs.Facts.Declarations.{type_of_option};
ghost use Rattle.cxx_model.specs.Facts.Fitted.{IsTypeNumberBelow};
ghost use Rattle.cxx_model.specs.Types.Numbers.{type_at};
ghost use Rattle.cxx_reading.specs.Plain.{target_or as target_or_of, type_or_void};
ghost use Rattle.cxx_reading.specs.Trees.{in_turn};
ghost use Rattle.cxx_reading.specs.Words.{Tags};
ghost use Rattle.cxx_tree.specs.Arena.{label_at, number_of_option, operand_of_option, trees_in, AreTreesBelow};
ghost use Rattle.cxx_tree.specs.Held.{trees};
ghost use Rattle.cxx_phrase_text.specs.Phrases as phrases;
ghost use Rattle.cxx_phrase_text.specs.Written.{phrase_at, phrase_in, phrases_at};

use crate::form::{Form, Standing, form_of};
use crate::words::spells_comma;
use cxx_model::{Base, ConstantKind, FactId, Node, Operand, TreeId, TypeId, TypeNode};
use cxx_tree::State;
use cxx_types::TypeTable;

fn is_character_base(base: Base) -> bool
    ensures { result ≡ phrases.is_character_base base }
{
    match base {
        Base::Char | Base::SignedChar | Base::UnsignedChar | Base::WideChar => true,
        _ => false,
    }
}

fn is_plain_character(types: &TypeTable, of: TypeId) -> bool
    requires { of.0 < length types.now }
    ensures { result ≡ phrases.is_plain_character (type_at types.now of.0) }
{
    match types.node(of) {
        TypeNode::Plain(base) => is_character_base(*base),
        _ => false,
    }
}

// Whether a type is one of characters, cv words aside.
fn is_character(types: &TypeTable, of: TypeId) -> bool
    requires { of.0 < length types.now }
    ensures { result ≡ phrases.is_character (type_at types.now of.0) }
{
    match types.node(of) {
        TypeNode::Plain(base) => is_character_base(*base),
        TypeNode::Qualified(_, of) => is_plain_character(types, *of),
        _ => false,
    }
}

// Whether braces are written round the parts of an array (8.5.1, 8.5.2).
fn array_has_braces(types: &TypeTable, of: TypeId, is_one_string: bool) -> bool
    requires { of.0 < length types.now }
    ensures { result ≡ phrases.has_braces (type_at types.now of.0) is_one_string }
{
    match types.node(of) {
        TypeNode::Array(element, _) => !(is_one_string && is_character(types, *element)),
        _ => false,
    }
}

fn has_braces(state: &State, of: Option<TypeId>, is_one_string: bool) -> bool
    requires { IsTypeNumberBelow (length (state.now).types) of }
    ensures { result ≡ phrases.has_braces (type_or_void (type_of_option (state.now).types of)) is_one_string }
{
    match of {
        Some(of) => array_has_braces(state.types(), of, is_one_string),
        None => false,
    }
}

fn is_string_kind(kind: ConstantKind) -> bool
    ensures { result ≡ phrases.is_string_kind kind }
{
    match kind {
        ConstantKind::NarrowText | ConstantKind::WideText => true,
        _ => false,
    }
}

fn is_string(state: &State, operand: Option<Operand>) -> bool
    ensures { result ≡ phrases.is_string (operand_of_option (state.now).types operand) }
{
    let _ = state;
    match operand {
        Some(operand) => is_string_kind(operand.constant),
        None => false,
    }
}

// Whether some trees are one string (2.13.4).
#[tactic(auto, using(crate::proofs::Standings::several))]
fn is_one_string(state: &State, parts: &[TreeId], end: TreeId) -> bool
    requires known { end.0 < length (trees state.now) }
    requires earlier { AreTreesBelow end.0 parts.now }
    ensures { result ≡ phrases.is_one_string (in_turn (trees_in (trees state.now) parts.now)) }
{
    match parts {
        [part] => is_string(state, state.node(*part).operand),
        _ => false,
    }
}

fn spells_brace(spelling: &[u8]) -> bool
    ensures { result ≡ phrases.spells_brace spelling.now }
{
    match spelling {
        [b] => *b == b'{',
        _ => false,
    }
}

// Whether a node is a list in braces that are written.
pub(crate) fn is_braced(state: &State, node: &Node, number: TreeId) -> bool
    requires known { number.0 < length (trees state.now) }
    requires below { IsTypeNumberBelow (length (state.now).types) node.now.of }
    requires earlier { AreTreesBelow number.0 node.now.children }
    ensures { result ≡ phrases.is_braced (label_at (state.now).types node.now) (phrases.is_one_string (in_turn (trees_in (trees state.now) node.now.children))) }
{
    let is_one_string = is_one_string(state, node.children.as_slice(), number);
    spells_brace(node.spelling.as_slice()) && has_braces(state, node.of, is_one_string)
}

fn find(parts: &[TreeId], index: usize) -> Option<TreeId>
    ensures { result ≡ slice_get parts.now index }
{
    parts.get(index).copied()
}

/// The part with a number, from 0, where there is one.
pub(crate) fn child(parts: &[TreeId], index: usize) -> Option<TreeId>
    ensures is { result ≡ slice_get parts.now index }
    ensures below { (count : ℕ) → AreTreesBelow count parts.now → IfSome result (λ number. number.0 < count) }
{
    find(parts, index)
}

/// The last part, where there is one.
pub(crate) fn last_child(parts: &[TreeId]) -> Option<TreeId>
    ensures is { result ≡ slice_get parts.now (length parts.now - 1) }
    ensures below { (count : ℕ) → AreTreesBelow count parts.now → IfSome result (λ number. number.0 < count) }
{
    child(parts, parts.len().saturating_sub(1))
}

/// The declaration that a name means.
pub(crate) fn target_or(target: Option<FactId>) -> FactId
    ensures { result.0 ≡ target_or_of (number_of_option target) }
{
    match target {
        Some(target) => target,
        None => FactId(0),
    }
}

// How an operator stands that has operands on both sides.
fn infix_standing(spelling: &[u8]) -> Standing
    ensures { result ≡ phrases.infix_standing spelling.now }
{
    if spells_comma(spelling) {
        Standing::Comma
    } else {
        Standing::Operation
    }
}

// How a tree stands, given its first part.
#[cycle(standing)]
fn first_standing(state: &State, parts: &[TreeId], end: TreeId) -> Standing
    requires known { end.0 < length (trees state.now) }
    requires earlier { AreTreesBelow end.0 parts.now }
    ensures { (tags : Tags) (name : ℕ → List ℕ) → result ≡ (phrases.part (phrases_at (record { held = state.now; tags = tags; name = name }) parts.now) 0).standing }
{
    match child(parts, 0) {
        Some(number) => standing(state, number),
        None => Standing::Primary,
    }
}

// How a node of a form stands.
#[cycle(standing)]
fn form_standing(state: &State, form: Form, node: &Node, number: TreeId) -> Standing
    requires known { number.0 < length (trees state.now) }
    requires below { IsTypeNumberBelow (length (state.now).types) node.now.of }
    requires earlier { AreTreesBelow number.0 node.now.children }
    ensures { (tags : Tags) (name : ℕ → List ℕ) → result ≡ (phrase_in (record { held = state.now; tags = tags; name = name }) form node.now).standing }
{
    match form {
        Form::Parenthesis => first_standing(state, node.children.as_slice(), number),
        Form::Initial => initial_standing(state, node, number),
        Form::Postfix | Form::Prefix | Form::Conditional => Standing::Operation,
        Form::Infix => infix_standing(node.spelling.as_slice()),
        _ => Standing::Primary,
    }
}

// How an initializer stands.
#[cycle(standing)]
fn initial_standing(state: &State, node: &Node, number: TreeId) -> Standing
    requires known { number.0 < length (trees state.now) }
    requires below { IsTypeNumberBelow (length (state.now).types) node.now.of }
    requires earlier { AreTreesBelow number.0 node.now.children }
    ensures { (tags : Tags) (name : ℕ → List ℕ) → result ≡ (phrase_in (record { held = state.now; tags = tags; name = name }) Form.Initial node.now).standing }
{
    if is_braced(state, node, number) {
        return Standing::Primary;
    }
    first_standing(state, node.children.as_slice(), number)
}

/// How the expression with a number stands as a part of another.
#[cycle(standing)]
pub(crate) fn standing(state: &State, number: TreeId) -> Standing
    requires { number.0 < length (trees state.now) }
    ensures { (tags : Tags) (name : ℕ → List ℕ) → result ≡ (phrase_at (record { held = state.now; tags = tags; name = name }) number).standing }
{
    let node = state.node(number);
    form_standing(state, form_of(node.production), node, number)
}
