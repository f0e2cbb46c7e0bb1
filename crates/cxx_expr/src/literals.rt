//! Literals (2.13, 5.1).

ghost use Rattle.std.specs.Prelude.{ℕ, zero, ◌≡◌, ◌≤◌, ◌<◌, ◌+◌, length, drop, false};
ghost use Rattle.cxx_literals.specs.Escapes.{letter_at};
ghost use Rattle.cxx_meaning.specs.Conversions.Standard.{only_const};
ghost use Rattle.cxx_model.specs.Text.Spelling.{is_wide as is_wide_text, literal_type as literal_type_of};
ghost use Rattle.cxx_model.specs.Types.Trees.{array_of, fundamental, number_bound, qualified};
ghost use Rattle.cxx_model.specs.declared.base.Base.TheVariants as base;
ghost use Rattle.cxx_reading.specs.Constants as reading;
ghost use Rattle.cxx_tree.specs.Answered.{IsAnswered};
ghost use Rattle.cxx_tree.specs.Held.{meaning, tree, type_of};
ghost use Rattle.cxx_expr.specs.Counting as counting;
ghost use Rattle.cxx_expr.specs.Literals as definition;
ghost use Rattle.cxx_expr.specs.Making.{GrowsOperand, GrowsType, IsTreeKnown, MayGrow};
ghost use Rattle.cxx_expr.specs.Nodes.{IsNodeHeld, node_tree};

use crate::faults::fault;
use crate::nodes::given_over;
use crate::operands::plain_type;
use cxx_literals::first_letter;
use cxx_model::{Base, ConstantKind, Cv, FaultText, Listed, Node, Operand, Stop, TreeId, TypeId};
use cxx_tokens::{literal_type, literal_value};
use cxx_tree::State;
use std::alloc::Global;

// ---- strings (2.13.4)

// What stands behind a character.
fn past_letter(text: &[u8]) -> &[u8]
    requires { 0 < length text.now }
    ensures is { result.now ≡ drop (letter_at text.now).len text.now }
    ensures shorter { length result.now < length text.now }
{
    let found = first_letter(text);
    &text[found.len..]
}

fn is_wide(text: &[u8]) -> bool
    ensures { result ≡ is_wide_text text.now }
{
    match text {
        [] => false,
        [b, ..] => *b == b'L',
    }
}

fn begins_text(text: &[u8]) -> bool
    ensures { result ≡ definition.begins_text text.now }
{
    match text {
        [] => false,
        [b, ..] => *b == b'"',
    }
}

#[tactic(auto, unfolding(crate::specs::Literals::is_text))]
fn is_text(text: &[u8]) -> bool
    ensures { result ≡ definition.is_text text.now }
{
    match text {
        [] => false,
        [b, rest @ ..] => {
            if *b == b'L' {
                begins_text(rest)
            } else {
                *b == b'"'
            }
        }
    }
}

fn letter_base(wide: bool) -> Base
    ensures { result ≡ definition.letter_base wide }
{
    if wide { Base::WideChar } else { Base::Char }
}

fn text_mark(wide: bool) -> ConstantKind
    ensures { result ≡ definition.text_mark wide }
{
    if wide {
        ConstantKind::WideText
    } else {
        ConstantKind::NarrowText
    }
}

// Whether a string is open behind the next byte.
fn opens(is_open: bool, text: &[u8]) -> bool
    ensures { result ≡ counting.opens is_open text.now }
{
    match text {
        [] => is_open,
        [b, ..] => { if is_open { !(*b == b'"') } else { *b == b'"' } }
    }
}

// How many characters begin there.
fn counts(is_open: bool, text: &[u8]) -> u64
    ensures is { result ≡ counting.counts is_open text.now }
    ensures few { result ≤ 1 }
{
    match text {
        [] => 0,
        [b, ..] => {
            if is_open {
                if *b == b'"' { 0 } else { 1 }
            } else {
                0
            }
        }
    }
}

// What stands behind it.
fn past(is_open: bool, text: &[u8]) -> &[u8]
    requires { 0 < length text.now }
    ensures is { result.now ≡ counting.past is_open text.now }
    ensures shorter { length result.now < length text.now }
{
    match text {
        [] => text,
        [b, rest @ ..] => {
            if is_open {
                if *b == b'"' { rest } else { past_letter(text) }
            } else {
                rest
            }
        }
    }
}

// How many characters stand in the strings of a text.
#[tactic(auto, using(crate::proofs::Letters::counted_step), unfolding(crate::specs::Literals::text_length))]
fn text_length(text: &[u8]) -> u64
    ensures is { result ≡ definition.text_length text.now }
    ensures few { result ≤ length text.now }
{
    let mut is_open = false;
    let mut count: u64 = 0;
    let mut rest = text;
    while !rest.is_empty() {
        count += counts(is_open, rest);
        let next = past(is_open, rest);
        is_open = opens(is_open, rest);
        rest = next;
    }
    count
}

fn array_type(state: &mut State, of: TypeId, count: u64) -> Result<TypeId, Stop>
    requires { of.0 < length (state.old).types }
    ensures { GrowsType state.old state.new result (array_of (type_of state.old of) (number_bound count)) }
{
    match state.array_of(of, Some(count)) {
        Ok(of) => Ok(of),
        Err(_) => Err(Stop::OutOfMemory),
    }
}

fn const_type(state: &mut State, base: Base) -> Result<TypeId, Stop>
    ensures { GrowsType state.old state.new result (qualified only_const (fundamental base)) }
{
    let of = plain_type(state, base)?;
    let cv = Cv {
        is_const: true,
        is_volatile: false,
    };
    match state.with_cv(of, cv) {
        Ok(of) => Ok(of),
        Err(_) => Err(Stop::OutOfMemory),
    }
}

// What a string gives.
#[tactic(auto, using(crate::proofs::Kept::later_trans), unfolding(crate::specs::Literals::text_operand))]
fn text_operand(state: &mut State, text: &[u8]) -> Result<Operand, Stop>
    ensures { GrowsOperand state.old state.new result (definition.text_operand text.now) }
{
    let wide = is_wide(text);
    let letter = const_type(state, letter_base(wide))?;
    let of = array_type(state, letter, text_length(text) + 1)?;
    Ok(Operand {
        of,
        lvalue: true,
        constant: text_mark(wide),
    })
}

// ---- other literals

fn is_truth(text: &[u8]) -> bool
    ensures { result ≡ definition.is_truth text.now }
{
    text == b"true".as_slice() || text == b"false".as_slice()
}

fn truth_mark(text: &[u8]) -> ConstantKind
    ensures { result ≡ definition.truth_mark text.now }
{
    if text == b"false".as_slice() {
        ConstantKind::Zero
    } else {
        ConstantKind::No
    }
}

// A literal with the value zero is a null pointer constant (4.10).
fn zero_kind(value: Option<i128>) -> ConstantKind
    ensures { result ≡ reading.zero_kind value }
{
    match value {
        Some(0) => ConstantKind::Zero,
        _ => ConstantKind::No,
    }
}

fn plain_operand(state: &mut State, base: Base, constant: ConstantKind) -> Result<Operand, Stop>
    ensures { GrowsOperand state.old state.new result (record { of = fundamental base; lvalue = false; constant = constant }) }
{
    let of = plain_type(state, base)?;
    Ok(Operand {
        of,
        lvalue: false,
        constant,
    })
}

#[tactic(auto, using(crate::proofs::Kept::later_refl))]
fn number_operand(state: &mut State, text: &[u8]) -> Result<Option<Operand>, Stop>
    ensures { MayGrow state.old state.new result (definition.number_operand text.now (literal_type_of text.now)) }
{
    match literal_type(text) {
        None => Ok(None),
        Some(of) => Ok(Some(plain_operand(state, of, zero_kind(literal_value(text)))?)),
    }
}

// What a literal gives, by its spelling.
#[tactic(auto, unfolding(crate::specs::Literals::operand_of_literal))]
fn operand_of_literal(state: &mut State, text: &[u8]) -> Result<Option<Operand>, Stop>
    ensures { MayGrow state.old state.new result (definition.operand_of_literal text.now) }
{
    if is_text(text) {
        return Ok(Some(text_operand(state, text)?));
    }
    if is_truth(text) {
        return Ok(Some(plain_operand(state, Base::Bool, truth_mark(text))?));
    }
    number_operand(state, text)
}

/// A literal.
#[tactic(auto, using(crate::proofs::Kept::later_trans, crate::proofs::NodeKept::node_later, crate::proofs::NodeKept::node_kept), unfolding(crate::specs::Literals::literal))]
pub fn literal(alloc: Global, state: &mut State, node: Node) -> Result<TreeId, Stop>
    requires { IsNodeHeld state.old node }
    ensures { IsAnswered tree IsTreeKnown state.old state.new result (definition.literal (node_tree state.old node) (meaning state.old)) }
{
    match operand_of_literal(state, node.spelling.as_slice())? {
        None => Err(Stop::Fault(fault(alloc, node.start, FaultText::SyntaxError)?)),
        Some(operand) => given_over(state, node, operand, Listed::new(alloc)),
    }
}
