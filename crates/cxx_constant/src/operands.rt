//! What an expression is as a part of a constant expression, by its production and its operands.
ghost use Rattle.std.specs.Prelude.{◌≡◌, ◌<◌, length, map, position, bytes_eq};
ghost use Rattle.cxx_model.specs.Facts.Declarations.{type_of_option};
ghost use Rattle.cxx_model.specs.Facts.Fitted.{IsTypeNumberBelow};
ghost use Rattle.cxx_model.specs.Text.Spelling.{alternatives, number_beside as number_beside_of, number_in as number_in_of, operators};
ghost use Rattle.cxx_computed.specs.Formulas.{is_integral as is_integral_base};
ghost use Rattle.cxx_standard.specs.Views.{kind_at};
ghost use Rattle.cxx_tree.specs.Arena.{operand_of_option, IsOperandBelow};
ghost use Rattle.cxx_constant.specs.Forms as definition;
ghost use Rattle.cxx_constant.specs.Known.{IsKnown};

use crate::known::Known;
use cxx_model::{Base, Operand, TypeId, punct};
use cxx_standard::{TypeKind, kind_of};
use cxx_tokens::literal_value;

// ---- spellings

fn number_in(table: &[&[u8]], text: &[u8]) -> Option<usize>
    ensures { result ≡ position (λ entry. bytes_eq text.now entry.now) table.now }
{
    table.iter().position(|entry| text == *entry)
}

fn number_beside(table: &[(&[u8], u8)], text: &[u8]) -> Option<u8>
    ensures { result ≡ number_beside_of (map (λ entry. (entry.0.now, entry.1)) table.now) text.now }
{
    for entry in table {
        if text == entry.0 {
            return Some(entry.1);
        }
    }
    None
}

#[tactic(auto, unfolding(cxx_model::specs::Text::Spelling::operators))]
fn primary_number(text: &[u8]) -> Option<u8>
    ensures { result ≡ number_in_of operators text.now }
{
    match number_in(&punct::SPELLINGS, text) {
        Some(number) => Some(number as u8),
        None => None,
    }
}

#[tactic(auto, unfolding(cxx_model::specs::Text::Spelling::alternatives))]
fn word_number(text: &[u8]) -> Option<u8>
    ensures { result ≡ number_beside_of alternatives text.now }
{
    number_beside(&punct::ALTERNATIVES, text)
}

/// The number of an operator, by its spelling or by the word that is another one (2.5, 2.12).
#[tactic(auto, unfolding(crate::specs::Forms::operator_number))]
pub(crate) fn operator_number(text: &[u8]) -> Option<u8>
    ensures { result ≡ definition.operator_number text.now }
{
    match primary_number(text) {
        Some(number) => Some(number),
        None => word_number(text),
    }
}

/// The value of a literal; `true` is one and `false` is zero (2.13).
#[tactic(auto, unfolding(crate::specs::Forms::value_of_literal))]
pub(crate) fn value_of_literal(spelling: &[u8]) -> Option<i128>
    ensures { result ≡ definition.value_of_literal spelling.now }
{
    if spelling == b"true".as_slice() {
        Some(1)
    } else if spelling == b"false".as_slice() {
        Some(0)
    } else {
        literal_value(spelling)
    }
}

// ---- types

/// The type of an expression, as clause 4 tells types apart.
pub(crate) fn kind_of_operand(known: &Known<'_>, operand: Option<Operand>) -> TypeKind
    requires known { IsKnown known.now }
    requires below { IsOperandBelow (length known.now.types.now) operand }
    ensures { kind_at known.now.types.now result ≡ definition.kind_of_operand (operand_of_option known.now.types.now operand) }
{
    match operand {
        None => TypeKind::Void,
        Some(operand) => kind_of(known.graph, known.types, operand.of),
    }
}

/// The type to which a cast converts.
pub(crate) fn kind_of_target(known: &Known<'_>, of: Option<TypeId>) -> TypeKind
    requires known { IsKnown known.now }
    requires below { IsTypeNumberBelow (length known.now.types.now) of }
    ensures { kind_at known.now.types.now result ≡ definition.kind_of_target (type_of_option known.now.types.now of) }
{
    match of {
        None => TypeKind::Void,
        Some(of) => kind_of(known.graph, known.types, of),
    }
}

/// 3.9.1
pub(crate) fn is_integral(of: Base) -> bool
    ensures { result ≡ is_integral_base of }
{
    match of {
        Base::Void | Base::Float | Base::Double | Base::LongDouble => false,
        _ => true,
    }
}
