//! The types and values of literals (2.13.1, 2.13.2).

ghost use Rattle.std.specs.Prelude.{◌≡◌, ◌<◌, ◌*◌, ◌^◌, pos, if◌then◌else◌, ℕ, List, Some, false, IsSome};
ghost use Rattle.std.specs.List.{list_any};
ghost use Rattle.cxx_model.specs.declared.token.TokenKind.TheVariants.{Integer, Character};
ghost use Rattle.cxx_model.specs.Text.Spelling as spec;

use crate::front::spelling_of;
use crate::numbers::type_of;
use crate::piece::Spelled;
use cxx_literals::{Letter, first_letter, integer_parts};
use cxx_model::{Base, TokenKind};

fn is_wide(text: &[u8]) -> bool
    ensures { result ≡ spec.is_wide text.now }
{
    match text {
        [] => false,
        [b, ..] => *b == b'L',
    }
}

/// The type of an integer or character literal by its spelling (2.13.1, 2.13.2).
#[tactic(auto, unfolding(cxx_model::specs::Text::Spelling::literal_type))]
pub fn literal_type(spelling: &[u8]) -> Option<Base>
    ensures { result ≡ spec.literal_type spelling.now }
{
    match spelling_of(spelling) {
        Some(Spelled::Good(TokenKind::Integer)) => type_of(spelling),
        Some(Spelled::Good(TokenKind::Character)) if is_wide(spelling) => Some(Base::WideChar),
        Some(Spelled::Good(TokenKind::Character)) => Some(Base::Char),
        _ => None,
    }
}

/// The number that so many bits mean with a sign: those from `half` on are negative.
fn signed_value(half: u32, value: u128) -> i128
    requires { value < 2 * half }
    ensures { result ≡ spec.signed_value half value }
{
    let half = u128::from(half);
    if value < half {
        value as i128
    } else {
        value as i128 - 2 * half as i128
    }
}

fn half_of(wide: bool) -> u32
    ensures { result ≡ (if wide then 2147483648 else 128) }
{
    if wide { 2_147_483_648 } else { 128 }
}

/// The value of a character by what stands between its quotes.
fn value_of_body(wide: bool, body: &[u8]) -> Option<i128>
    requires { list_any (spec.is_bad_letter wide) (spec.letters 0 body.now) ≡ false }
    ensures { result ≡ spec.value_of_letters wide (spec.letters 0 body.now) }
{
    if body.is_empty() {
        return None;
    }
    match first_letter(body).is {
        Letter::Value(value) => Some(signed_value(half_of(wide), value)),
        _ => None,
    }
}

fn body_of(rest: &[u8]) -> &[u8]
    ensures { result.now ≡ spec.body_of rest.now }
{
    if rest.is_empty() {
        rest
    } else {
        &rest[..rest.len() - 1]
    }
}

/// What stands between the quotes of a literal.
fn literal_body(text: &[u8]) -> &[u8]
    ensures { result.now ≡ spec.literal_body text.now }
{
    match text {
        [] => text,
        [b'L', _, rest @ ..] => body_of(rest),
        [_, rest @ ..] => body_of(rest),
    }
}

fn signed(value: u128) -> Option<i128>
    requires { value < 2 ^ 127 }
    ensures { result ≡ Some (pos value) }
{
    Some(value as i128)
}

/// The value of an integer literal that some type holds.
fn integer_value(text: &[u8]) -> Option<i128>
    requires { spec.spelling_of false text.now ≡ Some (spec.Good Integer) }
    ensures { result ≡ spec.value_of_parts (spec.integer_parts text.now) }
{
    match integer_parts(text) {
        Some(parts) => signed(parts.value),
        None => None,
    }
}

/// The value of a character literal.
fn character_value(text: &[u8]) -> Option<i128>
    requires { spec.spelling_of false text.now ≡ Some (spec.Good Character) }
    ensures { result ≡ spec.value_of_letters (spec.is_wide text.now) (spec.letters 0 (spec.literal_body text.now)) }
{
    value_of_body(is_wide(text), literal_body(text))
}

/// The value of an integer or character literal by its spelling (2.13.1, 2.13.2).
#[tactic(auto, unfolding(cxx_model::specs::Text::Spelling::literal_value))]
pub fn literal_value(spelling: &[u8]) -> Option<i128>
    ensures { result ≡ spec.literal_value spelling.now }
{
    match spelling_of(spelling) {
        Some(Spelled::Good(TokenKind::Integer)) => integer_value(spelling),
        Some(Spelled::Good(TokenKind::Character)) => character_value(spelling),
        _ => None,
    }
}

/// Each text that spells an integer or a character has a value and a type.
pub fn each_literal_has_a_value()
    ensures integer { (text : List ℕ)
        → spec.spelling_of false text ≡ Some (spec.Good Integer)
        → IsSome (spec.literal_value text) × IsSome (spec.literal_type text) }
    ensures character { (text : List ℕ)
        → spec.spelling_of false text ≡ Some (spec.Good Character)
        → IsSome (spec.literal_value text) × IsSome (spec.literal_type text) }
{}
