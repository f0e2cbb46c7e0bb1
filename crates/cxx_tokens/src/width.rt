//! Strings side by side (2.1, 2.13.4).

ghost use Rattle.std.specs.Prelude.{◌≡◌};
ghost use Rattle.cxx_model.specs.Text.Tokens as spec;
ghost use Rattle.cxx_tokens.specs.Pieces.{spelled, width_seen};

use crate::piece::Spelled;
use cxx_model::{TokenKind, TokenReason};

/// The two kinds of strings.
#[derive(Clone, Copy)]
pub enum Width {
    Narrow,
    Wide,
}

/// The width of the string that a text begins with.
fn width_of(text: &[u8]) -> Option<Width>
    ensures { width_seen result ≡ spec.width_of text.now }
{
    match text {
        [b'"', ..] => Some(Width::Narrow),
        [b'L', b'"', ..] => Some(Width::Wide),
        _ => None,
    }
}

pub fn is_text(kind: TokenKind) -> bool
    ensures { result ≡ spec.is_text kind }
{
    match kind {
        TokenKind::Text => true,
        _ => false,
    }
}

/// The width of the string that a later token stands behind, where this token is one.
pub fn width_behind(kind: TokenKind, text: &[u8]) -> Option<Width>
    ensures { width_seen result ≡ spec.width_behind kind text.now }
{
    if is_text(kind) { width_of(text) } else { None }
}

/// Whether a token goes on with the string before it.
pub fn joins(before: Option<Width>, kind: TokenKind) -> bool
    ensures { result ≡ spec.joins (width_seen before) kind }
{
    is_text(kind) && before.is_some()
}

/// Whether a string stands behind one of the other width.
fn is_mixed(before: Option<Width>, now: Option<Width>) -> bool
    ensures { result ≡ spec.is_mixed (width_seen before) (width_seen now) }
{
    match (before, now) {
        (Some(Width::Narrow), Some(Width::Wide)) => true,
        (Some(Width::Wide), Some(Width::Narrow)) => true,
        _ => false,
    }
}

/// The reasons behind `MixedStrings` in their order.
fn comes_after_mixed(reason: TokenReason) -> bool
    ensures { result ≡ spec.comes_after_mixed reason }
{
    match reason {
        TokenReason::FloatingLiteral => true,
        TokenReason::MultiCharacter => true,
        TokenReason::UniversalName => true,
        _ => false,
    }
}

/// Why a piece is no token, behind a string of this width.
fn reason_by(mixed: bool, spells: Spelled) -> Option<TokenReason>
    ensures { result ≡ spec.reason_by mixed (spelled spells) }
{
    match spells {
        Spelled::Blank => None,
        Spelled::Good(kind) if mixed && is_text(kind) => Some(TokenReason::MixedStrings),
        Spelled::Good(_) => None,
        Spelled::Ill(reason) if mixed && comes_after_mixed(reason) => {
            Some(TokenReason::MixedStrings)
        }
        Spelled::Ill(reason) => Some(reason),
    }
}

/// Why the piece at the front of a text is no token, behind a string of this width.
pub fn reason_at(before: Option<Width>, text: &[u8], spells: Spelled) -> Option<TokenReason>
    ensures { result ≡ spec.reason_at (width_seen before) text.now (spelled spells) }
{
    reason_by(is_mixed(before, width_of(text)), spells)
}
