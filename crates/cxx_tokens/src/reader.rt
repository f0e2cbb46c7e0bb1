//! What of a text is still to be read, and what the bytes before tell.

ghost use Rattle.std.specs.Prelude.{◌≡◌, ◌≤◌, ◌<◌, ◌+◌, ◌-◌, ◌^◌, true, None, length, take, drop};
ghost use Rattle.cxx_model.specs.Text.Lexemes as spec;
ghost use Rattle.cxx_model.specs.Text.Tokens.{fresh_after, fresh_past};

use crate::bytes::is_blank;
use crate::width::Width;
use cxx_model::{Place, Token, TokenKind};

/// The rest of a text, with the byte and the place at which it begins, whether only blanks stand before it on its line,
/// and the width of the string that it stands behind.
#[derive(Drop)]
pub struct Reader<'a> {
    pub rest: &'a [u8],
    pub at: u32,
    pub place: Place,
    pub fresh: bool,
    pub before: Option<Width>,
    ghost fits: { at + length rest.now < 2 ^ 32 - 1 },
    ghost line: { place.line ≤ at + 1 },
    ghost column: { place.column ≤ at + 1 },
}

/// The place after a byte.
fn after(b: u8, place: Place) -> Place
    requires line { place.line < 2 ^ 32 - 1 }
    requires column { place.column < 2 ^ 32 - 1 }
    ensures { result ≡ spec.after b place }
{
    if b == b'\n' {
        Place {
            line: place.line + 1,
            column: 1,
        }
    } else {
        Place {
            line: place.line,
            column: place.column + 1,
        }
    }
}

/// The place after a text.
fn past(text: &[u8], place: Place) -> Place
    requires line { place.line + length text.now < 2 ^ 32 }
    requires column { place.column + length text.now < 2 ^ 32 }
    ensures { result ≡ spec.past text.now place }
{
    let mut place = place;
    for b in text {
        place = after(*b, place);
    }
    place
}

/// Whether only blanks stand on the line up to and with a byte.
fn fresh_after(b: u8, fresh: bool) -> bool
    ensures { result ≡ fresh_after b fresh }
{
    b == b'\n' || (fresh && is_blank(b))
}

/// Whether only blanks stand on the line up to the end of a text.
fn fresh_past(text: &[u8], fresh: bool) -> bool
    ensures { result ≡ fresh_past text.now fresh }
{
    let mut fresh = fresh;
    for b in text {
        fresh = fresh_after(*b, fresh);
    }
    fresh
}

impl<'a> Reader<'a> {
    pub fn new(bytes: &'a [u8]) -> Self
        requires { length bytes.now < 2 ^ 32 - 1 }
        ensures rest { result.rest.now ≡ bytes.now }
        ensures at { result.at ≡ 0 }
        ensures place { result.place ≡ spec.first_place }
        ensures fresh { result.fresh ≡ true }
        ensures before { result.before ≡ None }
    {
        Reader {
            rest: bytes,
            at: 0,
            place: Place { line: 1, column: 1 },
            fresh: true,
            before: None,
        }
    }

    /// The token of so many bytes that begins here.
    pub fn token(&self, kind: TokenKind, len: usize) -> Token
        requires { len ≤ length self.now.rest.now }
        ensures { result ≡ record { kind = kind; place = self.now.place; from = self.now.at; to = self.now.at + len } }
    {
        Token {
            kind,
            place: self.place,
            from: self.at,
            to: self.at + len as u32,
        }
    }

    /// Passes so many bytes, and then stands behind a string of this width.
    pub fn pass(&mut self, len: usize, before: Option<Width>)
        requires { len ≤ length self.old.rest.now }
        ensures rest { self.new.rest.now ≡ drop len self.old.rest.now }
        ensures at { self.new.at ≡ self.old.at + len }
        ensures place { self.new.place ≡ spec.past (take len self.old.rest.now) self.old.place }
        ensures fresh { self.new.fresh ≡ fresh_past (take len self.old.rest.now) self.old.fresh }
        ensures before { self.new.before ≡ before }
    {
        let place = past(&self.rest[..len], self.place);
        let fresh = fresh_past(&self.rest[..len], self.fresh);
        let at = self.at + len as u32;
        let rest = &self.rest[len..];
        self.rest = rest;
        self.at = at;
        self.place = place;
        self.fresh = fresh;
        self.before = before;
    }
}
