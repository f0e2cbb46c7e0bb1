//! The tokens that are still to be read.

ghost use Rattle.std.specs.Prelude.{if◌then◌else◌, ◌≡◌, ◌++◌, ◌<◌, ◌^◌, ◌-◌, take, drop, length, IfOk, OnOk};
ghost use Rattle.cxx_model.specs.Text.Lexemes.{spelling_in as spelled_in, lexemes};
ghost use Rattle.cxx_model.specs.Stops.{Faulty, fault};
ghost use Rattle.cxx_model.specs.declared.fault.FaultText.TheVariants as says;
ghost use Rattle.cxx_model.specs.declared.keyword.TheConstants as keyword;
ghost use Rattle.cxx_reading.specs.Reads.{kind_ahead, place_ahead, word_ahead, count_ahead, behind};
ghost use Rattle.cxx_reading.specs.Tokens as definition;
ghost use Rattle.cxx_reading.specs.Tokens.{behind_name, passed_from, path_ahead, token_in};
ghost use Rattle.cxx_cursor.specs.Asking.{AnyKnown};
ghost use Rattle.cxx_cursor.specs.Passing.{goes_on, part_there};
ghost use Rattle.cxx_cursor.specs.Reading.{IsRead, Takes};
ghost use Rattle.cxx_cursor.specs.Views.{lexeme_at, name_at};
ghost use Rattle.cxx_tree.specs.Arena.{path_at, path_part_at, path_parts_at};
ghost use Rattle.cxx_tree.specs.Held.{meaning};

use crate::name::NameToken;
use cxx_model::{
    Fault, FaultText, Listed, Path, PathPart, PathPartList, Place, Stop, Token, TokenKind, Word,
    keyword, punct,
};
use cxx_tree::State;
use std::alloc::{AllocError, Global};
use std::marker::Model;

/// The tokens ahead, with the bytes of which their spellings are parts, and the place of the last token that was taken.
#[derive(Drop)]
pub struct Cursor<'a> {
    bytes: &'a [u8],
    rest: &'a [Token],
    last: Place,
    alloc: Global,
}

impl<'a> Model for Cursor<'a> {
    ghost use Rattle.std.specs.Prelude.{◌<◌, ◌^◌, length};
    ghost use Rattle.cxx_model.specs.Text.Lexemes.{lexemes};
    ghost use Rattle.cxx_reading.specs.Reads.{Ahead};

    ghost Value = { Ahead };

    ghost view = { λ cursor. record { last = cursor.last; tokens = lexemes cursor.bytes.now cursor.rest.now } };

    ghost invariant = { λ cursor. length cursor.rest.now < 2 ^ 32 };
}

/// A token that was taken, with the bytes that spell it.
#[derive(Clone, Copy)]
pub struct Spelled<'a> {
    pub kind: TokenKind,
    pub place: Place,
    pub spelling: &'a [u8],
}

fn skip(bytes: &[u8], count: usize) -> &[u8]
    ensures { result.now ≡ drop count bytes.now }
{
    if count < bytes.len() {
        &bytes[count..]
    } else {
        &bytes[bytes.len()..]
    }
}

fn front(bytes: &[u8], count: usize) -> &[u8]
    ensures { result.now ≡ take count bytes.now }
{
    if count < bytes.len() {
        &bytes[..count]
    } else {
        bytes
    }
}

// The bytes that spell a token.
fn spelling_in(bytes: &[u8], token: Token) -> &[u8]
    ensures { result.now ≡ spelled_in bytes.now token }
{
    let len = token.to.saturating_sub(token.from);
    front(skip(bytes, token.from as usize), len as usize)
}

/// Whether a token is the punctuator with a number.
#[tactic(auto, unfolding(cxx_reading::specs::Tokens::is_punct))]
pub fn is_punct(number: u8, kind: TokenKind) -> bool
    ensures { result ≡ definition.is_punct number kind }
{
    match kind {
        TokenKind::Punct(other) => other == number,
        _ => false,
    }
}

/// Whether a token is the keyword with a number.
#[tactic(auto, unfolding(cxx_reading::specs::Tokens::is_keyword))]
pub fn is_keyword(number: u8, kind: TokenKind) -> bool
    ensures { result ≡ definition.is_keyword number kind }
{
    match kind {
        TokenKind::Keyword(other) => other == number,
        _ => false,
    }
}

/// Whether a token is a name.
#[tactic(auto, unfolding(cxx_reading::specs::Tokens::is_name))]
pub fn is_name(kind: TokenKind) -> bool
    ensures { result ≡ definition.is_name kind }
{
    match kind {
        TokenKind::Name => true,
        _ => false,
    }
}

/// Whether a token is the end of the unit.
#[tactic(auto, unfolding(cxx_reading::specs::Tokens::is_end))]
pub fn is_end(kind: TokenKind) -> bool
    ensures { result ≡ definition.is_end kind }
{
    match kind {
        TokenKind::End => true,
        _ => false,
    }
}

// What may stand behind `::` and is not read yet (14.2, 5.1, 5.3.4).
fn is_unbuilt_part(is_first: bool, kind: TokenKind) -> bool
    ensures { result ≡ definition.is_unbuilt_part is_first kind }
{
    is_keyword(keyword::TEMPLATE, kind)
        || (is_keyword(keyword::OPERATOR, kind)
            || (is_punct(punct::TILDE, kind)
                || (is_first
                    && (is_keyword(keyword::NEW, kind) || is_keyword(keyword::DELETE, kind)))))
}

// Some parts, and one more where one is wanted.
#[tactic(auto, using(crate::proofs::Names::parts_append))]
fn with_part(
    parts: PathPartList,
    ahead: &Cursor<'_>,
    wanted: bool,
) -> Result<PathPartList, AllocError>
    ensures { IfOk result (λ all. path_parts_at all ≡ path_parts_at parts ++ part_there wanted ahead.now) }
{
    if !wanted {
        return Ok(parts);
    }
    let part = ahead.part()?;
    let mut parts = parts;
    parts.push(part)?;
    Ok(parts)
}

/// A fault without evidence.
pub fn fault_at(alloc: Global, place: Place, text: FaultText) -> Result<Box<Fault>, AllocError>
    ensures { IfOk result (λ at. Faulty at.value ≡ fault place text) }
{
    Ok(Box::new(
        alloc,
        Fault {
            place,
            text,
            evidence: Listed::new(alloc),
        },
    )?)
}

impl<'a> Cursor<'a> {
    /// Before all tokens. A first place stands for that of a token before them.
    pub fn new(alloc: Global, bytes: &'a [u8], tokens: &'a [Token], last: Place) -> Cursor<'a>
        requires { length tokens.now < 2 ^ 32 }
        ensures { result ≡ record { last = last; tokens = lexemes bytes.now tokens.now } }
    {
        Cursor {
            bytes,
            rest: tokens,
            last,
            alloc,
        }
    }

    /// The same tokens ahead, for who looks and takes none.
    pub fn mark(&self) -> Cursor<'a>
        ensures { result ≡ self.now }
    {
        Cursor {
            bytes: self.bytes,
            rest: self.rest,
            last: self.last,
            alloc: self.alloc,
        }
    }

    /// The allocator that its readers use.
    pub fn alloc(&self) -> Global {
        self.alloc
    }

    /// What stands ahead: where no token is left, that is the end of the unit.
    pub fn kind(&self) -> TokenKind
        ensures { result ≡ kind_ahead self.now }
    {
        match self.rest {
            [] => TokenKind::End,
            [token, ..] => token.kind,
        }
    }

    /// What stands behind the token ahead.
    pub fn kind_behind(&self) -> TokenKind
        ensures { result ≡ kind_ahead (behind self.now) }
    {
        match self.rest {
            [] => TokenKind::End,
            [_] => TokenKind::End,
            [_, token, ..] => token.kind,
        }
    }

    pub fn place(&self) -> Place
        ensures { result ≡ place_ahead self.now }
    {
        match self.rest {
            [] => Place { line: 0, column: 0 },
            [token, ..] => token.place,
        }
    }

    /// The place of the last token that was taken.
    pub fn last(&self) -> Place
        ensures { result ≡ (self.now).last }
    {
        self.last
    }

    /// How many tokens are left.
    pub fn count(&self) -> u32
        ensures { result ≡ count_ahead self.now }
    {
        self.rest.len() as u32
    }

    pub fn spelling(&self) -> &'a [u8]
        ensures { result.now ≡ word_ahead self.now }
    {
        match self.rest {
            [] => &[],
            [token, ..] => spelling_in(self.bytes, *token),
        }
    }

    /// Takes the token ahead.
    pub fn advance(&mut self)
        ensures { self.new ≡ behind self.old }
    {
        match self.rest {
            [] => {}
            [token, rest @ ..] => {
                self.last = token.place;
                self.rest = rest;
            }
        }
    }

    /// The token ahead, taken.
    pub fn token(&mut self) -> Spelled<'a>
        ensures token { lexeme_at result ≡ token_in (self.old).tokens }
        ensures taken { self.new ≡ behind self.old }
    {
        let token = Spelled {
            kind: self.kind(),
            place: self.place(),
            spelling: self.spelling(),
        };
        self.advance();
        token
    }

    /// The token ahead, taken and kept.
    pub fn kept(&mut self) -> Result<NameToken, AllocError>
        ensures token { IfOk result (λ token. name_at token ≡ token_in (self.old).tokens) }
        ensures taken { OnOk result (self.new ≡ behind self.old) }
    {
        let token = self.token();
        Ok(NameToken {
            kind: token.kind,
            place: token.place,
            spelling: Word::from_slice(self.alloc, token.spelling)?,
        })
    }

    /// A fault at the token ahead.
    pub fn faulty(&self, text: FaultText) -> Result<Box<Fault>, AllocError>
        ensures { IfOk result (λ at. Faulty at.value ≡ fault (place_ahead self.now) text) }
    {
        fault_at(self.alloc, self.place(), text)
    }

    /// No form of the language stands there.
    pub fn refused(&self) -> Result<Box<Fault>, AllocError>
        ensures { IfOk result (λ at. Faulty at.value ≡ fault (place_ahead self.now) says.SyntaxError) }
    {
        self.faulty(FaultText::SyntaxError)
    }

    /// The form that stands there is not read yet.
    pub fn not_built(&self) -> Result<Box<Fault>, AllocError>
        ensures { IfOk result (λ at. Faulty at.value ≡ fault (place_ahead self.now) says.NotBuilt) }
    {
        self.faulty(FaultText::NotBuilt)
    }

    /// Whether a name without qualifiers stands ahead (3.4.1).
    pub fn is_plain_name(&self) -> bool
        ensures { result ≡ definition.is_plain_name self.now }
    {
        is_name(self.kind()) && !is_punct(punct::SCOPE, self.kind_behind())
    }

    /// Whether a name begins ahead, with qualifiers or without (3.4.3).
    pub fn begins_name(&self) -> bool
        ensures { result ≡ definition.begins_name self.now }
    {
        is_name(self.kind()) || is_punct(punct::SCOPE, self.kind())
    }

    // Whether a name goes on with the token ahead: with a part where one is wanted, else with `::`.
    fn goes_on(&self, wanted: bool) -> bool
        ensures { result ≡ goes_on wanted (kind_ahead self.now) }
    {
        if wanted {
            is_name(self.kind())
        } else {
            is_punct(punct::SCOPE, self.kind())
        }
    }

    // Takes parts of a name with `::` between them, as far as they go, and answers whether a part stands wherever one is
    // wanted. A part is wanted first, or `::` may stand.
    fn pass_parts(&mut self, wanted: bool) -> bool
        ensures taken { self.new ≡ (passed_from wanted (self.old).last (self.old).tokens).rest }
        ensures whole { result ≡ (passed_from wanted (self.old).last (self.old).tokens).is_whole }
    {
        let mut wanted = wanted;
        for _turn in 0..self.count() {
            if !self.goes_on(wanted) {
                return !wanted;
            }
            self.advance();
            wanted = !wanted;
        }
        !wanted
    }

    /// Takes the name ahead, with its qualifiers (3.4.3).
    pub fn pass_name(&mut self)
        ensures { self.new ≡ behind_name self.old }
    {
        let wanted = !is_punct(punct::SCOPE, self.kind());
        self.pass_parts(wanted);
    }

    /// What is ahead behind the name with its qualifiers.
    pub fn behind_name(&self) -> Cursor<'a>
        ensures { result ≡ behind_name self.now }
    {
        let mut behind = self.mark();
        behind.pass_name();
        behind
    }

    /// Whether a part of the name ahead stands behind each `::` of it.
    pub fn is_whole_name(&self) -> bool
        ensures { result ≡ definition.is_whole_name self.now }
    {
        let mut behind = self.mark();
        let wanted = !is_punct(punct::SCOPE, self.kind());
        behind.pass_parts(wanted)
    }

    // The part of a name that stands ahead.
    fn part(&self) -> Result<PathPart, AllocError>
        ensures { IfOk result (λ part. path_part_at part ≡ definition.part_of (token_in (self.now).tokens)) }
    {
        Ok(PathPart {
            word: Word::from_slice(self.alloc, self.spelling())?,
            place: self.place(),
            arguments: None,
        })
    }

    // The parts of a name ahead, as far as they go.
    fn parts(&self, wanted: bool) -> Result<PathPartList, AllocError>
        ensures { IfOk result (λ parts. path_parts_at parts ≡ (passed_from wanted (self.now).last (self.now).tokens).parts) }
    {
        let mut ahead = self.mark();
        let mut wanted = wanted;
        let mut parts = Listed::new(self.alloc);
        for _turn in 0..self.count() {
            if !ahead.goes_on(wanted) {
                return Ok(parts);
            }
            parts = with_part(parts, &ahead, wanted)?;
            ahead.advance();
            wanted = !wanted;
        }
        Ok(parts)
    }

    /// The name ahead, with its qualifiers, as far as it goes (3.4.3).
    pub fn path(&self) -> Result<Path, AllocError>
        ensures { IfOk result (λ path. path_at path ≡ path_ahead self.now) }
    {
        let global = is_punct(punct::SCOPE, self.kind());
        Ok(Path {
            global,
            parts: self.parts(!global)?,
        })
    }

    // Whether `::` stands ahead, and no name behind it.
    fn lacks_first_part(&self) -> bool
        ensures { result ≡ definition.lacks_first_part self.now }
    {
        is_punct(punct::SCOPE, self.kind()) && !is_name(self.kind_behind())
    }

    // No part of a name stands there: what may stand behind `::` and is not read yet, or no form of the language (14.2, 5.1).
    fn no_part_there(&self, is_first: bool) -> Result<Box<Fault>, AllocError>
        ensures { IfOk result (λ at. Faulty at.value ≡ fault (place_ahead self.now) (if definition.is_unbuilt_part is_first (kind_ahead self.now) then says.NotBuilt else says.SyntaxError)) }
    {
        if is_unbuilt_part(is_first, self.kind()) {
            self.not_built()
        } else {
            self.refused()
        }
    }

    /// Takes the name ahead with its qualifiers, and answers it (3.4.3).
    #[tactic(auto, using(crate::proofs::Kept::later_refl), unfolding(cxx_reading::specs::Tokens::path_taken, cxx_reading::specs::Tokens::no_part_there))]
    pub fn path_taken(&mut self, state: &State) -> Result<Path, Stop>
        ensures read { IsRead (λ held. path_at) AnyKnown state.now state.now self.new result (definition.path_taken (meaning state.now) self.old) }
        ensures path { IfOk result (λ path. path_at path ≡ path_ahead self.old) }
    {
        let _ = state;
        if !self.is_whole_name() {
            let is_first = self.lacks_first_part();
            return Err(Stop::Fault(self.behind_name().no_part_there(is_first)?));
        }
        let path = self.path()?;
        self.pass_name();
        Ok(path)
    }

    /// Whether the name of a class, `::` and `*` stand ahead, which begin a pointer to a member (8.3.3).
    pub fn points_to_member(&self) -> bool
        ensures { result ≡ definition.points_to_member self.now }
    {
        self.begins_name()
            && (!self.lacks_first_part()
                && (!self.is_whole_name() && is_punct(punct::STAR, self.behind_name().kind())))
    }

    /// The name ahead may have no qualifiers (8.3): its first `::` is refused.
    pub fn no_qualifier(&self) -> Result<Box<Fault>, AllocError>
        ensures { IfOk result (λ at. Faulty at.value ≡ fault (if definition.is_name (kind_ahead self.now) then place_ahead (behind self.now) else place_ahead self.now) says.SyntaxError) }
    {
        let mut ahead = self.mark();
        if is_name(self.kind()) {
            ahead.advance();
        }
        ahead.refused()
    }

    /// No declarator begins there (8): the name of an operator is not read yet.
    pub fn no_declarator(&self) -> Result<Box<Fault>, AllocError>
        ensures { IfOk result (λ at. Faulty at.value ≡ fault (place_ahead self.now) (if definition.is_keyword keyword.OPERATOR (kind_ahead self.now) then says.NotBuilt else says.SyntaxError)) }
    {
        if is_keyword(keyword::OPERATOR, self.kind()) {
            self.not_built()
        } else {
            self.refused()
        }
    }

    /// Takes a punctuator.
    #[tactic(auto, unfolding(cxx_reading::specs::Tokens::punct_taken))]
    pub fn punct(&mut self, number: u8) -> Result<(), Stop>
        ensures { Takes (λ x. x) self.new result (definition.punct_taken number tt self.old) }
    {
        if !is_punct(number, self.kind()) {
            return Err(Stop::Fault(self.refused()?));
        }
        self.advance();
        Ok(())
    }
}
