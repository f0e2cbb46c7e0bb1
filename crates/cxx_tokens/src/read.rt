//! The token list of a text (2.1, 2.4, 2.13.4).

ghost use Rattle.std.specs.Prelude.{◌≡◌, ◌≤◌, ◌<◌, ◌-◌, ◌^◌, ℕ, List, [], ◌∷◌, ◌++◌, length, All, IfOk, IfErr, Ok, Err, None};
ghost use Rattle.cxx_model.specs.declared.limits.TheConstants as limits;
ghost use Rattle.cxx_model.specs.declared.place.Place.{Place};
ghost use Rattle.cxx_model.specs.declared.token.Token.{Token};
ghost use Rattle.cxx_model.specs.declared.token.TokenReason.{TokenReason};
ghost use Rattle.cxx_model.specs.Text.Tokens.{BadAt, PastTokens, IsTokenList, IsBadPlace, IsPastTokens};
ghost use Rattle.cxx_tokens.specs.Answers as answers;
ghost use Rattle.cxx_tokens.specs.Pieces.{width_seen};

use crate::fault::TokenFault;
use crate::front::front;
use crate::piece::Spelled;
use crate::reader::Reader;
use crate::width::{joins, reason_at, width_behind};
use cxx_model::{LimitKind, Token, TokenKind, limits};
use std::alloc::Global;

/// Adds a token, where there is room for it.
fn put(tokens: &mut Vec<Token>, token: Token) -> Result<(), TokenFault>
    requires { length tokens.old.items ≤ limits.MOST_TOKENS }
    ensures added { IfOk result
        (λ _. (tokens.new.items ≡ tokens.old.items ++ token ∷ []) × (length tokens.old.items < limits.MOST_TOKENS)) }
    ensures refused { IfErr result (λ fault. answers.IsRefused (length tokens.old.items) fault) }
{
    if tokens.len() >= limits::MOST_TOKENS as usize {
        return Err(TokenFault::Limit(LimitKind::Tokens));
    }
    match tokens.push(token) {
        Ok(()) => Ok(()),
        Err(_) => Err(TokenFault::OutOfMemory),
    }
}

/// Goes on with the string that is the last token.
fn extend(tokens: &mut Vec<Token>, token: Token) -> Result<(), TokenFault>
    ensures added { IfOk result (λ _. tokens.new.items ≡ answers.extended tokens.old.items token) }
    ensures refused { IfErr result (λ fault. fault ≡ TokenFault.OutOfMemory) }
{
    match tokens.pop() {
        Some(last) => {
            let whole = Token {
                to: token.to,
                ..last
            };
            match tokens.push(whole) {
                Ok(()) => Ok(()),
                Err(_) => Err(TokenFault::OutOfMemory),
            }
        }
        None => Ok(()),
    }
}

/// Adds a token, or goes on with the string before it.
fn add(tokens: &mut Vec<Token>, token: Token, joins: bool) -> Result<(), TokenFault>
    requires { length tokens.old.items ≤ limits.MOST_TOKENS }
    ensures added { IfOk result (λ _. answers.IsAdded tokens.old.items token joins tokens.new.items) }
    ensures refused { IfErr result (λ fault. answers.IsRefusedUnless joins (length tokens.old.items) fault) }
{
    if joins {
        extend(tokens, token)
    } else {
        put(tokens, token)
    }
}

/// Reads white space or a token.
fn next(tokens: &mut Vec<Token>, reader: &mut Reader) -> Result<(), TokenFault>
    requires some { 0 < length reader.old.rest.now }
    requires room { length tokens.old.items ≤ limits.MOST_TOKENS }
    requires sound { answers.IsSound (width_seen reader.old.before) tokens.old.items }
    ensures goes { IfOk result
        (λ _. answers.list_at tokens.new.items (width_seen reader.new.before) reader.new.fresh reader.new.at reader.new.place reader.new.rest.now
        ≡ answers.list_at tokens.old.items (width_seen reader.old.before) reader.old.fresh reader.old.at reader.old.place reader.old.rest.now) }
    ensures room { IfOk result (λ _. length tokens.new.items ≤ limits.MOST_TOKENS) }
    ensures sound { IfOk result (λ _. answers.IsSound (width_seen reader.new.before) tokens.new.items) }
    ensures shorter { IfOk result (λ _. length reader.new.rest.now < length reader.old.rest.now) }
    ensures stops { IfErr result
        (λ fault. answers.IsFault fault (answers.list_at tokens.old.items (width_seen reader.old.before) reader.old.fresh reader.old.at reader.old.place reader.old.rest.now)) }
{
    let piece = front(reader.fresh, reader.rest);
    if let Some(reason) = reason_at(reader.before, reader.rest, piece.spells) {
        return Err(TokenFault::Bad(reader.place, reason));
    }
    match piece.spells {
        Spelled::Good(kind) => {
            let token = reader.token(kind, piece.len);
            let behind = width_behind(kind, reader.rest);
            add(tokens, token, joins(reader.before, kind))?;
            reader.pass(piece.len, behind);
            Ok(())
        }
        Spelled::Blank => {
            reader.pass(piece.len, reader.before);
            Ok(())
        }
        Spelled::Ill(reason) => Err(TokenFault::Bad(reader.place, reason)),
    }
}

fn read_all(alloc: Global, bytes: &[u8]) -> Result<Vec<Token>, TokenFault>
    requires { length bytes.now < 2 ^ 32 - 1 }
    ensures { answers.IsTokenizing bytes.now result }
{
    let mut tokens = Vec::new(alloc);
    let mut reader = Reader::new(bytes);
    while !reader.rest.is_empty() {
        next(&mut tokens, &mut reader)?;
    }
    let end = reader.token(TokenKind::End, 0);
    put(&mut tokens, end)?;
    Ok(tokens)
}

/// The token list of a text, whose last token is the end; or the first place at which no token of the profile begins;
/// or that there are more tokens than `limits::MOST_TOKENS`, the end counted, before any such place.
pub fn tokens(alloc: Global, bytes: &[u8]) -> Result<Vec<Token>, TokenFault>
    requires { length bytes.now < 2 ^ 32 - 1 }
    ensures exact { answers.IsTokenizing bytes.now result }
    ensures listed { IfOk result
        (λ tokens. IsTokenList bytes.now 0 None tokens.items × (length tokens.items ≤ limits.MOST_TOKENS)) }
    ensures only { (list : List Token)
        → IsTokenList bytes.now 0 None list
        → length list ≤ limits.MOST_TOKENS
        → answers.IsAnswer result (Ok list) }
    ensures bad { IfErr result (λ fault. answers.IsAtBadPlace bytes.now fault) }
    ensures only_bad { (place : Place) (reason : TokenReason) (count : ℕ)
        → IsBadPlace bytes.now place reason 0 None count
        → count ≤ limits.MOST_TOKENS
        → answers.IsAnswer result (Err (BadAt place reason)) }
    ensures limit { IfErr result (λ fault. answers.IsAtLimit bytes.now fault) }
    ensures only_limit { IsPastTokens bytes.now 0 None limits.MOST_TOKENS → answers.IsAnswer result (Err PastTokens) }
    ensures within { IfOk result (λ tokens. All (answers.LiesWithin bytes.now) tokens.items) }
{
    read_all(alloc, bytes)
}

/// A text has at most one token list, at most one first bad place with its reason, and not both.
pub fn one_token_list()
    ensures list { (bytes : List ℕ) (one two : List Token) → IsTokenList bytes 0 None one → IsTokenList bytes 0 None two → one ≡ two }
    ensures place { (bytes : List ℕ) (place other : Place) (reason why : TokenReason) (count number : ℕ)
        → IsBadPlace bytes place reason 0 None count
        → IsBadPlace bytes other why 0 None number
        → (place ≡ other) × (reason ≡ why) }
    ensures apart { (bytes : List ℕ) (list : List Token) (place : Place) (reason : TokenReason) (count : ℕ)
        → IsTokenList bytes 0 None list
        → IsBadPlace bytes place reason 0 None count
        → ⊥ }
{}
