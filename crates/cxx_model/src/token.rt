use crate::place::Place;

/// What a token is (2.6). The number of a keyword or punctuator is its constant in `keyword` or `punct`.
#[derive(Clone, Copy, Debug, PartialEq, Eq)]
pub enum TokenKind {
    Name,
    Keyword(u8),
    Punct(u8),
    Integer,
    Character,
    Text,
    End,
}

/// A token of a text: the bytes from `from` up to and without `to`.
#[derive(Clone, Copy, PartialEq, Eq)]
pub struct Token {
    pub kind: TokenKind,
    pub place: Place,
    pub from: u32,
    pub to: u32,
}

/// Why no token of the profile begins at a byte. Where several hold at one byte, the first in this order does.
#[derive(Clone, Copy, Debug, PartialEq, Eq)]
pub enum TokenReason {
    /// No token begins with the byte.
    StrayByte,
    /// `/*` without `*/`.
    UnfinishedComment,
    /// A newline or the end inside a literal, or nothing between the quotes of a character.
    UnfinishedLiteral,
    /// An escape that there is not, or a value that the character does not hold.
    BadEscape,
    /// A number token that is neither an integer nor a floating literal.
    BadNumber,
    /// No type holds the value.
    NumberTooLarge,
    /// `#` that begins no marker line, and `%:`.
    Directive,
    /// A narrow string beside a wide one, at the second.
    MixedStrings,
    FloatingLiteral,
    /// More than one character between the quotes of a character.
    MultiCharacter,
    /// `\u` or `\U` outside comments and marker lines.
    UniversalName,
}
