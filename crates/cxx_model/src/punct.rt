//! The operators and punctuators (2.12) in their primary spellings: each number is the place of its spelling in
//! `SPELLINGS`.

pub const LEFT_BRACE: u8 = 0;

pub const RIGHT_BRACE: u8 = 1;

pub const LEFT_BRACKET: u8 = 2;

pub const RIGHT_BRACKET: u8 = 3;

pub const LEFT_PARENTHESIS: u8 = 4;

pub const RIGHT_PARENTHESIS: u8 = 5;

pub const SEMICOLON: u8 = 6;

pub const COLON: u8 = 7;

pub const ELLIPSIS: u8 = 8;

pub const QUESTION: u8 = 9;

pub const SCOPE: u8 = 10;

pub const DOT: u8 = 11;

pub const DOT_STAR: u8 = 12;

pub const PLUS: u8 = 13;

pub const MINUS: u8 = 14;

pub const STAR: u8 = 15;

pub const SLASH: u8 = 16;

pub const PERCENT: u8 = 17;

pub const CARET: u8 = 18;

pub const AMPERSAND: u8 = 19;

pub const BAR: u8 = 20;

pub const TILDE: u8 = 21;

pub const EXCLAMATION: u8 = 22;

pub const EQUALS: u8 = 23;

pub const LESS: u8 = 24;

pub const GREATER: u8 = 25;

pub const PLUS_EQUALS: u8 = 26;

pub const MINUS_EQUALS: u8 = 27;

pub const STAR_EQUALS: u8 = 28;

pub const SLASH_EQUALS: u8 = 29;

pub const PERCENT_EQUALS: u8 = 30;

pub const CARET_EQUALS: u8 = 31;

pub const AMPERSAND_EQUALS: u8 = 32;

pub const BAR_EQUALS: u8 = 33;

pub const SHIFT_LEFT: u8 = 34;

pub const SHIFT_RIGHT: u8 = 35;

pub const SHIFT_RIGHT_EQUALS: u8 = 36;

pub const SHIFT_LEFT_EQUALS: u8 = 37;

pub const EQUAL_TO: u8 = 38;

pub const NOT_EQUAL_TO: u8 = 39;

pub const LESS_OR_EQUAL: u8 = 40;

pub const GREATER_OR_EQUAL: u8 = 41;

pub const LOGICAL_AND: u8 = 42;

pub const LOGICAL_OR: u8 = 43;

pub const INCREMENT: u8 = 44;

pub const DECREMENT: u8 = 45;

pub const COMMA: u8 = 46;

pub const ARROW_STAR: u8 = 47;

pub const ARROW: u8 = 48;

/// The spellings, in the order of their numbers.
pub static SPELLINGS: [&[u8]; 49] = [
    b"{", b"}", b"[", b"]", b"(", b")", b";", b":", b"...", b"?", b"::", b".", b".*", b"+", b"-",
    b"*", b"/", b"%", b"^", b"&", b"|", b"~", b"!", b"=", b"<", b">", b"+=", b"-=", b"*=", b"/=",
    b"%=", b"^=", b"&=", b"|=", b"<<", b">>", b">>=", b"<<=", b"==", b"!=", b"<=", b">=", b"&&",
    b"||", b"++", b"--", b",", b"->*", b"->",
];

/// The words that are other spellings of operators, each with the number of its primary spelling (2.5).
pub static ALTERNATIVES: [(&[u8], u8); 11] = [
    (b"and", LOGICAL_AND),
    (b"and_eq", AMPERSAND_EQUALS),
    (b"bitand", AMPERSAND),
    (b"bitor", BAR),
    (b"compl", TILDE),
    (b"not", EXCLAMATION),
    (b"not_eq", NOT_EQUAL_TO),
    (b"or", LOGICAL_OR),
    (b"or_eq", BAR_EQUALS),
    (b"xor", CARET),
    (b"xor_eq", CARET_EQUALS),
];

/// The other spellings of brackets and braces, each with the number of its primary spelling (2.5).
pub static DIGRAPHS: [(&[u8], u8); 4] = [
    (b"<%", LEFT_BRACE),
    (b"%>", RIGHT_BRACE),
    (b"<:", LEFT_BRACKET),
    (b":>", RIGHT_BRACKET),
];
