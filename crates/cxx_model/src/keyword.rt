//! The keywords (2.11): each number is the place of its spelling in `SPELLINGS`.

pub const ASM: u8 = 0;

pub const AUTO: u8 = 1;

pub const BOOL: u8 = 2;

pub const BREAK: u8 = 3;

pub const CASE: u8 = 4;

pub const CATCH: u8 = 5;

pub const CHAR: u8 = 6;

pub const CLASS: u8 = 7;

pub const CONST: u8 = 8;

pub const CONST_CAST: u8 = 9;

pub const CONTINUE: u8 = 10;

pub const DEFAULT: u8 = 11;

pub const DELETE: u8 = 12;

pub const DO: u8 = 13;

pub const DOUBLE: u8 = 14;

pub const DYNAMIC_CAST: u8 = 15;

pub const ELSE: u8 = 16;

pub const ENUM: u8 = 17;

pub const EXPLICIT: u8 = 18;

pub const EXPORT: u8 = 19;

pub const EXTERN: u8 = 20;

pub const FALSE: u8 = 21;

pub const FLOAT: u8 = 22;

pub const FOR: u8 = 23;

pub const FRIEND: u8 = 24;

pub const GOTO: u8 = 25;

pub const IF: u8 = 26;

pub const INLINE: u8 = 27;

pub const INT: u8 = 28;

pub const LONG: u8 = 29;

pub const MUTABLE: u8 = 30;

pub const NAMESPACE: u8 = 31;

pub const NEW: u8 = 32;

pub const OPERATOR: u8 = 33;

pub const PRIVATE: u8 = 34;

pub const PROTECTED: u8 = 35;

pub const PUBLIC: u8 = 36;

pub const REGISTER: u8 = 37;

pub const REINTERPRET_CAST: u8 = 38;

pub const RETURN: u8 = 39;

pub const SHORT: u8 = 40;

pub const SIGNED: u8 = 41;

pub const SIZEOF: u8 = 42;

pub const STATIC: u8 = 43;

pub const STATIC_CAST: u8 = 44;

pub const STRUCT: u8 = 45;

pub const SWITCH: u8 = 46;

pub const TEMPLATE: u8 = 47;

pub const THIS: u8 = 48;

pub const THROW: u8 = 49;

pub const TRUE: u8 = 50;

pub const TRY: u8 = 51;

pub const TYPEDEF: u8 = 52;

pub const TYPEID: u8 = 53;

pub const TYPENAME: u8 = 54;

pub const UNION: u8 = 55;

pub const UNSIGNED: u8 = 56;

pub const USING: u8 = 57;

pub const VIRTUAL: u8 = 58;

pub const VOID: u8 = 59;

pub const VOLATILE: u8 = 60;

pub const WCHAR_T: u8 = 61;

pub const WHILE: u8 = 62;

/// The spellings of the keywords, in the order of their numbers.
pub static SPELLINGS: [&[u8]; 63] = [
    b"asm",
    b"auto",
    b"bool",
    b"break",
    b"case",
    b"catch",
    b"char",
    b"class",
    b"const",
    b"const_cast",
    b"continue",
    b"default",
    b"delete",
    b"do",
    b"double",
    b"dynamic_cast",
    b"else",
    b"enum",
    b"explicit",
    b"export",
    b"extern",
    b"false",
    b"float",
    b"for",
    b"friend",
    b"goto",
    b"if",
    b"inline",
    b"int",
    b"long",
    b"mutable",
    b"namespace",
    b"new",
    b"operator",
    b"private",
    b"protected",
    b"public",
    b"register",
    b"reinterpret_cast",
    b"return",
    b"short",
    b"signed",
    b"sizeof",
    b"static",
    b"static_cast",
    b"struct",
    b"switch",
    b"template",
    b"this",
    b"throw",
    b"true",
    b"try",
    b"typedef",
    b"typeid",
    b"typename",
    b"union",
    b"unsigned",
    b"using",
    b"virtual",
    b"void",
    b"volatile",
    b"wchar_t",
    b"while",
];
