//! `cxx_tokens`: the tokens of texts, and what literals say.

use cxx_model::{Base, LimitKind, Place, Token, TokenKind, TokenReason, keyword, limits, punct};
use cxx_tokens::{TokenFault, literal_type, literal_value, tokens};
use std::alloc::{AllocError, Global};

const MOST: usize = 4_294_967_295;

/// A kind, the line and the column of its first byte, where it starts and where it ends.
type Wanted = (TokenKind, u32, u32, u32, u32);

fn is_token(token: &Token, wanted: &Wanted) -> bool {
    token.kind == wanted.0
        && token.place.line == wanted.1
        && token.place.column == wanted.2
        && token.from == wanted.3
        && token.to == wanted.4
}

/// Whether these are the tokens of a text.
fn are_tokens(alloc: Global, text: &[u8], wanted: &[Wanted]) -> bool {
    if text.len() >= MOST {
        return false;
    }
    match tokens(alloc, text) {
        Ok(list) => {
            list.len() == wanted.len()
                && list
                    .iter()
                    .zip(wanted)
                    .all(|(token, wanted)| is_token(token, wanted))
        }
        Err(_) => false,
    }
}

fn first_bad(alloc: Global, text: &[u8]) -> Option<(Place, TokenReason)> {
    if text.len() >= MOST {
        return None;
    }
    match tokens(alloc, text) {
        Err(TokenFault::Bad(place, reason)) => Some((place, reason)),
        _ => None,
    }
}

/// How many tokens a text has, or none where they pass the limit.
fn count(alloc: Global, text: &[u8]) -> Option<usize> {
    if text.len() >= MOST {
        return None;
    }
    match tokens(alloc, text) {
        Ok(list) => Some(list.len()),
        Err(TokenFault::Limit(LimitKind::Tokens)) => Some(0),
        Err(_) => None,
    }
}

static CALL: [Wanted; 21] = [
    (TokenKind::Keyword(keyword::INT), 1, 1, 0, 3),
    (TokenKind::Name, 1, 5, 4, 5),
    (TokenKind::Punct(punct::LEFT_PARENTHESIS), 1, 6, 5, 6),
    (TokenKind::Keyword(keyword::INT), 1, 7, 6, 9),
    (TokenKind::Punct(punct::RIGHT_PARENTHESIS), 1, 10, 9, 10),
    (TokenKind::Punct(punct::SEMICOLON), 1, 11, 10, 11),
    (TokenKind::Keyword(keyword::INT), 2, 1, 12, 15),
    (TokenKind::Name, 2, 5, 16, 17),
    (TokenKind::Punct(punct::LEFT_PARENTHESIS), 2, 6, 17, 18),
    (TokenKind::Keyword(keyword::CHAR), 2, 7, 18, 22),
    (TokenKind::Punct(punct::RIGHT_PARENTHESIS), 2, 11, 22, 23),
    (TokenKind::Punct(punct::SEMICOLON), 2, 12, 23, 24),
    (TokenKind::Keyword(keyword::INT), 3, 1, 25, 28),
    (TokenKind::Name, 3, 5, 29, 30),
    (TokenKind::Punct(punct::EQUALS), 3, 7, 31, 32),
    (TokenKind::Name, 3, 9, 33, 34),
    (TokenKind::Punct(punct::LEFT_PARENTHESIS), 3, 10, 34, 35),
    (TokenKind::Character, 3, 11, 35, 38),
    (TokenKind::Punct(punct::RIGHT_PARENTHESIS), 3, 14, 38, 39),
    (TokenKind::Punct(punct::SEMICOLON), 3, 15, 39, 40),
    (TokenKind::End, 4, 1, 41, 41),
];

#[test]
fn reads_two_functions_and_a_call(rt: HostRuntime) {
    let text = b"int f(int);\nint f(char);\nint x = f('a');\n";
    assert!(rt; are_tokens(rt.alloc(), text, &CALL));
}

static LINES: [Wanted; 3] = [
    (TokenKind::Name, 2, 2, 2, 3),
    (TokenKind::Name, 2, 7, 7, 8),
    (TokenKind::End, 4, 1, 10, 10),
];

#[test]
fn counts_lines_by_newlines_alone(rt: HostRuntime) {
    assert!(rt; are_tokens(rt.alloc(), b"", &[(TokenKind::End, 1, 1, 0, 0)]));
    assert!(rt; are_tokens(rt.alloc(), b"\n\ta\x0b\x0c\r b\n\n", &LINES));
}

/// A text, and the column and the reason of its first bad place, which is on the first line.
type BadRow = (&'static [u8], u32, TokenReason);

static STRAY_AND_UNFINISHED: [BadRow; 26] = [
    (b"@", 1, TokenReason::StrayByte),
    (b"a \\ b", 3, TokenReason::StrayByte),
    (b"\xc8", 1, TokenReason::StrayByte),
    (b"$", 1, TokenReason::StrayByte),
    (b"`", 1, TokenReason::StrayByte),
    (b"\x00", 1, TokenReason::StrayByte),
    (b"a\x7f", 2, TokenReason::StrayByte),
    (b"a \\\n", 3, TokenReason::StrayByte),
    (b"a /* b", 3, TokenReason::UnfinishedComment),
    (b"/*/", 1, TokenReason::UnfinishedComment),
    (b"/* *", 1, TokenReason::UnfinishedComment),
    (b"/* * /", 1, TokenReason::UnfinishedComment),
    (b"'a", 1, TokenReason::UnfinishedLiteral),
    (b"''", 1, TokenReason::UnfinishedLiteral),
    (b"= L'", 3, TokenReason::UnfinishedLiteral),
    (b"\"a\nb\"", 1, TokenReason::UnfinishedLiteral),
    (b"'", 1, TokenReason::UnfinishedLiteral),
    (b"'\\", 1, TokenReason::UnfinishedLiteral),
    (b"'\\'", 1, TokenReason::UnfinishedLiteral),
    (b"\"", 1, TokenReason::UnfinishedLiteral),
    (b"\"a\\\"", 1, TokenReason::UnfinishedLiteral),
    (b"L\"", 1, TokenReason::UnfinishedLiteral),
    (b"L''", 1, TokenReason::UnfinishedLiteral),
    (b"'a\n'", 1, TokenReason::UnfinishedLiteral),
    (b"x = 'a", 5, TokenReason::UnfinishedLiteral),
    (b"\"a\" \"b", 5, TokenReason::UnfinishedLiteral),
];

static BAD_LETTERS: [BadRow; 36] = [
    (b"'\\q'", 1, TokenReason::BadEscape),
    (b"'\\x'", 1, TokenReason::BadEscape),
    (b"'\\400'", 1, TokenReason::BadEscape),
    (b"'\\x100'", 1, TokenReason::BadEscape),
    (b"L\"\\x100000000\"", 1, TokenReason::BadEscape),
    (b"'\\8'", 1, TokenReason::BadEscape),
    (b"'\\z'", 1, TokenReason::BadEscape),
    (b"'\\ '", 1, TokenReason::BadEscape),
    (b"'\\777'", 1, TokenReason::BadEscape),
    (b"'\\xfff'", 1, TokenReason::BadEscape),
    (b"\"a\\q\"", 1, TokenReason::BadEscape),
    (b"\"\\x\"", 1, TokenReason::BadEscape),
    (b"L'\\q'", 1, TokenReason::BadEscape),
    (b"\"a\" \"\\q\"", 5, TokenReason::BadEscape),
    (b"\"a\" L\"\\q\"", 5, TokenReason::BadEscape),
    (b"'\\400ab'", 1, TokenReason::BadEscape),
    (b"'\\q\\u0041'", 1, TokenReason::BadEscape),
    (b"L'\\x1ffffffff'", 1, TokenReason::BadEscape),
    (b"\"a\" L\"b\"", 5, TokenReason::MixedStrings),
    (b"L\"a\"/**/\"b\"", 9, TokenReason::MixedStrings),
    (b"\"a\" \"b\" L\"c\"", 9, TokenReason::MixedStrings),
    (b"\"a\" L\"\\u0041\"", 5, TokenReason::MixedStrings),
    (b"'ab'", 1, TokenReason::MultiCharacter),
    (b"L'ab'", 1, TokenReason::MultiCharacter),
    (b"'a\\n'", 1, TokenReason::MultiCharacter),
    (b"'\\1234'", 1, TokenReason::MultiCharacter),
    (b"'\\u0041b'", 1, TokenReason::MultiCharacter),
    (b"'\xc3\xa9'", 1, TokenReason::MultiCharacter),
    (b"\\u0041", 1, TokenReason::UniversalName),
    (b"'\\u0041'", 1, TokenReason::UniversalName),
    (b"\"\\U00000041\"", 1, TokenReason::UniversalName),
    (b"\\U", 1, TokenReason::UniversalName),
    (b"a\\u0041", 2, TokenReason::UniversalName),
    (b"L'\\u41'", 1, TokenReason::UniversalName),
    (b"\"a\\u0041\"", 1, TokenReason::UniversalName),
    (b"'\\u'", 1, TokenReason::UniversalName),
];

static BAD_NUMBERS: [BadRow; 39] = [
    (b"08", 1, TokenReason::BadNumber),
    (b"0x", 1, TokenReason::BadNumber),
    (b"1ull", 1, TokenReason::BadNumber),
    (b"f(1e)", 3, TokenReason::BadNumber),
    (b"0xe+1", 1, TokenReason::BadNumber),
    (b"09", 1, TokenReason::BadNumber),
    (b"0b1", 1, TokenReason::BadNumber),
    (b"0x1g", 1, TokenReason::BadNumber),
    (b"12ab", 1, TokenReason::BadNumber),
    (b"1_0", 1, TokenReason::BadNumber),
    (b"1ll", 1, TokenReason::BadNumber),
    (b"1uu", 1, TokenReason::BadNumber),
    (b"1ulu", 1, TokenReason::BadNumber),
    (b"1..2", 1, TokenReason::BadNumber),
    (b"1f", 1, TokenReason::BadNumber),
    (b"1.5u", 1, TokenReason::BadNumber),
    (b"0x1p3", 1, TokenReason::BadNumber),
    (b"1.2.3", 1, TokenReason::BadNumber),
    (b"1e+", 1, TokenReason::BadNumber),
    (b"1.e5.x", 1, TokenReason::BadNumber),
    (b"0x1e+1", 1, TokenReason::BadNumber),
    (b"1.x", 1, TokenReason::BadNumber),
    (b"08u", 1, TokenReason::BadNumber),
    (b"9223372036854775808", 1, TokenReason::NumberTooLarge),
    (b"18446744073709551616u", 1, TokenReason::NumberTooLarge),
    (b"99999999999999999999", 1, TokenReason::NumberTooLarge),
    (b"0x10000000000000000", 1, TokenReason::NumberTooLarge),
    (b"02000000000000000000000", 1, TokenReason::NumberTooLarge),
    (b"18446744073709551616ul", 1, TokenReason::NumberTooLarge),
    (b"1.5", 1, TokenReason::FloatingLiteral),
    (b".5e-3f", 1, TokenReason::FloatingLiteral),
    (b"1e+5", 1, TokenReason::FloatingLiteral),
    (b"1.", 1, TokenReason::FloatingLiteral),
    (b"1.f", 1, TokenReason::FloatingLiteral),
    (b"1e5L", 1, TokenReason::FloatingLiteral),
    (b"08.5", 1, TokenReason::FloatingLiteral),
    (b"08e1", 1, TokenReason::FloatingLiteral),
    (b"x=.5", 3, TokenReason::FloatingLiteral),
    (b"1.5E-10F", 1, TokenReason::FloatingLiteral),
];

static DIRECTIVES: [BadRow; 18] = [
    (b"a # b", 3, TokenReason::Directive),
    (b"#define a", 1, TokenReason::Directive),
    (b"#lines 1", 1, TokenReason::Directive),
    (b"%: 1", 1, TokenReason::Directive),
    (b"#", 1, TokenReason::Directive),
    (b"# ", 1, TokenReason::Directive),
    (b"#\n", 1, TokenReason::Directive),
    (b"##", 1, TokenReason::Directive),
    (b"#if 1", 1, TokenReason::Directive),
    (b"# lineage", 1, TokenReason::Directive),
    (b"#pragmatic", 1, TokenReason::Directive),
    (b"#Line 1", 1, TokenReason::Directive),
    (b"#\"a\"", 1, TokenReason::Directive),
    (b"/**/ # 1", 6, TokenReason::Directive),
    (b"x # 1", 3, TokenReason::Directive),
    (b"\x0b# 1", 2, TokenReason::Directive),
    (b"a %:b", 3, TokenReason::Directive),
    (b"%:%:", 1, TokenReason::Directive),
];

/// The first text whose first bad place is another one.
fn first_other(alloc: Global, rows: &'static [BadRow]) -> Option<&'static [u8]> {
    for (text, column, reason) in rows {
        let place = Place {
            line: 1,
            column: *column,
        };
        if first_bad(alloc, text) != Some((place, *reason)) {
            return Some(*text);
        }
    }
    None
}

#[test]
fn stops_at_what_is_no_token(rt: HostRuntime) {
    assert_eq!(rt; first_other(rt.alloc(), &STRAY_AND_UNFINISHED), None);
    assert_eq!(rt; first_other(rt.alloc(), &BAD_LETTERS), None);
    assert_eq!(rt; first_other(rt.alloc(), &BAD_NUMBERS), None);
    assert_eq!(rt; first_other(rt.alloc(), &DIRECTIVES), None);
}

/// A letter for each kind of token.
fn letter(kind: TokenKind) -> u8 {
    match kind {
        TokenKind::Name => b'n',
        TokenKind::Keyword(_) => b'k',
        TokenKind::Punct(_) => b'p',
        TokenKind::Integer => b'i',
        TokenKind::Character => b'c',
        TokenKind::Text => b's',
        TokenKind::End => b'.',
    }
}

/// Whether the tokens of a text are of these kinds.
fn are_kinds(alloc: Global, text: &[u8], wanted: &[u8]) -> bool {
    if text.len() >= MOST {
        return false;
    }
    match tokens(alloc, text) {
        Ok(list) => {
            list.len() == wanted.len()
                && list
                    .iter()
                    .zip(wanted)
                    .all(|(token, kind)| letter(token.kind) == *kind)
        }
        Err(_) => false,
    }
}

/// A text, and the kinds of its tokens, the end among them.
type Row = (&'static [u8], &'static [u8]);

static NUMBERS_AND_CHARACTERS: [Row; 35] = [
    (b"9223372036854775807", b"i."),
    (b"18446744073709551615u", b"i."),
    (b"0x7fffffffUL", b"i."),
    (b"0", b"i."),
    (b"017", b"i."),
    (b"00", b"i."),
    (b"0xFF", b"i."),
    (b"0Xabcdef", b"i."),
    (b"1l", b"i."),
    (b"1L", b"i."),
    (b"1lu", b"i."),
    (b"1uL", b"i."),
    (b"1LU", b"i."),
    (b"1Ul", b"i."),
    (b"077777777777u", b"i."),
    (b"'\"'", b"c."),
    (b"'\\''", b"c."),
    (b"'\\\\'", b"c."),
    (b"'\\?'", b"c."),
    (b"'\\\"'", b"c."),
    (b"'\\n'", b"c."),
    (b"'\\r'", b"c."),
    (b"'\\t'", b"c."),
    (b"'\\v'", b"c."),
    (b"'\\f'", b"c."),
    (b"'\\0'", b"c."),
    (b"'\\12'", b"c."),
    (b"'\\377'", b"c."),
    (b"'\\xff'", b"c."),
    (b"'\\x0000041'", b"c."),
    (b"L'a'", b"c."),
    (b"L'\\xffffffff'", b"c."),
    (b"L'\\777'", b"c."),
    (b"\"\"", b"s."),
    (b"\"a\"", b"s."),
];

static STRINGS_AND_WORDS: [Row; 35] = [
    (b"\"\\\"\"", b"s."),
    (b"\"\\\\\"", b"s."),
    (b"\"'\"", b"s."),
    (b"\"\\x41\\101\"", b"s."),
    (b"L\"\"", b"s."),
    (b"L\"a\"", b"s."),
    (b"\"a\" \"b\"", b"s."),
    (b"\"a\"\"b\"\"c\"", b"s."),
    (b"\"a\" /* x */ \"b\" ;", b"sp."),
    (b"\"a\" // x", b"s."),
    (b"L\"a\" L\"b\"", b"s."),
    (b"\"a\" x \"b\"", b"sns."),
    (b"L", b"n."),
    (b"LL()", b"npp."),
    (b"L L", b"nn."),
    (b"Lx'a'", b"nc."),
    (b"android", b"n."),
    (b"and or not", b"ppp."),
    (b"and_eq or_eq xor_eq not_eq", b"pppp."),
    (b"bitand bitor compl xor", b"pppp."),
    (b"andx nota", b"nn."),
    (b"_int int_ int", b"nnk."),
    (b"__x x__ _ __", b"nnnn."),
    (b"if else while for", b"kkkk."),
    (b"wchar_t bool true false", b"kkkk."),
    (b"static_cast<int>(x)", b"kpkppnp."),
    (b"typename typeid template", b"kkk."),
    (b">>=", b"p."),
    (b"<<=", b"p."),
    (b">>>", b"pp."),
    (b"<<<", b"pp."),
    (b"->*", b"p."),
    (b"->", b"p."),
    (b"-->", b"pp."),
    (b".*", b"p."),
];

static OPERATORS: [Row; 35] = [
    (b".x", b"pn."),
    (b"...", b"p."),
    (b"..", b"pp."),
    (b"....", b"pp."),
    (b"::", b"p."),
    (b":::", b"pp."),
    (b"<:", b"p."),
    (b":>", b"p."),
    (b"<%", b"p."),
    (b"%>", b"p."),
    (b"<:>", b"pp."),
    (b"<::", b"pp."),
    (b"{}", b"pp."),
    (b"[]", b"pp."),
    (b"()", b"pp."),
    (b";,", b"pp."),
    (b"+ += ++", b"ppp."),
    (b"- -= --", b"ppp."),
    (b"* *=", b"pp."),
    (b"/ /=", b"pp."),
    (b"% %=", b"pp."),
    (b"^ ^=", b"pp."),
    (b"& &= &&", b"ppp."),
    (b"| |= ||", b"ppp."),
    (b"~ !", b"pp."),
    (b"= == !=", b"ppp."),
    (b"< <= > >=", b"pppp."),
    (b"?:", b"pp."),
    (b"a+++b", b"nppn."),
    (b"a---b", b"nppn."),
    (b"x=-1", b"nppi."),
    (b"1+1", b"ipi."),
    (b"1-1", b"ipi."),
    (b"x//y", b"n."),
    (b"x/**/y", b"nn."),
];

static TEXTS: [Row; 33] = [
    (b"x/***/y", b"nn."),
    (b"x/* // */y", b"nn."),
    (b"x/*\"*/y", b"nn."),
    (b"a'b'c", b"ncn."),
    (b"=;=", b"ppp."),
    (b"a.b->c", b"npnpn."),
    (b"a<b>c", b"npnpn."),
    (b"a<:0:>", b"npip."),
    (b"\"a\"'b'", b"sc."),
    (b"1'a'", b"ic."),
    (b"x\"a\"", b"ns."),
    (b"sizeof(int)", b"kpkp."),
    (b"operator new delete", b"kkk."),
    (b"0;", b"ip."),
    (b"(1,2)", b"pipip."),
    (b"a ? b : c", b"npnpn."),
    (b"a%b", b"npn."),
    (b"a&b", b"npn."),
    (b"!a", b"pn."),
    (b"# 1 \"a\"\nx", b"n."),
    (b"#line 1\nx", b"n."),
    (b"  #pragma x y\nz", b"n."),
    (b"\t# 7\n;", b"p."),
    (b"#pragma\n", b"."),
    (b"x\n#1\ny", b"nn."),
    (b"x\n # line 'q /* \"\ny", b"nn."),
    (b"\n\n", b"."),
    (b"/* a\nb */ x", b"n."),
    (b"// a\n// b\nx", b"n."),
    (b"\"a\"\n# 1 \"f\"\n\"b\"", b"s."),
    (b"a\tb\x0bc\x0cd\re", b"nnnnn."),
    (b"'a' 'b'", b"cc."),
    (b"L'a'L'b'", b"cc."),
];

fn each_is_of_its_kinds(alloc: Global, rows: &[Row]) -> bool {
    for (text, wanted) in rows {
        if !are_kinds(alloc, text, wanted) {
            return false;
        }
    }
    true
}

#[test]
fn tells_the_kinds_of_tokens(rt: HostRuntime) {
    assert!(rt; each_is_of_its_kinds(rt.alloc(), &NUMBERS_AND_CHARACTERS));
    assert!(rt; each_is_of_its_kinds(rt.alloc(), &STRINGS_AND_WORDS));
    assert!(rt; each_is_of_its_kinds(rt.alloc(), &OPERATORS));
    assert!(rt; each_is_of_its_kinds(rt.alloc(), &TEXTS));
}

static JOINED: [Wanted; 3] = [
    (TokenKind::Text, 1, 1, 0, 12),
    (TokenKind::Punct(punct::LEFT_BRACE), 2, 1, 13, 15),
    (TokenKind::End, 2, 3, 15, 15),
];

#[test]
fn adjacent_strings_are_one(rt: HostRuntime) {
    assert!(rt; are_tokens(rt.alloc(), b"\"a\" /**/ \"b\"\n<%", &JOINED));
}

/// So many semicolons and a last byte.
fn semicolons(alloc: Global, many: usize, last: u8) -> Result<Vec<u8>, AllocError> {
    let mut text = vec![in alloc; b';'; many]?;
    text.push(last)?;
    Ok(text)
}

#[test]
fn a_unit_has_so_many_tokens(rt: HostRuntime) -> Result<(), AllocError> {
    let most = limits::MOST_TOKENS as usize;
    let whole = semicolons(rt.alloc(), most - 1, b'\n')?;
    assert_eq!(rt; count(rt.alloc(), &whole), Some(most));
    let over = semicolons(rt.alloc(), most, b'\n')?;
    assert_eq!(rt; count(rt.alloc(), &over), Some(0));
    let later = semicolons(rt.alloc(), most + 1, b'@')?;
    assert_eq!(rt; count(rt.alloc(), &later), Some(0));
    Ok(())
}

#[test]
fn a_literal_has_a_type(rt: HostRuntime) {
    assert_eq!(rt; literal_type(b"2147483647"), Some(Base::Int));
    assert_eq!(rt; literal_type(b"2147483648"), Some(Base::Long));
    assert_eq!(rt; literal_type(b"'a'"), Some(Base::Char));
    assert_eq!(rt; literal_type(b"0x80000000"), Some(Base::Unsigned));
    assert_eq!(rt; literal_type(b"L'a'"), Some(Base::WideChar));
    assert_eq!(rt; literal_type(b"a"), None);
    assert_eq!(rt; literal_type(b""), None);
}

#[test]
fn a_literal_has_a_value(rt: HostRuntime) {
    assert_eq!(rt; literal_value(b"0x10"), Some(16));
    assert_eq!(rt;
        literal_value(b"18446744073709551615u"),
        Some(18_446_744_073_709_551_615)
    );
    assert_eq!(rt; literal_value(b"'\\377'"), Some(-1));
    assert_eq!(rt; literal_value(b"'\\n'"), Some(10));
    assert_eq!(rt; literal_value(b"L'\\xff'"), Some(255));
    assert_eq!(rt; literal_value(b"a"), None);
}
