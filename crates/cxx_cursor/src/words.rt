//! The words of fundamental types (7.1.5.2).

ghost use Rattle.std.specs.Prelude.{◌≡◌, Some};
ghost use Rattle.cxx_reading.specs.Declarators as definition;
ghost use Rattle.cxx_reading.specs.Specifiers as specifier;
ghost use Rattle.cxx_cursor.specs.Words.{word_of, word_of_option};

use cxx_model::{Base, keyword};
use cxx_reading::{CoreWord, SignWord, SizeWord, StorageWord, TypeWords};

/// What a keyword is among the words of a type.
#[derive(Clone, Copy)]
pub enum TypeWord {
    Core(CoreWord),
    Sign(SignWord),
    Size(SizeWord),
}

/// The word of a type that a keyword is (7.1.5.2).
pub fn type_word(number: u8) -> Option<TypeWord>
    ensures { word_of_option result ≡ definition.type_word number }
{
    match number {
        keyword::BOOL => Some(TypeWord::Core(CoreWord::Bool)),
        keyword::CHAR => Some(TypeWord::Core(CoreWord::Char)),
        keyword::INT => Some(TypeWord::Core(CoreWord::Int)),
        keyword::WCHAR_T => Some(TypeWord::Core(CoreWord::WideChar)),
        keyword::FLOAT => Some(TypeWord::Core(CoreWord::Float)),
        keyword::DOUBLE => Some(TypeWord::Core(CoreWord::Double)),
        keyword::VOID => Some(TypeWord::Core(CoreWord::Void)),
        keyword::SIGNED => Some(TypeWord::Sign(SignWord::Signed)),
        keyword::UNSIGNED => Some(TypeWord::Sign(SignWord::Unsigned)),
        keyword::SHORT => Some(TypeWord::Size(SizeWord::Short)),
        keyword::LONG => Some(TypeWord::Size(SizeWord::Long)),
        _ => None,
    }
}

/// The storage word that a keyword is (7.1.1, 7.1.3).
pub fn storage_word(number: u8) -> Option<StorageWord>
    ensures { result ≡ specifier.storage_word number }
{
    match number {
        keyword::AUTO => Some(StorageWord::Auto),
        keyword::EXTERN => Some(StorageWord::Extern),
        keyword::MUTABLE => Some(StorageWord::Mutable),
        keyword::REGISTER => Some(StorageWord::Register),
        keyword::STATIC => Some(StorageWord::Static),
        keyword::TYPEDEF => Some(StorageWord::Typedef),
        _ => None,
    }
}

// The integral types that `int` names, by its other words (Table 7).
fn int_by(sign: Option<SignWord>, size: Option<SizeWord>) -> Base
    ensures { result ≡ definition.int_by sign size }
{
    match sign {
        Some(SignWord::Unsigned) => match size {
            None => Base::Unsigned,
            Some(SizeWord::Short) => Base::UnsignedShort,
            Some(SizeWord::Long) => Base::UnsignedLong,
        },
        _ => match size {
            None => Base::Int,
            Some(SizeWord::Short) => Base::Short,
            Some(SizeWord::Long) => Base::Long,
        },
    }
}

fn char_by(sign: Option<SignWord>, size: Option<SizeWord>) -> Option<Base>
    ensures { result ≡ definition.char_by sign size }
{
    match size {
        Some(_) => None,
        None => match sign {
            None => Some(Base::Char),
            Some(SignWord::Signed) => Some(Base::SignedChar),
            Some(SignWord::Unsigned) => Some(Base::UnsignedChar),
        },
    }
}

fn double_by(sign: Option<SignWord>, size: Option<SizeWord>) -> Option<Base>
    ensures { result ≡ definition.double_by sign size }
{
    match sign {
        Some(_) => None,
        None => match size {
            None => Some(Base::Double),
            Some(SizeWord::Long) => Some(Base::LongDouble),
            Some(SizeWord::Short) => None,
        },
    }
}

fn alone(of: Base, sign: Option<SignWord>, size: Option<SizeWord>) -> Option<Base>
    ensures { result ≡ definition.alone of sign size }
{
    match sign {
        Some(_) => None,
        None => match size {
            None => Some(of),
            Some(_) => None,
        },
    }
}

fn implied(sign: Option<SignWord>, size: Option<SizeWord>) -> Option<Base>
    ensures { result ≡ definition.implied sign size }
{
    match sign {
        Some(_) => Some(int_by(sign, size)),
        None => match size {
            None => None,
            Some(_) => Some(int_by(sign, size)),
        },
    }
}

/// The type that the words name, in any order, where they name one (Table 7).
pub fn base_of_words(words: TypeWords) -> Option<Base>
    ensures { result ≡ definition.base_of_words words }
{
    match words.core {
        None => implied(words.sign, words.size),
        Some(CoreWord::Int) => Some(int_by(words.sign, words.size)),
        Some(CoreWord::Char) => char_by(words.sign, words.size),
        Some(CoreWord::Double) => double_by(words.sign, words.size),
        Some(CoreWord::Bool) => alone(Base::Bool, words.sign, words.size),
        Some(CoreWord::WideChar) => alone(Base::WideChar, words.sign, words.size),
        Some(CoreWord::Float) => alone(Base::Float, words.sign, words.size),
        Some(CoreWord::Void) => alone(Base::Void, words.sign, words.size),
    }
}

fn fitting(words: TypeWords) -> Option<TypeWords>
    ensures { result ≡ definition.is_row (Some words) (definition.base_of_words words) }
{
    match base_of_words(words) {
        None => None,
        Some(_) => Some(words),
    }
}

/// The words with one more, where some row of Table 7 has them all.
pub fn with_word(word: TypeWord, words: TypeWords) -> Option<TypeWords>
    ensures { result ≡ definition.with_word (word_of word) words }
{
    match word {
        TypeWord::Core(core) => match words.core {
            None => fitting(TypeWords {
                core: Some(core),
                sign: words.sign,
                size: words.size,
            }),
            Some(_) => None,
        },
        TypeWord::Sign(sign) => match words.sign {
            None => fitting(TypeWords {
                core: words.core,
                sign: Some(sign),
                size: words.size,
            }),
            Some(_) => None,
        },
        TypeWord::Size(size) => match words.size {
            None => fitting(TypeWords {
                core: words.core,
                sign: words.sign,
                size: Some(size),
            }),
            Some(_) => None,
        },
    }
}
