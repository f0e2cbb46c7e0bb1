//! Single words and runs of them.
ghost use Rattle.std.specs.Prelude.{◌≡◌, [], ◌∷◌, if◌then◌else◌};
ghost use Rattle.cxx_reading.specs.Declarators.{no_cv as no_cv_of};
ghost use Rattle.cxx_reading.specs.Words.{base_words, cv_words as cv_words_of, one_word, two_words};
ghost use Rattle.cxx_page.specs.Sheets.{Writes, put};
ghost use Rattle.cxx_page.specs.Sides.{opened, closed, comma_unless};

use crate::fault::PlainFault;
use crate::page::Page;
use cxx_model::{Base, Cv};
use cxx_reading::Role;

pub(crate) fn no_cv() -> Cv
    ensures { result ≡ no_cv_of }
{
    Cv {
        is_const: false,
        is_volatile: false,
    }
}

/// Writes a keyword or a literal.
pub(crate) fn write_alone(page: &mut Page, spelling: &[u8]) -> Result<(), PlainFault>
    ensures { Writes result page.new (put (one_word spelling.now) page.old) }
{
    page.word(Role::Alone, spelling)
}

#[tactic(auto, using(crate::proofs::Put::put_more))]
fn write_two(page: &mut Page, one: &[u8], two: &[u8]) -> Result<(), PlainFault>
    ensures { Writes result page.new (put (two_words one.now two.now) page.old) }
{
    write_alone(page, one)?;
    write_alone(page, two)
}

/// Writes the words of a fundamental type (7.1.5.2).
pub(crate) fn write_base(page: &mut Page, base: Base) -> Result<(), PlainFault>
    ensures { Writes result page.new (put (base_words base) page.old) }
{
    match base {
        Base::Void => write_alone(page, b"void"),
        Base::Bool => write_alone(page, b"bool"),
        Base::Char => write_alone(page, b"char"),
        Base::SignedChar => write_two(page, b"signed", b"char"),
        Base::UnsignedChar => write_two(page, b"unsigned", b"char"),
        Base::Short => write_alone(page, b"short"),
        Base::UnsignedShort => write_two(page, b"unsigned", b"short"),
        Base::Int => write_alone(page, b"int"),
        Base::Unsigned => write_alone(page, b"unsigned"),
        Base::Long => write_alone(page, b"long"),
        Base::UnsignedLong => write_two(page, b"unsigned", b"long"),
        Base::WideChar => write_alone(page, b"wchar_t"),
        Base::Float => write_alone(page, b"float"),
        Base::Double => write_alone(page, b"double"),
        Base::LongDouble => write_two(page, b"long", b"double"),
    }
}

#[tactic(auto, using(crate::proofs::Put::put_append, crate::proofs::Put::put_none))]
fn write_if(page: &mut Page, stands: bool, spelling: &[u8]) -> Result<(), PlainFault>
    ensures { Writes result page.new (put (if stands then one_word spelling.now else []) page.old) }
{
    if stands {
        return write_alone(page, spelling);
    }
    Ok(())
}

/// Writes cv words, `const` first (3.9.3).
#[tactic(auto, using(crate::proofs::Put::put_append, crate::proofs::Put::put_none))]
pub(crate) fn write_cv(page: &mut Page, cv: Cv) -> Result<(), PlainFault>
    ensures { Writes result page.new (put (cv_words_of cv) page.old) }
{
    write_if(page, cv.is_const, b"const")?;
    write_if(page, cv.is_volatile, b"volatile")
}

#[tactic(auto, using(crate::proofs::Put::put_append, crate::proofs::Put::put_none))]
pub(crate) fn write_opened(page: &mut Page, stands: bool) -> Result<(), PlainFault>
    ensures { Writes result page.new (put (opened stands) page.old) }
{
    if stands {
        return page.word(Role::Opens, b"(");
    }
    Ok(())
}

#[tactic(auto, using(crate::proofs::Put::put_append, crate::proofs::Put::put_none))]
pub(crate) fn write_closed(page: &mut Page, stands: bool) -> Result<(), PlainFault>
    ensures { Writes result page.new (put (closed stands) page.old) }
{
    if stands {
        return page.word(Role::Closes, b")");
    }
    Ok(())
}

#[tactic(auto, using(crate::proofs::Put::put_append, crate::proofs::Put::put_none))]
pub(crate) fn write_comma_unless(page: &mut Page, is_first: bool) -> Result<(), PlainFault>
    ensures { Writes result page.new (put (comma_unless is_first) page.old) }
{
    if is_first {
        return Ok(());
    }
    page.word(Role::Follows, b",")
}
