//! The texts of reports.
ghost use Rattle.std.specs.Prelude.{◌≡◌, ◌<◌, ◌++◌, OnOk, IfOk, codes, decimal};
ghost use Rattle.cxx_model.specs.Printing.Reports.{by_bases_text, evidence_lines, evidence_text, fault_text, form_text, link_text, number_after, path_text, place_text, reason_text, report, shown_text, substitution_text, token_reason_text};

use cxx_model::{
    Evidence, Fault, FaultText, LeftOut, Link, Place, Reason, Shown, SubstitutionText, TokenReason,
};
use itoa::Buffer;
use std::alloc::{AllocError, Global};

/// Writes a text.
pub fn write(out: &mut Vec<u8>, text: &[u8]) -> Result<(), AllocError>
    ensures { OnOk result (out.new.items ≡ out.old.items ++ text.now) }
{
    out.extend_from_slice(text)
}

fn write_number(out: &mut Vec<u8>, number: u32) -> Result<(), AllocError>
    ensures { OnOk result (out.new.items ≡ out.old.items ++ decimal number) }
{
    let mut digits = Buffer::new();
    write(out, digits.format(number).as_bytes())
}

/// Writes a number in decimal digits.
pub fn write_count(out: &mut Vec<u8>, number: u64) -> Result<(), AllocError>
    ensures { OnOk result (out.new.items ≡ out.old.items ++ decimal number) }
{
    let mut digits = Buffer::new();
    write(out, digits.format(number).as_bytes())
}

/// Writes a place: `L:C`.
pub fn write_place(out: &mut Vec<u8>, place: Place) -> Result<(), AllocError>
    ensures { OnOk result (out.new.items ≡ out.old.items ++ place_text place) }
{
    write_number(out, place.line)?;
    write(out, b":")?;
    write_number(out, place.column)
}

/// Writes a text and a number behind it.
fn write_before(out: &mut Vec<u8>, front: &[u8], number: u32) -> Result<(), AllocError>
    ensures { OnOk result (out.new.items ≡ out.old.items ++ (front.now ++ decimal number)) }
{
    write(out, front)?;
    write_number(out, number)
}

fn write_shown(out: &mut Vec<u8>, shown: Shown) -> Result<(), AllocError>
    ensures { OnOk result (out.new.items ≡ out.old.items ++ shown_text shown) }
{
    match shown {
        Shown::Declared(number, place) => {
            write(out, b"candidate ")?;
            write_number(out, number)?;
            write(out, b" at ")?;
            write_place(out, place)
        }
        Shown::BuiltIn(number) => write_before(out, b"built-in candidate ", number),
    }
}

fn substitution_name(text: SubstitutionText) -> &'static [u8]
    ensures { result.now ≡ substitution_text text }
{
    match text {
        SubstitutionText::ForbiddenElement => b"array of a forbidden element",
        SubstitutionText::SizeBelowOne => b"array size below 1",
        SubstitutionText::NoMemberType => b"no such member type",
        SubstitutionText::MemberNoType => b"member is not a type",
        SubstitutionText::QualifierNoClass => b"qualifier is not a class",
        SubstitutionText::PointerToReference => b"pointer to reference",
        SubstitutionText::ReferenceToReference => b"reference to reference",
        SubstitutionText::ReferenceToVoid => b"reference to void",
        SubstitutionText::VoidParameter => b"parameter of type void",
        SubstitutionText::InvalidArgument => b"invalid template argument",
    }
}

/// Writes a number between two texts.
fn write_numbered(
    out: &mut Vec<u8>,
    front: &[u8],
    number: u32,
    back: &[u8],
) -> Result<(), AllocError>
    ensures { OnOk result (out.new.items ≡ out.old.items ++ (front.now ++ decimal number ++ back.now)) }
{
    write(out, front)?;
    write_number(out, number)?;
    write(out, back)
}

/// Writes why a candidate is not viable.
pub fn write_reason(out: &mut Vec<u8>, reason: Reason) -> Result<(), AllocError>
    ensures { OnOk result (out.new.items ≡ out.old.items ++ reason_text reason) }
{
    match reason {
        Reason::TooFewArguments => write(out, b"too few arguments"),
        Reason::TooManyArguments => write(out, b"too many arguments"),
        Reason::TooManyTemplateArguments => write(out, b"too many template arguments"),
        Reason::WrongKind(number) => {
            write_numbered(out, b"template argument ", number, b" has the wrong kind")
        }
        Reason::Substitution(text) => write(out, substitution_name(text)),
        Reason::NoMatch(number) => write_numbered(out, b"argument ", number, b" does not match"),
        Reason::TwoBases(number) => {
            write_numbered(out, b"argument ", number, b" matches two bases")
        }
        Reason::Twice(number) => write_numbered(out, b"parameter ", number, b" deduced twice"),
        Reason::NotDeduced(number) => {
            write_numbered(out, b"parameter ", number, b" not deduced")
        }
        Reason::ObjectNoConversion => write(out, b"object argument: no conversion"),
        Reason::NoConversion(number) => {
            write_numbered(out, b"argument ", number, b": no conversion")
        }
    }
}

/// Writes the positions of the bases that lead to a member.
fn write_path(out: &mut Vec<u8>, path: &[u32]) -> Result<(), AllocError>
    ensures { OnOk result (out.new.items ≡ out.old.items ++ path_text path.now) }
{
    if path.is_empty() {
        return write(out, b"by no base");
    }
    write(out, b"by bases")?;
    for number in path {
        write(out, b" ")?;
        write_number(out, *number)?;
    }
    Ok(())
}

fn write_by_bases(out: &mut Vec<u8>, place: Option<Place>, path: &[u32]) -> Result<(), AllocError>
    ensures { OnOk result (out.new.items ≡ out.old.items ++ by_bases_text place path.now) }
{
    match place {
        Some(place) => {
            write_place(out, place)?;
            write(out, b" ")?;
            write_path(out, path)
        }
        None => write_path(out, path),
    }
}

/// Writes a line of a chain, with its number.
fn write_link(out: &mut Vec<u8>, number: u64, link: Link) -> Result<(), AllocError>
    ensures { OnOk result (out.new.items ≡ out.old.items ++ link_text number link) }
{
    write_count(out, number)?;
    if link.of_class {
        write(out, b" class at ")?;
    } else {
        write(out, b" function at ")?;
    }
    write_place(out, link.template)?;
    write(out, b" needed at ")?;
    write_place(out, link.needed)
}

/// Writes which candidate does not beat which.
fn write_pair(out: &mut Vec<u8>, one: Shown, two: Shown) -> Result<(), AllocError>
    ensures { OnOk result (out.new.items ≡ out.old.items ++ (shown_text one ++ codes " does not beat " ++ shown_text two)) }
{
    write_shown(out, one)?;
    write(out, b" does not beat ")?;
    write_shown(out, two)
}

/// Writes a candidate, a text and a number behind it.
fn write_shown_before(
    out: &mut Vec<u8>,
    shown: Shown,
    between: &[u8],
    number: u32,
) -> Result<(), AllocError>
    ensures { OnOk result (out.new.items ≡ out.old.items ++ (shown_text shown ++ between.now ++ decimal number)) }
{
    write_shown(out, shown)?;
    write_before(out, between, number)
}

/// Writes two numbers, each behind a text.
fn write_both(
    out: &mut Vec<u8>,
    front: &[u8],
    one: u32,
    between: &[u8],
    two: u32,
) -> Result<(), AllocError>
    ensures { OnOk result (out.new.items ≡ out.old.items ++ (front.now ++ decimal one ++ between.now ++ decimal two)) }
{
    write_before(out, front, one)?;
    write_before(out, between, two)
}

/// Writes what a piece of evidence says, where it would be the line of a chain with this number.
fn write_evidence(out: &mut Vec<u8>, number: u64, evidence: &Evidence) -> Result<(), AllocError>
    ensures { OnOk result (out.new.items ≡ out.old.items ++ evidence_text number evidence.now) }
{
    match evidence {
        Evidence::Found(place) => {
            write(out, b"found at ")?;
            write_place(out, *place)
        }
        Evidence::ByBases(place, path) => write_by_bases(out, *place, path.as_slice()),
        Evidence::DoesNotBeat(one, two) => write_pair(out, *one, *two),
        Evidence::Refused(candidate, reason) => {
            write_shown(out, *candidate)?;
            write(out, b": ")?;
            write_reason(out, *reason)
        }
        Evidence::Uses(candidate, argument) => {
            write_shown_before(out, *candidate, b" uses it for argument ", *argument)
        },
        Evidence::Chain(link) => write_link(out, number, *link),
        Evidence::RowDoesNotBeat(one, two) => {
            write_both(out, b"row ", *one, b" does not beat row ", *two)
        },
    }
}

/// The number of the next line of a chain.
fn number_after(number: u64, evidence: &Evidence) -> u64
    requires { number < 18446744073709551615 }
    ensures { result ≡ number_after number evidence.now }
{
    match evidence {
        Evidence::Chain(_) => number + 1,
        _ => number,
    }
}

/// Writes a line for each piece of evidence.
fn write_lines(out: &mut Vec<u8>, evidence: &[Evidence]) -> Result<(), AllocError>
    ensures { OnOk result (out.new.items ≡ out.old.items ++ evidence_lines 1 evidence.now) }
{
    let mut number = 1;
    for one in evidence {
        write(out, b"  ")?;
        write_evidence(out, number, one)?;
        write(out, b"\n")?;
        number = number_after(number, one);
    }
    Ok(())
}

fn reason_name(reason: TokenReason) -> &'static [u8]
    ensures { result.now ≡ token_reason_text reason }
{
    match reason {
        TokenReason::StrayByte => b"stray byte",
        TokenReason::UnfinishedComment => b"unfinished comment",
        TokenReason::UnfinishedLiteral => b"unfinished literal",
        TokenReason::BadEscape => b"bad escape",
        TokenReason::BadNumber => b"bad number",
        TokenReason::NumberTooLarge => b"number too large",
        TokenReason::Directive => b"directive",
        TokenReason::MixedStrings => b"mixed strings",
        TokenReason::FloatingLiteral => b"left out: floating literal",
        TokenReason::MultiCharacter => b"left out: multi-character literal",
        TokenReason::UniversalName => b"left out: universal character name",
    }
}

fn form_name(form: LeftOut) -> &'static [u8]
    ensures { result.now ≡ form_text form }
{
    match form {
        LeftOut::Exception => b"exception",
        LeftOut::ExceptionSpecification => b"exception specification",
        LeftOut::Typeid => b"typeid",
        LeftOut::DynamicCast => b"dynamic_cast",
        LeftOut::VirtualBase => b"virtual base",
        LeftOut::Export => b"export",
        LeftOut::TemplateTemplateParameter => b"template template parameter",
        LeftOut::ParameterKind => b"parameter kind",
        LeftOut::ConversionFunctionTemplate => b"conversion function template",
        LeftOut::DependentSizeof => b"dependent sizeof",
        LeftOut::PointerToMember => b"pointer to member",
        LeftOut::AddressOfSeveralFunctions => b"address of several functions",
        LeftOut::SurrogateCall => b"surrogate call",
        LeftOut::OperatorNew => b"operator new",
        LeftOut::PlacementNew => b"placement new",
        LeftOut::DestructorCall => b"destructor call",
        LeftOut::NewOfADeclarator => b"new of a declarator",
        LeftOut::BitField => b"bit-field",
        LeftOut::AnonymousUnion => b"anonymous union",
        LeftOut::LocalClass => b"local class",
        LeftOut::Goto => b"goto",
        LeftOut::Label => b"label",
        LeftOut::Asm => b"asm",
        LeftOut::BraceElision => b"brace elision",
        LeftOut::ClassConditional => b"class conditional",
        LeftOut::ArrayOfDefaultedConstruction => b"array of defaulted construction",
        LeftOut::CopyConstructorWithParameters => b"copy constructor with parameters",
        LeftOut::ExplicitCopyConstructor => b"explicit copy constructor",
        LeftOut::ConstructorOfEllipsis => b"constructor of ellipsis",
        LeftOut::DefaultedPart => b"defaulted part",
        LeftOut::ConditionNameInStep => b"condition name in step",
    }
}

/// Writes what is wrong, behind the place.
fn write_fault(out: &mut Vec<u8>, text: &FaultText) -> Result<(), AllocError>
    ensures { OnOk result (out.new.items ≡ out.old.items ++ fault_text text.now) }
{
    match text {
        FaultText::BadToken(reason) => write(out, reason_name(*reason)),
        FaultText::NotBuilt => write(out, b"not built"),
        FaultText::SyntaxError => write(out, b"syntax error"),
        FaultText::LeftOut(form) => write_two(out, b"left out: ", form_name(*form)),
        FaultText::UndeclaredName(word) => write_two(out, b"undeclared name ", word.as_slice()),
        FaultText::AmbiguousName(word) => write_two(out, b"ambiguous name ", word.as_slice()),
        FaultText::WrongKindOfName(word) => {
            write_two(out, b"wrong kind of name ", word.as_slice())
        }
        FaultText::ConflictingDeclaration(word) => {
            write_two(out, b"conflicting declaration of ", word.as_slice())
        }
        FaultText::AmbiguousCall => write(out, b"ambiguous call"),
        FaultText::NoViableFunction => write(out, b"no viable function"),
        FaultText::AmbiguousConversion => write(out, b"ambiguous conversion"),
        FaultText::NoConversion => write(out, b"no conversion"),
        FaultText::OperandsDoNotFit => write(out, b"operands do not fit"),
        FaultText::IncompleteClass => write(out, b"incomplete class"),
        FaultText::AmbiguousBase => write(out, b"ambiguous base"),
        FaultText::AmbiguousSpecialisation => write(out, b"ambiguous specialisation"),
        FaultText::WrongTemplateArguments => write(out, b"wrong template arguments"),
        FaultText::SpecialisationAfterUse => write(out, b"specialisation after use"),
        FaultText::NotAConstant => write(out, b"not a constant"),
        FaultText::ConstantOverflow => write(out, b"constant overflow"),
        FaultText::DivisionByZero => write(out, b"division by zero"),
        FaultText::DepthLimit(depth) => write_before(out, b"depth limit ", *depth),
    }
}

/// Writes a text and another one behind it.
fn write_two(out: &mut Vec<u8>, front: &[u8], back: &[u8]) -> Result<(), AllocError>
    ensures { OnOk result (out.new.items ≡ out.old.items ++ (front.now ++ back.now)) }
{
    write(out, front)?;
    write(out, back)
}

/// The report of a fault: where it is and what it says, and a line for each piece of evidence.
#[tactic(auto, unfolding(cxx_model::specs::Printing::Reports::report))]
pub fn report(alloc: Global, fault: &Fault) -> Result<Vec<u8>, AllocError>
    ensures { IfOk result (λ text. text.items ≡ report fault.now) }
{
    let mut out = Vec::new(alloc);
    write_place(&mut out, fault.place)?;
    write(&mut out, b": ")?;
    write_fault(&mut out, &fault.text)?;
    write(&mut out, b"\n")?;
    write_lines(&mut out, fault.evidence.as_slice())?;
    Ok(out)
}
