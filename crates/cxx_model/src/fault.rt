//! What the first line of a report says.

use crate::listed::Word;
use crate::token::TokenReason;

/// A form of C++98 that the profile leaves out.
#[derive(Clone, Copy)]
pub enum LeftOut {
    Exception,
    ExceptionSpecification,
    Typeid,
    DynamicCast,
    VirtualBase,
    Export,
    TemplateTemplateParameter,
    ParameterKind,
    ConversionFunctionTemplate,
    DependentSizeof,
    PointerToMember,
    AddressOfSeveralFunctions,
    SurrogateCall,
    OperatorNew,
    PlacementNew,
    DestructorCall,
    NewOfADeclarator,
    BitField,
    AnonymousUnion,
    LocalClass,
    Goto,
    Label,
    Asm,
    BraceElision,
    ClassConditional,
    ArrayOfDefaultedConstruction,
    CopyConstructorWithParameters,
    ExplicitCopyConstructor,
    ConstructorOfEllipsis,
    DefaultedPart,
    ConditionNameInStep,
}

/// What is wrong with a unit, with the word, form or number that the text names.
#[derive(Drop)]
pub enum FaultText {
    /// Clause 2: what stands there begins no token.
    BadToken(TokenReason),
    /// The form is not read yet.
    NotBuilt,
    SyntaxError,
    LeftOut(LeftOut),
    /// 3.4
    UndeclaredName(Word),
    /// 3.4, 10.2
    AmbiguousName(Word),
    WrongKindOfName(Word),
    /// 3.3, 13.1
    ConflictingDeclaration(Word),
    /// 13.3.3
    AmbiguousCall,
    /// 13.3.2
    NoViableFunction,
    /// 13.3.3.1
    AmbiguousConversion,
    NoConversion,
    /// Clause 5
    OperandsDoNotFit,
    /// 3.9
    IncompleteClass,
    /// 10.2
    AmbiguousBase,
    /// 14.5.4.1
    AmbiguousSpecialisation,
    /// 14.3
    WrongTemplateArguments,
    /// 14.7.3
    SpecialisationAfterUse,
    /// 5.19
    NotAConstant,
    ConstantOverflow,
    DivisionByZero,
    /// 14.7.1: by the limit that is passed.
    DepthLimit(u32),
}
