ghost use Rattle.std.specs.Prelude.{◌≡◌};
ghost use Rattle.scc_base.specs.Code.{code_number, code_text};

/// What a refusal says. Its number's first digit names the stage that refuses:
/// 1 joining files, 2 grammar, 3 names and constants, 4 construction, 5 rules of processes, 6 sizes,
/// 7 emitted text, 8 stimulus.
#[derive(Clone, Copy, Debug, PartialEq, Eq)]
pub enum Code {
    /// A byte that begins no token, or that may not stand in a text.
    BadByte,
    /// A comment that is not closed.
    OpenComment,
    /// A text, a character or a number of no form, or a name of more than 255 bytes.
    BadLiteral,
    /// A word of C++ or SystemC that the source language leaves out.
    OutsideWord,
    /// A directive of no form, or `#else` or `#endif` without its opening.
    Directive,
    /// Includes nested deeper than 16 levels.
    IncludeDepth,
    /// A conditional that is not closed in its file.
    OpenConditional,
    /// A file of more than 1,048,576 bytes.
    FileTooLong,
    /// More than 64 files, or more than 4,096 includes.
    TooManyFiles,
    /// More than 262,144 tokens, or more than so many macro expansions.
    TooManyTokens,
    /// A token up to which no file of the grammar begins.
    Unexpected,
    /// Constructs nested deeper than 128 levels.
    TooDeep,
    /// A name without a declaration, or without the body that its use needs.
    UnknownName,
    /// A name that its scope declares twice, or two equal labels of a `switch`.
    DuplicateName,
    /// A width or a size outside its range.
    Width,
    /// An operation that the kinds of its operands do not have, or a statement where it may not stand.
    Mismatch,
    /// An expression that is no constant where one is wanted.
    NotConstant,
    /// A constant outside the range of its place.
    ConstRange,
    /// Template arguments of another number or another sort.
    Arguments,
    /// A constant that needs itself, or a chain of more than 64 instances.
    TemplateDepth,
    /// A function that calls itself, or a class that contains itself.
    Recursion,
    /// An operand or a result of more than 128 bits where so many are the most.
    WideLoss,
    /// A divisor that is no constant, or is 0.
    Divisor,
    /// A range of bits whose ends are exchanged, or that goes past the width.
    RangeOrder,
    /// A call where it would not always run, or run at another time, as behind `&&`.
    CallPlace,
    /// More than 4,096 instances of templates.
    TooManyInstances,
    /// A port below the top without a binding.
    Unbound,
    /// A port that is bound again.
    BoundTwice,
    /// A binding to what is no signal and no port, or of another kind or direction.
    BindKind,
    /// A statement that construction may not hold, or one of construction outside it.
    Constructor,
    /// A null pointer or reference that is followed.
    EmptyPointer,
    /// A sensitivity or a reset that its process may not have.
    Sensitivity,
    /// A clock that is no `bool` input of the top, or another than the first.
    ClockPort,
    /// A clock that is read, or that is a reset or a level of a sensitivity.
    ClockAsData,
    /// A thread without a reset.
    NoReset,
    /// More than 65,536 objects, or a path of more than 64 parts.
    TooManyObjects,
    /// Signals and variables of more than 1,048,576 bits.
    StorageTooLarge,
    /// More than 65,536 turns of loops in the construction.
    ConstructionTurns,
    /// More than 128 clocks.
    TooManyClocks,
    /// A signal that two processes write.
    TwoWriters,
    /// A variable that two processes name and one of them writes.
    SharedVariable,
    /// A signal that a combinational method reads and that its sensitivity lacks.
    MissingSensitivity,
    /// A path through a combinational method that leaves out a signal which the method writes.
    Latch,
    /// Combinational methods that read in a cycle what they write.
    CombLoop,
    /// A variable that a method reads and that a path to the read has not written.
    CombState,
    /// A wait in a method.
    WaitInMethod,
    /// A loop without a wait that is not counted.
    UncountedLoop,
    /// A loop with a wait and a path through it that meets none.
    LoopMayNotWait,
    /// A thread that may come to the end of its function.
    EndReached,
    /// A pointer that a process assigns after its declaration.
    PointerAssigned,
    /// A pointer or an object that is chosen by an index which is not static.
    StaticIndex,
    /// A signal or a port that is chosen by an index which is not static.
    SignalIndex,
    /// A reset region of an asynchronous reset that does more than set constants.
    ResetValue,
    /// A process of more than 65,536 statements, or nested deeper than 1,024 levels.
    TooLarge,
    /// More than 4,096 turns of the counted loops of a process, or too many statements from them.
    TooManyTurns,
    /// A thread of more than 16,384 waits.
    TooManyStates,
    /// Segments of a thread of more than 65,536 statements, or nested deeper than 1,024 levels.
    SegmentsTooLarge,
    /// More than 1,048,576 elements under indices that are not static.
    IndexTooWide,
    /// A byte up to which no emitted text begins.
    SvUnexpected,
    /// A width, a literal, a select or a label of a wrong size in an emitted text.
    SvSize,
    /// A name of an emitted text that is not declared, or is declared twice.
    SvName,
    /// A variable of an emitted text that is not assigned by one block as its sort wants.
    SvDriver,
    /// Combinational blocks of an emitted text that read in a cycle what others assign.
    SvLoop,
    /// An emitted text nested deeper than 8,192 levels.
    SvDepth,
    /// An instance of an emitted text that does not fit a module of it.
    SvInstance,
    /// An emitted text whose modules are too many when they are copied into one.
    HierTooLarge,
    /// A line of a stimulus of no form, or of another number of values than ports.
    StimText,
    /// Ports of a stimulus that are not the inputs without the clock in their order.
    StimPort,
    /// A value of a stimulus that has more bits than its port.
    StimValue,
}

impl Code {
    /// The number that is printed behind `E`.
    pub fn number(self) -> u16
        ensures number { result ≡ code_number self }
    {
        match self {
            Code::BadByte => 101,
            Code::OpenComment => 102,
            Code::BadLiteral => 103,
            Code::OutsideWord => 104,
            Code::Directive => 105,
            Code::IncludeDepth => 106,
            Code::OpenConditional => 107,
            Code::FileTooLong => 108,
            Code::TooManyFiles => 109,
            Code::TooManyTokens => 110,
            Code::Unexpected => 201,
            Code::TooDeep => 202,
            Code::UnknownName => 301,
            Code::DuplicateName => 302,
            Code::Width => 303,
            Code::Mismatch => 304,
            Code::NotConstant => 305,
            Code::ConstRange => 306,
            Code::Arguments => 307,
            Code::TemplateDepth => 308,
            Code::Recursion => 309,
            Code::WideLoss => 310,
            Code::Divisor => 311,
            Code::RangeOrder => 312,
            Code::CallPlace => 313,
            Code::TooManyInstances => 314,
            Code::Unbound => 401,
            Code::BoundTwice => 402,
            Code::BindKind => 403,
            Code::Constructor => 404,
            Code::EmptyPointer => 405,
            Code::Sensitivity => 406,
            Code::ClockPort => 407,
            Code::ClockAsData => 408,
            Code::NoReset => 409,
            Code::TooManyObjects => 410,
            Code::StorageTooLarge => 411,
            Code::ConstructionTurns => 412,
            Code::TooManyClocks => 413,
            Code::TwoWriters => 501,
            Code::SharedVariable => 502,
            Code::MissingSensitivity => 503,
            Code::Latch => 504,
            Code::CombLoop => 505,
            Code::CombState => 506,
            Code::WaitInMethod => 507,
            Code::UncountedLoop => 508,
            Code::LoopMayNotWait => 509,
            Code::EndReached => 510,
            Code::PointerAssigned => 511,
            Code::StaticIndex => 512,
            Code::SignalIndex => 513,
            Code::ResetValue => 514,
            Code::TooLarge => 601,
            Code::TooManyTurns => 602,
            Code::TooManyStates => 603,
            Code::SegmentsTooLarge => 604,
            Code::IndexTooWide => 605,
            Code::SvUnexpected => 701,
            Code::SvSize => 702,
            Code::SvName => 703,
            Code::SvDriver => 704,
            Code::SvLoop => 705,
            Code::SvDepth => 706,
            Code::SvInstance => 707,
            Code::HierTooLarge => 708,
            Code::StimText => 801,
            Code::StimPort => 802,
            Code::StimValue => 803,
        }
    }

    /// The name in lower case, with spaces between its words.
    pub fn text(self) -> &'static str
        ensures text { result.now ≡ code_text self }
    {
        match self {
            Code::BadByte => "bad byte",
            Code::OpenComment => "open comment",
            Code::BadLiteral => "bad literal",
            Code::OutsideWord => "outside word",
            Code::Directive => "directive",
            Code::IncludeDepth => "include depth",
            Code::OpenConditional => "open conditional",
            Code::FileTooLong => "file too long",
            Code::TooManyFiles => "too many files",
            Code::TooManyTokens => "too many tokens",
            Code::Unexpected => "unexpected",
            Code::TooDeep => "too deep",
            Code::UnknownName => "unknown name",
            Code::DuplicateName => "duplicate name",
            Code::Width => "width",
            Code::Mismatch => "mismatch",
            Code::NotConstant => "not constant",
            Code::ConstRange => "const range",
            Code::Arguments => "arguments",
            Code::TemplateDepth => "template depth",
            Code::Recursion => "recursion",
            Code::WideLoss => "wide loss",
            Code::Divisor => "divisor",
            Code::RangeOrder => "range order",
            Code::CallPlace => "call place",
            Code::TooManyInstances => "too many instances",
            Code::Unbound => "unbound",
            Code::BoundTwice => "bound twice",
            Code::BindKind => "bind kind",
            Code::Constructor => "constructor",
            Code::EmptyPointer => "empty pointer",
            Code::Sensitivity => "sensitivity",
            Code::ClockPort => "clock port",
            Code::ClockAsData => "clock as data",
            Code::NoReset => "no reset",
            Code::TooManyObjects => "too many objects",
            Code::StorageTooLarge => "storage too large",
            Code::ConstructionTurns => "construction turns",
            Code::TooManyClocks => "too many clocks",
            Code::TwoWriters => "two writers",
            Code::SharedVariable => "shared variable",
            Code::MissingSensitivity => "missing sensitivity",
            Code::Latch => "latch",
            Code::CombLoop => "comb loop",
            Code::CombState => "comb state",
            Code::WaitInMethod => "wait in method",
            Code::UncountedLoop => "uncounted loop",
            Code::LoopMayNotWait => "loop may not wait",
            Code::EndReached => "end reached",
            Code::PointerAssigned => "pointer assigned",
            Code::StaticIndex => "static index",
            Code::SignalIndex => "signal index",
            Code::ResetValue => "reset value",
            Code::TooLarge => "too large",
            Code::TooManyTurns => "too many turns",
            Code::TooManyStates => "too many states",
            Code::SegmentsTooLarge => "segments too large",
            Code::IndexTooWide => "index too wide",
            Code::SvUnexpected => "sv unexpected",
            Code::SvSize => "sv size",
            Code::SvName => "sv name",
            Code::SvDriver => "sv driver",
            Code::SvLoop => "sv loop",
            Code::SvDepth => "sv depth",
            Code::SvInstance => "sv instance",
            Code::HierTooLarge => "hier too large",
            Code::StimText => "stim text",
            Code::StimPort => "stim port",
            Code::StimValue => "stim value",
        }
    }
}
