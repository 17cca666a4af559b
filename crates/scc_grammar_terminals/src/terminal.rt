use scc_base::{Name, Place};
use scc_bits::{Kind, Op, Word};
use scc_tree::{Family, UnaryOp};

/// What a token is to the grammar: words and marks that stand at the same places of it are one terminal.
#[derive(Clone, Copy)]
pub enum Terminal {
    /// An identifier that is none of the words.
    Ident(Name),
    /// An integer literal.
    Number(Kind, Word),
    /// A text in double quotes.
    Text,
    /// `bool`.
    Bool,
    /// `int`.
    Int,
    /// `short`.
    Short,
    /// `char`.
    Char,
    /// `unsigned`.
    Unsigned,
    /// `signed`.
    Signed,
    /// `int64` (true) or `uint64` (false).
    Long(bool),
    /// `sc_int`, `sc_uint`, `sc_biguint`, `sc_bigint` or `sc_bv`.
    Sized(Family),
    /// `sc_in`, `sc_out`, `sc_signal` or `sc_vector`.
    Holder(Holder),
    /// `sc_in_clk`.
    ClockInput,
    /// `sc_module_name`.
    ModuleName,
    /// `const`.
    Const,
    /// `void`.
    Void,
    /// `class`.
    Class,
    /// `struct`.
    Struct,
    /// `typename`.
    Typename,
    /// `enum`.
    Enum,
    /// `typedef`.
    Typedef,
    /// `template`.
    Template,
    /// `using`.
    Using,
    /// `namespace`.
    Namespace,
    /// `sc_core`, `sc_dt` or `std`.
    Library,
    /// `static`.
    Static,
    /// `inline`.
    Inline,
    /// `explicit`.
    Explicit,
    /// `public`.
    Public,
    /// `private` or `protected`.
    Hidden,
    /// `SC_MODULE`.
    Module,
    /// `sc_module`.
    ModuleBase,
    /// `SC_CTOR`.
    Constructor,
    /// `SC_HAS_PROCESS`.
    HasProcess,
    /// `SC_METHOD` (false) or `SC_THREAD` (true).
    Process(bool),
    /// `SC_CTHREAD`.
    ClockedThread,
    /// `sensitive`.
    Sensitive,
    /// `dont_initialize`.
    DontInitialize,
    /// `reset_signal_is` (false) or `async_reset_signal_is` (true).
    Reset(bool),
    /// `if`.
    If,
    /// `else`.
    Else,
    /// `switch`.
    Switch,
    /// `case`.
    Case,
    /// `default`.
    Default,
    /// `while`.
    While,
    /// `do`.
    Do,
    /// `for`.
    For,
    /// `break`.
    Break,
    /// `continue`.
    Continue,
    /// `return`.
    Return,
    /// `wait`.
    Wait,
    /// `new`.
    New,
    /// `this`.
    This,
    /// `NULL` or `nullptr`.
    Null,
    /// `true` or `false`.
    Truth(bool),
    /// `static_cast`.
    StaticCast,
    /// `concat`.
    Concat,
    /// `{`.
    BraceOpen,
    /// `}`.
    BraceClose,
    /// `(`.
    ParenOpen,
    /// `)`.
    ParenClose,
    /// `[`.
    BracketOpen,
    /// `]`.
    BracketClose,
    /// `<`.
    Less,
    /// `>`.
    Greater,
    /// `;`.
    Semicolon,
    /// `,`.
    Comma,
    /// `:`.
    Colon,
    /// `::`.
    Scope,
    /// `.`.
    Dot,
    /// `->`.
    Arrow,
    /// `?`.
    Question,
    /// `=`.
    Assign,
    /// `+=` and its like.
    Update(Op),
    /// `++` (`Add`) or `--` (`Sub`).
    Step(Op),
    /// `+`.
    Plus,
    /// `-`.
    Minus,
    /// `*`.
    Star,
    /// `/` or `%`.
    Divide(Op),
    /// `&`.
    And,
    /// `|`.
    Or,
    /// `^`.
    Xor,
    /// `~` or `!`.
    Inverse(UnaryOp),
    /// `<<`.
    ShiftLeft,
    /// `>>`.
    ShiftRight,
    /// `<=` or `>=`.
    Order(Op),
    /// `==` or `!=`.
    Equal(Op),
    /// `&&`.
    LogAnd,
    /// `||`.
    LogOr,
    /// A token that stands nowhere in the grammar.
    Other,
}

/// The types that hold a type.
#[derive(Clone, Copy)]
pub enum Holder {
    Input,
    Output,
    Signal,
    Vector,
}

/// A token as the grammar sees it.
#[derive(Clone, Copy)]
pub struct Seen {
    pub terminal: Terminal,
    /// Its first byte.
    pub place: Place,
}
