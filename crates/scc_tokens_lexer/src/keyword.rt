//! Keywords and punctuators by name; tokens have their numbers (C++, "Keywords", "Operators and punctuators"; IEEE 1666-2011).
ghost use Rattle.std.specs.Prelude.{◌≡◌, Some};
ghost use Rattle.scc_tokens_lexer.specs.Keywords.{keyword_number, punct_number};
ghost use Rattle.scc_tokens_lexer.specs.Words.{word_text, mark_text};

use crate::words::{MARKS, WORDS};

/// A keyword: a word that the subset keeps for itself. As a number it is its place in `WORDS`.
#[derive(Clone, Copy)]
pub enum Keyword {
    Bool,
    Break,
    Case,
    Char,
    Class,
    Concat,
    Const,
    Continue,
    Default,
    Do,
    Else,
    Enum,
    Explicit,
    False,
    For,
    If,
    Inline,
    Int,
    Int64,
    Namespace,
    New,
    Null,
    Nullptr,
    Private,
    Protected,
    Public,
    Return,
    Short,
    Signed,
    Static,
    StaticCast,
    Struct,
    Switch,
    Template,
    This,
    True,
    Typedef,
    Typename,
    Uint64,
    Unsigned,
    Using,
    Void,
    Wait,
    While,
    /// `SC_MODULE`
    ModuleMacro,
    ScCtor,
    ScHasProcess,
    ScMethod,
    ScThread,
    ScCthread,
    /// `sc_module`
    ScModule,
    ScModuleName,
    ScIn,
    ScInClk,
    ScOut,
    ScSignal,
    ScVector,
    ScInt,
    ScUint,
    ScBiguint,
    ScBv,
    ScCore,
    ScDt,
    Std,
    Sensitive,
    DontInitialize,
    ResetSignalIs,
    AsyncResetSignalIs,
    ScBigint,
}

impl Keyword {
    /// How it is written.
    pub fn spelling(self) -> &'static str
        ensures { word_text (keyword_number self) ≡ Some result.now }
    {
        WORDS[self as usize]
    }
}

/// A punctuator. As a number it is its place in `MARKS`.
#[derive(Clone, Copy)]
pub enum Punct {
    /// `{`
    BraceOpen,
    /// `}`
    BraceClose,
    /// `(`
    ParenOpen,
    /// `)`
    ParenClose,
    /// `[`
    BracketOpen,
    /// `]`
    BracketClose,
    /// `<`
    Less,
    /// `>`
    Greater,
    /// `;`
    Semicolon,
    /// `,`
    Comma,
    /// `:`
    Colon,
    /// `::`
    Scope,
    /// `.`
    Dot,
    /// `->`
    Arrow,
    /// `?`
    Question,
    /// `=`
    Assign,
    /// `+`
    Plus,
    /// `-`
    Minus,
    /// `*`
    Star,
    /// `/`
    Slash,
    /// `%`
    Percent,
    /// `&`
    And,
    /// `|`
    Or,
    /// `^`
    Xor,
    /// `~`
    Tilde,
    /// `!`
    Not,
    /// `<<`
    ShiftLeft,
    /// `>>`
    ShiftRight,
    /// `<=`
    LessEqual,
    /// `>=`
    GreaterEqual,
    /// `==`
    Equal,
    /// `!=`
    NotEqual,
    /// `&&`
    AndAnd,
    /// `||`
    OrOr,
    /// `++`
    PlusPlus,
    /// `--`
    MinusMinus,
    /// `+=`
    PlusAssign,
    /// `-=`
    MinusAssign,
    /// `*=`
    StarAssign,
    /// `/=`
    SlashAssign,
    /// `%=`
    PercentAssign,
    /// `&=`
    AndAssign,
    /// `|=`
    OrAssign,
    /// `^=`
    XorAssign,
    /// `<<=`
    ShiftLeftAssign,
    /// `>>=`
    ShiftRightAssign,
    /// `#`
    Hash,
}

impl Punct {
    /// How it is written.
    pub fn spelling(self) -> &'static str
        ensures { mark_text (punct_number self) ≡ Some result.now }
    {
        MARKS[self as usize]
    }
}
