// What a token is to the grammar.
ghost use Rattle.std.specs.Prelude.{◌≡◌};
ghost use Rattle.php_terminals.specs.Terminals.{code};

/// A class of tokens. Each token is of one of the first classes; the last ones, from `AnyLabel` on, stand in forms for
/// several of them.
#[derive(Clone, Copy, Debug, PartialEq, Eq)]
pub enum Terminal {
    /// Text between PHP tags.
    InlineHtml,
    /// A variable.
    Variable,
    /// A whole number.
    Int,
    /// A number with a fraction or an exponent.
    Float,
    /// A text without variables.
    Text,
    /// The opening of a quoted text, a heredoc or backticks.
    QuoteOpen,
    /// Text between the parts of a quoted text.
    Piece,
    /// `{` before `$` in a quoted text.
    CurlyOpen,
    /// `${` in a quoted text.
    DollarBrace,
    /// A label after `${` in a quoted text.
    VarName,
    /// The closing of a quoted text, a heredoc or backticks.
    QuotedEnd,
    /// A cast that both versions have.
    Cast,
    /// `(real)` and `(unset)`, which 8.3 refuses.
    OldCast,
    /// `#[`, in 8.3.
    AttributeOpen,
    /// A name with `\` between its parts, in 8.3.
    QualifiedName,
    /// A name that begins with `\`, in 8.3.
    FullName,
    /// A name that begins with `namespace\`, in 8.3.
    RelativeName,
    /// `;` or `?>`.
    Semi,
    /// The end of the file, and of any list of tokens.
    End,
    /// A label with nothing to it.
    Label,
    /// The label `match`.
    Match,
    /// The label `readonly`.
    Readonly,
    /// The labels `mixed` and `never`.
    MixedOrNever,
    /// `array`.
    Array,
    /// `as`.
    As,
    /// `break`.
    Break,
    /// `callable`.
    Callable,
    /// `case`.
    Case,
    /// `catch`.
    Catch,
    /// `class`.
    Class,
    /// `clone`.
    Clone,
    /// `const`.
    Const,
    /// `continue`.
    Continue,
    /// `declare`.
    Declare,
    /// `default`.
    Default,
    /// `do`.
    Do,
    /// `echo` or `<?=`.
    Echo,
    /// `else`.
    Else,
    /// `elseif`.
    ElseIf,
    /// `empty`.
    Empty,
    /// `enddeclare`.
    EndDeclare,
    /// `endfor`.
    EndFor,
    /// `endforeach`.
    EndForeach,
    /// `endif`.
    EndIf,
    /// `endswitch`.
    EndSwitch,
    /// `endwhile`.
    EndWhile,
    /// `eval`.
    Eval,
    /// `exit` or `die`.
    Exit,
    /// `extends`.
    Extends,
    /// `finally`.
    Finally,
    /// `fn`.
    Fn,
    /// `for`.
    For,
    /// `foreach`.
    Foreach,
    /// `function`.
    Function,
    /// `global`.
    Global,
    /// `goto`.
    Goto,
    /// `if`.
    If,
    /// `implements`.
    Implements,
    /// `include`, `require` and their `_once` forms.
    Include,
    /// `instanceof`.
    InstanceOf,
    /// `interface`.
    Interface,
    /// `isset`.
    Isset,
    /// `list`.
    List,
    /// `namespace`.
    Namespace,
    /// `new`.
    New,
    /// `and`.
    And,
    /// `or`.
    Or,
    /// `xor`.
    Xor,
    /// `print`.
    Print,
    /// `abstract` or `final`.
    ClassModifier,
    /// `public`, `protected`, `private` or `var`.
    Visibility,
    /// `return`.
    Return,
    /// `static`.
    Static,
    /// `switch`.
    Switch,
    /// `throw`.
    Throw,
    /// `trait`.
    Trait,
    /// `try`.
    Try,
    /// `unset`.
    Unset,
    /// `use`.
    Use,
    /// `while`.
    While,
    /// `yield`.
    Yield,
    /// `yield from`.
    YieldFrom,
    /// A keyword that no form has.
    OtherKeyword,
    /// `(`.
    OpenParen,
    /// `)`.
    CloseParen,
    /// `[`.
    OpenBracket,
    /// `]`.
    CloseBracket,
    /// `{`.
    OpenBrace,
    /// `}`.
    CloseBrace,
    /// `,`.
    Comma,
    /// `:`.
    Colon,
    /// `::`.
    DoubleColon,
    /// `->`.
    Arrow,
    /// `=>`.
    DoubleArrow,
    /// `\`.
    Backslash,
    /// `$`.
    Dollar,
    /// `...`.
    Ellipsis,
    /// `?`.
    Question,
    /// `=`.
    Assign,
    /// `+=`, `-=`, `*=`, `/=`, `.=`, `%=`, `**=`, `&=`, `|=`, `^=`, `<<=`, `>>=` or `??=`.
    CompoundAssign,
    /// `**`.
    Power,
    /// `+`.
    Plus,
    /// `-`.
    Minus,
    /// `*`, `/` or `%`.
    Factor,
    /// `<<` or `>>`.
    Shift,
    /// `.`.
    Dot,
    /// `<`, `<=`, `>` or `>=`.
    Order,
    /// `==`, `!=`, `===`, `!==`, `<>` or `<=>`.
    Equality,
    /// `&`.
    Ampersand,
    /// `^`.
    Caret,
    /// `|`.
    Bar,
    /// `&&`.
    BooleanAnd,
    /// `||`.
    BooleanOr,
    /// `??`.
    Coalesce,
    /// `++` or `--`.
    Step,
    /// `!`.
    Not,
    /// `~` or `@`.
    Tight,
    /// An operator that no form has.
    OtherOp,
    /// Any label.
    AnyLabel,
    /// A label that a constant, an alias, a goto or a directive may have.
    FreeLabel,
    /// A label that a function may be declared with.
    FunctionLabel,
    /// A label that a class, an interface or a trait may be declared with, or a Use may give a class.
    ClassLabel,
    /// A whole name, in 8.3.
    NameToken,
    /// A whole name of a function that is called, in 8.3.
    CalledName,
    /// A whole name that a namespace may have, in 8.3.
    NamespaceToken,
    /// A whole name that a Use may have, in 8.3.
    ImportedName,
    /// A whole name that a Use may have and give to a class, in 8.3.
    ImportedClass,
    /// A whole name within the braces of a Use, in 8.3.
    GroupedName,
    /// A whole name within the braces of a Use that gives it to a class, in 8.3.
    GroupedClass,
    /// `\AllowDynamicProperties`, in 8.3.
    AttributeName,
    /// A label or a keyword.
    AnyWord,
    /// A label or a keyword other than `class`.
    ConstantWord,
    /// A modifier of a member.
    Modifier,
    /// An operator between two operands.
    BinaryOperator,
    /// A sign, `~` or `@`.
    SignOrTight,
    /// No token.
    Never,
}

/// A number for each class.
pub fn code(terminal: Terminal) -> u8
    ensures { result ≡ code terminal }
{
    match terminal {
        Terminal::InlineHtml => 0,
        Terminal::Variable => 1,
        Terminal::Int => 2,
        Terminal::Float => 3,
        Terminal::Text => 4,
        Terminal::QuoteOpen => 5,
        Terminal::Piece => 6,
        Terminal::CurlyOpen => 7,
        Terminal::DollarBrace => 8,
        Terminal::VarName => 9,
        Terminal::QuotedEnd => 10,
        Terminal::Cast => 11,
        Terminal::OldCast => 12,
        Terminal::AttributeOpen => 13,
        Terminal::QualifiedName => 14,
        Terminal::FullName => 15,
        Terminal::RelativeName => 16,
        Terminal::Semi => 17,
        Terminal::End => 18,
        Terminal::Label => 19,
        Terminal::Match => 20,
        Terminal::Readonly => 21,
        Terminal::MixedOrNever => 22,
        Terminal::Array => 23,
        Terminal::As => 24,
        Terminal::Break => 25,
        Terminal::Callable => 26,
        Terminal::Case => 27,
        Terminal::Catch => 28,
        Terminal::Class => 29,
        Terminal::Clone => 30,
        Terminal::Const => 31,
        Terminal::Continue => 32,
        Terminal::Declare => 33,
        Terminal::Default => 34,
        Terminal::Do => 35,
        Terminal::Echo => 36,
        Terminal::Else => 37,
        Terminal::ElseIf => 38,
        Terminal::Empty => 39,
        Terminal::EndDeclare => 40,
        Terminal::EndFor => 41,
        Terminal::EndForeach => 42,
        Terminal::EndIf => 43,
        Terminal::EndSwitch => 44,
        Terminal::EndWhile => 45,
        Terminal::Eval => 46,
        Terminal::Exit => 47,
        Terminal::Extends => 48,
        Terminal::Finally => 49,
        Terminal::Fn => 50,
        Terminal::For => 51,
        Terminal::Foreach => 52,
        Terminal::Function => 53,
        Terminal::Global => 54,
        Terminal::Goto => 55,
        Terminal::If => 56,
        Terminal::Implements => 57,
        Terminal::Include => 58,
        Terminal::InstanceOf => 59,
        Terminal::Interface => 60,
        Terminal::Isset => 61,
        Terminal::List => 62,
        Terminal::Namespace => 63,
        Terminal::New => 64,
        Terminal::And => 65,
        Terminal::Or => 66,
        Terminal::Xor => 67,
        Terminal::Print => 68,
        Terminal::ClassModifier => 69,
        Terminal::Visibility => 70,
        Terminal::Return => 71,
        Terminal::Static => 72,
        Terminal::Switch => 73,
        Terminal::Throw => 74,
        Terminal::Trait => 75,
        Terminal::Try => 76,
        Terminal::Unset => 77,
        Terminal::Use => 78,
        Terminal::While => 79,
        Terminal::Yield => 80,
        Terminal::YieldFrom => 81,
        Terminal::OtherKeyword => 82,
        Terminal::OpenParen => 83,
        Terminal::CloseParen => 84,
        Terminal::OpenBracket => 85,
        Terminal::CloseBracket => 86,
        Terminal::OpenBrace => 87,
        Terminal::CloseBrace => 88,
        Terminal::Comma => 89,
        Terminal::Colon => 90,
        Terminal::DoubleColon => 91,
        Terminal::Arrow => 92,
        Terminal::DoubleArrow => 93,
        Terminal::Backslash => 94,
        Terminal::Dollar => 95,
        Terminal::Ellipsis => 96,
        Terminal::Question => 97,
        Terminal::Assign => 98,
        Terminal::CompoundAssign => 99,
        Terminal::Power => 100,
        Terminal::Plus => 101,
        Terminal::Minus => 102,
        Terminal::Factor => 103,
        Terminal::Shift => 104,
        Terminal::Dot => 105,
        Terminal::Order => 106,
        Terminal::Equality => 107,
        Terminal::Ampersand => 108,
        Terminal::Caret => 109,
        Terminal::Bar => 110,
        Terminal::BooleanAnd => 111,
        Terminal::BooleanOr => 112,
        Terminal::Coalesce => 113,
        Terminal::Step => 114,
        Terminal::Not => 115,
        Terminal::Tight => 116,
        Terminal::OtherOp => 117,
        Terminal::AnyLabel => 118,
        Terminal::FreeLabel => 119,
        Terminal::FunctionLabel => 120,
        Terminal::ClassLabel => 121,
        Terminal::NameToken => 122,
        Terminal::CalledName => 123,
        Terminal::NamespaceToken => 124,
        Terminal::ImportedName => 125,
        Terminal::ImportedClass => 126,
        Terminal::GroupedName => 127,
        Terminal::GroupedClass => 128,
        Terminal::AttributeName => 129,
        Terminal::AnyWord => 130,
        Terminal::ConstantWord => 131,
        Terminal::Modifier => 132,
        Terminal::BinaryOperator => 133,
        Terminal::SignOrTight => 134,
        Terminal::Never => 135,
    }
}
