// What the rows of the token tables are made of.

/// The kind of a row: that of the trivia or the token that it describes. `Word` and the whole
/// numbers are settled by the text.
#[derive(Clone, Copy)]
pub enum Kind {
    Space,
    Comment,
    Tag,
    OpenEcho,
    InlineHtml,
    Variable,
    Word,
    Label,
    Keyword,
    Name,
    Decimal,
    Octal,
    Hexadecimal,
    Binary,
    Digits,
    Float,
    Text,
    Quote,
    Backtick,
    HeredocStart,
    Cast,
    Op,
    AttributeOpen,
    Semi,
    Close,
    Piece,
    CurlyOpen,
    DollarBrace,
    VarName,
    QuotedEnd,
}

/// Where a walk over a run, or over a text with a closing byte, is.
#[derive(Clone, Copy)]
pub enum State {
    First,
    Plain,
    Escaped,
}

/// What a quoted text stands between.
#[derive(Clone, Copy)]
pub enum Mark {
    Double,
    Back,
    Here,
}

/// What goes on byte by byte.
#[derive(Clone, Copy)]
pub enum Run {
    Spaces,
    Labels,
    Line,
    HashLine,
    Html,
    Body(Mark),
}

/// What ends with a closing byte.
#[derive(Clone, Copy)]
pub enum Until {
    Simple,
    Closed,
    Block,
    CastWord,
    From,
}

/// What has one of the shapes that states describe.
#[derive(Clone, Copy)]
pub enum Shape {
    Decimal,
    Octal,
    Hexadecimal,
    Binary,
    Digits,
    Float,
    Name,
    HeredocLine,
}

/// Where a walk over a shape is. `Stuck` is left by no byte.
#[derive(Clone, Copy)]
pub enum Spot {
    Begin,
    Whole,
    WholeGap,
    LeadPoint,
    Point,
    Part,
    PartGap,
    Mark,
    Sign,
    Power,
    PowerGap,
    FirstLabel,
    Backslash,
    LaterLabel,
    OpenedLabel,
    QuotedLabel,
    ClosedLabel,
    Return,
    Line,
    Stuck,
}

/// What may follow a word that is a token by itself.
#[derive(Clone, Copy)]
pub enum Follow {
    Anything,
    Nothing,
    NoStar,
    Dollar,
    NoNowdocAfterOne,
    NoNowdocAfterTwo,
}

/// What stands behind the word that begins a token.
#[derive(Clone, Copy)]
pub enum Tail {
    When(Follow),
    AnyRun(Run),
    SomeOf(Run, State),
    UpTo(Until),
    Shaped(Shape, Spot),
    AnyWord,
    BracedName,
    EndLine,
    NowdocRest,
}
