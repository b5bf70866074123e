// Where a token stands among its node's own.
ghost use Rattle.std.specs.Prelude.{◌≡◌};
ghost use Rattle.syntax_upgrade.specs.ReservedName as spec;
ghost use Rattle.syntax_upgrade.specs.TokenStandings.{rank_of, standing_of};

use php_terminals::terminal::Terminal;

/// How many tokens stand before a token.
#[derive(Clone, Copy)]
pub(crate) enum Rank {
    First,
    Second,
    Later,
}

/// Where a token stands among its node's own: the class of the one before it, whether a brace was opened, and in a use
/// where it stands, whether names are classes', and whether this one is.
#[derive(Clone, Copy)]
pub(crate) struct TokenStanding {
    pub(crate) before: Terminal,
    pub(crate) in_braces: bool,
    pub(crate) rank: Rank,
    pub(crate) of_classes: bool,
    pub(crate) of_class: bool,
}

/// Whether a class is `match`.
pub(crate) fn is_match(class: Terminal) -> bool
    ensures { result ≡ spec.is_match class }
{
    matches!(class, Terminal::Match)
}

/// Whether a class is `match` or `readonly`.
pub(crate) fn is_keyword_now(class: Terminal) -> bool
    ensures { result ≡ spec.is_keyword_now class }
{
    matches!(class, Terminal::Match | Terminal::Readonly)
}

/// Whether a class is `mixed` or `never`.
pub(crate) fn is_type_now(class: Terminal) -> bool
    ensures { result ≡ spec.is_type_now class }
{
    matches!(class, Terminal::MixedOrNever)
}

/// Whether a class is of what stands before the name that a class, an interface or a trait declares.
pub(crate) fn declares(class: Terminal) -> bool
    ensures { result ≡ spec.declares class }
{
    matches!(
        class,
        Terminal::Class | Terminal::Interface | Terminal::Trait
    )
}

fn is_of_code(class: Terminal) -> bool
    ensures { result ≡ spec.is_of_code class }
{
    matches!(class, Terminal::Function | Terminal::Const)
}

/// Whether a class is `::`.
pub(crate) fn is_double_colon(class: Terminal) -> bool
    ensures { result ≡ spec.is_double_colon class }
{
    matches!(class, Terminal::DoubleColon)
}

fn is_brace(class: Terminal) -> bool
    ensures { result ≡ spec.is_brace class }
{
    matches!(class, Terminal::OpenBrace)
}

fn is_comma(class: Terminal) -> bool
    ensures { result ≡ spec.is_comma class }
{
    matches!(class, Terminal::Comma)
}

/// Whether a class is `as`.
pub(crate) fn is_as(class: Terminal) -> bool
    ensures { result ≡ spec.is_as class }
{
    matches!(class, Terminal::As)
}

/// Whether a class is `\`.
pub(crate) fn is_root(class: Terminal) -> bool
    ensures { result ≡ spec.is_root class }
{
    matches!(class, Terminal::Backslash)
}

// How many tokens stand before the next one.
fn behind_rank(rank: Rank) -> Rank
    ensures { rank_of result ≡ spec.behind_rank (rank_of rank) }
{
    match rank {
        Rank::First => Rank::Second,
        Rank::Second | Rank::Later => Rank::Later,
    }
}

// Whether names are classes' behind a token.
fn are_classes(rank: Rank, classes: bool, class: Terminal) -> bool
    ensures { result ≡ spec.are_classes (rank_of rank) classes class }
{
    match rank {
        Rank::Second => !is_of_code(class),
        Rank::First | Rank::Later => classes,
    }
}

// Whether the name behind a token is a class's.
fn is_class_next(rank: Rank, classes: bool, of_class: bool, class: Terminal) -> bool
    ensures { result ≡ spec.is_class_next (rank_of rank) classes of_class class }
{
    match rank {
        Rank::First => true,
        Rank::Second => !is_of_code(class),
        Rank::Later => {
            if is_comma(class) {
                classes
            } else {
                of_class && !is_of_code(class)
            }
        }
    }
}

/// Where the first token stands.
pub(crate) fn at_first() -> TokenStanding
    ensures { standing_of result ≡ spec.at_first }
{
    TokenStanding {
        before: Terminal::End,
        in_braces: false,
        rank: Rank::First,
        of_classes: false,
        of_class: false,
    }
}

/// Where the token behind one of a class stands.
pub(crate) fn past_class(standing: TokenStanding, class: Terminal) -> TokenStanding
    ensures { standing_of result ≡ spec.past (standing_of standing) class }
{
    let rank = standing.rank;
    TokenStanding {
        before: class,
        in_braces: standing.in_braces || is_brace(class),
        rank: behind_rank(rank),
        of_classes: are_classes(rank, standing.of_classes, class),
        of_class: is_class_next(rank, standing.of_classes, standing.of_class, class),
    }
}

/// Where the token behind a node stands.
pub(crate) fn past_inner(standing: TokenStanding) -> TokenStanding
    ensures { standing_of result ≡ spec.past_node (standing_of standing) }
{
    TokenStanding {
        before: Terminal::End,
        ..standing
    }
}

/// The class of a token, or of the name with `\` that begins with it.
pub(crate) fn class_by(more: usize, class: Terminal) -> Terminal
    ensures { result ≡ spec.class_by more class }
{
    if more == 0 {
        class
    } else {
        Terminal::QualifiedName
    }
}
