// Words that 8.3 refuses as labels.
//
// Before: function match() {}
// After:  the same, reported
ghost use Rattle.std.specs.Prelude.{◌≡◌, ◌++◌, ◌&&◌, true, suc, zero, map, IfOk, OnOk};
ghost use Rattle.php_tree.specs.Tree.{Forest, leaf as leaf_then};
ghost use Rattle.php_tree.specs.Places.{behind as behind_token};
ghost use Rattle.php_terminals.specs.Classify.{terminal};
ghost use Rattle.php_rows.specs.Reading.{forest_in};
ghost use Rattle.syntax_upgrade.specs.Found.{found_of};
ghost use Rattle.syntax_upgrade.specs.NameHeads.{head_at};
ghost use Rattle.syntax_upgrade.specs.Reports.{reports_in};
ghost use Rattle.syntax_upgrade.specs.ReservedName as spec;
ghost use Rattle.syntax_upgrade.specs.TokenStandings.{standing_of};
ghost use Rattle.syntax_upgrade.specs.Words.{seen};

use crate::found::{Found, add};
use crate::next::first_word;
use crate::past::{past_bytes, past_token};
use crate::split_name::head_of_parts;
use crate::token_standing::{
    TokenStanding, at_first, class_by, declares, is_as, is_double_colon, is_keyword_now, is_match,
    is_root, is_type_now, past_class, past_inner,
};
use crate::word::Word;
use php_rows::Parts;
use php_terminals::terminal::Terminal;
use php_tree::NodeKind;
use rule_tables::{Cause, RuleId};
use std::alloc::AllocError;

/// Where a walk over a node's own tokens is: the place behind the last one, how many of the next ones are inside a name, and
/// where the next one stands.
#[derive(Clone, Copy)]
pub(crate) struct WordSpot {
    pub(crate) place: u32,
    pub(crate) more: usize,
    pub(crate) standing: TokenStanding,
}

// Whether a use gives a class the name that ends in a token of this class, before one of another.
fn gives_type(of_class: bool, class: Terminal, next: Terminal) -> bool
    ensures { result ≡ spec.gives_type of_class class next }
{
    of_class && is_type_now(class) && !(is_as(next) || is_root(next))
}

fn in_class(standing: TokenStanding, class: Terminal) -> bool
    ensures { result ≡ spec.in_class (standing_of standing) class }
{
    is_keyword_now(class) || (declares(standing.before) && is_type_now(class))
}

// Whether 8.3 refuses a token of a class, a whole name or no name, that stands so in a node, before one of another class.
fn refuses(kind: NodeKind, standing: TokenStanding, class: Terminal, next: Terminal) -> bool
    ensures { result ≡ spec.refuses kind (standing_of standing) class next }
{
    match kind {
        NodeKind::Function | NodeKind::Call => is_match(class),
        NodeKind::Constant
        | NodeKind::TypeName
        | NodeKind::New
        | NodeKind::InstanceOf
        | NodeKind::Try
        | NodeKind::Const
        | NodeKind::Goto
        | NodeKind::LabelStmt
        | NodeKind::Declare => is_keyword_now(class),
        NodeKind::ClassConstant | NodeKind::StaticProp | NodeKind::StaticCall => is_keyword_now(
            class,
        ) && !is_double_colon(standing.before),
        NodeKind::TraitUse => is_keyword_now(class) && !standing.in_braces,
        NodeKind::Class | NodeKind::Interface | NodeKind::Trait => in_class(standing, class),
        NodeKind::Use => is_keyword_now(class) || gives_type(standing.of_class, class, next),
        NodeKind::Block
        | NodeKind::Empty
        | NodeKind::ExprStmt
        | NodeKind::Echo
        | NodeKind::Html
        | NodeKind::Return
        | NodeKind::If
        | NodeKind::IfAlt
        | NodeKind::While
        | NodeKind::DoWhile
        | NodeKind::For
        | NodeKind::Foreach
        | NodeKind::Switch
        | NodeKind::Case
        | NodeKind::Break
        | NodeKind::Continue
        | NodeKind::Global
        | NodeKind::Statics
        | NodeKind::Unset
        | NodeKind::Throw
        | NodeKind::Param
        | NodeKind::Property
        | NodeKind::ClassConst
        | NodeKind::Method
        | NodeKind::Namespace
        | NodeKind::Variable
        | NodeKind::Number
        | NodeKind::Float
        | NodeKind::Text
        | NodeKind::Quoted
        | NodeKind::Array
        | NodeKind::Item
        | NodeKind::List
        | NodeKind::Paren
        | NodeKind::Offset
        | NodeKind::BraceOffset
        | NodeKind::Prop
        | NodeKind::MethodCall
        | NodeKind::Args
        | NodeKind::Isset
        | NodeKind::EmptyTest
        | NodeKind::Exit
        | NodeKind::Closure
        | NodeKind::Arrow
        | NodeKind::Include
        | NodeKind::EvalTest
        | NodeKind::Binary
        | NodeKind::Prefix
        | NodeKind::Postfix
        | NodeKind::Cast
        | NodeKind::Ternary
        | NodeKind::ShortTernary
        | NodeKind::Assign
        | NodeKind::AssignRef
        | NodeKind::CompoundAssign
        | NodeKind::Print
        | NodeKind::Yield => false,
    }
}

// The same for the last token of a name with `\`.
fn refuses_last(kind: NodeKind, standing: TokenStanding, class: Terminal, next: Terminal) -> bool
    ensures { result ≡ spec.refuses_last kind (standing_of standing) class next }
{
    matches!(kind, NodeKind::Use) && gives_type(standing.of_class, class, next)
}

// Whether 8.3 refuses a token of this class anywhere.
pub(crate) fn is_doubtful(class: Terminal) -> bool
    ensures { result ≡ spec.is_doubtful class }
{
    is_keyword_now(class) || is_type_now(class)
}

// Whether nothing of a node's own is refused.
fn is_quiet(kind: NodeKind) -> bool
    ensures { result ≡ spec.is_quiet kind }
{
    match kind {
        NodeKind::Function
        | NodeKind::Call
        | NodeKind::Constant
        | NodeKind::TypeName
        | NodeKind::New
        | NodeKind::InstanceOf
        | NodeKind::Try
        | NodeKind::ClassConstant
        | NodeKind::StaticProp
        | NodeKind::StaticCall
        | NodeKind::TraitUse
        | NodeKind::Class
        | NodeKind::Interface
        | NodeKind::Trait
        | NodeKind::Const
        | NodeKind::Use
        | NodeKind::Goto
        | NodeKind::LabelStmt
        | NodeKind::Declare => false,
        _ => true,
    }
}

// The class of the first token among these parts, or of the name that begins with it, where this is what they begin with.
fn class_ahead(parts: Parts) -> Result<Terminal, AllocError>
    ensures { IfOk result (λ class. class ≡ spec.next (forest_in parts.entry)) }
{
    match first_word(parts) {
        None => Ok(Terminal::End),
        Some(token) => {
            let more = more_behind(token, parts)?;
            Ok(class_by(more, token.class))
        }
    }
}

// How many tokens of the name that begins these parts stand behind its first one.
fn more_behind(token: Word, parts: Parts) -> Result<usize, AllocError>
    ensures { (f : Forest) → forest_in parts.entry ≡ leaf_then (seen token.entry) f →
        IfOk result (λ n. n ≡ (head_at (seen token.entry) f).more) }
{
    let ahead = head_of_parts(true, false, token, parts)?;
    Ok(ahead.more)
}

fn is_last(more: usize) -> bool
    ensures { result ≡ spec.is_last more }
{
    more == 0
}

// Puts a token, whose trivia begin at a place, behind other places where it is refused.
fn add_if(is_refused: bool, at: u32, token: Word, out: &mut Vec<Found>) -> Result<(), AllocError>
    ensures { OnOk result (map found_of out.new.items ≡ map found_of out.old.items
        ++ spec.refused_if is_refused at (seen token.entry)) }
{
    if !is_refused {
        return Ok(());
    }
    let start = past_bytes(at, token.lead)?;
    let end = past_bytes(start, token.text)?;
    add(start, end, RuleId::ReservedName, Cause::Always, out)
}

// Whether 8.3 refuses a token that begins these parts, where the others stand behind it.
fn is_refused(
    kind: NodeKind,
    standing: TokenStanding,
    more: usize,
    token: Word,
    behind: Parts,
) -> Result<bool, AllocError>
    ensures { IfOk result (λ b. b ≡ (spec.is_last more
        && spec.refuses kind (standing_of standing) (terminal (seen token.entry)) (spec.next (forest_in behind.entry)))) }
{
    if !is_last(more) {
        return Ok(false);
    }
    if !is_doubtful(token.class) {
        return Ok(false);
    }
    Ok(refuses(kind, standing, token.class, class_ahead(behind)?))
}

// Whether 8.3 refuses a token inside a name, with so many behind it in the name, and these parts behind it.
fn is_last_refused(
    kind: NodeKind,
    standing: TokenStanding,
    more: usize,
    token: Word,
    behind: Parts,
) -> Result<bool, AllocError>
    ensures { IfOk result (λ b. b ≡ (spec.is_last more
        && spec.refuses_last kind (standing_of standing) (terminal (seen token.entry)) (spec.next (forest_in behind.entry)))) }
{
    if !is_last(more) || !is_doubtful(token.class) {
        return Ok(false);
    }
    Ok(refuses_last(kind, standing, token.class, class_ahead(behind)?))
}

// A token outside names, or the first one of a name, which begins these parts, with others behind it.
fn begin(
    kind: NodeKind,
    spot: WordSpot,
    token: Word,
    parts: Parts,
    behind: Parts,
    out: &mut Vec<Found>,
) -> Result<WordSpot, AllocError>
    requires { forest_in parts ≡ leaf_then (seen token) (forest_in behind) }
    ensures place { IfOk result (λ s. s.place ≡ behind_token spot.place (seen token.entry)) }
    ensures places { IfOk result (λ s.
        map found_of out.new.items ++ reports_in kind (standing_of s.standing) s.more s.place (forest_in behind.entry)
        ≡ map found_of out.old.items
        ++ reports_in kind (standing_of spot.standing) zero spot.place (leaf_then (seen token.entry) (forest_in behind.entry))) }
{
    let more = more_behind(token, parts)?;
    let refused = is_refused(kind, spot.standing, more, token, behind)?;
    add_if(refused, spot.place, token, out)?;
    Ok(WordSpot {
        place: past_token(spot.place, token)?,
        more,
        standing: past_class(spot.standing, class_by(more, token.class)),
    })
}

// A token inside a name, with these parts behind it.
fn go_on(
    kind: NodeKind,
    spot: WordSpot,
    more: usize,
    token: Word,
    behind: Parts,
    out: &mut Vec<Found>,
) -> Result<WordSpot, AllocError>
    ensures place { IfOk result (λ s. s.place ≡ behind_token spot.place (seen token.entry)) }
    ensures places { IfOk result (λ s.
        map found_of out.new.items ++ reports_in kind (standing_of s.standing) s.more s.place (forest_in behind.entry)
        ≡ map found_of out.old.items
        ++ reports_in kind (standing_of spot.standing) (suc more) spot.place (leaf_then (seen token.entry) (forest_in behind.entry))) }
{
    let refused = is_last_refused(kind, spot.standing, more, token, behind)?;
    add_if(refused, spot.place, token, out)?;
    Ok(WordSpot {
        place: past_token(spot.place, token)?,
        more,
        standing: spot.standing,
    })
}

// A token of a node in which nothing is refused.
fn pass(kind: NodeKind, spot: WordSpot, token: Word, behind: Parts) -> Result<WordSpot, AllocError>
    requires { spec.is_quiet kind ≡ true }
    ensures place { IfOk result (λ s. s.place ≡ behind_token spot.place (seen token.entry)) }
    ensures places { IfOk result (λ s.
        reports_in kind (standing_of s.standing) s.more s.place (forest_in behind.entry)
        ≡ reports_in kind (standing_of spot.standing) spot.more spot.place (leaf_then (seen token.entry) (forest_in behind.entry))) }
{
    let _behind = behind;
    Ok(WordSpot {
        place: past_token(spot.place, token)?,
        ..spot
    })
}

/// The next token of a node, which begins these parts, with others behind it: it goes behind other places where 8.3 refuses it.
pub(crate) fn word(
    kind: NodeKind,
    spot: WordSpot,
    token: Word,
    parts: Parts,
    behind: Parts,
    out: &mut Vec<Found>,
) -> Result<WordSpot, AllocError>
    requires { forest_in parts ≡ leaf_then (seen token) (forest_in behind) }
    ensures place { IfOk result (λ s. s.place ≡ behind_token spot.place (seen token.entry)) }
    ensures places { IfOk result (λ s.
        map found_of out.new.items ++ reports_in kind (standing_of s.standing) s.more s.place (forest_in behind.entry)
        ≡ map found_of out.old.items
        ++ reports_in kind (standing_of spot.standing) spot.more spot.place (leaf_then (seen token.entry) (forest_in behind.entry))) }
{
    if is_quiet(kind) {
        return pass(kind, spot, token, behind);
    }
    if spot.more == 0 {
        return begin(kind, spot, token, parts, behind, out);
    }
    go_on(kind, spot, spot.more - 1, token, behind, out)
}

/// Before the first part of a node that begins at a place.
pub(crate) fn at_front(at: u32) -> WordSpot
    ensures place { result.place ≡ at }
    ensures more { result.more ≡ zero }
    ensures standing { standing_of result.standing ≡ spec.at_first }
{
    WordSpot {
        place: at,
        more: 0,
        standing: at_first(),
    }
}

/// Behind a node that ends at a place.
pub(crate) fn behind_inner(spot: WordSpot, end: u32) -> WordSpot
    ensures place { result.place ≡ end }
    ensures more { result.more ≡ zero }
    ensures standing { standing_of result.standing ≡ spec.past_node (standing_of spot.standing) }
{
    WordSpot {
        place: end,
        more: 0,
        standing: past_inner(spot.standing),
    }
}
