// Whether heredocs and nowdocs keep the indentation of their closing lines.
ghost use Rattle.std.specs.Prelude.{◌≡◌, List, ℕ, [], true};
ghost use Rattle.php_terminals.specs.Indents.{heredoc_fits, is_heredoc_kind, is_misindented, last_text, literal_fits, parts_fit, quoted_fits};
ghost use Rattle.php_rows.specs.Reading.{forest_in};

use php_rows::{Parts, Step};
use php_terminals::indents::{fresh_by, is_uniform, leaf_fits_by, margin, node_fits, text_fits};
use php_terminals::marked::text_of;
use php_tree::{NodeKind, TokenKind};

// The text of the last token among the parts.
fn last_text<'a>(parts: Parts<'a>) -> &'a [u8]
    ensures { result.now ≡ last_text [] (forest_in parts.entry) }
{
    let mut text: &[u8] = &[];
    let mut left = parts;
    'parts: loop {
        match left.next() {
            None => return text,
            Some(Step::Leaf(mark)) => text = text_of(left.bytes(), mark),
            Some(Step::Child(_, _, _)) => {}
        }
    }
}

// Whether the lines of a heredoc fit, behind its opening.
fn parts_fit(indent: &[u8], parts: Parts<'_>) -> bool
    ensures { result ≡ parts_fit indent.now true (forest_in parts.entry) }
{
    let mut fresh = true;
    let mut left = parts;
    'parts: loop {
        match left.next() {
            None => return true,
            Some(Step::Leaf(mark)) => {
                let text = text_of(left.bytes(), mark);
                if !leaf_fits_by(mark.class, indent, fresh, text) {
                    return false;
                }
                fresh = fresh_by(mark.class, fresh, text);
            }
            Some(Step::Child(_, _, _)) => {
                if !node_fits(indent, fresh) {
                    return false;
                }
                fresh = false;
            }
        }
    }
}

// Whether a token opens a heredoc.
fn is_heredoc(kind: TokenKind) -> bool
    ensures { result ≡ is_heredoc_kind kind }
{
    match kind {
        TokenKind::HeredocStart => true,
        TokenKind::InlineHtml => false,
        TokenKind::OpenEcho => false,
        TokenKind::Variable => false,
        TokenKind::Label => false,
        TokenKind::Keyword => false,
        TokenKind::Int => false,
        TokenKind::Float => false,
        TokenKind::Text => false,
        TokenKind::Quote => false,
        TokenKind::Backtick => false,
        TokenKind::Cast => false,
        TokenKind::Op => false,
        TokenKind::AttributeOpen => false,
        TokenKind::Name => false,
        TokenKind::Semi => false,
        TokenKind::Close => false,
        TokenKind::End => false,
        TokenKind::Piece => false,
        TokenKind::CurlyOpen => false,
        TokenKind::DollarBrace => false,
        TokenKind::VarName => false,
        TokenKind::QuotedEnd => false,
    }
}

// Whether the parts of a heredoc fit.
fn heredoc_fits(parts: Parts<'_>) -> bool
    ensures { result ≡ heredoc_fits (forest_in parts.entry) }
{
    let indent = margin(last_text(parts));
    is_uniform(indent) && parts_fit(indent, parts)
}

// Whether the parts of a quoted text fit.
fn quoted_fits(parts: Parts<'_>) -> bool
    ensures { result ≡ quoted_fits (forest_in parts.entry) }
{
    let mut left = parts;
    match left.next() {
        None => true,
        Some(Step::Child(_, _, _)) => true,
        Some(Step::Leaf(mark)) => !is_heredoc(mark.kind) || heredoc_fits(left),
    }
}

// Whether the parts of a text fit.
fn literal_fits(parts: Parts<'_>) -> bool
    ensures { result ≡ literal_fits (forest_in parts.entry) }
{
    let mut left = parts;
    match left.next() {
        None => true,
        Some(Step::Child(_, _, _)) => true,
        Some(Step::Leaf(mark)) => text_fits(text_of(left.bytes(), mark)),
    }
}

/// Whether the node is a heredoc or a nowdoc with a line that lacks the indentation of its closing line.
#[tactic(auto, unfolding(php_terminals::specs::Indents::is_misindented))]
pub fn is_misindented(kind: NodeKind, parts: Parts<'_>) -> bool
    ensures { result ≡ is_misindented (kind, forest_in parts.entry) }
{
    match kind {
        NodeKind::Quoted => !quoted_fits(parts),
        NodeKind::Text => !literal_fits(parts),
        NodeKind::Block => false,
        NodeKind::Empty => false,
        NodeKind::ExprStmt => false,
        NodeKind::Echo => false,
        NodeKind::Html => false,
        NodeKind::Return => false,
        NodeKind::If => false,
        NodeKind::IfAlt => false,
        NodeKind::While => false,
        NodeKind::DoWhile => false,
        NodeKind::For => false,
        NodeKind::Foreach => false,
        NodeKind::Switch => false,
        NodeKind::Case => false,
        NodeKind::Break => false,
        NodeKind::Continue => false,
        NodeKind::Global => false,
        NodeKind::Statics => false,
        NodeKind::Unset => false,
        NodeKind::Throw => false,
        NodeKind::Try => false,
        NodeKind::Function => false,
        NodeKind::Param => false,
        NodeKind::TypeName => false,
        NodeKind::Class => false,
        NodeKind::Interface => false,
        NodeKind::Trait => false,
        NodeKind::Property => false,
        NodeKind::ClassConst => false,
        NodeKind::Method => false,
        NodeKind::TraitUse => false,
        NodeKind::Const => false,
        NodeKind::Namespace => false,
        NodeKind::Use => false,
        NodeKind::Declare => false,
        NodeKind::Goto => false,
        NodeKind::LabelStmt => false,
        NodeKind::Variable => false,
        NodeKind::Number => false,
        NodeKind::Float => false,
        NodeKind::Constant => false,
        NodeKind::ClassConstant => false,
        NodeKind::Array => false,
        NodeKind::Item => false,
        NodeKind::List => false,
        NodeKind::Paren => false,
        NodeKind::Offset => false,
        NodeKind::BraceOffset => false,
        NodeKind::Prop => false,
        NodeKind::StaticProp => false,
        NodeKind::Call => false,
        NodeKind::MethodCall => false,
        NodeKind::StaticCall => false,
        NodeKind::Args => false,
        NodeKind::New => false,
        NodeKind::Isset => false,
        NodeKind::EmptyTest => false,
        NodeKind::Exit => false,
        NodeKind::Closure => false,
        NodeKind::Arrow => false,
        NodeKind::Include => false,
        NodeKind::EvalTest => false,
        NodeKind::Binary => false,
        NodeKind::Prefix => false,
        NodeKind::Postfix => false,
        NodeKind::Cast => false,
        NodeKind::Ternary => false,
        NodeKind::ShortTernary => false,
        NodeKind::Assign => false,
        NodeKind::AssignRef => false,
        NodeKind::CompoundAssign => false,
        NodeKind::InstanceOf => false,
        NodeKind::Print => false,
        NodeKind::Yield => false,
    }
}
