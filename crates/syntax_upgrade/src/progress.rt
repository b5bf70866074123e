// How far a node's parts are walked, by its rule.
ghost use Rattle.std.specs.Prelude.{◌≡◌, ◌&&◌, Bool, true, false, Option, IfOk};
ghost use Rattle.php_tree.specs.declared.kind.NodeKind as kinds;
ghost use Rattle.php_tree.specs.Tree.{Forest, leaf as leaf_then, node as node_then};
ghost use Rattle.php_rows.specs.Reading.{forest_in};
ghost use Rattle.syntax_rules.specs.Around.{Around, within};
ghost use Rattle.syntax_rules.specs.Together.{is_quoted as quoted};
ghost use Rattle.syntax_rules.specs.UnsetCast.{is_edited};
ghost use Rattle.syntax_upgrade.specs.Inside.{inside_next};
ghost use Rattle.syntax_upgrade.specs.Progress.{left_walked};
ghost use Rattle.syntax_upgrade.specs.NamesWalked.{child_next};
ghost use Rattle.syntax_upgrade.specs.Words.{seen};
ghost use Rattle.syntax_upgrade.specs.Written.{Written};

use crate::brace_offset::is_brace_offset;
use crate::casts::is_real_cast;
use crate::dollar_brace::{Role, text_part};
use crate::split_name::named;
use crate::steps::replaced;
use crate::word::Word;
use crate::writer::Writer;
use php_rows::Parts;
use php_tree::{NodeKind, TokenKind};
use std::alloc::AllocError;
use syntax_rules::Rules;

/// What the next part of a node is.
#[derive(Clone, Copy)]
pub(crate) enum Progress {
    /// One of an offset in braces or of another node, so many of the next tokens inside a name.
    Names { braces: bool, inner: usize },
    /// The first one of a cast `(real)`.
    Float,
    /// One of a quoted text.
    Quoted(Role),
}

fn is_quoted(kind: NodeKind) -> bool
    ensures { result ≡ quoted kind }
{
    matches!(kind, NodeKind::Quoted)
}

/// Before the first part of a node.
pub(crate) fn start(rules: Rules, kind: NodeKind, parts: Parts) -> Progress
    ensures { (w : Written) → (rules.unset_casts && is_edited (kind, forest_in parts.entry)) ≡ false →
        left_walked rules result (within kind (forest_in parts.entry)) true (forest_in parts.entry) w
        ≡ inside_next rules (kind, forest_in parts.entry) w }
{
    if rules.brace_offsets && is_brace_offset(kind) {
        return Progress::Names {
            braces: true,
            inner: 0,
        };
    }
    if rules.real_casts && is_real_cast(kind, parts) {
        return Progress::Float;
    }
    if rules.dollar_braces && is_quoted(kind) {
        return Progress::Quoted(Role::Other);
    }
    Progress::Names {
        braces: false,
        inner: 0,
    }
}

/// The token that these parts begin with, before the others.
pub(crate) fn leaf(
    writer: &mut Writer,
    rules: Rules,
    progress: Progress,
    token: Word,
    parts: Parts,
    behind: Parts,
) -> Result<Progress, AllocError>
    ensures { (around : Bool → Option Around) (i : Bool) → forest_in parts.entry ≡ leaf_then (seen token.entry) (forest_in behind.entry) →
        IfOk result (λ p. left_walked rules p around false (forest_in behind.entry) writer.new
        ≡ left_walked rules progress around i (leaf_then (seen token.entry) (forest_in behind.entry)) writer.old) }
{
    match progress {
        Progress::Names { braces, inner } => {
            let inner = named(writer, rules, braces, token, parts, inner)?;
            Ok(Progress::Names { braces, inner })
        }
        Progress::Float => {
            replaced(writer, rules, TokenKind::Cast, token, b"(float)")?;
            Ok(Progress::Names {
                braces: false,
                inner: 0,
            })
        }
        Progress::Quoted(role) => {
            let role = text_part(writer, rules, token, behind, role)?;
            Ok(Progress::Quoted(role))
        }
    }
}

/// Behind a node.
pub(crate) fn behind_node(progress: Progress) -> Progress
    ensures { (around : Bool → Option Around) (i : Bool) (k : kinds.NodeKind) (c : Forest) (f : Forest) (w : Written) (r : Rules) →
        left_walked r result around false f (child_next r (around i) (k, c) w)
        ≡ left_walked r progress around i (node_then k c f) w }
{
    match progress {
        Progress::Names { .. } => progress,
        Progress::Float => Progress::Names {
            braces: false,
            inner: 0,
        },
        Progress::Quoted(_) => progress,
    }
}
