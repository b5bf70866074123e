// A cast `(unset)` of a plain variable becomes `(null)`.
//
// Before: (unset)$a
// After:  (null)
ghost use Rattle.std.specs.Prelude.{◌≡◌, ◌<◌, length, OnOk, option_map};
ghost use Rattle.php_rows.specs.Reading.{forest_in};
ghost use Rattle.syntax_upgrade.specs.Words.{both_seen, seen};
ghost use Rattle.syntax_rules.specs.UnsetCast.{is_edited as edited, is_undecided as undecided, is_variable as variable};
ghost use Rattle.syntax_upgrade.specs.UnsetCast.{null_token, undecided_casts, tokens_in as tokens_among, unset_in, variable_in as variable_among};
ghost use Rattle.syntax_upgrade.specs.Written.{token_next};

use crate::casts::{is_cast, is_unset_cast};
use crate::found::{Found, add};
use crate::next::{first_node, first_word, has_none, others};
use crate::node_rule::NodeRule;
use crate::past::past_bytes;
use crate::split_name::as_kind;
use crate::word::Word;
use crate::writer::Writer;
use php_rows::Parts;
use php_tree::{NodeKind, TokenKind};
use rule_tables::{Cause, RuleId};
use std::alloc::AllocError;
use syntax_rules::Rules;

fn is_variable(kind: NodeKind, token: TokenKind) -> bool
    ensures { result ≡ variable kind token }
{
    let is_node = matches!(kind, NodeKind::Variable);
    let is_token = matches!(token, TokenKind::Variable);
    is_node && is_token
}

// The token of a node that is a plain variable.
#[tactic(auto, using(crate::proofs::PartLemmas::variable_in_is))]
fn variable_in<'a>(kind: NodeKind, parts: Parts<'a>) -> Option<Word<'a>>
    ensures { option_map seen result ≡ variable_among kind (forest_in parts.entry) }
{
    match first_word(parts) {
        None => None,
        Some(word) => {
            if is_variable(kind, word.kind) && has_none(others(parts)) {
                Some(word)
            } else {
                None
            }
        }
    }
}

// A token and a plain variable, if these are the parts.
#[tactic(auto, using(crate::proofs::PartLemmas::tokens_in_is))]
fn tokens_in<'a>(parts: Parts<'a>) -> Option<(Word<'a>, Word<'a>)>
    ensures { option_map both_seen result ≡ tokens_among (forest_in parts.entry) }
{
    let operand = others(parts);
    if !has_none(others(operand)) {
        return None;
    }
    match (first_word(parts), first_node(operand)) {
        (Some(cast), Some((kind, inner))) => match variable_in(kind, inner) {
            Some(variable) => Some((cast, variable)),
            None => None,
        },
        (Some(_), None) => None,
        (None, _) => None,
    }
}

/// The tokens of a cast `(unset)` of a plain variable, if a node is one and the rule is on.
pub(crate) fn unset_tokens<'a>(
    rules: Rules,
    kind: NodeKind,
    parts: Parts<'a>,
) -> Option<(Word<'a>, Word<'a>)>
    ensures { option_map both_seen result ≡ unset_in rules (kind, forest_in parts.entry) }
{
    if rules.unset_casts && is_unset_cast(kind, parts) {
        tokens_in(parts)
    } else {
        None
    }
}

/// `(null)` in the place of a cast and a variable.
pub(crate) fn null(
    writer: &mut Writer,
    rules: Rules,
    cast: Word,
    variable: Word,
) -> Result<(), AllocError>
    requires { 0 < length cast.text.now }
    ensures { OnOk result (writer.new ≡ token_next rules.split_names (null_token rules (seen cast.entry) (seen variable.entry)) writer.old) }
{
    let _variable = variable;
    writer.begin(rules, cast.lead, as_kind(TokenKind::Op, cast))?;
    writer.changed(b"(")?;
    writer.also(b"null")?;
    writer.also(b")")
}

// Whether a node is a cast `(unset)` of anything but a plain variable.
#[tactic(auto, using(crate::proofs::Nulls::undecided_is))]
fn is_undecided(kind: NodeKind, parts: Parts) -> bool
    ensures { result ≡ undecided (kind, forest_in parts.entry) }
{
    is_unset_cast(kind, parts) && tokens_in(parts).is_none()
}

/// Whether a node is a cast `(unset)` of a plain variable.
#[tactic(auto, using(crate::proofs::Nulls::edited_by))]
pub(crate) fn is_edited(kind: NodeKind, parts: Parts) -> bool
    ensures { result ≡ edited (kind, forest_in parts.entry) }
{
    is_unset_cast(kind, parts) && tokens_in(parts).is_some()
}

/// Casts `(unset)` of anything but a plain variable.
pub(crate) struct UndecidedCasts;

impl NodeRule for UndecidedCasts {
    ghost rule = { undecided_casts };

    fn looks_at(kind: NodeKind) -> bool {
        is_cast(kind)
    }

    fn needs_token() -> bool {
        false
    }

    fn looks_for(_token: Word) -> bool {
        false
    }

    fn report(
        kind: NodeKind,
        parts: Parts,
        at: u32,
        end: u32,
        out: &mut Vec<Found>,
    ) -> Result<(), AllocError> {
        if !is_undecided(kind, parts) {
            return Ok(());
        }
        match first_word(parts) {
            Some(cast) => add(
                past_bytes(at, cast.lead)?,
                end,
                RuleId::UnsetCast,
                Cause::Shape,
                out,
            ),
            None => Ok(()),
        }
    }
}
