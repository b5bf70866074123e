// A quoted text in which `?->` and a letter stand directly behind a simple variable. To 7.4 they are text, from 8.0 on they belong
// to the variable: the text is reported, and stays as it is.
//
// 7.4: "$a?->b" is what `$a` holds, and then `?->b`
// 8.0: "$a?->b" is the property `b` of `$a`, or null
ghost use Rattle.std.specs.Prelude.{◌≡◌};
ghost use Rattle.syntax_upgrade.specs.node_rules.NullsafeText as spec;
ghost use Rattle.syntax_upgrade.specs.Words.{seen};

use crate::behind::{Behind, stands_behind};
use crate::found::{Found, add_outside_parts};
use crate::node_rule::NodeRule;
use crate::word::Word;
use php_rows::Parts;
use php_spellings::classes::letter;
use php_tree::{NodeKind, TokenKind};
use std::alloc::AllocError;

/// The number of these texts among the forms outside the profile.
const NUMBER: u16 = 98;

// Whether a text begins with `?->` and a letter.
fn begins_question(text: &[u8]) -> bool
    ensures { result ≡ spec.begins_question text.now }
{
    match text {
        [] => false,
        [_] => false,
        [_, _] => false,
        [_, _, _] => false,
        [a, b, c, d, ..] => *a == b'?' && (*b == b'-' && (*c == b'>' && letter(*d))),
    }
}

// Whether a token is a piece of text that begins so.
fn is_question(token: Word) -> bool
    ensures { result ≡ spec.is_question (seen token.entry) }
{
    matches!(token.kind, TokenKind::Piece) && begins_question(token.text)
}

/// Quoted texts with such a piece.
pub(crate) struct NullsafeTexts;

impl Behind for NullsafeTexts {
    ghost nodes = { spec.is_variable };

    ghost tokens = { spec.is_question };

    fn is_before(kind: NodeKind) -> bool {
        matches!(kind, NodeKind::Variable)
    }

    fn is_behind(token: Word) -> bool {
        is_question(token)
    }
}

impl NodeRule for NullsafeTexts {
    ghost rule = { spec.nullsafe_texts };

    fn looks_at(kind: NodeKind) -> bool {
        matches!(kind, NodeKind::Quoted)
    }

    fn needs_token() -> bool {
        true
    }

    fn looks_for(token: Word) -> bool {
        is_question(token)
    }

    fn report(
        _kind: NodeKind,
        parts: Parts,
        at: u32,
        end: u32,
        out: &mut Vec<Found>,
    ) -> Result<(), AllocError> {
        if stands_behind::<NullsafeTexts>(parts) {
            add_outside_parts(parts, at, end, NUMBER, out)?;
        }
        Ok(())
    }
}
