// Tokens that stand directly behind nodes.
ghost use Rattle.std.specs.Prelude.{◌≡◌, false, Bool};
ghost use Rattle.php_rows.specs.Reading.{forest_in};
ghost use Rattle.php_tree.specs.declared.kind.NodeKind as kinds;
ghost use Rattle.php_tree.specs.declared.token.Token as words;
ghost use Rattle.syntax_upgrade.specs.Behind as spec;
ghost use Rattle.syntax_upgrade.specs.Words.{seen};

use crate::next::{Part, next};
use crate::word::Word;
use php_rows::Parts;
use php_tree::NodeKind;

/// Tokens of some sort, directly behind nodes of some kinds.
pub(crate) trait Behind {
    ghost nodes: { kinds.NodeKind → Bool };

    ghost tokens: { words.Token → Bool };

    /// Whether a node is of these kinds.
    fn is_before(kind: NodeKind) -> bool
        ensures { result ≡ nodes kind };

    /// Whether a token is of this sort.
    fn is_behind(token: Word) -> bool
        ensures { result ≡ tokens (seen token.entry) };
}

/// Whether one of these parts is such a token directly behind such a node.
pub(crate) fn stands_behind<B: Behind>(parts: Parts) -> bool
    ensures { result ≡ spec.stands_behind B.nodes B.tokens false (forest_in parts.entry) }
{
    let mut left = parts;
    let mut is_behind = false;
    'parts: loop {
        match next(&mut left) {
            None => return false,
            Some(Part::Leaf(token)) => {
                if is_behind && B::is_behind(token) {
                    return true;
                }
                is_behind = false;
            }
            Some(Part::Node(kind, _)) => is_behind = B::is_before(kind),
        }
    }
}
