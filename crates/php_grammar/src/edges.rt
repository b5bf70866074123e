// The edges of expressions: the loosest operator that reaches to their end.
ghost use Rattle.std.specs.Prelude.{◌≡◌};
ghost use Rattle.php_rows.specs.Reading.{forest_in};
ghost use Rattle.php_grammar.specs.Edges.{edge, edge_from};

use crate::levels::level;
use php_rows::Parts;
use php_tree::{NodeKind, Version};

/// The loosest level of a node of the kind and of the nodes at its end: what an operator behind it must be at least as
/// loose as. `last` is the edge of its last part.
#[tactic(auto, unfolding(crate::specs::Edges::edge))]
pub fn edge(version: Version, kind: NodeKind, parts: Parts<'_>, last: u8) -> u8
    requires { last ≡ edge_from version 0 (forest_in parts) }
    ensures { result ≡ edge version (kind, forest_in parts.entry) }
{
    level(version, kind, parts).max(last)
}
