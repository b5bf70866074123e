// What a use was found to stand for.
ghost use Rattle.std.specs.Prelude.{◌≡◌};
ghost use Rattle.resolved_names.specs.Index.{found_in};

use crate::found::Found;
use crate::index::nodes_at;
use indexmap::IndexMap;
use program_names::NodeRef;

/// The nodes that a use was found to stand for.
pub(crate) fn nodes_of<'a>(
    index: &'a IndexMap<Vec<u8>, Vec<NodeRef>>,
    found: &'a Found,
) -> &'a [NodeRef]
    ensures { result.now ≡ found_in index.now.entries found.now }
{
    match found {
        Found::Nothing => &[],
        Found::At(place) => nodes_at(index, *place),
        Found::Each(nodes) => nodes.as_slice(),
    }
}
