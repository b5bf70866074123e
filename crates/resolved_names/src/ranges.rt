// Items of one node.
ghost use Rattle.std.specs.Prelude.{◌≡◌, option_copied, slice_get};
ghost use Rattle.node_facts.specs.Flat.{between, start};
ghost use Rattle.resolved_names.specs.Ranges.{ranged};

use node_facts::{Ends, NodeFact};

/// A node with a number, and where its items begin; none exactly where there are no more nodes than that.
pub(crate) fn node_at(nodes: &[NodeFact], number: usize) -> Option<(Ends, NodeFact)>
    ensures { result ≡ slice_get (ranged start nodes.now) number }
{
    let node = *nodes.get(number)?;
    if number == 0 {
        let start = Ends {
            declares: 0,
            uses: 0,
            slots: 0,
            listed: 0,
        };
        return Some((start, node));
    }
    let before = nodes.get(number - 1)?;
    Some((before.ends, node))
}

/// Item n, from 0, of those between two places; none exactly where there is no such.
pub(crate) fn item<T>(items: &[T], from: u32, to: u32, n: u32) -> Option<&T>
    ensures { option_copied result ≡ slice_get (between from to items.now) n }
{
    let place = from as usize + n as usize;
    if place < to as usize {
        return items.get(place);
    }
    None
}
