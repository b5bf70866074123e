// Where one node stands.
ghost use Rattle.std.specs.Prelude.{◌≡◌, ◌≤◌, drop, length};
ghost use Rattle.node_facts.specs.Standing.{standing_at, standing_of};

use crate::counts::Counts;
use crate::spot::Spot;
use file_declarations::{Import, Names};

/// Where one node stands: its surroundings, the imports that count, and the numbers of the next declaration and closure.
#[derive(Clone, Copy)]
pub(crate) struct Scene<'a> {
    pub(crate) spot: Spot<'a>,
    pub(crate) imports: &'a [Import],
    pub(crate) counts: Counts,
}

// The imports that count.
fn counting(imports: &[Import], from: usize) -> &[Import]
    requires { from ≤ length imports.now }
    ensures { result.now ≡ drop from imports.now }
{
    let (_, counting) = imports.split_at(from);
    counting
}

/// The scene of a node among parts.
pub(crate) fn scene_at<'a>(spot: Spot<'a>, imports: &'a [Import], counts: Counts) -> Scene<'a>
    requires { spot.from ≤ length imports.now }
    ensures standing { standing_of result ≡ standing_at spot.entry imports.now counts }
    ensures path { result.spot.path.now ≡ spot.entry.path.now }
{
    Scene {
        spot,
        imports: counting(imports, spot.from),
        counts,
    }
}

/// What names are read by.
pub(crate) fn names_of<'a>(scene: Scene<'a>) -> Names<'a>
    ensures space { result.space.now ≡ scene.entry.spot.space.now }
    ensures imports { result.imports.now ≡ scene.entry.imports.now }
{
    Names {
        space: scene.spot.space,
        imports: scene.imports,
    }
}
