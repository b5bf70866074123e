// Where the text of parts begins.
ghost use Rattle.std.specs.Prelude.{◌≡◌, IfOk};
ghost use Rattle.php_tree.specs.Tree.{leaves};
ghost use Rattle.php_rows.specs.Reading.{forest_in};
ghost use Rattle.syntax_upgrade.specs.OffPlaces.{first_start};

use crate::next::{Part, next};
use crate::past::past_bytes;
use php_rows::Parts;
use std::alloc::AllocError;

/// The place where the text of the first token among these parts begins, whose trivia begin at a place, if there is a token.
pub(crate) fn start_of(parts: Parts, at: u32) -> Result<Option<u32>, AllocError>
    ensures { IfOk result (λ o. o ≡ first_start at (leaves (forest_in parts.entry))) }
{
    let mut left = parts;
    match next(&mut left) {
        None => Ok(None),
        Some(Part::Leaf(token)) => Ok(Some(past_bytes(at, token.lead)?)),
        Some(Part::Node(_, inner)) => match start_of(inner, at)? {
            Some(place) => Ok(Some(place)),
            None => start_of(left, at),
        },
    }
}
