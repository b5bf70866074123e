// One walk over the nodes of a file: what each tells.
ghost use Rattle.std.specs.Prelude.{◌≡◌, ◌≤◌, ◌+◌, ◌++◌, drop, length, OnOk};
ghost use Rattle.php_tree.specs.Tree.{alone};
ghost use Rattle.php_rows.specs.Reading.{forest_in};
ghost use Rattle.file_declarations.specs.Standing.{site_at};
ghost use Rattle.file_declarations.specs.Told.{told as told_in, told_at};

use crate::class_name::Names;
use crate::import::Import;
use crate::node_ref::NodeRef;
use crate::role::{is_space, stays_top};
use crate::standing::{Standing, pass, space_of, space_within};
use crate::telling::tell;
use crate::told::Told;
use php_rows::{Parts, Step};
use php_tree::NodeKind;
use std::alloc::{AllocError, Global};

/// Where parts of a node stand: the path and the number of the file, the namespace, how many imports stand before those
/// that count, and whether the parts stand unconditionally.
#[derive(Clone, Copy)]
pub(crate) struct Spot<'a> {
    pub(crate) path: &'a [u8],
    pub(crate) file: u32,
    pub(crate) space: &'a [u8],
    pub(crate) from: usize,
    pub(crate) is_top: bool,
}

// The imports that count.
fn counting(imports: &[Import], from: usize) -> &[Import]
    requires { from ≤ length imports.now }
    ensures { result.now ≡ drop from imports.now }
{
    let (_, counting) = imports.split_at(from);
    counting
}

// What a node itself tells.
fn tell_own(
    alloc: Global,
    told: &mut Vec<Told>,
    imports: &[Import],
    spot: Spot,
    kind: NodeKind,
    number: u32,
    parts: Parts,
) -> Result<(), AllocError>
    requires { spot.from ≤ length imports.now }
    ensures { OnOk result (told.new.items ≡ told.old.items
        ++ told_at (record { file = spot.entry.file; node = number }) spot.entry.is_top kind (forest_in parts.entry)
        (site_at spot.entry.path.now spot.entry.space.now spot.entry.from imports.now)) }
{
    let names = Names {
        space: spot.space,
        imports: counting(imports, spot.from),
    };
    let at = NodeRef {
        file: spot.file,
        node: number,
    };
    tell(alloc, told, at, spot.is_top, spot.path, names, kind, parts)
}

/// The parts of a node, each after the one before it. The only error is want of memory.
#[cycle(walk)]
pub(crate) fn walk_parts(
    alloc: Global,
    told: &mut Vec<Told>,
    imports: &mut Vec<Import>,
    spot: Spot,
    parts: Parts,
) -> Result<(), AllocError>
    requires { spot.from ≤ length imports.old.items }
    ensures told { OnOk result (told.new.items ≡ told.old.items
        ++ told_in spot.entry.file parts.entry.number (site_at spot.entry.path.now spot.entry.space.now spot.entry.from imports.old.items)
        spot.entry.is_top (forest_in parts.entry)) }
    ensures imports { OnOk result (imports.new.items ≡ imports.old.items) }
{
    let count = imports.len();
    let mut left = parts;
    let mut standing = Standing {
        own: None,
        from: spot.from,
    };
    'parts: loop {
        match left.next() {
            None => {
                imports.truncate(count);
                return Ok(());
            }
            Some(Step::Leaf(_)) => {}
            Some(Step::Child(kind, number, inner)) => {
                let here = Spot {
                    path: spot.path,
                    file: spot.file,
                    space: space_of(&standing.own, spot.space),
                    from: standing.from,
                    is_top: spot.is_top,
                };
                walk_node(alloc, told, imports, here, kind, number, inner)?;
                standing = pass(alloc, imports, kind, inner, standing)?;
            }
        }
    }
}

// A node, and those inside it.
#[cycle(walk)]
fn walk_node(
    alloc: Global,
    told: &mut Vec<Told>,
    imports: &mut Vec<Import>,
    spot: Spot,
    kind: NodeKind,
    number: u32,
    parts: Parts,
) -> Result<(), AllocError>
    requires from { spot.from ≤ length imports.old.items }
    requires number { parts.number ≡ number + 1 }
    ensures told { OnOk result (told.new.items ≡ told.old.items
        ++ told_in spot.entry.file number (site_at spot.entry.path.now spot.entry.space.now spot.entry.from imports.old.items)
        spot.entry.is_top (alone (kind, forest_in parts.entry))) }
    ensures imports { OnOk result (imports.new.items ≡ imports.old.items) }
{
    tell_own(alloc, told, imports.as_slice(), spot, kind, number, parts)?;
    let is_top = stays_top(kind, spot.is_top);
    if is_space(kind) {
        let space = space_within(alloc, parts)?;
        let inner = Spot {
            path: spot.path,
            file: spot.file,
            space: space.as_slice(),
            from: imports.len(),
            is_top,
        };
        walk_parts(alloc, told, imports, inner, parts)?;
        return Ok(());
    }
    let inner = Spot {
        path: spot.path,
        file: spot.file,
        space: spot.space,
        from: spot.from,
        is_top,
    };
    walk_parts(alloc, told, imports, inner, parts)?;
    Ok(())
}
