// Names once each, in the order of bytes.
ghost use Rattle.std.specs.Prelude.{◌≡◌, IfOk, Contains};
ghost use Rattle.std.specs.Ordering.{nat_cmp};
ghost use Rattle.std.specs.Cmp.Lexicographic.{slice_cmp};
ghost use Rattle.node_names.specs.Seen.{texts_of};
ghost use Rattle.class_cycles.specs.Names.{AreOnce};

use span_edits::Bytes;
use std::alloc::{AllocError, Global};

// Some names, each once, in the order of bytes.
fn sort_once(names: &mut Vec<&[u8]>)
    ensures { AreOnce (texts_of names.old.items) (texts_of names.new.items) }
{
    names.sort_unstable();
    names.dedup();
}

// Copies of some names.
fn copies(alloc: Global, names: &[&[u8]]) -> Result<Vec<Bytes>, AllocError>
    ensures { IfOk result (λ v. v.items ≡ texts_of names.now) }
{
    let mut copies = Vec::new(alloc);
    for name in names {
        copies.push(Bytes::new(Vec::from_slice(alloc, name)?))?;
    }
    Ok(copies)
}

/// The same names, each once, in the order of bytes. The only error is want of memory.
pub(crate) fn once(alloc: Global, names: &mut Vec<&[u8]>) -> Result<Vec<Bytes>, AllocError>
    ensures { IfOk result (λ v. AreOnce (texts_of names.old.items) v.items) }
{
    sort_once(names);
    copies(alloc, names.as_slice())
}
