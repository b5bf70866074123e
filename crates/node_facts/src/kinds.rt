// Numbers inside a node of a kind.
ghost use Rattle.std.specs.Prelude.{◌≡◌, IfOk, suc};
ghost use Rattle.scope_names.specs.Sites.{is_declaration as declares, one_if};
ghost use Rattle.node_names.specs.Slots.{is_closure as closes};
ghost use Rattle.node_facts.specs.Past as spec;

use crate::counts::Counts;
use php_tree::NodeKind;
use std::alloc::AllocError;

fn is_declaration(kind: NodeKind) -> bool
    ensures { result ≡ declares kind }
{
    matches!(
        kind,
        NodeKind::Function
            | NodeKind::Class
            | NodeKind::Interface
            | NodeKind::Property
            | NodeKind::ClassConst
            | NodeKind::Method
            | NodeKind::Statics
    )
}

fn is_closure(kind: NodeKind) -> bool
    ensures { result ≡ closes kind }
{
    matches!(kind, NodeKind::Closure | NodeKind::Arrow)
}

// One more, if so.
fn more_if(more: bool, count: u32) -> Result<u32, AllocError>
    ensures { IfOk result (λ n. n ≡ one_if more count) }
{
    if more {
        return count.checked_add(1).ok_or(AllocError);
    }
    Ok(count)
}

/// The numbers inside a node of a kind. The only error is want of memory, of which 2^32 nodes are one.
pub(crate) fn entered(kind: NodeKind, counts: Counts) -> Result<Counts, AllocError>
    ensures { IfOk result (λ c. c ≡ spec.entered kind counts) }
{
    let number = more_if(is_declaration(kind), counts.number)?;
    let next = more_if(is_closure(kind), counts.next)?;
    Ok(Counts { number, next })
}
