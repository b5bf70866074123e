// Kinds of nodes that declare classes.
ghost use Rattle.std.specs.Prelude.{◌≡◌};
ghost use Rattle.program_names.specs.Classes.{is_class_like as declares_class};

use php_tree::NodeKind;

/// Whether such a node declares a class or an interface.
pub(crate) fn is_class_like(kind: NodeKind) -> bool
    ensures { result ≡ declares_class kind }
{
    matches!(kind, NodeKind::Class | NodeKind::Interface)
}
