// Forms, where names are read by them.
ghost use Rattle.std.specs.Prelude.{◌≡◌, IfOk};
ghost use Rattle.php_rows.specs.Reading.{forest_in};
ghost use Rattle.scope_names.specs.Form.{form as form_of_forest};
ghost use Rattle.node_names.specs.Seen.{form_of};
ghost use Rattle.node_facts.specs.Dispatch.{asks_form as asks, form_if};

use file_declarations::row_form;
use node_names::Piece;
use php_rows::Parts;
use php_tree::NodeKind;
use std::alloc::{AllocError, Global};

// Whether names of such a node are read by its form.
fn asks_form(kind: NodeKind) -> bool
    ensures { result ≡ asks kind }
{
    matches!(
        kind,
        NodeKind::Function
            | NodeKind::Class
            | NodeKind::Interface
            | NodeKind::Const
            | NodeKind::Method
            | NodeKind::ClassConst
            | NodeKind::Property
            | NodeKind::New
            | NodeKind::Try
            | NodeKind::InstanceOf
            | NodeKind::TypeName
            | NodeKind::Call
            | NodeKind::Constant
            | NodeKind::ClassConstant
            | NodeKind::StaticProp
            | NodeKind::StaticCall
            | NodeKind::Prop
            | NodeKind::MethodCall
            | NodeKind::Use
            | NodeKind::Variable
            | NodeKind::Param
            | NodeKind::Statics
            | NodeKind::Namespace
    )
}

/// The form of a node, where its names are read by it, or else an empty one. The only error is want of memory.
pub(crate) fn form_at(alloc: Global, kind: NodeKind, parts: Parts) -> Result<Vec<Piece>, AllocError>
    ensures { IfOk result (λ f. form_of f.items ≡ form_if (asks kind) (form_of_forest (forest_in parts.entry))) }
{
    if asks_form(kind) {
        return row_form(alloc, parts);
    }
    let _parts = parts;
    Ok(Vec::new(alloc))
}
