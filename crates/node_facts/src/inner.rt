// Where the parts of a node stand.
ghost use Rattle.std.specs.Prelude.{◌≡◌, ◌≤◌, length};
ghost use Rattle.file_declarations.specs.Texts.{bytes_option, text_option};
ghost use Rattle.node_facts.specs.Past.{entered};
ghost use Rattle.node_facts.specs.Standing.{closure_by, site_at, stands_by, standing_at};
ghost use Rattle.scope_names.specs.Sites.{in_member};

use crate::counts::Counts;
use crate::opened::Opened;
use crate::spot::Spot;
use file_declarations::Import;
use php_tree::NodeKind;

fn text_of(text: &Option<Vec<u8>>) -> Option<&[u8]>
    ensures { text_option result ≡ bytes_option text.now }
{
    match text {
        None => None,
        Some(bytes) => Some(bytes.as_slice()),
    }
}

// The innermost closure inside a node.
fn closure_within(kind: NodeKind, closure: Option<u32>, next: u32) -> Option<u32>
    ensures { result ≡ closure_by kind closure next }
{
    match kind {
        NodeKind::Closure | NodeKind::Arrow => Some(next),
        NodeKind::Function | NodeKind::Method => None,
        NodeKind::Block
        | NodeKind::Empty
        | NodeKind::ExprStmt
        | NodeKind::Echo
        | NodeKind::Html
        | NodeKind::Return
        | NodeKind::If
        | NodeKind::IfAlt
        | NodeKind::While
        | NodeKind::DoWhile
        | NodeKind::For
        | NodeKind::Foreach
        | NodeKind::Switch
        | NodeKind::Case
        | NodeKind::Break
        | NodeKind::Continue
        | NodeKind::Global
        | NodeKind::Statics
        | NodeKind::Unset
        | NodeKind::Throw
        | NodeKind::Try
        | NodeKind::Param
        | NodeKind::TypeName
        | NodeKind::Class
        | NodeKind::Interface
        | NodeKind::Trait
        | NodeKind::Property
        | NodeKind::ClassConst
        | NodeKind::TraitUse
        | NodeKind::Const
        | NodeKind::Namespace
        | NodeKind::Use
        | NodeKind::Declare
        | NodeKind::Goto
        | NodeKind::LabelStmt
        | NodeKind::Variable
        | NodeKind::Number
        | NodeKind::Float
        | NodeKind::Text
        | NodeKind::Quoted
        | NodeKind::Constant
        | NodeKind::ClassConstant
        | NodeKind::Array
        | NodeKind::Item
        | NodeKind::List
        | NodeKind::Paren
        | NodeKind::Offset
        | NodeKind::BraceOffset
        | NodeKind::Prop
        | NodeKind::StaticProp
        | NodeKind::Call
        | NodeKind::MethodCall
        | NodeKind::StaticCall
        | NodeKind::Args
        | NodeKind::New
        | NodeKind::Isset
        | NodeKind::EmptyTest
        | NodeKind::Exit
        | NodeKind::Include
        | NodeKind::EvalTest
        | NodeKind::Binary
        | NodeKind::Prefix
        | NodeKind::Postfix
        | NodeKind::Cast
        | NodeKind::Ternary
        | NodeKind::ShortTernary
        | NodeKind::Assign
        | NodeKind::AssignRef
        | NodeKind::CompoundAssign
        | NodeKind::InstanceOf
        | NodeKind::Print
        | NodeKind::Yield => closure,
    }
}

// The spot of a member of the class directly around, with a body and a closure around.
fn member_spot<'a>(imports: &[Import], spot: Spot<'a>, counts: Counts) -> Spot<'a>
    ensures site { (site_at result imports.now counts.number) ≡ in_member (site_at spot.entry imports.now counts.number) }
    ensures from { result.from ≡ spot.entry.from }
    ensures path { result.path.now ≡ spot.entry.path.now }
    ensures closure { result.closure ≡ spot.entry.closure }
{
    let _imports = imports;
    let _counts = counts;
    match spot.members {
        None => spot,
        Some(parent) => Spot {
            class: None,
            parent,
            members: None,
            ..spot
        },
    }
}

/// The spot of the parts of a node of a kind that opens something, behind some imports.
pub(crate) fn inner<'a>(
    opened: &'a Opened,
    kind: NodeKind,
    imports: &[Import],
    spot: Spot<'a>,
    counts: Counts,
) -> Spot<'a>
    requires { spot.from ≤ length imports.now }
    ensures standing { standing_at result imports.now (entered kind counts) ≡ stands_by opened.now kind (standing_at spot.entry imports.now counts) }
    ensures from { result.from ≤ length imports.now }
    ensures path { result.path.now ≡ spot.entry.path.now }
{
    let closure = closure_within(kind, spot.closure, counts.next);
    let body = Some(counts.number);
    match opened {
        Opened::Nothing => Spot { closure, ..spot },
        Opened::Function => Spot {
            body,
            class: None,
            parent: None,
            members: None,
            closure,
            ..spot
        },
        Opened::Method => {
            let within = Spot {
                body,
                closure,
                ..spot
            };
            member_spot(imports, within, counts)
        }
        Opened::Member => {
            let within = Spot { closure, ..spot };
            member_spot(imports, within, counts)
        }
        Opened::NoClass => Spot {
            class: None,
            parent: None,
            members: None,
            closure,
            ..spot
        },
        Opened::Class(name, parent) => Spot {
            class: Some(name.as_slice()),
            parent: text_of(parent),
            members: None,
            closure,
            ..spot
        },
        Opened::NoMembers => Spot {
            members: None,
            closure,
            ..spot
        },
        Opened::Anonymous(parent) => Spot {
            members: Some(text_of(parent)),
            closure,
            ..spot
        },
        Opened::Namespace(space) => Spot {
            space: space.as_slice(),
            from: imports.len(),
            closure,
            ..spot
        },
    }
}
