// What names a node uses.
ghost use Rattle.std.specs.Prelude.{◌≡◌, ◌++◌, codes, OnOk};
ghost use Rattle.php_tree.specs.declared.kind.NodeKind.TheVariants as kinds;
ghost use Rattle.node_names.specs.Seen.{form_of, texts_of};
ghost use Rattle.node_names.specs.Spelled as spelled;
ghost use Rattle.node_names.specs.Uses as spec;
ghost use Rattle.node_facts.specs.Seen.{uses_in};
ghost use Rattle.node_facts.specs.Standing.{site_of};
ghost use Rattle.node_facts.specs.UseRoles.{uses_by as used_by};

use crate::class_uses::{class_uses, type_uses};
use crate::member_uses::{add_member, constants, functions, imported};
use crate::name_use::NameUse;
use crate::scene::Scene;
use crate::spelled::{behind_first, first_variable, names_before};
use crate::use_role::{UseRole, use_role};
use file_declarations::texts;
use node_names::{NameSort, Piece, behind_keyword, behind_text, first_member, names};
use php_tree::NodeKind;
use std::alloc::{AllocError, Global};

// The classes named behind the name that is declared behind a keyword.
fn heritage(
    alloc: Global,
    uses: &mut Vec<NameUse>,
    keyword: &[u8],
    scene: Scene,
    form: &[Piece],
) -> Result<(), AllocError>
    ensures { OnOk result (uses_in uses.new.items ≡ uses_in uses.old.items ++ spec.heritage keyword.now (form_of form.now) (site_of scene.entry)) }
{
    let words = names(alloc, behind_keyword(keyword, form))?;
    class_uses(alloc, uses, scene, behind_first(words.as_slice()))
}

// The classes that are named.
fn classes(
    alloc: Global,
    uses: &mut Vec<NameUse>,
    scene: Scene,
    form: &[Piece],
) -> Result<(), AllocError>
    ensures { OnOk result (uses_in uses.new.items ≡ uses_in uses.old.items ++ spec.plain_uses kinds.New (form_of form.now) (site_of scene.entry)) }
{
    let words = names(alloc, form)?;
    class_uses(alloc, uses, scene, words.as_slice())
}

// The class of a TypeName.
fn type_name(
    alloc: Global,
    uses: &mut Vec<NameUse>,
    scene: Scene,
    form: &[Piece],
) -> Result<(), AllocError>
    ensures { OnOk result (uses_in uses.new.items ≡ uses_in uses.old.items ++ spec.plain_uses kinds.TypeName (form_of form.now) (site_of scene.entry)) }
{
    let words = names(alloc, form)?;
    type_uses(alloc, uses, scene, words.as_slice())
}

// The function of a Call.
fn call(
    alloc: Global,
    uses: &mut Vec<NameUse>,
    scene: Scene,
    form: &[Piece],
) -> Result<(), AllocError>
    ensures { OnOk result (uses_in uses.new.items ≡ uses_in uses.old.items ++ spec.plain_uses kinds.Call (form_of form.now) (site_of scene.entry)) }
{
    let words = names(alloc, form)?;
    functions(alloc, uses, scene, words.as_slice())
}

// The constant of a Constant.
fn constant(
    alloc: Global,
    uses: &mut Vec<NameUse>,
    scene: Scene,
    form: &[Piece],
) -> Result<(), AllocError>
    ensures { OnOk result (uses_in uses.new.items ≡ uses_in uses.old.items ++ spec.plain_uses kinds.Constant (form_of form.now) (site_of scene.entry)) }
{
    let words = names(alloc, form)?;
    constants(alloc, uses, scene, words.as_slice())
}

// The classes named in front of `::`.
fn class_before(
    alloc: Global,
    uses: &mut Vec<NameUse>,
    scene: Scene,
    form: &[Piece],
) -> Result<(), AllocError>
    ensures { OnOk result (uses_in uses.new.items ≡ uses_in uses.old.items ++ spec.class_before (form_of form.now) (site_of scene.entry)) }
{
    let words = names_before(alloc, b"::", form)?;
    class_uses(alloc, uses, scene, words.as_slice())
}

// A class, and a member of a sort behind `::`.
fn class_member(
    alloc: Global,
    uses: &mut Vec<NameUse>,
    sort: NameSort,
    scene: Scene,
    form: &[Piece],
) -> Result<(), AllocError>
    ensures { OnOk result (uses_in uses.new.items ≡ uses_in uses.old.items ++ spec.class_before (form_of form.now) (site_of scene.entry)
        ++ spec.members sort (spelled.first_member (spelled.behind_text spec.separator (form_of form.now)))) }
{
    class_before(alloc, uses, scene, form)?;
    add_member(alloc, uses, sort, first_member(behind_text(b"::", form)))
}

// The class and the property of a StaticProp.
fn static_prop(
    alloc: Global,
    uses: &mut Vec<NameUse>,
    scene: Scene,
    form: &[Piece],
) -> Result<(), AllocError>
    ensures { OnOk result (uses_in uses.new.items ≡ uses_in uses.old.items ++ spec.plain_uses kinds.StaticProp (form_of form.now) (site_of scene.entry)) }
{
    class_before(alloc, uses, scene, form)?;
    add_member(
        alloc,
        uses,
        NameSort::Property,
        first_variable(behind_text(b"::", form)),
    )
}

// A member of a sort behind `->`.
fn member(
    alloc: Global,
    uses: &mut Vec<NameUse>,
    sort: NameSort,
    form: &[Piece],
) -> Result<(), AllocError>
    ensures { OnOk result (uses_in uses.new.items ≡ uses_in uses.old.items ++ spec.members sort (spelled.first_member (spelled.behind_text (codes "->") (form_of form.now)))) }
{
    add_member(alloc, uses, sort, first_member(behind_text(b"->", form)))
}

// What a Use imports.
fn imports(
    alloc: Global,
    uses: &mut Vec<NameUse>,
    scene: Scene,
    form: &[Piece],
) -> Result<(), AllocError>
    ensures { OnOk result (uses_in uses.new.items ≡ uses_in uses.old.items ++ spec.uses kinds.Use (form_of form.now) (site_of scene.entry)) }
{
    let _scene = scene;
    let words = texts(alloc, form)?;
    imported(alloc, uses, words.as_slice())
}

// The names that a node of a role and a form uses.
fn uses_by(
    alloc: Global,
    uses: &mut Vec<NameUse>,
    role: UseRole,
    scene: Scene,
    form: &[Piece],
) -> Result<(), AllocError>
    ensures { OnOk result (uses_in uses.new.items ≡ uses_in uses.old.items ++ used_by role (form_of form.now) (site_of scene.entry)) }
{
    match role {
        UseRole::Class => heritage(alloc, uses, b"class", scene, form),
        UseRole::Interface => heritage(alloc, uses, b"interface", scene, form),
        UseRole::Classes => classes(alloc, uses, scene, form),
        UseRole::TypeName => type_name(alloc, uses, scene, form),
        UseRole::Call => call(alloc, uses, scene, form),
        UseRole::Constant => constant(alloc, uses, scene, form),
        UseRole::ClassConstant => class_member(alloc, uses, NameSort::ClassConstant, scene, form),
        UseRole::StaticCall => class_member(alloc, uses, NameSort::Method, scene, form),
        UseRole::StaticProp => static_prop(alloc, uses, scene, form),
        UseRole::Prop => member(alloc, uses, NameSort::Property, form),
        UseRole::MethodCall => member(alloc, uses, NameSort::Method, form),
        UseRole::Import => imports(alloc, uses, scene, form),
        UseRole::Nothing => Ok(()),
    }
}

/// The names that a node of a form uses, in the order of the source, behind those of other nodes. The only error is want of
/// memory.
pub(crate) fn add_uses(
    alloc: Global,
    uses: &mut Vec<NameUse>,
    kind: NodeKind,
    scene: Scene,
    form: &[Piece],
) -> Result<(), AllocError>
    ensures { OnOk result (uses_in uses.new.items ≡ uses_in uses.old.items ++ spec.uses kind (form_of form.now) (site_of scene.entry)) }
{
    let role = use_role(kind);
    uses_by(alloc, uses, role, scene, form)
}
