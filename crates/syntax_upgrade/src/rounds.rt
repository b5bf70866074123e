// What is put round nodes.
ghost use Rattle.std.specs.Prelude.{◌≡◌, OnOk};
ghost use Rattle.php_rows.specs.Reading.{forest_in};
ghost use Rattle.syntax_rules.specs.InContext.{around_of};
ghost use Rattle.syntax_upgrade.specs.Laws.{nests_by, regroups_by};
ghost use Rattle.syntax_upgrade.specs.Written.{unwrapped_if, wrapped_if};

use crate::dot_precedence::is_regrouped;
use crate::nested_ternary::is_nested;
use crate::writer::Writer;
use php_rows::Parts;
use php_tree::NodeKind;
use std::alloc::AllocError;
use syntax_rules::Rules;

/// Where a node stands: the kind of the node around it, if any, its operator, and whether it stands first in it.
#[derive(Clone, Copy)]
pub(crate) struct Around<'a> {
    pub(crate) outer: Option<NodeKind>,
    pub(crate) operator: &'a [u8],
    pub(crate) is_first: bool,
}

// A parenthesis opens, if one is wanted.
fn wrap_if(writer: &mut Writer, is_wanted: bool) -> Result<(), AllocError>
    ensures { OnOk result (writer.new ≡ wrapped_if is_wanted writer.old) }
{
    if is_wanted {
        return writer.wrap();
    }
    Ok(())
}

// A parenthesis closes, if one is wanted.
fn unwrap_if(writer: &mut Writer, is_wanted: bool) -> Result<(), AllocError>
    ensures { OnOk result (writer.new ≡ unwrapped_if is_wanted writer.old) }
{
    if is_wanted {
        return writer.unwrap();
    }
    Ok(())
}

/// What is put round a node opens.
pub(crate) fn open_round(
    writer: &mut Writer,
    rules: Rules,
    around: Around,
    kind: NodeKind,
    parts: Parts,
) -> Result<(), AllocError>
    ensures { OnOk result (writer.new ≡ wrapped_if
        (regroups_by rules (around_of around.entry.outer around.entry.operator.now around.entry.is_first) (kind, forest_in parts.entry))
        (wrapped_if (nests_by rules (around_of around.entry.outer around.entry.operator.now around.entry.is_first) (kind, forest_in parts.entry)) writer.old)) }
{
    let operator = around.operator;
    wrap_if(
        writer,
        rules.nested_ternaries && is_nested(around.outer, operator, around.is_first, kind),
    )?;
    wrap_if(
        writer,
        rules.dot_operands && is_regrouped(around.outer, operator, around.is_first, kind, parts),
    )
}

/// What is put round a node closes.
pub(crate) fn close_round(
    writer: &mut Writer,
    rules: Rules,
    around: Around,
    kind: NodeKind,
    parts: Parts,
) -> Result<(), AllocError>
    ensures { OnOk result (writer.new ≡ unwrapped_if
        (nests_by rules (around_of around.entry.outer around.entry.operator.now around.entry.is_first) (kind, forest_in parts.entry))
        (unwrapped_if (regroups_by rules (around_of around.entry.outer around.entry.operator.now around.entry.is_first) (kind, forest_in parts.entry))
        writer.old)) }
{
    let operator = around.operator;
    unwrap_if(
        writer,
        rules.dot_operands && is_regrouped(around.outer, operator, around.is_first, kind, parts),
    )?;
    unwrap_if(
        writer,
        rules.nested_ternaries && is_nested(around.outer, operator, around.is_first, kind),
    )
}
