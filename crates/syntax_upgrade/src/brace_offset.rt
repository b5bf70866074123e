// Offsets in braces get brackets.
//
// Before: $a{0}
// After:  $a[0]
ghost use Rattle.std.specs.Prelude.{◌≡◌, OnOk};
ghost use Rattle.syntax_rules.specs.BraceOffset.{is_brace_offset as brace_offset};
ghost use Rattle.syntax_upgrade.specs.Heads.{bare_of};
ghost use Rattle.syntax_upgrade.specs.Steps.{recorded_next};
ghost use Rattle.syntax_upgrade.specs.Words.{seen};
ghost use Rattle.syntax_upgrade.specs.Writing.{pieces_next};

use crate::word::Word;
use crate::writer::Writer;
use php_tree::NodeKind;
use std::alloc::AllocError;

/// Whether a node is an offset in braces.
pub(crate) fn is_brace_offset(kind: NodeKind) -> bool
    ensures { result ≡ brace_offset kind }
{
    matches!(kind, NodeKind::BraceOffset)
}

/// The text of a token, in an offset in braces or elsewhere.
pub(crate) fn own_text(writer: &mut Writer, braces: bool, token: Word) -> Result<(), AllocError>
    ensures { OnOk result (writer.new ≡ recorded_next (pieces_next (bare_of braces (seen token.entry)).text) writer.old) }
{
    let text = token.text;
    if braces && text == b"{".as_slice() {
        return writer.changed(b"[");
    }
    if braces && text == b"}".as_slice() {
        return writer.changed(b"]");
    }
    writer.kept(text)
}
