// The bytes of a tree, in memory of their own.
ghost use Rattle.std.specs.Prelude.{◌≡◌, ◌++◌, IfOk, OnOk};
ghost use Rattle.php_tree.specs.Tree.{file_printed, forest_of, printed, token_bytes};
ghost use Rattle.php_tree.specs.Whole.{file};

use php_tree::{FileTree, Node, Part, Token};
use std::alloc::{AllocError, Global};

// The bytes of a token, at the end.
fn print_token(out: &mut Vec<u8>, token: &Token) -> Result<(), AllocError>
    ensures { OnOk result (out.new.items ≡ out.old.items ++ token_bytes token.now) }
{
    out.extend_from_slice(token.lead.as_slice())?;
    out.extend_from_slice(token.text.as_slice())?;
    Ok(())
}

// The bytes of a node's parts, at the end.
fn print_node(out: &mut Vec<u8>, node: &Node) -> Result<(), AllocError>
    ensures { OnOk result (out.new.items ≡ out.old.items ++ printed (forest_of node.now.parts)) }
{
    for part in node.parts.as_slice() {
        match part {
            Part::Leaf(token) => print_token(out, token)?,
            Part::Child(inner) => print_node(out, inner)?,
        }
    }
    Ok(())
}

/// The bytes of the file: the lead and the text of each token, in order, those of the token at its end included. The
/// only error is want of memory.
pub fn print(alloc: Global, tree: &FileTree) -> Result<Vec<u8>, AllocError>
    ensures { IfOk result (λ bytes. bytes.items ≡ file_printed (file tree.now)) }
{
    let mut out = Vec::new(alloc);
    for statement in tree.statements() {
        print_node(&mut out, statement)?;
    }
    print_token(&mut out, tree.end())?;
    Ok(out)
}
