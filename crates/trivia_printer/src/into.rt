// The bytes of a tree, in a buffer that is there.
ghost use Rattle.std.specs.Prelude.{◌≡◌, ◌+◌, ◌≤◌, length};
ghost use Rattle.php_tree.specs.Tree.{file_printed, forest_of, nodes_forest, printed, token_bytes};
ghost use Rattle.php_tree.specs.Whole.{file};
ghost use Rattle.trivia_printer.specs.Written.{written};

use php_tree::{FileTree, Node, Part, Token};

// The bytes, from a place of the buffer on.
fn write_bytes(out: &mut [u8], at: usize, bytes: &[u8]) -> usize
    requires { at + length bytes.now ≤ length out.old }
    ensures place { result ≡ at + length bytes.now }
    ensures written { out.new ≡ written out.old at bytes.now }
{
    let end = at + bytes.len();
    out[at..end].copy_from_slice(bytes);
    end
}

// A token, from a place of the buffer on.
fn write_token(out: &mut [u8], at: usize, token: &Token) -> usize
    requires { at + length (token_bytes token.now) ≤ length out.old }
    ensures place { result ≡ at + length (token_bytes token.now) }
    ensures written { out.new ≡ written out.old at (token_bytes token.now) }
{
    let middle = write_bytes(out, at, token.lead.as_slice());
    write_bytes(out, middle, token.text.as_slice())
}

// The parts of a node, from a place of the buffer on.
fn write_node(out: &mut [u8], at: usize, node: &Node) -> usize
    requires { at + length (printed (forest_of node.now.parts)) ≤ length out.old }
    ensures place { result ≡ at + length (printed (forest_of node.now.parts)) }
    ensures written { out.new ≡ written out.old at (printed (forest_of node.now.parts)) }
{
    let mut place = at;
    for part in node.parts.as_slice() {
        match part {
            Part::Leaf(token) => place = write_token(out, place, token),
            Part::Child(inner) => place = write_node(out, place, inner),
        }
    }
    place
}

/// How many bytes the file has. It takes no memory.
pub fn print_len(tree: &FileTree) -> usize
    ensures { result ≡ length (file_printed (file tree.now)) }
{
    tree.end().start as usize + tree.end().text.as_slice().len()
}

/// Writes the bytes of the file at the front of the buffer, which has room for them, leaves the rest of it as it was,
/// and answers how many they are. It takes no memory and can't be refused.
pub fn print_into(tree: &FileTree, out: &mut [u8]) -> usize
    requires { length (file_printed (file tree.now)) ≤ length out.old }
    ensures place { result ≡ length (file_printed (file tree.now)) }
    ensures written { out.new ≡ written out.old 0 (file_printed (file tree.now)) }
{
    let mut place = 0;
    for statement in tree.statements() {
        place = write_node(out, place, statement);
    }
    write_token(out, place, tree.end())
}
