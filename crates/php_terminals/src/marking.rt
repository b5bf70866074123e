// Tokens as places in the bytes that they are, joined.
ghost use Rattle.std.specs.Prelude.{All, ◌≡◌, ◌++◌, ◌∷◌, [], IfOk, OnOk, map};
ghost use Rattle.php_tree.specs.Tree.{token_bytes, tokens_bytes};
ghost use Rattle.php_terminals.specs.Marked.{IsMark, in_place, token_at};

use crate::mark::Mark;
use crate::marked::mark_at;
use php_tree::Token;
use std::alloc::{AllocError, Global};

// The bytes of a token, behind others.
fn add_bytes(bytes: &mut Vec<u8>, token: &Token) -> Result<(), AllocError>
    ensures { OnOk result (bytes.new.items ≡ bytes.old.items ++ token_bytes token.now) }
{
    bytes.extend_from_slice(token.lead.as_slice())?;
    bytes.extend_from_slice(token.text.as_slice())?;
    Ok(())
}

// The bytes of some tokens, joined.
fn joined(alloc: Global, tokens: &[Token]) -> Result<Vec<u8>, AllocError>
    ensures { IfOk result (λ bytes. bytes.items ≡ tokens_bytes tokens.now) }
{
    let mut bytes = Vec::new(alloc);
    for token in tokens {
        add_bytes(&mut bytes, token)?;
    }
    Ok(bytes)
}

fn push(marks: &mut Vec<Mark>, mark: Mark) -> Result<(), AllocError>
    ensures { OnOk result (marks.new.items ≡ marks.old.items ++ mark ∷ []) }
{
    marks.push(mark)?;
    Ok(())
}

/// The bytes of some tokens, joined, and their places there: each token with the place at which it then stands. 2^32
/// bytes and more count as want of memory.
pub fn marks_of(alloc: Global, tokens: &[Token]) -> Result<(Vec<u8>, Vec<Mark>), AllocError>
    ensures marks { IfOk result (λ m. All (IsMark m.0.items) m.1.items) }
    ensures tokens { IfOk result (λ m. map (token_at m.0.items) m.1.items ≡ in_place 0 tokens.now) }
{
    let bytes = joined(alloc, tokens)?;
    if bytes.as_slice().len() > u32::MAX as usize {
        return Err(AllocError);
    }
    let mut marks = Vec::new(alloc);
    let mut at = 0usize;
    for token in tokens {
        let start = at + token.lead.as_slice().len();
        let end = start + token.text.as_slice().len();
        push(
            &mut marks,
            mark_at(bytes.as_slice(), token.kind, at, start, end),
        )?;
        at = end;
    }
    Ok((bytes, marks))
}
