// The edits of one source.
ghost use Rattle.std.specs.Prelude.{◌≡◌, ◌+◌, ◌<◌, ◌≤◌, ◌↔◌, [], length, not, All, IsTrue, IsNone, IfOk, OnOk, OnErr, IsErrOf, option_copied, slice_get};
ghost use Rattle.span_edits.specs.declared.span.Span.{Span};
ghost use Rattle.span_edits.specs.Crosses.{Crosses, FirstCrossed};
ghost use Rattle.span_edits.specs.EditList.{EditList, AreApart, with_edit};
ghost use Rattle.span_edits.specs.Splice.{spliced, is_replaced};

use crate::edit::Edit;
use crate::edit_fault::EditFault;
use crate::places::{first_after, place_for};
use std::alloc::{AllocError, Global};
use std::marker::Model;

/// Edits of one source, by place, of which no two cross. Contracts see the number of the source's bytes and the
/// list of the edits.
#[derive(Drop)]
pub struct Edits {
    len: u32,
    edits: Vec<Edit>,
}

impl Model for Edits {
    ghost use Rattle.span_edits.specs.EditList.{EditList, AreApart};

    ghost Value = { EditList };

    ghost view = { λ e. record { len = e.len; edits = e.edits.items } };

    ghost invariant = { λ e. AreApart 0 e.edits.items e.len };
}

impl Edits {
    /// No edits, of a source of `len` bytes. The only error is want of memory.
    pub fn new(alloc: Global, len: u32) -> Result<Edits, AllocError>
        ensures { IfOk result (λ e. e ≡ record { len = len; edits = [] }) }
    {
        Ok(Edits {
            len,
            edits: Vec::new(alloc),
        })
    }

    /// Adds an edit at its place.
    ///
    /// `OutOfSource` comes exactly where the edit's span ends behind the source, and `Overlap` exactly where it
    /// doesn't and crosses a stored edit. After a refusal, want of memory included, the edits stand as before.
    pub fn add(&mut self, edit: Edit) -> Result<(), EditFault>
        ensures ok { OnOk result (self.new ≡ record self.old { edits = with_edit edit self.old.edits }) }
        ensures apart { OnOk result (All (λ f. ¬ Crosses edit.span f.span) self.old.edits) }
        ensures out_of_source { IsErrOf result EditFault.OutOfSource ↔ (self.old.len < edit.span.end) }
        ensures overlap { (stored : Span) →
            IsErrOf result (EditFault.Overlap stored) ↔
            ((edit.span.end ≤ self.old.len) × FirstCrossed edit.span self.old.edits stored) }
        ensures err { OnErr result (self.new ≡ self.old) }
    {
        if edit.span.end > self.len {
            return Err(EditFault::OutOfSource);
        }
        let at = match place_for(self.edits.as_slice(), edit.span) {
            Ok(at) => at,
            Err(stored) => return Err(EditFault::Overlap { stored }),
        };
        match self.edits.insert(at, edit) {
            Ok(()) => Ok(()),
            Err(_) => Err(EditFault::Memory),
        }
    }

    /// The source with each edit's span replaced by its text. The only error is want of memory.
    pub fn apply(&self, alloc: Global, source: &[u8]) -> Result<Vec<u8>, AllocError>
        requires { length source.now ≡ self.now.len }
        ensures { IfOk result (λ v. v.items ≡ spliced source.now self.now.edits) }
    {
        let mut out = Vec::with_capacity(alloc, source.len())?;
        let mut rest = source;
        let mut at = 0;
        for edit in self.edits.as_slice() {
            let (kept, from) = rest.split_at((edit.span.start - at) as usize);
            let (_replaced, behind) = from.split_at((edit.span.end - edit.span.start) as usize);
            out.extend_from_slice(kept)?;
            out.extend_from_slice(edit.text.as_slice())?;
            rest = behind;
            at = edit.span.end;
        }
        out.extend_from_slice(rest)?;
        Ok(out)
    }

    /// The number of edits.
    pub fn count(&self) -> usize
        ensures count { result ≡ length self.now.edits }

        // No two edits cross, and none ends behind the source.
        ensures apart { AreApart 0 self.now.edits self.now.len }
    {
        self.edits.len()
    }

    /// The edit at a position of the list, or `None` exactly where the list has no more than `at` edits.
    pub fn get(&self, at: usize) -> Option<&Edit>
        ensures value { option_copied result ≡ slice_get self.now.edits at }
        ensures none { IsNone result ↔ (length self.now.edits ≤ at) }
    {
        self.edits.as_slice().get(at)
    }

    /// Whether no edit replaces the byte at a place.
    pub fn outside(&self, place: u32) -> bool
        ensures { result ≡ not (is_replaced place self.now.edits) }
    {
        let edits = self.edits.as_slice();
        let at = first_after(edits, place);
        match edits.get(at) {
            Some(edit) => place < edit.span.start,
            None => true,
        }
    }
}
