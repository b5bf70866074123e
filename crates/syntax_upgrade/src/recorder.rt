// New bytes, written from the front of a source.
ghost use Rattle.std.specs.Prelude.{◌≡◌, ◌∷◌, [], IfOk, OnOk};
ghost use Rattle.syntax_upgrade.specs.Writing.{also_next, changed_next, front, kept_next, one_more};

use std::alloc::{AllocError, Global};
use std::marker::Model;

/// What is written, by how many edits, and whether the last of them may go on.
#[derive(Drop)]
pub(crate) struct Recorder {
    out: Vec<u8>,
    edits: usize,
    goes_on: bool,
}

impl Model for Recorder {
    ghost use Rattle.syntax_upgrade.specs.Writing.{Recorded};

    ghost Value = { Recorded };

    ghost view = { λ r. record { out = r.out.items; edits = r.edits; goes_on = r.goes_on } };
}

impl Recorder {
    /// At the front of a source.
    pub(crate) fn new(alloc: Global) -> Recorder
        ensures { result ≡ front }
    {
        Recorder {
            out: Vec::new(alloc),
            edits: 0,
            goes_on: false,
        }
    }

    /// The next bytes stay.
    pub(crate) fn kept(&mut self, bytes: &[u8]) -> Result<(), AllocError>
        ensures { OnOk result (self.new ≡ kept_next bytes.now self.old) }
    {
        self.out.extend_from_slice(bytes)?;
        self.goes_on = false;
        Ok(())
    }

    /// The next byte stays.
    pub(crate) fn kept_one(&mut self, byte: u8) -> Result<(), AllocError>
        ensures { OnOk result (self.new ≡ kept_next (byte ∷ []) self.old) }
    {
        self.out.push(byte)?;
        self.goes_on = false;
        Ok(())
    }

    /// A text comes in the place of the next bytes.
    pub(crate) fn changed(&mut self, text: &[u8]) -> Result<(), AllocError>
        ensures { OnOk result (self.new ≡ changed_next text.now self.old) }
    {
        self.edits = self.edits.checked_add(1).ok_or(AllocError)?;
        self.out.extend_from_slice(text)?;
        self.goes_on = true;
        Ok(())
    }

    /// A text goes on with the edit just before.
    pub(crate) fn also(&mut self, text: &[u8]) -> Result<(), AllocError>
        ensures { OnOk result (self.new ≡ also_next text.now self.old) }
    {
        self.edits = with_one_unless(self.goes_on, self.edits)?;
        self.out.extend_from_slice(text)?;
        self.goes_on = true;
        Ok(())
    }

    /// What is written, and by how many edits.
    pub(crate) fn finish(self) -> (Vec<u8>, usize)
        ensures out { result.0.items ≡ self.out }
        ensures edits { result.1 ≡ self.edits }
    {
        (self.out, self.edits)
    }
}

// One edit more, unless the last one goes on.
fn with_one_unless(goes_on: bool, edits: usize) -> Result<usize, AllocError>
    ensures { IfOk result (λ n. n ≡ one_more goes_on edits) }
{
    if goes_on {
        Ok(edits)
    } else {
        edits.checked_add(1).ok_or(AllocError)
    }
}
