// Tokens, written one after another.
ghost use Rattle.std.specs.Prelude.{◌≡◌, ◌+◌, IsTrue, suc, OnOk};
ghost use Rattle.syntax_upgrade.specs.Writing.{also_next, changed_next, front, kept_next, pieces_next};
ghost use Rattle.syntax_upgrade.specs.Written.{at_front, opens_next, space_next, unwrapped, wrapped};
ghost use Rattle.syntax_rules.specs.HashComment.{lead_by};
ghost use Rattle.syntax_rules.specs.SplitName.{deleted as deleted_pieces};
ghost use Rattle.syntax_upgrade.specs.Heads.{shown};
ghost use Rattle.syntax_upgrade.specs.NamesWalked.{Head};
ghost use Rattle.syntax_upgrade.specs.Steps.{begun_next, recorded_next};

use crate::hash_comment::write_lead;
use crate::recorder::Recorder;
use crate::split_name::Ahead;
use php_tree::TokenKind;
use std::alloc::{AllocError, Global};
use std::marker::Model;
use syntax_rules::Rules;

/// The edits up to a place, whether a keyword stands directly before it, and how many parentheses open at the next text.
#[derive(Drop)]
pub(crate) struct Writer {
    recorder: Recorder,
    behind_keyword: bool,
    parens: u32,
}

impl Model for Writer {
    ghost use Rattle.syntax_upgrade.specs.Written.{Written};

    ghost Value = { Written };

    ghost view = { λ w. record { recorded = w.recorder; behind = w.behind_keyword; parens = w.parens } };
}

impl Writer {
    /// At the front of a file.
    pub(crate) fn new(alloc: Global) -> Writer
        ensures { result ≡ at_front front }
    {
        Writer {
            recorder: Recorder::new(alloc),
            behind_keyword: false,
            parens: 0,
        }
    }

    /// A parenthesis opens before the text of the next token.
    pub(crate) fn wrap(&mut self) -> Result<(), AllocError>
        ensures { OnOk result (self.new ≡ wrapped self.old) }
    {
        self.parens = self.parens.checked_add(1).ok_or(AllocError)?;
        Ok(())
    }

    /// A parenthesis closes here.
    pub(crate) fn unwrap(&mut self) -> Result<(), AllocError>
        ensures { OnOk result (self.new ≡ unwrapped self.old) }
    {
        self.open_parens()?;
        self.recorder.changed(b")")
    }

    /// Before the text of what a token begins with: its trivia, the parentheses, a space.
    pub(crate) fn begin(
        &mut self,
        rules: Rules,
        lead: &[u8],
        ahead: Ahead,
    ) -> Result<(), AllocError>
        ensures { (h : Head) → ahead ≡ shown h →
            OnOk result (self.new ≡ begun_next rules.split_names h (lead_by rules.hash_comments lead.now) self.old) }
    {
        let wants_space = ahead.wants_space(rules.split_names, self.behind_keyword);
        let behind = ahead.keyword_behind(self.behind_keyword);
        write_lead(&mut self.recorder, rules.hash_comments, lead)?;
        self.open_parens()?;
        space_if(&mut self.recorder, wants_space)?;
        self.behind_keyword = behind;
        Ok(())
    }

    /// The next bytes stay.
    pub(crate) fn kept(&mut self, bytes: &[u8]) -> Result<(), AllocError>
        ensures { OnOk result (self.new ≡ recorded_next (kept_next bytes.now) self.old) }
    {
        self.recorder.kept(bytes)
    }

    /// Whether no parenthesis opens at the next text.
    pub(crate) fn is_free(&self) -> bool
        ensures { IsTrue result → self.now.parens ≡ 0 }
    {
        self.parens == 0
    }

    /// The bytes of some tokens stay, where no parenthesis opens; the last one is a keyword or not.
    pub(crate) fn keep_all(&mut self, bytes: &[u8], is_keyword: bool) -> Result<(), AllocError>
        ensures { OnOk result (self.new ≡ record { recorded = kept_next bytes.now self.old.recorded; behind = is_keyword; parens = self.old.parens }) }
    {
        self.recorder.kept(bytes)?;
        self.behind_keyword = is_keyword;
        Ok(())
    }

    /// A text comes in the place of the next bytes.
    pub(crate) fn changed(&mut self, text: &[u8]) -> Result<(), AllocError>
        ensures { OnOk result (self.new ≡ recorded_next (changed_next text.now) self.old) }
    {
        self.recorder.changed(text)
    }

    /// A text goes on with the edit just before.
    pub(crate) fn also(&mut self, text: &[u8]) -> Result<(), AllocError>
        ensures { OnOk result (self.new ≡ recorded_next (also_next text.now) self.old) }
    {
        self.recorder.also(text)
    }

    /// Trivia inside a token.
    pub(crate) fn trivia(&mut self, rules: Rules, lead: &[u8]) -> Result<(), AllocError>
        ensures { OnOk result (self.new ≡ recorded_next (pieces_next (lead_by rules.hash_comments lead.now)) self.old) }
    {
        write_lead(&mut self.recorder, rules.hash_comments, lead)
    }

    /// Trivia that are deleted: one edit, where there are any.
    pub(crate) fn deleted(&mut self, lead: &[u8]) -> Result<(), AllocError>
        ensures { OnOk result (self.new ≡ recorded_next (pieces_next (deleted_pieces lead.now)) self.old) }
    {
        match lead {
            [] => Ok(()),
            [_, ..] => self.recorder.changed(b""),
        }
    }

    /// What is written, and by how many edits.
    pub(crate) fn finish(self) -> (Vec<u8>, usize)
        ensures out { result.0.items ≡ self.recorded.out }
        ensures edits { result.1 ≡ self.recorded.edits }
    {
        self.recorder.finish()
    }

    fn open_parens(&mut self) -> Result<(), AllocError>
        ensures recorded { OnOk result (self.new.recorded ≡ opens_next self.old.parens self.old.recorded) }
        ensures behind { OnOk result (self.new.behind ≡ self.old.behind) }
        ensures parens { OnOk result (self.new.parens ≡ 0) }
    {
        while self.parens > 0 {
            self.recorder.changed(b"(")?;
            self.parens -= 1;
        }
        Ok(())
    }
}

// A space, if one is wanted.
fn space_if(recorder: &mut Recorder, is_wanted: bool) -> Result<(), AllocError>
    ensures { OnOk result (recorder.new ≡ space_next is_wanted recorder.old) }
{
    if is_wanted {
        recorder.changed(b" ")?;
    }
    Ok(())
}
