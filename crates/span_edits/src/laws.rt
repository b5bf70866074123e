// What a splice keeps: laws of the definition, carried by functions that do nothing.
ghost use Rattle.std.specs.Prelude.{◌≡◌, ◌+◌, ◌≤◌, ℕ, List, [], ◌∷◌, ◌++◌, false, length, take, drop, filter, nat_le, nat_lt, Some, slice_get};
ghost use Rattle.span_edits.specs.declared.edit.Edit.{Edit};
ghost use Rattle.span_edits.specs.EditList.{AreApart};
ghost use Rattle.span_edits.specs.Splice.{spliced, spliced_from, is_replaced};

/// Without edits each byte stays.
pub fn no_edit_keeps_all()
    ensures { (source : List ℕ) → spliced source [] ≡ source }
{}

/// Edits before a place and edits behind it are made in the bytes before it and behind it.
pub fn splices_join()
    ensures { (source : List ℕ) (place : ℕ) (front back : List Edit) →
        place ≤ length source → AreApart 0 front place → AreApart place back (length source) →
        spliced source (front ++ back) ≡
        spliced (take place source) front ++ spliced_from place (drop place source) back }
{}

/// Edits that are made together are the edits made one after another, the last one first.
pub fn last_edit_is_made_first()
    ensures { (source : List ℕ) (edits : List Edit) (e : Edit) →
        AreApart 0 edits e.span.start → e.span.end ≤ length source →
        spliced source (edits ++ e ∷ []) ≡
        spliced (take e.span.start source ++ (e.text ++ drop e.span.end source)) edits }
{}

/// A byte that no edit replaces stays, between the splice of what is before it and that of what is behind it.
pub fn byte_outside_stays()
    ensures { (source : List ℕ) (edits : List Edit) (place byte : ℕ) →
        AreApart 0 edits (length source) → is_replaced place edits ≡ false → slice_get source place ≡ Some byte →
        spliced source edits ≡
        spliced (take place source) (filter (λ e. nat_le e.span.end place) edits) ++
        byte ∷ spliced_from (place + 1) (drop (place + 1) source) (filter (λ e. nat_lt place e.span.end) edits) }
{}
