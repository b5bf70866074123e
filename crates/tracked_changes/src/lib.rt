//! Changes of trees, tracked: one draft of the new tree, from which the source's bytes, the edits and the rewritten tree
//! are all read off. The definitions stand in `specs/`; the functions here carry the laws that they agree.
#![tactic(auto)]

pub mod patch_laws;

ghost use Rattle.tracked_changes.specs.Laws.{SplicedIsRewritten, EditsAreApart, EachComesNext, EditsCompose, KeptBytesStay, TakenBytesGo, UnchangedIsTheFile};
ghost use Rattle.tracked_changes.specs.Walk.{WalksKeepTheSource};
ghost use Rattle.tracked_changes.specs.Parens.{ParensStandRound, WrappingIsRewritten, WrappingHasEdits};

/// The source's bytes with a draft's edits made are the rewritten file, printed.
pub fn spliced_is_rewritten()
    ensures { SplicedIsRewritten }
{}

/// A draft's edits stand in order within the source, and none reaches into the next.
pub fn edits_are_apart()
    ensures { EditsAreApart }
{}

/// A draft's edits can be added one after another: `Edits::add` of `span_edits` refuses none for its place, and keeps
/// them in this order.
pub fn each_comes_next()
    ensures { EachComesNext }
{}

/// The edits of pieces are those of a first part, and then those of the others, where no text goes on over the seam.
pub fn edits_compose()
    ensures { EditsCompose }
{}

/// No edit of a draft replaces a byte that the draft keeps.
pub fn kept_bytes_stay()
    ensures { KeptBytesStay }
{}

/// Some edit of a draft replaces each byte that the draft takes out.
pub fn taken_bytes_go()
    ensures { TakenBytesGo }
{}

/// The draft of a file as it stands has no edit; its source and its rewritten tree are the file.
pub fn unchanged_is_the_file()
    ensures { UnchangedIsTheFile }
{}

/// A draft made by a walk over a file has the file as its source, where each change of a token or a node keeps the
/// source's bytes.
pub fn walks_keep_the_source()
    ensures { WalksKeepTheSource }
{}

/// Parentheses keep the source's bytes, and a Paren node stands round the node once they are made.
pub fn parens_stand_round()
    ensures { ParensStandRound }
{}

/// The draft that puts nodes in parentheses by a table has the file as its source, and the file that the table makes as
/// its rewritten file.
pub fn wrapping_is_rewritten()
    ensures { WrappingIsRewritten }
{}

/// The edits of the draft that puts nodes in parentheses by a table are those of the table, where tokens stand in their
/// places and each node that is changed has a token.
pub fn wrapping_has_edits()
    ensures { WrappingHasEdits }
{}
