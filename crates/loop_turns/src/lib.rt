//! That each pass of a loop takes a turn, in trees with the shape of the grammar.
#![tactic(auto)]

ghost use Rattle.loop_turns.specs.Laws.{TurnsNeverRise, LoopsTakeTurns, ShapedLoopsHaveBodies};

/// No run has more turns left than it had before, whatever is started inside it.
pub fn turns_never_rise()
    ensures { TurnsNeverRise }
{}

/// At the node of a loop whose body is a statement, or statements behind a colon, what a run comes to doesn't depend on what
/// would become of a pass that comes without a turn: none comes.
pub fn loops_take_turns()
    ensures { LoopsTakeTurns }
{}

/// In a file with the shape of the grammar, of either version, the body of each loop is a statement, or statements behind a
/// colon.
pub fn shaped_loops_have_bodies()
    ensures { ShapedLoopsHaveBodies }
{}
