// Edges of statements one after another.
ghost use Rattle.program_points.specs.Following.{EdgesFollow};

/// The edges inside statements that follow one another are those inside each, in turn.
pub fn edges_follow()
    ensures { EdgesFollow }
{}
