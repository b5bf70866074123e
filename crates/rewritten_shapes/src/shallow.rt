// The depth of the rewritten file.
ghost use Rattle.rewritten_shapes.specs.Laws.{RewrittenIsShallow};

/// A file that is at most 500 nodes deep is at most 1,500 deep once it is rewritten.
pub fn rewritten_is_shallow()
    ensures { RewrittenIsShallow }
{}
