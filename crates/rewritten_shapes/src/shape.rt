// The shape of the rewritten file.
ghost use Rattle.rewritten_shapes.specs.Laws.{RewrittenHasShape};

/// A file with the shape of the 7.4 grammar has, once it is rewritten, that of the 8.3 grammar, where the rules report nothing
/// that stops compiling.
pub fn rewritten_has_shape()
    ensures { RewrittenHasShape }
{}
