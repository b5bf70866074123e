//! What PHP 8.3 reads from the bytes of a file that the rules on syntax rewrote.
#![tactic(auto)]

pub mod draft_laws;
pub mod row_laws;

ghost use Rattle.written_reading.specs.Laws.{SourcesAreSpelled, NoNameIsNamespace, ShapedIsRead, RewrittenIsRead};
ghost use Rattle.written_reading.specs.Parted.{RowsAreLexed};

/// The labels, casts and `${` of a file have the texts that the tokens of its bytes have.
pub fn sources_are_spelled()
    ensures { SourcesAreSpelled }
{}

/// Where a name may begin, no label of a source is spelled `namespace`.
pub fn no_name_is_namespace()
    ensures { NoNameIsNamespace }
{}

/// A file that 7.4 has a row of tokens for, once it is rewritten but for the joining of names, has the
/// tokens of 8.3 once it is rewritten.
pub fn rows_are_lexed()
    ensures { RowsAreLexed }
{}

/// A file that 7.4 reads is read by 8.3 from its bytes once it is rewritten, and no other file is, where
/// it then has the shape and the tokens of 8.3.
pub fn shaped_is_read()
    ensures { ShapedIsRead }
{
    php_shapes::files_with_the_shape_are_read();
}

/// A file that 7.4 reads is read by 8.3 from its bytes once it is rewritten, and no other file is, where
/// the rules report nothing that stops compiling, and it then has the tokens of 8.3.
pub fn rewritten_is_read()
    ensures { RewrittenIsRead }
{
    shaped_is_read();
    rewritten_shapes::rewritten_has_shape();
}
