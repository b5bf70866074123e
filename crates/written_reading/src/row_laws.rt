// The row of tokens and trivia that the bytes of a rewritten file have, and what 8.3 reads from them.

ghost use Rattle.written_reading.specs.edited.Rows.{DraftsHaveRows};
ghost use Rattle.written_reading.specs.edited.Laws.{FilesHaveRows, FilesWithNeitherArePlain, WrittenFilesAreLexed, WrittenFilesAreRead};

/// A file that 7.4 reads has in 7.4 a row of tokens and trivia whose tokens are those of its draft by
/// all rules on syntax but that on names.
pub fn drafts_have_rows()
    ensures { DraftsHaveRows }
{
    written_tokens::token_laws::tokens_are_tiles();
    rewritten_shapes::paired_laws::shaped_files_are_paired();
    written_tokens::tile_laws::becomes_join();
    written_tokens::tile_laws::becomes_loosely();
    written_tokens::tile_laws::code_tokens_become();
    written_tokens::tile_laws::html_tokens_become();
    written_tokens::tile_laws::rounds_become();
    written_tokens::tile_laws::braces_become();
    written_tokens::tile_laws::braces_are_squared();
    written_tokens::tile_laws::rounds_come_in();
    written_tokens::tile_laws::casts_become_float();
    written_tokens::tile_laws::casts_become_null();
    written_tokens::text_laws::nowdocs_become();
    written_tokens::text_laws::texts_become();
    written_tokens::name_laws::front_of_row();
    written_tokens::name_laws::end_of_row();
    written_tokens::name_laws::spaced_are_written();
    written_tokens::name_laws::trivia_become();
    written_tokens::name_laws::spaced_are_trivia();
}

/// Such a file has the row that its rewriting needs, with names in parts.
pub fn files_have_rows()
    ensures { FilesHaveRows }
{
    drafts_have_rows();
    written_tokens::token_laws::parts_have_texts();
    crate::draft_laws::names_are_within();
    crate::draft_laws::names_of_files_stay();
    crate::draft_laws::names_are_apart();
    crate::draft_laws::texts_are_safe();
    written_tokens::name_laws::names_are_put();
    written_tokens::name_laws::named_keeps();
    written_tokens::name_laws::rows_are_common();
}

/// Once it is rewritten, it has its tokens in 8.3.
pub fn written_files_are_lexed()
    ensures { WrittenFilesAreLexed }
{
    files_have_rows();
    crate::rows_are_lexed();
}

/// 8.3 reads from the bytes of the rewritten file this file, and no other, where the rules report nothing
/// that stops compiling.
pub fn written_files_are_read()
    ensures { WrittenFilesAreRead }
{
    written_files_are_lexed();
    crate::rewritten_is_read();
}

/// A file without quoted texts and uses of traits is plain, so the premises of the laws above can be met.
pub fn files_with_neither_are_plain()
    ensures { FilesWithNeitherArePlain }
{}
