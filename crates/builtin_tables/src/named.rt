// Rows that are found by their names.
ghost use Rattle.std.specs.Prelude.{◌≡◌};
ghost use Rattle.builtin_tables.specs.Named.{found, found_exactly, is_same_name, rows_of};

// Whether a name is this word, without ASCII case.
#[tactic(auto, unfolding(crate::specs::Named::is_same_name))]
fn is_same_name(word: &[u8], name: &[u8]) -> bool
    ensures { result ≡ is_same_name word.now name.now }
{
    word.eq_ignore_ascii_case(name)
}

// The value of the first row with the name, without ASCII case.
pub(crate) fn find_row<T: Copy>(rows: &[(&'static str, T)], name: &[u8]) -> Option<T>
    ensures { result ≡ found (rows_of rows.now) name.now }
{
    for (word, value) in rows {
        if is_same_name(word.as_bytes(), name) {
            return Some(*value);
        }
    }
    None
}

// The value of the first row with the name, with case.
pub(crate) fn find_exact_row<T: Copy>(rows: &[(&'static str, T)], name: &[u8]) -> Option<T>
    ensures { result ≡ found_exactly (rows_of rows.now) name.now }
{
    for (word, value) in rows {
        if word.as_bytes() == name {
            return Some(*value);
        }
    }
    None
}
