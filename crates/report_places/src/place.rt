// Places of a source by line and column.
ghost use Rattle.std.specs.Prelude.{◌≡◌, ◌≤◌, length};
ghost use Rattle.report_places.specs.Places as spec;

/// A place: its line and its column, both from 1, the column in bytes.
#[derive(Clone, Copy, Debug, PartialEq, Eq)]
pub struct Place {
    pub line: usize,
    pub column: usize,
}

// How many bytes stand directly behind the last line end.
fn behind_line_end(bytes: &[u8]) -> usize
    ensures count { result ≡ spec.behind_line_end bytes.now }
    ensures within { result ≤ length bytes.now }
{
    bytes
        .iter()
        .rev()
        .take_while(|byte| **byte != b'\n')
        .count()
}

// How many bytes stand before the first line end.
fn before_line_end(bytes: &[u8]) -> usize
    ensures count { result ≡ spec.before_line_end bytes.now }
    ensures within { result ≤ length bytes.now }
{
    bytes.iter().take_while(|byte| **byte != b'\n').count()
}

// How many line ends there are.
fn line_ends(bytes: &[u8]) -> usize
    ensures count { result ≡ spec.line_ends bytes.now }
    ensures within { result ≤ length bytes.now }
{
    bytes.iter().filter(|byte| **byte == b'\n').count()
}

/// The line and the column of a byte place.
pub fn place_at(source: &[u8], start: usize) -> Place
    requires { start ≤ length source.now }
    ensures { result ≡ spec.place_at source.now start }
{
    let front = &source[..start];
    Place {
        line: line_ends(front) + 1,
        column: behind_line_end(front) + 1,
    }
}

/// The bytes of the line that a byte place stands in, without its line end.
pub fn line_at(source: &[u8], start: usize) -> &[u8]
    requires { start ≤ length source.now }
    ensures { result.now ≡ spec.line_at source.now start }
{
    let begin = start - behind_line_end(&source[..start]);
    let end = start + before_line_end(&source[start..]);
    &source[begin..end]
}
