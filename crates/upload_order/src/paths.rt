// Paths of uploaded files.
ghost use Rattle.std.specs.Prelude.{◌≡◌, codes, nat_eq};
ghost use Rattle.std.specs.List.{ends_with};
ghost use Rattle.upload_order.specs.Paths.{Goes, has_parts, is_path, longer, may_end};

/// What came of a part of a path.
#[derive(Clone, Copy)]
pub enum Part {
    /// Nothing.
    Empty,
    /// A dot.
    Dot,
    /// Two dots.
    Dots,
    /// Something else.
    Named,
}

impl Part {
    // Whether it may end there.
    fn may_end(self) -> bool
        ensures { result ≡ may_end self }
    {
        match self {
            Part::Empty | Part::Dot | Part::Dots => false,
            Part::Named => true,
        }
    }

    // The part with one byte more.
    fn longer(self, byte: u8) -> Part
        ensures { result ≡ longer self byte }
    {
        match self {
            Part::Empty => { if byte == b'.' { Part::Dot } else { Part::Named } }
            Part::Dot => {
                if byte == b'.' {
                    Part::Dots
                } else {
                    Part::Named
                }
            }
            Part::Dots | Part::Named => Part::Named,
        }
    }

    // What comes of the part with the next byte of its path. None: it may not end there.
    fn after(self, byte: u8) -> Option<Part>
        ensures { Goes self byte result }
    {
        if byte != b'/' {
            return Some(self.longer(byte));
        }
        if self.may_end() {
            Some(Part::Empty)
        } else {
            None
        }
    }
}

// Whether no part between slashes is empty, `.` or `..`.
#[tactic(auto, using(crate::proofs::PathLemmas::stops, crate::proofs::PathLemmas::goes_on, crate::proofs::PathLemmas::at_end))]
fn has_parts(path: &[u8]) -> bool
    ensures { result ≡ has_parts Part.Empty path.now }
{
    let mut part = Part::Empty;
    for byte in path {
        let Some(next) = part.after(*byte) else {
            return false;
        };
        part = next;
    }
    part.may_end()
}

// Whether a text ends in `.php`.
fn is_php(path: &[u8]) -> bool
    ensures { result ≡ ends_with nat_eq path.now (codes ".php") }
{
    path.ends_with(b".php")
}

/// Whether a text is a path of a file of PHP: it ends in `.php`, and no part of it between slashes
/// is empty, `.` or `..`.
pub fn is_path(path: &str) -> bool
    ensures { result ≡ is_path path.now }
{
    is_php(path.as_bytes()) && has_parts(path.as_bytes())
}
