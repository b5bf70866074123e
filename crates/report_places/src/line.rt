// Lines of a file of reports.
ghost use Rattle.std.specs.Prelude.{◌≡◌, ◌<◌, ◌∷◌, ◌++◌, IfSome};
ghost use Rattle.report_places.specs.Lines.{line_of};

/// A line of a file of reports, in its parts.
#[derive(Clone, Copy, Debug)]
pub struct ReportLine<'a> {
    pub path: &'a str,
    pub start: &'a str,
    pub end: &'a str,
    pub code: &'a str,
    pub cause: &'a str,
    pub weight: &'a str,
}

// What stands in front of the last such sign, and behind it.
fn around_last(text: &str, sign: char) -> Option<(&str, &str)>
    requires ascii { sign < 128 }
    ensures { IfSome result (λ p. text.now ≡ p.0.now ++ sign ∷ p.1.now) }
{
    text.rsplit_once(sign)
}

// The same of the first one.
fn around_first(text: &str, sign: char) -> Option<(&str, &str)>
    requires ascii { sign < 128 }
    ensures { IfSome result (λ p. text.now ≡ p.0.now ++ sign ∷ p.1.now) }
{
    text.split_once(sign)
}

/// The parts of a line `PATH:START-END CODE CAUSE WEIGHT`, without its line end; none where it has another form. A path may
/// have blanks and colons.
pub fn read_line(line: &str) -> Option<ReportLine<'_>>
    ensures { IfSome result (λ r. line.now ≡ line_of r) }
{
    let (front, weight) = around_last(line, ' ')?;
    let (front, cause) = around_last(front, ' ')?;
    let (place, code) = around_last(front, ' ')?;
    let (path, span) = around_last(place, ':')?;
    let (start, end) = around_first(span, '-')?;
    Some(ReportLine {
        path,
        start,
        end,
        code,
        cause,
        weight,
    })
}
