//! Reports beside their sources, as people and editors read them: with lines and columns, and the place marked.
#![tactic(auto)]

mod beside;
mod line;
mod place;

pub use beside::shown;
pub use line::{ReportLine, read_line};
pub use place::{Place, line_at, place_at};
