// Reports as text, and the sinks that write them to a sink of bytes.
mod count_reports;
mod json_reports;
mod json_text;
mod kept;
mod line_text;
mod names;
mod text_reports;

pub use count_reports::CountReports;
pub use json_reports::JsonReports;
pub use json_text::report_json;
pub use line_text::report_line;
pub use names::{cause_name, code_name, text_of_cause, text_of_code};
pub use text_reports::TextReports;
