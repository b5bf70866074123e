//! The outside: trees of files, sinks of bytes and of reports, and their forms in memory.
#![tactic(auto)]

mod calm;
mod fault;
mod memory;
mod refusal;
mod report;
mod report_sink;
mod reports;
mod sink;
mod source;
mod target;

pub use calm::{CalmList, CalmSink, CalmSource, CalmTarget};
pub use fault::PortFault;
pub use memory::{ListSink, MemorySink, MemorySource, MemoryTarget};
pub use refusal::refused;
pub use report::{Report, Weight};
pub use report_sink::{ReportSink, retire};
pub use reports::{
    CountReports, JsonReports, TextReports, cause_name, code_name, report_json, report_line,
    text_of_cause, text_of_code,
};
pub use sink::Sink;
pub use source::{Found, SourceTree};
pub use span_edits::{Bytes, PathText, Span};
pub use target::TargetTree;
