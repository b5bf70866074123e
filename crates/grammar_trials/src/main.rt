//! Worked rows of the grammar, a line each: the statements of `data/`, their tree in 7.4, and in 8.3 where that is another
//! one. What a row must be was written by hand from the manual.
#![tactic(auto)]

mod edges;
mod longest;
mod rows;
mod sketch;

fn main(rt: HostRuntime) -> anyhow::Result<()> {
    rows::rows(&rt)?;
    longest::longest(&rt)?;
    edges::edges(&rt)
}
