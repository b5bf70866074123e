// Points of a file.

/// Where evaluation may stand: before or behind a node of a file, by its number there.
#[derive(Clone, Copy)]
pub enum Point {
    Before(u32),
    After(u32),
}
