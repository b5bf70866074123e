// Edges within a file.
use crate::point::Point;

/// Evaluation may step from one point to another by what the node with a number does.
#[derive(Clone, Copy)]
pub struct FileEdge {
    pub from: Point,
    pub to: Point,
    pub node: u32,
}
