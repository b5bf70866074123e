//! Points before and behind the expressions and statements of a program, and the steps of evaluation between them.
#![tactic(auto)]

mod around;
mod branches;
mod case;
mod chains;
mod declaring;
mod edge;
mod expressions;
mod file_edge;
mod file_edges;
mod flow;
mod following;
mod frame;
mod jumps;
mod kinds;
mod levels;
mod loops;
mod numbers;
mod own;
mod parts_around;
mod piece;
mod point;
mod points;
mod reading;
mod switch;
mod tries;
mod walk;
mod words;

pub use edge::Edge;
pub use following::edges_follow;
pub use points::Points;
