//! A plain definition of the grammar, on trees alone.
#![tactic(auto)]

mod laws;

pub use laws::{
    expressions_with_the_shape_are_read, files_with_the_shape_are_read,
    leaves_determine_expressions, leaves_determine_files, read_expressions_have_the_shape,
    read_files_have_the_shape,
};
