//! Builtin functions and constants of both versions, and what 8.0 to 8.3 declare themselves.
#![tactic(auto)]

mod builtin;
mod constant;
mod kinds;
mod named;
mod newer_classes;
mod newer_constants;
mod newer_functions;
mod release;

pub use builtin::{Builtin, BuiltinRow};
pub use constant::{ConstantValue, builtin_constant};
pub use kinds::{ArgumentKind, Change, ResultKind};
pub use newer_classes::newer_class;
pub use newer_constants::newer_constant;
pub use newer_functions::newer_function;
pub use release::Release;
