//! Types of PHP values as the analysis sees them: their order, joins, meets, and a pool of numbered types.
#![tactic(auto)]

mod bits;
mod depths;
mod interning;
mod joins;
mod labels;
pub mod laws;
mod meets;
mod order;
mod php_type;
mod pool;
mod sets;

pub use bits::{ARRAY, BOOL, FLOAT, FRACTION, INT, LEAD, NULL, OBJECT, WHOLE, WHOLE_TAIL, WORD};
pub use depths::{element, flatten};
pub use joins::join;
pub use labels::{Classes, Labels};
pub use meets::meet;
pub use order::below;
pub use php_type::{Parts, PhpType};
pub use pool::{Packed, Pool, TypeId};
