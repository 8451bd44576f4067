// The image of a record: its bytes, as a C host keeps them. Reading gives the record whose image the bytes begin with,
// or one that 8 refuses; writing stores a record's image over the old one.
#![tactic(auto)]

mod numbers;
mod read;
mod write;

pub use numbers::size;
pub use read::{policy_from, read_image};
pub use write::write_image;
