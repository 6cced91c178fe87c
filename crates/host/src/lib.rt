// A house beside its pages, for programs: it does the acts that a step asks for, one after another and just those, on whatever keeps pages, and touches
// no page that isn't there. It promises nothing of what a file or a terminal does; what a house does with its pages is proved in `house`.
#![tactic(auto)]

mod disk;
mod ending;
mod machine;
mod world;

pub use disk::Disk;
pub use ending::{Answer, Fault, Refused, answer};
pub use house::{MOST_HOUSES, PAGE_LEN};
pub use machine::Machine;
pub use world::{Rows, World};
