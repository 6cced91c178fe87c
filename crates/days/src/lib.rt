// Days of a house, made from a number: commands, well-spelled and not, with power lost at any act. They are played on the real step and
// beside a plain house, and the two must agree. Nothing here is known to the house itself.
#![tactic(auto)]

mod command;
mod cost;
mod device;
mod every_act;
mod hex;
mod machine;
mod make;
mod plain;
mod play;
mod random;
mod shown;

pub use command::Kind;
pub use cost::{Cost, Measured};
pub use house::Identity;
pub use machine::{Acts, Fault};
pub use make::{Day, Item, make_day};
pub use play::{DayError, Difference, Ends, Losses, Manner, Tally, play_day};
