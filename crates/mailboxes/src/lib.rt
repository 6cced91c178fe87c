// People and boxes: records of twelve words in one long list of words, found by name, counted and added. It knows nothing of pages or letters.
#![tactic(auto)]

mod add;
mod directory;
mod kept;
mod name;
mod place;
mod row;

pub use add::{NoRoom, add_box, add_person, first};
pub use directory::Directory;
pub use place::{MOST_PEOPLE, RECORD_WORDS};

#[cfg(test)]
mod tests;
