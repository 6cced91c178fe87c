// The kinds of event that a step is told of, as numbers for whoever calls it.
pub const POWER: u64 = 0;

pub const SAID: u64 = 1;

pub const PAGE: u64 = 2;

pub const NEXT: u64 = 3;

pub const HEARD: u64 = 4;

pub const LOST: u64 = 5;
