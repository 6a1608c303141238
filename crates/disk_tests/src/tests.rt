//! The tests, and the helpers of several of them.
mod causes;
mod counting;
mod fakes;
mod listed_dirs;
mod lives;
mod made_dirs;
mod private_dirs;
mod rooms;
mod screens;
mod shared;
mod streams;
mod swapping;
mod swaps;
mod taken_over;
mod working_dirs;
