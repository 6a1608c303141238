//! Laws of walks that were cut, and of sorts.
//!
//! A walk that is cut leaves its done entries and the strings that are left, and another walk goes on from these. In between
//! the tree may change elsewhere, if only by the files in which the checkpoint is kept. So the laws speak of trees that are
//! the same at and under the starts:
//!
//! - These trees have the same cuts ([`cuts_are_local`]) and the same walks ([`walks_are_local`]).
//! - So a restart finds a walk of the starts in each of them ([`restart_is_walk_in_each`]).
//! - If no answer failed there is one walk ([`fine_walks_are_one`]), and a restart finds the same list as the walk that was
//!   not cut ([`restart_finds_the_walk`]).
//!
//! The entries of a list, each path once, have one order by a field ([`sorts_are_unique`]). So the entries that a walk found
//! settle the text that a program prints of it.
//!
//! Each law is the contract of a function that does nothing. The file `specs/Local` states the laws of trees, and
//! `specs/Sorts` the law of sorts.
#![tactic(auto)]

mod laws;

pub use laws::{
    cuts_are_local, fine_walks_are_one, restart_finds_the_walk, restart_is_walk_in_each,
    sorts_are_unique, walks_are_local,
};
