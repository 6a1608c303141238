//! Work at many paths, level by level, by several actors.
//!
//! - An [`Item`] is a path at which an actor acts, with an entry for the act. It comes to a [`Fate`].
//! - An [`Act`] acts at one path of a part of a ground, by a relation that its trait leaves open.
//! - [`on_levels`] acts at each item, from the top down or from the bottom up ([`Order`]), and gives an [`Outcome`]. [`Hosts`]
//!   says how many threads work at most, and which levels are worth them.
//!
//! ```text
//! let hosts = Hosts { most: 4, items: 256, bytes: 1048576 };
//! let outcome = on_levels(rt, alloc, &items, Order::BottomUp, &mut ground, &mut actors, hosts)?;
//! for k in 0..items.len() {
//!     if outcome.fate(k) == Fate::Failed {
//!         // ...
//!     }
//! }
//! ```
//!
//! The items of a level are dealt to the actors in turn. All shares are leased before any work begins. Then the actors work on
//! them, in threads if the level has many items or bytes, and all parts go back. From the top down an item under one that did not
//! come to `Done` gets the fate `ParentFailed` and is not leased.
//!
//! # Parts
//!
//! - `dealing` lists the places of each level and deals them.
//! - `leasing` leases shares and gives them back.
//! - `lots` has the work on a share.
//! - `storing` puts the fates where they belong.
//! - `failures` keeps the paths that failed ([`Paths`]).
//! - `fates` says which fates are `Done`, and how many.
//! - `hosts` says which levels are worth threads.
//! - `crews` works on one level.
//! - `hiring` makes lots of actors and actors of lots.
//! - `levels` goes over the levels.
//!
//! # What is proved
//!
//! Over every ground and every act:
//!
//! - Each path that is not an item is as before, also if the call is out of memory.
//! - If the ground shows its tree, the maps before and after the whole call say what an item finds and leaves. For each path is
//!   changed at most once (`specs/Levels`).
//! - Exactly the items under one that did not come to `Done` get the fate `ParentFailed`.
//! - The items that failed are at most as many as the counts of the ground and of the actors rose together. This holds unless one
//!   of these counts is at its largest value.
//! - All parts are back at the end. The actors are in their order and show the same data as before.
//! - Item k of a level goes to actor k mod the number of actors. Its fate, unless its parent failed, is one that may come if that
//!   actor acts on it (`specs/Fates`). This also holds over files that show no tree.
//! - A law gives one map after each level ([`acted_is_chain`]).
//!
//! Not claimed: that threads ran side by side; how much memory is taken; which items are done if the call is out of memory. Nor is
//! it claimed that the call is out of memory only if memory was refused. A call costs the levels and n log n steps for n items,
//! which is not proved.
#![tactic(auto)]

mod acts;
mod crews;
mod dealing;
mod failures;
mod fates;
mod hiring;
mod hosts;
mod items;
mod laws;
mod leasing;
mod levels;
mod lots;
mod outcomes;
mod storing;

pub use acts::Act;
pub use failures::Paths;
pub use fates::number_done;
pub use hosts::Hosts;
pub use items::{Fate, Item, Order};
pub use laws::acted_is_chain;
pub use levels::on_levels;
pub use outcomes::Outcome;
