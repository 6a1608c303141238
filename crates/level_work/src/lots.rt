//! Shares of a level, and the work on them.
ghost use Rattle.std.specs.Prelude.{◌≡◌, ◌≢◌, ◌⊎◌, ◌+◌, ◌<◌, ℕ, false, length, Some, OnOk, OnErr, IfOk, IfSome, IsTrue, is_some, slice_get, slice_index_or};
ghost use Rattle.flat_list.specs.Prelude.{RoseBy, is_open, is_top};
ghost use Rattle.level_work.specs.Private.Coming.{IsWorked, OneCame};
ghost use Rattle.level_work.specs.Private.Lots.{part_tree, part_area, part_count, IsAt, Ready, Stepped, Stopped};

use crate::acts::Act;
use crate::items::{Fate, Item};
use outside::Plot;
use path_text::OutOfMemory;
use std::alloc::Global;
use std::thread;
use std::thread::Threads;

// An actor with the part that it writes, the places of its items, and their fates so far. It is lost if it is out of memory.
#[derive(Drop)]
pub(crate) struct Lot<A, P> {
    pub(crate) actor: A,
    pub(crate) part: Option<P>,
    pub(crate) places: Vec<usize>,
    pub(crate) fates: Vec<Fate>,
    pub(crate) lost: bool,
}

impl<A, P> Lot<A, P> {
    // Acts on the item at place j of the share.
    fn act_on(&mut self, alloc: Global, items: &[Item], j: usize) -> Result<(), OutOfMemory>
    where
        P: Plot,
        A: Act<P>,
        requires place { j < length self.old.places.items }
        requires inside { (k : ℕ) → slice_get self.old.places.items j ≡ Some k → k < length items.now }
        requires top { (x : _) → IsAt items.now self.old.places.items j x → IsTrue (is_top (part_area P.area self.old.part) x.path) }
        requires open { (x : _) → IsAt items.now self.old.places.items j x → IsTrue (is_open (part_area P.area self.old.part) x.path) }
        ensures ok { OnOk result (Stepped (part_tree P.tree) (part_area P.area) (part_count P.count) A.plain A.count A.deed items.now j self.old self.new) }
        ensures err { OnErr result (Stopped (part_tree P.tree) (part_area P.area) (part_count P.count) A.plain A.count A.deed items.now j self.old self.new) }
        ensures came { OnOk result (OneCame A.who A.may_come items.now j self.old self.new) }
        ensures who { A.who self.new.actor ≡ A.who self.old.actor }
    {
        let item = &items[self.places[j]];
        let Some(part) = &mut self.part else {
            return Err(OutOfMemory);
        };
        let fate = self.actor.act(alloc, part, &item.path, &item.entry)?;
        self.fates.push(fate)?;
        Ok(())
    }

    // Acts on its items in turn, until it is out of memory.
    pub(crate) fn work(&mut self, alloc: Global, items: &[Item])
    where
        P: Plot,
        A: Act<P>,
        requires { Ready (part_area P.area) items.now self.old }
        ensures { IsWorked (part_tree P.tree) (part_area P.area) (part_count P.count) A.plain A.count A.deed A.who A.may_come items.now self.old self.new }
    {
        for j in 0..self.places.len() {
            match self.act_on(alloc, items, j) {
                Ok(()) => {}
                Err(_) => {
                    self.lost = true;
                    return;
                }
            }
        }
    }
}

// All shares work, in up to `hosts` threads.
pub(crate) fn work_all<R: Threads + Sync, P: Plot + Send, A: Act<P> + Send>(
    rt: &R,
    alloc: Global,
    items: &[Item],
    lots: &mut [Lot<A, P>],
    hosts: usize,
)
    requires hosts { 0 < hosts }
    requires ready { (i : ℕ) (lot : _) → i < length lots.old → lot ≡ slice_index_or lots.old i lot → Ready (part_area P.area) items.now lot }
    ensures { (i : ℕ) (d : _) → i < length lots.old → IsWorked (part_tree P.tree) (part_area P.area)
        (part_count P.count) A.plain A.count A.deed A.who A.may_come items.now (slice_index_or lots.old i d)
        (slice_index_or lots.new i d) }
{
    let work = |_: usize, lot: &mut Lot<A, P>|
        requires { Ready (part_area P.area) items.now lot.old }
        ensures { IsWorked (part_tree P.tree) (part_area P.area) (part_count P.count) A.plain A.count A.deed A.who A.may_come items.entry.now lot.old lot.new }
    {
        lot.work(alloc, items);
    };
    thread::for_each_mut(rt, lots, hosts, &work);
}
