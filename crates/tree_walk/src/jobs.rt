//! The job of a walk.
ghost use Rattle.std.specs.Prelude.{◌≡◌, [], ◌++◌, ◌∷◌, map, OnOk, OnErr, IfOk};

use crate::keeping::handle_path;
use circle_run::Job;
use flat_list::FlatList;
use outside::{Listing, Tree};
use path_text::{OutOfMemory, Path};
use rank_queue::Batch;
use std::alloc::Global;
use std::marker::Model;

/// The job of one rank in a walk. Its contract sees its reader and its entries, each with the paths that the job pushed for
/// it. Only [`crate::walk`] makes and opens one.
///
/// The job packs each entry when it makes it. Of the pushed paths it keeps the names, as the directory listed them. The paths
/// themselves have moved on.
#[derive(Drop)]
pub struct WalkJob<R: Tree> {
    reader: R,
    entries: FlatList,
    names: Vec<Listing>,
    // A path that the job is done with, whose memory the next one takes.
    spare: Option<Path>,
}

impl<R: Tree> Model for WalkJob<R> {
    ghost use Rattle.std.specs.Prelude.{List, ◌≡◌, length};
    ghost use Rattle.std.specs.List.{count_by, AllByRecursion};
    ghost use Rattle.tree_walk.specs.Answered.{IsAnswered};
    ghost use Rattle.tree_walk.specs.Held.{Held, held_of, is_listed, Holds};

    ghost Value = { R × List Held };

    ghost view = { λ w. (w.reader, held_of w.entries w.names.items) };

    ghost invariant = { λ w. Holds (R.tree w.reader) (R.count w.reader) (held_of w.entries w.names.items)
        × (count_by is_listed w.entries ≡ length w.names.items) × AllByRecursion (IsAnswered R.gives) w.entries };
}

impl<R: Tree> WalkJob<R> {
    ghost use Rattle.std.specs.List.{AllByRecursion};
    ghost use Rattle.tree_walk.specs.Answered.{IsAnswered};
    ghost use Rattle.tree_walk.specs.Held.{entries_of, Holds};

    // A job that holds nothing yet.
    pub(crate) fn make(alloc: Global, reader: R) -> WalkJob<R>
        ensures { result ≡ (reader, []) }
    {
        WalkJob {
            reader,
            entries: FlatList::make(alloc),
            names: Vec::new(alloc),
            spare: None,
        }
    }

    // Its reader, its entries, and the names that it kept.
    pub(crate) fn open(self) -> (R, FlatList, Vec<Listing>)
        ensures reader { result.0 ≡ self.0 }
        ensures entries { result.1 ≡ entries_of self.1 }
        ensures holds { Holds (R.tree self.0) (R.count self.0) self.1 }
        ensures answered { AllByRecursion (IsAnswered R.gives) result.1 }
    {
        let WalkJob {
            reader,
            entries,
            names,
            ..
        } = self;
        (reader, entries, names)
    }
}

impl<R: Tree> Job for WalkJob<R> {
    ghost use Rattle.std.specs.Prelude.{Option, None};
    ghost use Rattle.outside.specs.Tree.{Files};
    ghost use Rattle.tree_walk.specs.Held.{log_of};

    ghost log = { λ w. log_of w.1 };

    // The walk does not ask how many paths wait.
    ghost heard = { λ w. None };

    ghost Plain = { Option Files };

    ghost plain = { λ w. R.tree w.0 };

    /// Handles a path by `stat`, then a directory by `list` or a link by `read_link`, and pushes the children.
    fn handle(&mut self, item: &Path, _waiting: u64, fresh: &mut Batch) -> Result<(), OutOfMemory> {
        handle_path(
            &mut self.reader,
            &mut self.entries,
            &mut self.names,
            &mut self.spare,
            item,
            fresh,
        )
    }
}
