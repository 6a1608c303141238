//! The choice of entries from a list.
ghost use Rattle.std.specs.Prelude.{◌≡◌, ◌++◌};
ghost use Rattle.run_entries.specs.Prelude.{map, filter, OnOk, IfOk, is_selected};
ghost use Rattle.run_entries.specs.Choosing.{newer_than};

use find_tests::{Test, select_from};
use flat_list::FlatList;
use path_looks::{Look, Seen};
use path_text::OutOfMemory;

/// The entries that have a stat and pass every test, also the tests by the looks at paths of `--newer`. The entries are moved.
pub(crate) fn choose(
    list: FlatList,
    tests: Vec<Test>,
    looks: &[Look],
    now: u64,
) -> Result<FlatList, OutOfMemory>
    ensures { IfOk result (λ chosen. chosen ≡ filter (is_selected (tests.items ++ map (λ l. newer_than l.seen) looks.now) now) list) }
{
    let mut tests = tests;
    add_tests(&mut tests, looks)?;
    select_from(list, &tests, now)
}

// Adds the test that each look gives.
fn add_tests(tests: &mut Vec<Test>, looks: &[Look]) -> Result<(), OutOfMemory>
    ensures { OnOk result (tests.new.items ≡ tests.old.items ++ map (λ l. newer_than l.seen) looks.now) }
{
    for look in looks {
        tests.push(newer_than(look.seen))?;
    }
    Ok(())
}

fn newer_than(seen: Seen) -> Test
    ensures { result ≡ newer_than seen }
{
    match seen {
        Seen::At(mtime) => Test::Newer(mtime),
        Seen::Absent | Seen::Failed => Test::Newer(None),
    }
}
