//! Orders of entries.
ghost use Rattle.std.specs.Prelude.{◌≡◌};
ghost use Rattle.std.specs.Option.{option_cmp};
ghost use Rattle.std.specs.Ordering.{nat_cmp};
ghost use Rattle.flat_list.specs.Orders.{by_field, sort_order, size_of, time_of, kind_of, kind_place};

use entry_pages::Entry;
use outside::{Kind, Stat};
use std::cmp::Ordering;

/// The field that a list is sorted by.
#[derive(Clone, Copy, Debug, Drop, PartialEq, Eq)]
pub enum Field {
    /// The path, in path order.
    Path,
    /// The last name of the path, by its bytes. That of `/` is empty.
    Name,
    /// The size.
    Size,
    /// The time of the last change.
    Mtime,
    /// The kind: files, directories, links, and then all others.
    Kind,
}

// How two entries compare: by the field, upwards or downwards, and by path if it ties.
pub(crate) fn sort_order(field: Field, down: bool, a: &Entry, b: &Entry) -> Ordering
    ensures { result ≡ sort_order field down a.now b.now }
{
    let by_field = if down {
        by_field(field, b, a)
    } else {
        by_field(field, a, b)
    };
    match by_field {
        Ordering::Equal => a.path.cmp(&b.path),
        other => other,
    }
}

fn by_field(field: Field, a: &Entry, b: &Entry) -> Ordering
    ensures { result ≡ by_field field a.now b.now }
{
    match field {
        Field::Path => a.path.cmp(&b.path),
        Field::Name => a.path.base().as_bytes().cmp(b.path.base().as_bytes()),
        Field::Size => compare(size_of(a.stat), size_of(b.stat)),
        Field::Mtime => compare(time_of(a.stat), time_of(b.stat)),
        Field::Kind => compare(kind_of(a.stat), kind_of(b.stat)),
    }
}

// A missing value is below all others.
fn compare(a: Option<u64>, b: Option<u64>) -> Ordering
    ensures { result ≡ option_cmp nat_cmp a b }
{
    a.cmp(&b)
}

fn size_of(stat: Option<Stat>) -> Option<u64>
    ensures { result ≡ size_of stat }
{
    Some(stat?.size)
}

fn time_of(stat: Option<Stat>) -> Option<u64>
    ensures { result ≡ time_of stat }
{
    stat?.mtime
}

fn kind_of(stat: Option<Stat>) -> Option<u64>
    ensures { result ≡ kind_of stat }
{
    Some(kind_place(stat?.kind))
}

fn kind_place(kind: Kind) -> u64
    ensures { result ≡ kind_place kind }
{
    match kind {
        Kind::File => 0,
        Kind::Dir => 1,
        Kind::Link => 2,
        Kind::Other => 3,
    }
}
