//! Tests of a path and its stat.
ghost use Rattle.std.specs.Prelude.{◌≡◌, ◌/◌, ◌-◌, ◌⊎◌, ◌<◌, true, Ok, Err, IfOk, IfErr, IsErrOf};
ghost use Rattle.entry_pages.specs.Entries.{is_kind};
ghost use Rattle.find_tests.specs.Bounds.{bound_reading};
ghost use Rattle.find_tests.specs.Tests.{holds, is_aged, is_newer, test_reading, kind_reading, has_glob};

use crate::bounds::{Bound, read_bound};
use crate::errors::TestError;
use crate::globs::{Glob, glob_match};
use outside::{Kind, Stat};
use path_text::Path;
use std::alloc::Global;

/// The seconds of a day.
const DAY: u64 = 86400;

/// The seconds of a minute.
const MINUTE: u64 = 60;

/// A test of a path and its stat.
#[derive(Debug, Drop)]
pub enum Test {
    /// The last name matches.
    Name(Glob),
    /// The whole path matches.
    Path(Glob),
    /// The path is of this kind.
    Kind(Kind),
    /// The number of bytes meets the bound.
    Size(Bound),
    /// The whole days since the last change meet the bound.
    Days(Bound),
    /// The whole minutes since the last change meet the bound.
    Minutes(Bound),
    /// The last change is after this time. Without a time the test holds of no path.
    Newer(Option<u64>),
}

/// The tests that a text can say.
#[derive(Clone, Copy, Debug, Drop, PartialEq, Eq)]
pub enum TestName {
    /// A glob for the last name.
    Name,
    /// A glob for the whole path.
    Path,
    /// A letter: `f`, `d`, `l` or `o`.
    Kind,
    /// A bound on the number of bytes, with a unit or without one.
    Size,
    /// A bound on the age in days.
    Days,
    /// A bound on the age in minutes.
    Minutes,
}

/// The test that a text says. Only a glob takes memory, and every text is a glob unless the call is out of memory.
pub fn parse_test(alloc: Global, name: TestName, value: &str) -> Result<Test, TestError>
    ensures ok { IfOk result (λ test. test_reading name value.now ≡ Ok test) }
    ensures refused { IfErr result (λ e. (test_reading name value.now ≡ Err e) ⊎ ((e ≡ TestError.OutOfMemory) × (has_glob name ≡ true))) }
{
    match name {
        TestName::Name => Ok(Test::Name(Glob::parse(alloc, value)?)),
        TestName::Path => Ok(Test::Path(Glob::parse(alloc, value)?)),
        TestName::Kind => read_kind(value.as_bytes()),
        TestName::Size => Ok(Test::Size(read_bound(true, value.as_bytes())?)),
        TestName::Days => Ok(Test::Days(read_bound(false, value.as_bytes())?)),
        TestName::Minutes => Ok(Test::Minutes(read_bound(false, value.as_bytes())?)),
    }
}

fn read_kind(text: &[u8]) -> Result<Test, TestError>
    ensures { result ≡ kind_reading text.now }
{
    match text {
        [b'f'] => Ok(Test::Kind(Kind::File)),
        [b'd'] => Ok(Test::Kind(Kind::Dir)),
        [b'l'] => Ok(Test::Kind(Kind::Link)),
        [b'o'] => Ok(Test::Kind(Kind::Other)),
        _ => Err(TestError::BadKind),
    }
}

impl Test {
    /// Whether the test holds of a path with this stat, `now` being the time in seconds since 1970. It takes no memory.
    pub fn holds(&self, path: &Path, stat: &Stat, now: u64) -> bool
        ensures { result ≡ holds self.now path.now stat.now now }
    {
        match self {
            Test::Name(glob) => glob_match(glob, path.base()),
            Test::Path(glob) => glob_match(glob, path.text()),
            Test::Kind(kind) => is_kind(*kind, stat.kind),
            Test::Size(bound) => bound.has(stat.size),
            Test::Days(bound) => is_aged(*bound, DAY, now, stat.mtime),
            Test::Minutes(bound) => is_aged(*bound, MINUTE, now, stat.mtime),
            Test::Newer(than) => is_newer(stat.mtime, *than),
        }
    }
}

fn is_kind(kind: Kind, other: Kind) -> bool
    ensures { result ≡ is_kind kind other }
{
    kind == other
}

// A bound on the whole units of so many seconds since a time.
fn is_aged(bound: Bound, unit: u64, now: u64, mtime: Option<u64>) -> bool
    requires { 0 < unit }
    ensures { result ≡ is_aged bound unit now mtime }
{
    match mtime {
        Some(mtime) => bound.has(now.saturating_sub(mtime) / unit),
        None => false,
    }
}

fn is_newer(mtime: Option<u64>, than: Option<u64>) -> bool
    ensures { result ≡ is_newer mtime than }
{
    match (mtime, than) {
        (Some(mtime), Some(than)) => than < mtime,
        _ => false,
    }
}
