//! Two looks that wait for each other.
use path_text::Path;
use std::sync::atomic::AtomicBool;
use std::sync::atomic::Ordering::SeqCst;
use std::thread::yield_now;

/// The largest number of times that a look asks whether the other one came.
const MOST: u32 = 10_000_000;

/// After how many looks another thread may run.
const TURN: u32 = 1_000;

/// Two paths, and whether each was looked at.
#[derive(Drop)]
pub struct Meeting {
    one: Path,
    other: Path,
    one_came: AtomicBool,
    other_came: AtomicBool,
}

impl Meeting {
    /// Neither was looked at.
    pub fn make(one: Path, other: Path) -> Meeting {
        Meeting {
            one,
            other,
            one_came: AtomicBool::new(false),
            other_came: AtomicBool::new(false),
        }
    }

    /// Notes a look at this path, and answers whether the other one is looked at too, or was before. A path that is neither of the two
    /// waits for none.
    pub fn meets(&self, path: &Path) -> bool {
        let is_one = self.one == *path;
        let is_other = self.other == *path;
        if is_one {
            self.one_came.store(true, SeqCst);
        }
        if is_other {
            self.other_came.store(true, SeqCst);
        }
        if is_one {
            comes(&self.other_came)
        } else if is_other {
            comes(&self.one_came)
        } else {
            true
        }
    }
}

// Whether the flag is set, now or soon.
fn comes(flag: &AtomicBool) -> bool {
    for look in 0..MOST {
        if flag.load(SeqCst) {
            return true;
        }
        if look % TURN == 0 {
            yield_now();
        }
    }
    false
}
