//! The helpers of all tests.
ghost use Rattle.std.specs.Prelude.{◌≡◌};

use path_text::Path;
use std::fmt::Debug;
use std::process::Abort;

/// Stops the test if the two differ.
pub fn same<T: PartialEq + Debug>(rt: &impl Abort, told: &T, want: &T) {
    assert!(rt; *told == *want, "{told:?}, and not {want:?}");
}

/// Stops the test if the two numbers differ.
pub fn same_number(rt: &impl Abort, told: u64, want: u64)
    ensures { told ≡ want }
{
    assert!(rt; told == want, "{told}, and not {want}");
}

/// Stops the test if this does not hold.
pub fn so(rt: &impl Abort, holds: bool, of: &str) {
    assert!(rt; holds, "{of}");
}

/// The path of a text.
pub fn parsed(rt: &(impl Abort + AllocGlobal), text: &str) -> Path {
    Path::parse(rt.alloc(), text).expect(rt, "a path")
}

/// The paths of the texts.
pub fn all_parsed(rt: &(impl Abort + AllocGlobal), texts: &[&str]) -> Vec<Path> {
    let mut paths = Vec::new(rt.alloc());
    for text in texts {
        paths.push(parsed(rt, text)).expect(rt, "room");
    }
    paths
}

/// `len` times a byte.
pub fn filled(rt: &(impl Abort + AllocGlobal), byte: u8, len: usize) -> Vec<u8> {
    let mut bytes = Vec::new(rt.alloc());
    bytes.resize(len, byte).expect(rt, "room");
    bytes
}
