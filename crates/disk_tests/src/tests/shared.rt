//! What the tests share beside rooms.
use outside::Listing;
use std::fmt::Debug;
use std::process::Abort;

/// Stops the test where the two differ.
pub fn same<T: PartialEq + Debug>(rt: &impl Abort, told: &T, want: &T) {
    assert!(rt; *told == *want, "{told:?}, and not {want:?}");
}

/// Stops the test where this is not so.
pub fn so(rt: &impl Abort, holds: bool, of: &str) {
    assert!(rt; holds, "{of}");
}

/// So many bytes, of which each tells its place.
pub fn bytes(rt: &(impl Abort + AllocGlobal), len: u32) -> Vec<u8> {
    let mut bytes = Vec::new(rt.alloc());
    for k in 0..len {
        bytes.push((k % 251) as u8).expect(rt, "room");
    }
    bytes
}

/// The names of a directory, with a blank behind each.
pub fn joined(rt: &(impl Abort + AllocGlobal), listing: &Listing) -> String {
    let mut names = String::new(rt.alloc());
    for k in 0..listing.len() {
        names.push_str(listing.name(k)).expect(rt, "memory");
        names.push(' ').expect(rt, "memory");
    }
    names
}
