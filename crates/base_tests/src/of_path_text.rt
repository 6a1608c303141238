//! Paths of as many bytes as they may have. Short ones are rows of `worked_calls`.
use crate::shared::{parsed, same};
use path_text::{EscapeError, JoinError, Path, PathError, escape, unescape};
use std::process::Abort;

// `/`, and after it so many times one text.
fn long(rt: &(impl Abort + AllocGlobal), piece: &str, many: u32) -> String {
    let mut text = String::from_str(rt.alloc(), "/").expect(rt, "room");
    for _ in 0..many {
        text.push_str(piece).expect(rt, "room");
    }
    text
}

#[test]
fn a_path_has_at_most_4095_bytes(rt: HostRuntime) {
    let path = parsed(&rt, &long(&rt, "a", 4094));
    same(&rt, &path.join("a").err(), &Some(JoinError::TooLong));
    let told = Path::parse(rt.alloc(), &long(&rt, "a", 4095)).err();
    same(&rt, &told, &Some(PathError::TooLong));
}

#[test]
fn a_grafted_path_has_at_most_4095_bytes(rt: HostRuntime) {
    let top = parsed(&rt, &long(&rt, "a", 4092));
    for (rest, want) in [
        ("/", Ok(4093)),
        ("/b", Ok(4095)),
        ("/bc", Err(JoinError::TooLong)),
    ] {
        let told = Path::graft(&top, &parsed(&rt, rest));
        same(&rt, &told.map(|path| path.text().len()), &want);
    }
}

#[test]
fn printed_text_counts_the_bytes_that_it_tells(rt: HostRuntime) {
    let path = unescape(rt.alloc(), &long(&rt, "\\x0A", 4094)).expect(&rt, "a path");
    same(&rt, &path.text().len(), &4095);
    let printed = escape(rt.alloc(), &path).expect(&rt, "room");
    same(&rt, &printed.len(), &(1 + 4 * 4094));
    let told = unescape(rt.alloc(), &long(&rt, "\\x0A", 4095)).err();
    same(&rt, &told, &Some(EscapeError::Path(PathError::TooLong)));
}
