//! The lines about calls that failed, in the file of `MFU_ERRORS`.
use crate::tests::rooms::{Room, parsed};
use crate::tests::screens::{Hand, Screen};
use crate::tests::shared::so;
use real_disk::{Call, Watch, Watched};
use std::fs::File;
use std::io;
use std::io::ErrorKind;
use std::process::Abort;

/// A system that shows no line, and keeps its failures in a file.
type Kept<'a> = Watched<'a, HostRuntime, &'a Hand, &'a Screen>;

fn kept<'a>(host: HostRuntime, errors: &'a File) -> Kept<'a> {
    Watched::make(host.alloc(), host, None, Some(errors))
}

// Stops the test where the line of a call that failed with this error has another text. The file of the line has the text as its name.
fn has_line(
    rt: &(impl Abort + AllocGlobal),
    host: HostRuntime,
    room: &Room,
    told: (io::Error, Call),
    text: &str,
) {
    let path = parsed(host, "/a\n/b c\\d").expect(rt, "a path");
    let errors = room.appended(text).expect(rt, "a file");
    let (cause, call) = told;
    kept(host, &errors).failed(call, &path, &cause);
    let line = format!(in rt.alloc(); "{text} /a\\x0A/b c\\x5Cd\n").expect(rt, "memory");
    so(rt, room.holds(text, line.as_bytes()), text);
}

#[test]
fn a_line_has_the_name_that_the_system_gives(rt: HostRuntime) {
    let room = Room::with(rt, &[]).expect(&rt, "a room");
    for (number, call, text) in [
        (13, Call::List, "EACCES list"),
        (1, Call::RemoveFile, "EPERM remove"),
        (5, Call::Read, "EIO read"),
        (28, Call::Write, "ENOSPC write"),
        (122, Call::MakeFile, "EDQUOT create"),
        (30, Call::MakeDir, "EROFS mkdir"),
        (133, Call::Stat, "errno133 stat"),
    ] {
        let cause = io::Error::from_raw_os_error(number);
        has_line(&rt, rt, &room, (cause, call), text);
    }
    room.remove().expect(&rt, "an empty room");
}

#[test]
fn a_line_has_the_name_of_an_error_that_the_run_makes(rt: HostRuntime) {
    let room = Room::with(rt, &[]).expect(&rt, "a room");
    for (kind, call, text) in [
        (
            ErrorKind::StaleNetworkFileHandle,
            Call::RemoveDir,
            "REPLACED rmdir",
        ),
        (ErrorKind::WriteZero, Call::Write, "SHORT write"),
        (
            ErrorKind::InvalidFilename,
            Call::ReadLink,
            "NOTTEXT readlink",
        ),
        (ErrorKind::OutOfMemory, Call::Open, "ENOMEM open"),
        (ErrorKind::Other, Call::MakeLink, "OTHER symlink"),
    ] {
        let cause = io::Error::from(kind);
        has_line(&rt, rt, &room, (cause, call), text);
    }
    room.remove().expect(&rt, "an empty room");
}
