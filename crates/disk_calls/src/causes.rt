//! The causes of failed calls, by the system's names of errors.
use crate::watch::Call;
use path_text::{OutOfMemory, Path, put_escaped};
use std::alloc::Global;
use std::io;
use std::io::ErrorKind;

/// The line about a call that failed: the name of the error, the call and the path, with escapes as in lists.
pub fn line_of(
    alloc: Global,
    call: Call,
    path: &Path,
    cause: &io::Error,
) -> Result<Vec<u8>, OutOfMemory> {
    let mut line = Vec::new(alloc);
    put_name(&mut line, cause)?;
    line.push(b' ')?;
    line.extend_from_slice(call.word().as_bytes())?;
    line.push(b' ')?;
    put_escaped(&mut line, path)?;
    line.push(b'\n')?;
    Ok(line)
}

// The system's name of the error, or its number if it is not one of those below. Errors that the system did not give have words of
// our own.
fn put_name(line: &mut Vec<u8>, cause: &io::Error) -> Result<(), OutOfMemory> {
    let Some(code) = cause.raw_os_error() else {
        return put_word(line, own_name(cause.kind()));
    };
    match name_of(code) {
        Some(name) => put_word(line, name),
        None => put_number(line, code),
    }
}

fn put_word(line: &mut Vec<u8>, word: &str) -> Result<(), OutOfMemory> {
    line.extend_from_slice(word.as_bytes())?;
    Ok(())
}

fn put_number(line: &mut Vec<u8>, code: i32) -> Result<(), OutOfMemory> {
    let name = format!(in *line.allocator(); "errno{code}")?;
    put_word(line, name.as_str())
}

// The name of one of the errors below.
fn name_of(code: i32) -> Option<&'static str> {
    for (number, name) in NAMES {
        if number == code {
            return Some(name);
        }
    }
    None
}

// The words for the errors that this crate itself makes.
fn own_name(kind: ErrorKind) -> &'static str {
    match kind {
        ErrorKind::StaleNetworkFileHandle => "REPLACED",
        ErrorKind::WriteZero => "SHORT",
        ErrorKind::InvalidData => "NOTTEXT",
        ErrorKind::InvalidFilename => "NOTTEXT",
        ErrorKind::OutOfMemory => "ENOMEM",
        ErrorKind::NotFound => "ENOENT",
        _ => "OTHER",
    }
}

// Linux's numbers, on x86-64 and aarch64, of the errors that files and network file systems give.
const NAMES: [(i32, &str); 54] = [
    (1, "EPERM"),
    (2, "ENOENT"),
    (4, "EINTR"),
    (5, "EIO"),
    (6, "ENXIO"),
    (7, "E2BIG"),
    (9, "EBADF"),
    (11, "EAGAIN"),
    (12, "ENOMEM"),
    (13, "EACCES"),
    (14, "EFAULT"),
    (15, "ENOTBLK"),
    (16, "EBUSY"),
    (17, "EEXIST"),
    (18, "EXDEV"),
    (19, "ENODEV"),
    (20, "ENOTDIR"),
    (21, "EISDIR"),
    (22, "EINVAL"),
    (23, "ENFILE"),
    (24, "EMFILE"),
    (26, "ETXTBSY"),
    (27, "EFBIG"),
    (28, "ENOSPC"),
    (29, "ESPIPE"),
    (30, "EROFS"),
    (31, "EMLINK"),
    (32, "EPIPE"),
    (34, "ERANGE"),
    (35, "EDEADLK"),
    (36, "ENAMETOOLONG"),
    (37, "ENOLCK"),
    (38, "ENOSYS"),
    (39, "ENOTEMPTY"),
    (40, "ELOOP"),
    (61, "ENODATA"),
    (62, "ETIME"),
    (71, "EPROTO"),
    (74, "EBADMSG"),
    (75, "EOVERFLOW"),
    (84, "EILSEQ"),
    (95, "EOPNOTSUPP"),
    (104, "ECONNRESET"),
    (107, "ENOTCONN"),
    (110, "ETIMEDOUT"),
    (111, "ECONNREFUSED"),
    (112, "EHOSTDOWN"),
    (113, "EHOSTUNREACH"),
    (116, "ESTALE"),
    (117, "EUCLEAN"),
    (121, "EREMOTEIO"),
    (122, "EDQUOT"),
    (123, "ENOMEDIUM"),
    (126, "ENOKEY"),
];
