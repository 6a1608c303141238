//! The errors of the system as answers of the traits. An error without a line here is a fault, which is reported to the watch.
ghost use Rattle.std.specs.Prelude.{◌≡◌, ℕ, Ok, IfErr, IsTrue};
ghost use Rattle.outside.specs.Writes.{may_make, may_change, may_empty};

use crate::watch::{Call, Watch};
use outside::{LinkError, LinkText, LinkTextError, ReadError, WriteError};
use path_text::Path;
use std::alloc::Global;
use std::io;
use std::io::ErrorKind;
use std::path::PathBuf;

/// Whether nothing is at the path of a call: it has no such name, or no directory above it.
pub fn is_absent(kind: ErrorKind) -> bool {
    kind == ErrorKind::NotFound || kind == ErrorKind::NotADirectory
}

// A call that failed.
fn fault<R: Watch>(watch: &R, call: Call, path: &Path, cause: &io::Error) -> WriteError
    ensures { result ≡ WriteError.Failed }
{
    watch.failed(call, path, cause);
    WriteError::Failed
}

/// The answer of a call that made a node.
pub fn made<R: Watch>(
    watch: &R,
    call: Call,
    path: &Path,
    told: io::Result<()>,
) -> Result<(), WriteError>
    ensures { IfErr result (λ e. IsTrue (may_make e)) }
{
    match told {
        Ok(()) => {
            watch.did(call, 1);
            Ok(())
        }
        Err(e) => Err(match e.kind() {
            ErrorKind::AlreadyExists => WriteError::Exists,
            ErrorKind::NotFound => WriteError::NoParent,
            ErrorKind::NotADirectory => WriteError::NoParent,
            _ => fault(watch, call, path, &e),
        }),
    }
}

/// The answer of a call that changed or removed something other than a directory.
pub fn changed<R: Watch, T>(
    watch: &R,
    call: Call,
    path: &Path,
    told: io::Result<T>,
) -> Result<T, WriteError>
where
    T: Drop,
    ensures { IfErr result (λ e. IsTrue (may_change e)) }
{
    match told {
        Ok(changed) => {
            watch.did(call, 1);
            Ok(changed)
        }
        Err(e) => Err(match e.kind() {
            ErrorKind::NotFound => WriteError::Absent,
            ErrorKind::NotADirectory => WriteError::Absent,
            ErrorKind::IsADirectory => WriteError::WrongKind,
            _ => fault(watch, call, path, &e),
        }),
    }
}

/// The answer of a call that removed a directory. "Not a directory" may be about the path itself, or about one above it.
pub fn emptied<R: Watch>(watch: &R, path: &Path, told: io::Result<()>) -> Result<(), WriteError>
    ensures { IfErr result (λ e. IsTrue (may_empty e)) }
{
    match told {
        Ok(()) => {
            watch.did(Call::RemoveDir, 1);
            Ok(())
        }
        Err(e) => Err(match e.kind() {
            ErrorKind::NotFound => WriteError::Absent,
            ErrorKind::NotADirectory => WriteError::WrongKind,
            ErrorKind::DirectoryNotEmpty => WriteError::NotEmpty,
            ErrorKind::AlreadyExists => WriteError::NotEmpty,
            _ => fault(watch, Call::RemoveDir, path, &e),
        }),
    }
}

/// The answer of a call that wrote so many bytes. Fewer are a fault.
pub fn wrote<R: Watch>(
    watch: &R,
    path: &Path,
    told: io::Result<usize>,
    len: usize,
) -> Result<(), WriteError>
    ensures { IfErr result (λ e. IsTrue (may_change e)) }
{
    match told {
        Ok(n) if n == len => {
            watch.did(Call::Write, n as u64);
            Ok(())
        }
        Ok(_) => {
            let short = io::Error::from(ErrorKind::WriteZero);
            Err(fault(watch, Call::Write, path, &short))
        }
        Err(e) => Err(fault(watch, Call::Write, path, &e)),
    }
}

/// The text of a link, as the system gave it.
pub fn text_of<R: Watch>(
    watch: &R,
    alloc: Global,
    path: &Path,
    told: io::Result<PathBuf>,
) -> Result<LinkText, LinkError> {
    let told = match told {
        Ok(text) => LinkText::parse(alloc, text.as_str()),
        Err(e) => return Err(unread(watch, path, &e)),
    };
    match told {
        Ok(text) => {
            watch.did(Call::ReadLink, 1);
            Ok(text)
        }
        Err(LinkTextError::OutOfMemory) => Err(LinkError::OutOfMemory),
        Err(_) => {
            let no_text = io::Error::from(ErrorKind::InvalidData);
            watch.failed(Call::ReadLink, path, &no_text);
            Err(LinkError::Failed)
        }
    }
}

// Why the text of a link was not read. If the path has something other than a link, the system says that the argument is invalid.
fn unread<R: Watch>(watch: &R, path: &Path, cause: &io::Error) -> LinkError {
    match cause.kind() {
        ErrorKind::NotFound => LinkError::NotLink,
        ErrorKind::NotADirectory => LinkError::NotLink,
        ErrorKind::InvalidInput => LinkError::NotLink,
        ErrorKind::OutOfMemory => LinkError::OutOfMemory,
        _ => {
            watch.failed(Call::ReadLink, path, cause);
            LinkError::Failed
        }
    }
}

/// The answer of a call that opened a file to read it. Anything but a file is refused as a directory is.
pub fn opened<R: Watch, T>(watch: &R, path: &Path, told: io::Result<T>) -> Result<T, ReadError>
where
    T: Drop,
{
    match told {
        Ok(opened) => {
            watch.did(Call::Open, 1);
            Ok(opened)
        }
        Err(e) => Err(match e.kind() {
            ErrorKind::NotFound => ReadError::NotFile,
            ErrorKind::NotADirectory => ReadError::NotFile,
            ErrorKind::IsADirectory => ReadError::NotFile,
            _ => {
                watch.failed(Call::Open, path, &e);
                ReadError::Failed
            }
        }),
    }
}

/// The answer of a read.
pub fn was_read<R: Watch>(
    watch: &R,
    path: &Path,
    told: io::Result<usize>,
) -> Result<usize, ReadError>
    ensures same { (n : ℕ) → result ≡ Ok n → told ≡ Ok n }
    ensures refused { IfErr result (λ e. e ≡ ReadError.Failed) }
{
    match told {
        Ok(n) => {
            watch.did(Call::Read, n as u64);
            Ok(n)
        }
        Err(e) => {
            watch.failed(Call::Read, path, &e);
            Err(ReadError::Failed)
        }
    }
}
