//! The help and the version, by the words that ask for them.
use crate::changing_pages::{DCP, DRM, DSYNC};
use crate::reading_pages::{DCMP, DDUP, DFIND, DTEST, DWALK};
use crate::topics::topic;

const VERSION: &str = "mfu 0.1.0\n";

// It begins with one screen, as the help of each tool does: `reading_pages` describes it.
const TOOLS: &str = "usage: mfu TOOL WORD...

Lists, searches, compares, copies, syncs and deletes trees. Paths are absolute.

  dwalk PATH...       list trees, in path order
  dfind PATH...       list the entries that pass tests (name, size, age, ...)
  dcmp SOURCE DEST    compare two trees, contents included
  dcp SOURCE... DEST  copy trees
  dsync SOURCE DEST   make DEST equal to SOURCE
  ddup PATH...        find files with equal bytes
  drm PATH...         delete trees, or the entries that pass tests
  dtest N             walk a made-up tree of N nodes in memory

  mfu TOOL --help     help on a tool; also mfu TOOL -h, mfu help TOOL
  mfu --version       the version; also mfu -V

Exit status:
  0  success
  1  finished; standard error names the paths that failed
  2  command line, or DEST of dcp or dsync, refused; standard error says why
  3  out of memory                4  output could not be written; no message
  5  more than 4,194,304 entries  6  stopped by --stop-after
  7  a list file or checkpoint is damaged; standard error names the line
  8  a list file could not be read or written; standard error says why

More help: mfu help globs, mfu help expressions, mfu help messages, mfu help
statuses, mfu help permissions

On a terminal a line shows how far a run is. MFU_ERRORS=FILE in the environment
appends a line to FILE for each system call that failed, with its cause.
";

/// The help or the version, if the words ask for it and for nothing else: `--help`, `-h` or `help`; a tool and `--help` or `-h`;
/// `help` and a tool or a topic; `--version` or `-V`.
pub fn asked(words: &[String]) -> Option<&'static str> {
    match words {
        [word] => match word.as_str() {
            "--help" | "-h" | "help" => Some(TOOLS),
            "--version" | "-V" => Some(VERSION),
            _ => None,
        },
        [tool, word] if word.as_str() == "--help" || word.as_str() == "-h" => {
            help_of(tool.as_str())
        }
        [word, name] if word.as_str() == "help" => match help_of(name.as_str()) {
            Some(text) => Some(text),
            None => topic(name.as_str()),
        },
        _ => None,
    }
}

/// The help for words that are refused, if `--help` or `-h` is one of them, before any `--`. It is that of the tool, if the first
/// word names one.
pub fn asked_among(words: &[String]) -> Option<&'static str> {
    for word in words {
        match word.as_str() {
            "--" => return None,
            "--help" | "-h" => return Some(page_of(words)),
            _ => {}
        }
    }
    None
}

fn page_of(words: &[String]) -> &'static str {
    match words.first() {
        Some(tool) => help_of(tool.as_str()).unwrap_or(TOOLS),
        None => TOOLS,
    }
}

fn help_of(tool: &str) -> Option<&'static str> {
    match tool {
        "dwalk" => Some(DWALK),
        "dfind" => Some(DFIND),
        "dcmp" => Some(DCMP),
        "dcp" => Some(DCP),
        "dsync" => Some(DSYNC),
        "ddup" => Some(DDUP),
        "drm" => Some(DRM),
        "dtest" => Some(DTEST),
        _ => None,
    }
}
