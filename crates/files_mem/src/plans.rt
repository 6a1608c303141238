//! The calls that are planned to fail.
ghost use Rattle.std.specs.Prelude.{◌≡◌, ◌==◌, ◌&&◌, nat_eq};
ghost use Rattle.std.specs.List.{list_any};
ghost use Rattle.std.specs.Cmp.Lexicographic.{pointwise};
ghost use Rattle.files_mem.specs.Planned.{is_planned, is_call, call_number};

use path_text::Path;

/// A call that can be planned to fail.
#[derive(Clone, Copy, Debug, Drop, PartialEq, Eq)]
pub enum Call {
    /// `stat` answers `Failed`.
    Stat,
    /// `list` answers `Failed`.
    List,
    /// `list` answers that one name is not a text.
    Name,
    /// `read` answers `Failed`.
    Read,
    /// `make_dir` answers `Failed`.
    MakeDir,
    /// `make_file` answers `Failed`.
    MakeFile,
    /// `write_at` answers `Failed`.
    Write,
    /// `remove_file` answers `Failed`.
    RemoveFile,
    /// `remove_dir` answers `Failed`.
    RemoveDir,
    /// `read_link` answers `Failed`.
    ReadLink,
    /// `make_link` answers `Failed`.
    MakeLink,
    /// `lease_spans` answers `Failed`.
    Spans,
}

/// The calls that are planned to fail, each with its path.
pub type Plan = Vec<(Call, Path)>;

/// Whether the call is planned to fail at the path.
pub fn has(plan: &Plan, call: Call, path: &Path) -> bool
    ensures { result ≡ is_planned call path.now plan.now.items }
{
    plan.iter()
        .any(|planned| planned.0 == call && planned.1 == *path)
}
