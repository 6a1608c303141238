//! The files of a run, dealt out by their standings.
ghost use Rattle.std.specs.Prelude.{IfOk, OnOk, List, [], ◌∷◌, ◌++◌};
ghost use Rattle.tree_dup.specs.Told.{Grouping};
ghost use Rattle.tree_dup.specs.Private.Dealing.{AreDealt};
ghost use Rattle.tree_dup.specs.declared.runs.File.{File};

use crate::errors::DupError;
use crate::groups::Groups;
use crate::runs::{File, Standing};
use path_text::Path;
use std::alloc::Global;

// The paths of the files that have the bytes of the lead, and the files that have others. Files that were missed go to the findings.
pub(crate) fn deal(
    alloc: Global,
    run: Vec<File>,
    found: &mut Groups,
) -> Result<(Vec<Path>, Vec<File>), DupError>
    ensures { IfOk result (λ dealt. AreDealt run.items dealt.0.items dealt.1.items found.old found.new) }
{
    let mut paths = Vec::new(alloc);
    let mut others = Vec::new(alloc);
    for file in run {
        deal_file(file, &mut paths, &mut others, found)?;
    }
    Ok((paths, others))
}

fn deal_file(
    file: File,
    paths: &mut Vec<Path>,
    others: &mut Vec<File>,
    found: &mut Groups,
) -> Result<(), DupError>
    ensures { OnOk result ((run : List File) (before : Grouping) → AreDealt run paths.old.items others.old.items before found.old
        → AreDealt (run ++ file ∷ []) paths.new.items others.new.items before found.new) }
{
    match file.standing {
        Standing::Alike => Ok(paths.push(file.path)?),
        Standing::Other => Ok(others.push(File {
            standing: Standing::Alike,
            ..file
        })?),
        Standing::Missed(why) => found.miss(file.path, why),
    }
}
