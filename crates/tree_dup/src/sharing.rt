//! Runs that workers compare.
ghost use Rattle.std.specs.Prelude.{◌≡◌, ◌+◌, ◌<◌, ◌≤◌, ℕ, length, map, All, IfOk, slice_index_or};
ghost use Rattle.outside.specs.Count.{RoseBy};
ghost use Rattle.shared_reads.specs.Desks.{HasRoom};
ghost use Rattle.tree_dup.specs.declared.runs.File.{File};
ghost use Rattle.tree_dup.specs.declared.runs.Standing.{Standing};
ghost use Rattle.tree_dup.specs.Private.Running.{AreStandings, comparison_faults, standing_of, still};

use crate::comparing::compare_run;
use crate::runs::{Comparison, File, Runs, Standing, same_content};
use outside::Tree;
use path_text::OutOfMemory;
use shared_reads::{Desk, Job, Reading};
use std::alloc::Global;

impl<'a, R: Tree> Job<R, Comparison> for Runs<'a> {
    ghost use Rattle.std.specs.Prelude.{length};
    ghost use Rattle.tree_dup.specs.Private.Running.{StandFrom, comparison_faults};

    ghost faults = { comparison_faults };

    ghost told = { λ job tree place c. StandFrom tree R.gives job.files.now place c };

    ghost places = { λ job. length job.files.now };

    fn len(&self) -> usize {
        self.files.len()
    }

    fn read(&self, place: usize, reader: &mut R, desk: &mut Desk) -> Reading<Comparison> {
        let end = run_end(self.files, place);
        if end - place < 2 {
            return Ok(None);
        }
        let comparison = compared(self.alloc, &self.files[place..end], reader, desk)?;
        Ok(Some(comparison))
    }
}

// Where the run ends that begins at a place. If none begins there it is that place.
fn run_end(files: &[File], place: usize) -> usize
    requires inside { place < length files.now }
    ensures from { place ≤ result }
    ensures to { result ≤ length files.now }
    ensures sizes { (k : ℕ) (d : File) → place ≤ k → k < result → (slice_index_or files.now k d).size ≡ (slice_index_or files.now place d).size }
{
    if place > 0 && same_content(&files[place - 1], &files[place]) {
        return place;
    }
    let mut end = place + 1;
    while end < files.len() && same_content(&files[place], &files[end]) {
        end += 1;
    }
    end
}

// Compares the files of a run. It works on a copy, because workers share the files.
fn compared<R: Tree>(
    alloc: Global,
    files: &[File],
    reader: &mut R,
    desk: &mut Desk,
) -> Result<Comparison, OutOfMemory>
    requires some { 0 < length files.now }
    requires sizes { (d : File) → All (λ f. f.size ≡ (slice_index_or files.now 0 d).size) files.now }
    requires room { HasRoom desk.old }
    ensures standings { IfOk result (λ c. AreStandings (R.tree reader.old) R.gives (map still files.now) c.digest c.standings.items) }
    ensures as_many { IfOk result (λ c. length c.standings.items ≡ length files.now) }
    ensures same { R.tree reader.new ≡ R.tree reader.old }
    ensures cause { IfOk result (λ c. RoseBy (comparison_faults c) (R.count reader.old) (R.count reader.new)) }
    ensures count { RoseBy 0 (R.count reader.old) (R.count reader.new) }
    ensures room { HasRoom desk.new }
{
    let size = files[0].size;
    let mut run = copies(alloc, files)?;
    let digest = compare_run(reader, &mut run, size, desk);
    let standings = standings(alloc, &run)?;
    Ok(Comparison { digest, standings })
}

// The files as they are before they are compared.
fn copies(alloc: Global, files: &[File]) -> Result<Vec<File>, OutOfMemory>
    ensures { IfOk result (λ run. run.items ≡ map still files.now) }
{
    let mut run = Vec::with_capacity(alloc, files.len())?;
    for file in files {
        run.push(File {
            path: file.path.copy()?,
            size: file.size,
            hash: file.hash,
            standing: Standing::Alike,
        })?;
    }
    Ok(run)
}

fn standings(alloc: Global, run: &[File]) -> Result<Vec<Standing>, OutOfMemory>
    ensures { IfOk result (λ standings. standings.items ≡ map standing_of run.now) }
{
    let mut standings = Vec::with_capacity(alloc, run.len())?;
    for file in run {
        standings.push(file.standing)?;
    }
    Ok(standings)
}

// Gives the files of a run the standings that a worker found.
pub(crate) fn stand(run: &mut Vec<File>, standings: &[Standing])
    requires as_many { length standings.now ≡ length run.old.items }
    ensures as_long { length run.new.items ≡ length run.old.items }
    ensures each { (k : ℕ) (d : File) (s : Standing) → k < length run.old.items
        → slice_index_or run.new.items k d ≡ record (slice_index_or run.old.items k d) { standing = slice_index_or standings.now k s } }
{
    for k in 0..run.len() {
        run[k].standing = standings[k];
    }
}
