//! The outcomes of workers.
ghost use Rattle.std.specs.Prelude.{◌≡◌, ℕ, ◌+◌, ◌≤◌, ◌++◌, ◌∷◌, [], OnErr, OnOk, IfSome};
ghost use Rattle.shared_reads.specs.Kept.{Stands, IsKept, IsCut, AreCut, held, faults_of, all_faults};

use path_text::OutOfMemory;

/// The outcome of reading for a place.
#[derive(Drop)]
pub struct Found<O> {
    /// The place.
    pub place: usize,
    /// The outcome.
    pub outcome: O,
}

/// The outcomes of all workers, those of each in the order in which it found them.
#[derive(Drop)]
pub struct Kept<O> {
    /// A list for each worker.
    pub lists: Vec<Vec<Found<O>>>,
}

impl<O: Drop> Kept<O> {
    /// The outcome for a place, if it was kept. The call drops the outcomes for later places, so a caller asks for the last
    /// place first.
    pub fn take(&mut self, place: usize) -> Option<O>
        ensures kept { IfSome result (λ outcome. IsKept place outcome self.old) }
        ensures cut { AreCut self.old self.new }
        ensures held { (faults : O → ℕ) → faults_of faults result + held faults self.new ≤ held faults self.old }
    {
        for k in 0..self.lists.len() {
            if let Some(outcome) = take_last(&mut self.lists[k], place) {
                return Some(outcome);
            }
        }
        None
    }
}

// The outcome of one worker for a place.
fn take_last<O: Drop>(list: &mut Vec<Found<O>>, place: usize) -> Option<O>
    ensures stands { IfSome result (λ outcome. Stands place outcome list.old.items) }
    ensures cut { IsCut list.old.items list.new.items }
    ensures held { (faults : O → ℕ) → faults_of faults result + all_faults faults list.new.items ≤ all_faults faults list.old.items }
{
    while let Some(last) = list.last() {
        if last.place < place {
            return None;
        }
        let Some(found) = list.pop() else {
            unreachable!()
        };
        if found.place == place {
            return Some(found.outcome);
        }
    }
    None
}

// Puts an outcome after the rest.
pub(crate) fn keep<O: Drop>(list: &mut Vec<Found<O>>, found: Found<O>) -> Result<(), OutOfMemory>
    ensures ok { OnOk result (list.new.items ≡ list.old.items ++ found ∷ []) }
    ensures err { OnErr result (list.new.items ≡ list.old.items) }
{
    make_room(list)?;
    list.push(found)?;
    Ok(())
}

/// Makes room for one more item. The list grows by an eighth, and by 65,600 items at most, so it takes little more memory
/// than its items need.
pub fn make_room<T: Drop>(list: &mut Vec<T>) -> Result<(), OutOfMemory>
    ensures { list.new.items ≡ list.old.items }
{
    if list.len() == list.capacity() {
        list.reserve_exact((list.len() / 8).min(65536) + 64)?;
    }
    Ok(())
}
