//! The run.
ghost use Rattle.std.specs.Prelude.{◌≡◌, ◌⊎◌, ◌<◌};
ghost use Rattle.mfu_top.specs.Prelude.{[], ℕ, map, string_bytes, Ok, Err, IfOk, IfErr, IfSome, IsErr, true, RoseBy, nothing_lent, side_of, StoodStill};
ghost use Rattle.mfu_top.specs.Prelude.{asked_by, refusal_in, reading, Within, Report, Stop, Grew, GrewBySome, GrewByLine, Printed, memory_line, refusal_line};
ghost use Rattle.mfu_top.specs.Prelude.{stream_of, has_reason, status_of, stop_line};
ghost use Rattle.mfu_top.specs.Run.{Reports, Stops, Leaves, is_apart, Fine, EndedWell};

use crate::laws::fine_runs_succeed;
use crate::reporting::report_of;
use outside::{Sink, Wide};
use run_report::{Status, end_refused, end_stopped};
use std::alloc::Global;
use std::sync::Wait;
use std::thread::Threads;
use tool_words::{Command, WordsError, read_words, words_ask_within_limits};

/// The whole work of the program, in this order:
///
/// 1. It reads the words.
/// 2. It places the targets of a copy or a sync, and looks at the paths of `--newer`.
/// 3. It reads a list or a checkpoint, or walks.
/// 4. It writes a checkpoint if the walk was cut. Otherwise it copies, syncs, groups, removes or saves the entries, as asked.
/// 5. It writes `out`, and then `notes`.
///
/// All memory is taken before the first byte goes to `out`. `now` is in seconds since 1970. The number of the status is the
/// program's exit status.
pub fn run<T: Threads + Wait + Sync, G: Wide + Send, O: Sink, E: Sink>(
    rt: &T,
    alloc: Global,
    words: &[String],
    files: &mut G,
    out: &mut O,
    notes: &mut E,
    now: u64,
) -> Status
where
    G::Reader: Send,
    G::Part: Send,
    G::Span: Send,
    // No part of the files is lent to anybody, and none is after the run.
    requires lent { G.area files.old ≡ nothing_lent }
    ensures lent { G.area files.new ≡ nothing_lent }

    // Every path of the files but those that the tool may change is as before, and no count falls.
    ensures rest { IfOk (reading (map string_bytes words.now))
        (λ asked. Leaves asked now (side_of G.Plot files.old) (side_of G.Plot files.new)) }
    // A tool that has nothing to do with the files leaves them alone.
    ensures apart { IfOk (reading (map string_bytes words.now)) (λ asked. is_apart asked ≡ true → files.new ≡ files.old) }
    ensures counts { RoseBy 0 (G.count files.old) (G.count files.new) × RoseBy 0 (O.count out.old) (O.count out.new)
        × RoseBy 0 (E.count notes.old) (E.count notes.new) }

    // Words that are refused end with status 2 and the line of the first offence, and nothing is looked at then; or with status 3.
    ensures words { result ≡ Status.Words → IfErr (reading (map string_bytes words.now)) (λ e. (files.new ≡ files.old) × (out.new ≡ out.old)
        × GrewByLine (refusal_line e) (stream_of E.Sink notes.old) (stream_of E.Sink notes.new)) }
    ensures refused { IsErr (reading (map string_bytes words.now)) → (files.new ≡ files.old) × ((result ≡ Status.Words) ⊎ (result ≡ Status.Memory)) }

    // The headline: with status 0 or 1 the report that the tool makes is printed; and status 1 comes exactly where a note stands.
    ensures done { result ≡ Status.Done → IfOk (reading (map string_bytes words.now)) (λ asked. (report : Report)
        × Reports asked now (side_of G.Plot files.old) (side_of G.Plot files.new) report
        × (report.failed ≡ 0) × Printed report (stream_of O.Sink out.old) (stream_of O.Sink out.new)
        (stream_of E.Sink notes.old) (stream_of E.Sink notes.new)) }
    ensures named { result ≡ Status.Named → IfOk (reading (map string_bytes words.now)) (λ asked. (report : Report)
        × Reports asked now (side_of G.Plot files.old) (side_of G.Plot files.new) report
        × (0 < report.failed) × Printed report (stream_of O.Sink out.old) (stream_of O.Sink out.new)
        (stream_of E.Sink notes.old) (stream_of E.Sink notes.new)) }

    // Status 3: want of memory, with its line and nothing else.
    ensures memory { result ≡ Status.Memory → (out.new ≡ out.old)
        × GrewByLine memory_line (stream_of E.Sink notes.old) (stream_of E.Sink notes.new) }

    // Status 4: a sink failed, and holds a prefix of its text. After a fault of `out` nothing goes to `notes`.
    ensures sink { result ≡ Status.Sink → IfOk (reading (map string_bytes words.now)) (λ asked. (report : Report)
        × Reports asked now (side_of G.Plot files.old) (side_of G.Plot files.new) report
        × ((RoseBy 1 (O.count out.old) (O.count out.new) × GrewBySome report.out (stream_of O.Sink out.old)
        (stream_of O.Sink out.new) × (notes.new ≡ notes.old))
        ⊎ (RoseBy 1 (E.count notes.old) (E.count notes.new) × Grew report.out (stream_of O.Sink out.old)
        (stream_of O.Sink out.new)
        × GrewBySome report.notes (stream_of E.Sink notes.old) (stream_of E.Sink notes.new)))) }

    // Each other status comes for a reason of the tool, and with its line. Nothing is printed.
    ensures stopped { has_reason result ≡ true → IfOk (reading (map string_bytes words.now)) (λ asked. (why : Stop) × (result ≡ status_of why)
        × Stops asked (side_of G.Plot files.old) (side_of G.Plot files.new) why × (out.new ≡ out.old)
        × GrewByLine (stop_line why) (stream_of E.Sink notes.old) (stream_of E.Sink notes.new)) }

    // When a run succeeds, or stops with a checkpoint where its words say so: nothing stands against it, and no sink fails.
    ensures complete { IfOk (reading (map string_bytes words.now))
        (λ asked. Fine asked now (side_of G.Plot files.old) (side_of G.Plot files.new)
        → StoodStill (O.count out.old) (O.count out.new) → StoodStill (E.count notes.old) (E.count notes.new) → EndedWell asked result) }
{
    fine_runs_succeed();
    let command = match read_command(alloc, words) {
        Ok(command) => command,
        Err(why) => return end_refused(alloc, notes, why),
    };
    match report_of(rt, alloc, command, files, now) {
        Ok(report) => report.put(out, notes),
        Err(stop) => end_stopped(alloc, notes, stop),
    }
}

// The command that the words ask for, and that it is within the limits of a run.
fn read_command(alloc: Global, words: &[String]) -> Result<Command, WordsError>
    ensures read { IfOk result (λ command. reading (map string_bytes words.now) ≡ Ok (asked_by command)) }
    ensures within { IfOk result (λ command. Within (asked_by command)) }
    ensures refused { IfErr result (λ e. IfSome (refusal_in e) (λ refusal. reading (map string_bytes words.now) ≡ Err refusal)) }
{
    words_ask_within_limits();
    read_words(alloc, words)
}
