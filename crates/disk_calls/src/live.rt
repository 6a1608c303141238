//! The line on a terminal that shows how far a run is.
use crate::watch::Call;
use std::alloc::{AllocError, Global};
use std::io;
use std::io::{Print, Write};
use std::rt::Clock;
use std::sync::atomic::{AtomicU64, Ordering};

// How many rows of words there are. Each reader and part counts in a row of its own, so that none waits for another.
const ROWS: usize = 64;

// A row has a word for each call, and reaches over two cache lines.
const ROW: usize = 16;

// A thread looks at the clock once in so many counts of a word.
const STRIDE: u64 = 64;

// The time between two lines, in milliseconds.
const PAUSE: u64 = 500;

/// The numbers that a line shows beside the number of paths.
#[derive(Clone, Copy, Debug, Drop, PartialEq, Eq)]
struct Shown {
    copied: bool,
    removed: bool,
    compared: bool,
    read: bool,
}

impl Shown {
    // The numbers for a tool.
    fn of(tool: &str) -> Shown {
        Shown {
            copied: tool == "dcp" || tool == "dsync",
            removed: tool == "drm" || tool == "dsync",
            compared: tool == "dcmp" || tool == "dsync",
            read: tool == "ddup",
        }
    }
}

/// A line on a terminal that shows how far a run is. The run writes it over itself every half second, and erases it at the end. All
/// threads of the run share the words in which they count.
#[derive(Drop)]
pub struct Live<C, P> {
    alloc: Global,
    clock: C,
    screen: P,
    shown: Shown,
    words: Vec<AtomicU64>,
    // How many readers and parts have a row.
    rows: AtomicU64,
    // When the next line is due, in milliseconds of the clock.
    due: AtomicU64,
    // How many columns the line on the screen has, or 0.
    columns: AtomicU64,
    over: AtomicU64,
}

impl<C: Clock, P: Print> Live<C, P> {
    /// No line yet. The first comes half a second from now, if a call is made then. An error if there is no memory for it, or if the
    /// clock cannot be read.
    pub fn make(alloc: Global, clock: C, screen: P, tool: &str) -> io::Result<Live<C, P>>
    where
        C: Drop,
        P: Drop,
    {
        let start = millis(&clock)?;
        let mut words = Vec::with_capacity(alloc, ROWS * ROW)?;
        for _ in 0..ROWS * ROW {
            words.push(AtomicU64::new(0))?;
        }
        Ok(Live {
            alloc,
            clock,
            screen,
            shown: Shown::of(tool),
            words,
            rows: AtomicU64::new(0),
            due: AtomicU64::new(start.saturating_add(PAUSE)),
            columns: AtomicU64::new(0),
            over: AtomicU64::new(0),
        })
    }

    /// Another row of words.
    pub(crate) fn row(&self) -> u8 {
        (self.rows.fetch_add(1, Ordering::SeqCst) % ROWS as u64) as u8
    }

    /// Counts the work of a call in a row, and writes the line if it is due.
    pub(crate) fn add(&self, row: u8, call: Call, count: u64) {
        let Some(word) = self.words.get(place(row, call)) else {
            return;
        };
        let before = word.fetch_add(count, Ordering::SeqCst);
        if before / STRIDE != before.wrapping_add(count) / STRIDE {
            self.look();
        }
    }

    // Writes the line if it is due and no other thread writes it.
    fn look(&self) {
        let due = self.due.load(Ordering::SeqCst);
        let Ok(now) = millis(&self.clock) else {
            return;
        };
        if now < due || self.over.load(Ordering::SeqCst) != 0 {
            return;
        }
        let next = now.saturating_add(PAUSE);
        let won = self
            .due
            .compare_exchange(due, next, Ordering::SeqCst, Ordering::SeqCst);
        if won.is_ok() {
            // If there is no memory for the line, or the screen does not take it, it is left out.
            let _ = self.show();
        }
    }

    fn show(&self) -> io::Result<()> {
        let mut line = String::from_str(self.alloc, "\rmfu: looked at ")?;
        put_number(&mut line, self.sum(Call::Stat))?;
        line.push_str(" paths")?;
        self.put_work(&mut line)?;
        self.put_blanks(&mut line)?;
        self.screen.write_all(line.as_bytes())
    }

    // Puts the numbers beside that of the paths.
    fn put_work(&self, line: &mut String) -> Result<(), AllocError> {
        let copied = self.sum(Call::MakeFile);
        let removed = self
            .sum(Call::RemoveFile)
            .wrapping_add(self.sum(Call::RemoveDir));
        // dsync compares all files before it removes or copies anything. A line with all its numbers may be longer than 80 columns.
        let is_changing = self.shown.copied && (copied != 0 || removed != 0);
        let is_comparing = self.shown.compared && !is_changing;
        if is_comparing {
            put_files(
                line,
                ", compared ",
                self.sum(Call::Open) / 2,
                self.sum(Call::Read),
            )?;
        }
        if self.shown.read {
            put_part(line, ", read ", self.sum(Call::Read) >> 20)?;
            line.push_str(" MB")?;
        }
        if self.shown.copied && !is_comparing {
            put_files(line, ", copied ", copied, self.sum(Call::Write))?;
        }
        if self.shown.removed && !is_comparing {
            put_part(line, ", removed ", removed)?;
        }
        Ok(())
    }

    // Puts blanks over the rest of a longer line before.
    fn put_blanks(&self, line: &mut String) -> Result<(), AllocError> {
        let columns = (line.len() as u64).saturating_sub(1);
        let before = self.columns.load(Ordering::SeqCst);
        for _ in 0..before.saturating_sub(columns) {
            line.push(' ')?;
        }
        self.columns.store(columns.max(before), Ordering::SeqCst);
        Ok(())
    }

    // The count of a call in all rows together.
    fn sum(&self, call: Call) -> u64 {
        let mut sum: u64 = 0;
        for row in 0..ROWS as u8 {
            if let Some(word) = self.words.get(place(row, call)) {
                sum = sum.wrapping_add(word.load(Ordering::SeqCst));
            }
        }
        sum
    }

    /// Erases the line. No line comes after that.
    pub fn end(&self) {
        self.over.store(1, Ordering::SeqCst);
        let columns = self.columns.swap(0, Ordering::SeqCst);
        if columns > 0 {
            let _ = self.blank(columns);
        }
    }

    fn blank(&self, columns: u64) -> io::Result<()> {
        let mut line = String::from_str(self.alloc, "\r")?;
        for _ in 0..columns {
            line.push(' ')?;
        }
        line.push('\r')?;
        self.screen.write_all(line.as_bytes())
    }
}

// The word of a call in a row.
fn place(row: u8, call: Call) -> usize {
    row as usize * ROW + call as usize
}

fn millis(clock: &impl Clock) -> io::Result<u64> {
    let time = clock.monotonic()?;
    Ok(
        time.as_secs()
            .saturating_mul(1000)
            .saturating_add(u64::from(time.subsec_millis())),
    )
}

// A number with a comma between each group of three digits.
fn put_number(line: &mut String, number: u64) -> Result<(), AllocError> {
    let digits = format!(in *line.allocator(); "{number}")?;
    let mut left = digits.len();
    for digit in digits.as_str().chars() {
        line.push(digit)?;
        left = left.saturating_sub(1);
        if left > 0 && left % 3 == 0 {
            line.push(',')?;
        }
    }
    Ok(())
}

// Puts a number after a word.
fn put_part(line: &mut String, word: &str, number: u64) -> Result<(), AllocError> {
    line.push_str(word)?;
    put_number(line, number)
}

// Puts a number of files after a word, and the number of their megabytes.
fn put_files(line: &mut String, word: &str, files: u64, bytes: u64) -> Result<(), AllocError> {
    put_part(line, word, files)?;
    line.push_str(" files")?;
    put_megabytes(line, bytes)
}

fn put_megabytes(line: &mut String, bytes: u64) -> Result<(), AllocError> {
    line.push_str(" (")?;
    put_number(line, bytes >> 20)?;
    line.push_str(" MB)")
}

/// A stream to which a run writes. Its first write erases the live line before.
#[derive(Drop)]
pub struct AfterLive<'a, C, P, W> {
    live: Option<&'a Live<C, P>>,
    stream: W,
}

impl<'a, C, P, W> AfterLive<'a, C, P, W> {
    /// The stream, with the live line to erase, if there is one.
    pub fn make(live: Option<&'a Live<C, P>>, stream: W) -> AfterLive<'a, C, P, W> {
        AfterLive { live, stream }
    }
}

impl<C: Clock, P: Print, W: Write> Write for AfterLive<'_, C, P, W> {
    fn write(&mut self, bytes: &[u8]) -> io::Result<usize> {
        if let Some(live) = self.live {
            live.end();
        }
        self.stream.write(bytes)
    }

    fn flush(&mut self) -> io::Result<()> {
        self.stream.flush()
    }
}
