//! How far a long run is, on standard error.
use std::io;
use std::io::Write;
use std::time::Clock;

// Milliseconds before the progress is shown, and between two times that it is.
const FIRST: u64 = 1000;

const BETWEEN: u64 = 200;

/// Whether progress is shown.
#[derive(Clone, Copy, PartialEq, Eq, Drop)]
pub enum Shown {
    Never,
    /// If the run takes more than a second.
    IfLong,
    Always,
}

/// A writer that counts the lines that are written, and shows their number on standard error.
#[derive(Drop)]
pub struct Progress<'a, W: Write + Drop, R: Eprint + Clock> {
    output: W,
    rt: &'a R,
    shown: Shown,
    lines: u64,
    begin: u64,
    // When the next line is due.
    due: u64,
    is_begun: bool,
}

// Milliseconds since some moment.
fn now(clock: &impl Clock) -> io::Result<u64> {
    let time = clock.monotonic()?;
    Ok(
        time.as_secs()
            .saturating_mul(1000)
            .saturating_add(time.subsec_millis() as u64),
    )
}

impl<'a, W: Write + Drop, R: Eprint + Clock> Progress<'a, W, R> {
    pub fn new(output: W, rt: &'a R, shown: Shown) -> io::Result<Self> {
        let begin = now(rt)?;
        Ok(Progress {
            output,
            rt,
            shown,
            lines: 0,
            begin,
            due: begin.saturating_add(FIRST),
            is_begun: false,
        })
    }

    fn count(&mut self, bytes: &[u8]) -> io::Result<()> {
        for byte in bytes {
            if *byte == b'\n' {
                self.lines = self.lines.saturating_add(1);
            }
        }
        let now = now(self.rt)?;
        if now < self.due {
            return Ok(());
        }
        self.due = now.saturating_add(BETWEEN);
        self.is_begun = true;
        let lines = self.lines;
        eprint!(self.rt; "\r{lines} lines of replies")
    }

    /// Shows the last line: how many lines there were, in which time, and how many a second.
    pub fn end(&self) -> io::Result<()> {
        if !self.is_begun && self.shown != Shown::Always {
            return Ok(());
        }
        let millis = now(self.rt)?.saturating_sub(self.begin);
        let lines = self.lines;
        let rate = lines.saturating_mul(1000).checked_div(millis).unwrap_or(0);
        let (whole, part) = (millis / 1000, millis % 1000);
        let front = if self.is_begun { "\r" } else { "" };
        eprintln!(self.rt;
            "{front}{lines} lines of replies in {whole}.{part:03} seconds, {rate} a second"
        )
    }
}

impl<'a, W: Write + Drop, R: Eprint + Clock> Write for Progress<'a, W, R> {
    fn write(&mut self, buf: &[u8]) -> io::Result<usize> {
        let count = self.output.write(buf)?;
        if self.shown != Shown::Never {
            self.count(&buf[..count])?;
        }
        Ok(count)
    }

    fn flush(&mut self) -> io::Result<()> {
        self.output.flush()
    }
}
