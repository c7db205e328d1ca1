// The panel's table: a line for each period, then the run's counts, and where numbers ran off a line that says so.
#![tactic(auto)]

mod closing;

ghost use Rattle.std.specs.Prelude.{◌≡◌, ◌+◌, ◌≤◌, ◌<◌};
ghost use Rattle.table.specs.Outcomes.{outcome_of, outcome_in};

use promise::Answer;
use rows::{Check, Estimate, Run};

// Which columns there are. `table`: no reading is shown, and no mean.
#[derive(Clone, Copy)]
pub struct Shown {
    pub inputs: u64,
    pub smooth: bool,
    pub table: bool,
}

// The widths of the columns: the period, its time, a check, what became of it, a mean, a standard deviation. A line of all of them has 190 bytes.
const PERIOD: usize = 6;

const TIME: usize = 14;

const CHECK: usize = 14;

const OUTCOME: usize = 15;

const MEAN: usize = 14;

const DEVIATION: usize = 14;

fn put(line: &[u8], to: usize) {
    if let Some(written) = line.get(..to) {
        io::write_all(1, written);
    }
}

// What became of a check, in words.
fn outcome(check: Check) -> &'static [u8]
    ensures { result.now ≡ outcome_of check }
{
    match check {
        Check::Missing => b"  no check",
        Check::Taken => b"  taken",
        Check::FirstNews => b"  first news",
        Check::AddsNothing => b"  adds nothing",
        Check::OnlyRounding => b"  only rounding",
        Check::Doubtful => b"  doubtful",
    }
}

fn outcome_cell(line: &mut [u8], at: usize, check: Check) -> bool
    ensures { line.new ≡ outcome_in check at line.old }
{
    cells::word_left(line, at, OUTCOME, outcome(check))
}

fn reading_cell(line: &mut [u8], at: usize, check: Check, reading: f64) {
    if check == Check::Missing {
        cells::word_right(line, at, CHECK, b"-");
    } else {
        cells::number(line, at, CHECK, reading, 0);
    }
}

// A mean whose standard deviation is infinite says nothing.
fn mean_cell(line: &mut [u8], at: usize, x: f64, sd: f64, thousandths: bool) {
    if float::is_infinite(sd) {
        cells::word_right(line, at, MEAN, b"unknown");
        return;
    }
    value_cell(line, at, MEAN, x, thousandths);
}

// The rate is in thousandths of a ppb.
fn value_cell(line: &mut [u8], at: usize, width: usize, x: f64, thousandths: bool) {
    if thousandths {
        cells::thousandths(line, at, width, x);
    } else {
        cells::number(line, at, width, x, 3);
    }
}

// A line of the table, which is filled from its start: the next cell begins where the last one ends.
#[derive(Drop)]
struct Line {
    text: [u8; 256],
    end: usize,
}

impl Line {
    // A period's number, and its time.
    fn of(period: u64, time: f64) -> Line
        ensures { result.end ≡ 20 }
    {
        let mut text = [b' '; 256];
        cells::count(&mut text, 0, PERIOD, period);
        cells::number(&mut text, PERIOD, TIME, time, 0);
        Line {
            text,
            end: PERIOD + TIME,
        }
    }

    // A check's columns.
    fn check(&mut self, check: Check, reading: f64, table: bool)
        requires { self.old.end ≤ 200 }
        ensures { self.new.end ≤ self.old.end + 29 }
    {
        if !table {
            reading_cell(&mut self.text, self.end, check, reading);
            self.end += CHECK;
        }
        outcome_cell(&mut self.text, self.end, check);
        self.end += OUTCOME;
    }

    // A mean and its standard deviation, or that alone.
    fn estimate(&mut self, x: f64, sd: f64, thousandths: bool, table: bool)
        requires { self.old.end ≤ 200 }
        ensures { self.new.end ≤ self.old.end + 28 }
    {
        if !table {
            mean_cell(&mut self.text, self.end, x, sd, thousandths);
            self.end += MEAN;
        }
        value_cell(&mut self.text, self.end, DEVIATION, sd, thousandths);
        self.end += DEVIATION;
    }

    // Offset and rate of period t.
    fn state(&mut self, rows: &[f64], t: usize, estimate: Estimate, table: bool)
        requires { (self.old.end ≤ 134) × (t < 4096) }
        ensures { self.new.end ≤ self.old.end + 56 }
    {
        let c = estimate.first();
        self.estimate(
            rows::of(rows, t, c + rows::OFFSET),
            rows::of(rows, t, c + rows::OFFSET_SD),
            false,
            table,
        );
        self.estimate(
            rows::of(rows, t, c + rows::RATE),
            rows::of(rows, t, c + rows::RATE_SD),
            true,
            table,
        );
    }

    fn print(mut self) {
        let k = self.end;
        if k < self.text.len() {
            self.text[k] = b'\n';
            put(&self.text, k + 1);
        }
    }
}

// Period t of the sheet, of a run that had done so many before it: its number and its time are the run's.
fn row(s: Shown, done: usize, t: usize, run: Run)
    requires { (t < 4096) × (done ≤ 65535) }
{
    let place = done + t;
    let mut line = Line::of(place as u64 + 1, run.time(place));
    line.check(run.check(2 * t), run.reading(2 * t), s.table);
    if s.inputs == 2 {
        line.check(run.check(2 * t + 1), run.reading(2 * t + 1), s.table);
    }
    line.state(run.rows, t, Estimate::Filtered, s.table);
    if s.smooth {
        line.state(run.rows, t, Estimate::Smoothed, s.table);
    }
    line.print();
}

// ---- the head: a line of groups where there are two, one of names, one of units

// By io, and no handle's print!: each function here would take the handle and throw a Result away.
fn say(text: &[u8]) {
    io::write_all(1, text);
}

impl Shown {
    // A table has fewer columns, so a shorter head.
    fn either<'a>(self, short: &'a [u8], long: &'a [u8]) -> &'a [u8] {
        if self.table { short } else { long }
    }
}

// A line of the head: over the period and its time, a check or two, the filtered state, and the smoothed one where there is one.
fn head(s: Shown, time: &[u8], check: &[u8], second: &[u8], filtered: &[u8], smoothed: &[u8]) {
    say(time);
    say(check);
    if s.inputs == 2 {
        say(second);
    }
    say(filtered);
    if s.smooth {
        say(smoothed);
    }
    say(b"\n");
}

fn groups(s: Shown) {
    if s.smooth {
        let check = s.either(b"               ", b"                             ");
        head(
            s,
            b"                    ",
            check,
            check,
            s.either(
                b"  -------- filtered --------",
                b"  ---------------------- filtered ----------------------",
            ),
            s.either(
                b"  -------- smoothed --------",
                b"  ---------------------- smoothed ----------------------",
            ),
        );
    }
}

fn names(s: Shown) {
    let state = s.either(
        b"     offset sd       rate sd",
        b"        offset            sd          rate            sd",
    );
    head(
        s,
        b"period          time",
        s.either(b"  check 1      ", b"       check 1  outcome      "),
        s.either(b"  check 2      ", b"       check 2  outcome      "),
        state,
        state,
    );
}

fn units(s: Shown) {
    let check = s.either(b"               ", b"            us               ");
    let state = s.either(
        b"            us           ppb",
        b"            us            us           ppb           ppb",
    );
    head(s, b"                   s", check, check, state, state);
}

// `done`: the periods of the run before the sheet's first.
pub fn print(s: Shown, done: usize, run: Run)
    requires { done ≤ 65535 }
{
    groups(s);
    names(s);
    units(s);
    for t in 0..run.n {
        row(s, done, t, run);
    }
}

// ---- the run's counts

// What stands in the line, with its name before it.
fn named(mut line: [u8; 40], name: &[u8]) {
    cells::word_left(&mut line, 0, 20, name);
    line[39] = b'\n';
    say(&line);
}

fn total(name: &[u8], n: usize) {
    let mut line = [b' '; 40];
    cells::count(&mut line, 20, 19, n as u64);
    named(line, name);
}

// Nothing, or the line that says from which periods on numbers ran off.
fn close(cov_off: usize, mean_off: usize, table: bool) {
    let mut line = [b' '; 128];
    let k = closing::closing(&mut line, cov_off, mean_off, table);
    put(&line, k);
}

// The log-likelihood is of the readings' values, so a table has none.
pub fn totals(a: Answer, table: bool) {
    say(b"\n");
    if !table {
        let mut line = [b' '; 40];
        cells::number(&mut line, 20, 19, a.loglik, 6);
        named(line, b"log-likelihood");
    }
    total(b"diffuse periods", a.d_diffuse);
    total(b"heard", a.heard);
    total(b"news", a.news);
    close(a.cov_off, a.mean_off, table);
}
