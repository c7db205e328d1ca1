// The whole text, line by line, until one is wrong.
ghost use Rattle.std.specs.Prelude.{◌≡◌, ◌+◌, ◌*◌, ◌<◌, ◌++◌, true, length, drop};
ghost use Rattle.sheet.specs.Kinds.{has_checks};
ghost use Rattle.sheet.specs.Effects.{line_readings, Laid};
ghost use Rattle.sheet.specs.Sheets.{counted, wrong_line, at_end, end_of, sheet_of, readings_of};

use crate::answers::{Settings, Sheet, Wanted, Wrong};
use crate::effects::{after, reading};
use crate::faults::fault;
use crate::lines::{content, run};
use crate::parts::{Fault, Given, Tokens};
use crate::tokens::{tokens, word_no};

#[tactic(auto, unfolding(crate::specs::Sheets::wrong_line))]
fn wrong_line(number: u64, at: usize, line: &[u8], f: Fault) -> Wrong
    requires { at + length line.now < 18446744073709551616 }
    ensures { result ≡ wrong_line number at line.now f }
{
    let w = word_no(content(line), f.word);
    Wrong {
        line: number,
        from: at + w.from,
        to: at + w.to,
        wanted: f.wanted,
    }
}

fn at_end(lines: u64, size: usize, wanted: Wanted) -> Wrong
    ensures { result ≡ at_end lines size wanted }
{
    Wrong {
        line: lines,
        from: size,
        to: size,
        wanted,
    }
}

fn end_of(g: Given, periods: usize, lines: u64, size: usize) -> Result<Sheet, Wrong>
    ensures { result ≡ end_of g periods lines size }
{
    let Some(period) = g.period else {
        return Err(at_end(lines, size, Wanted::PeriodSetting));
    };
    let Some(noise) = g.noise else {
        return Err(at_end(lines, size, Wanted::NoiseSetting));
    };
    Ok(Sheet {
        settings: Settings {
            period,
            noise,
            radio: g.radio,
            wander_offset: g.wander_offset,
            wander_rate: g.wander_rate,
            offset: g.offset,
            rate: g.rate,
            rate_keeps: g.rate_keeps,
            season: g.season,
        },
        periods,
    })
}

// The readings of a line, where it has checks, into the places of the next period. How many periods there are then.
fn store(y: &mut [f64], periods: usize, table: bool, t: Tokens) -> usize
    requires { (8192 ≡ length y.old) × (has_checks t.first ≡ true → periods < 4096) }
    ensures value { result ≡ counted periods t }
    ensures laid { Laid (2 * periods) (line_readings table t) y.old y.new }
{
    if !t.first.has_checks() {
        return periods;
    }
    let at = 2 * periods;
    y[at] = reading(table, t.first);
    y[at + 1] = reading(table, t.second);
    periods + 1
}

// Two readings a period go to the start of y; the rest of y stays. Of a bad text they are those of the lines before the wrong one.
pub fn read(text: &[u8], table: bool, y: &mut [f64]) -> Result<Sheet, Wrong>
    requires { 8192 ≡ length y.old }
    ensures value { result ≡ sheet_of table text.now }
    ensures y_after { y.new ≡ readings_of table text.now ++ drop (length (readings_of table text.now)) y.old }
{
    let mut given = Given::default();
    let mut periods: usize = 0;
    let mut lines: u64 = 0;
    let mut at: usize = 0;
    // No `for` over the lines: what is wrong is told by its place in the text, which an iterator over them would not give.
    'lines: loop {
        lines += 1;
        let end = at + run(&text[at..], true);
        let line = &text[at..end];
        let t = tokens(content(line));
        fault(table, given, periods, t).map_err(|f| wrong_line(lines, at, line, f))?;
        periods = store(y, periods, table, t);
        given = after(given, t);
        if end == text.len() {
            return end_of(given, periods, lines, end);
        }
        at = end + 1;
    }
}
