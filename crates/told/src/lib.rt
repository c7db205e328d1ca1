// What goes wrong with the panel, told on standard error in one line: a wrong line of the sheet, a refusal of the library's, wrong arguments, a file
// that can't be opened or written.
#![tactic(auto)]

ghost use Rattle.std.specs.Prelude.{◌≤◌, length};

use promise::Refusal;
use sheet::answers::{Wanted, Wrong};
use std::io::{Error, Write};

const OUTPUT: i32 = 1;

const ERRORS: i32 = 2;

// The most of a found word that is shown.
const SHOWN: usize = 32;

// What there is to say is said, and nothing more is to be done.
#[derive(Clone, Copy)]
pub struct Told;

// By io, and no handle's eprint!: each function here would take the handle and throw a Result away.
fn say(text: &[u8]) {
    io::write_all(ERRORS, text);
}

pub fn usage(fd: i32) -> Told {
    io::write_all(
        fd,
        b"usage: panel [--smooth] [--svg PICTURE] [SHEET]   the estimates, and a picture of them
       panel --table [--smooth] [SHEET]           how accurate they will be, before any check is read
       panel [--from FILE] [--save FILE] [SHEET]  a stretch of a run: it goes on from a saved one, and is saved
With no SHEET, or with -, it is read from standard input. docs/PANEL.md says what a sheet is.
",
    );
    Told
}

// What --help asks for.
pub fn help() -> Told {
    usage(OUTPUT)
}

pub fn wrong_arguments() -> Told {
    usage(ERRORS)
}

// Whether std's number of the reason follows, as in " (os error 2)", or nothing more.
fn is_end(rest: &[u8]) -> bool {
    rest.starts_with(b" (os error ") | rest.starts_with(b"\0")
}

// Where the reason's words end.
fn words_end(text: &[u8]) -> usize
    ensures { result ≤ length text.now }
{
    (0..text.len())
        .find(|&i| is_end(&text[i..]))
        .unwrap_or(text.len())
}

// The reason, in the system's words alone.
fn reason(e: Error) {
    let mut space = [0u8; 320];
    let mut rest: &mut [u8] = &mut space;
    let _ = write!(rest, "{e}");
    say(&space[..words_end(&space)]);
}

// A file that has failed to open, to take what is written to it, or to take its name: which one it is, its name, and why.
pub fn unopened(what: &[u8], name: &[u8], e: Error) -> Told {
    say(b"panel: ");
    say(what);
    say(b" '");
    say(name);
    say(b"': ");
    reason(e);
    say(b"\n");
    Told
}

pub fn too_long() -> Told {
    say(b"panel: the sheet is longer than 262143 bytes\n");
    Told
}

// Anything but a printable ASCII character is shown as a question mark.
fn printable(b: u8) -> u8 {
    match b {
        b' '..=b'~' => b,
        _ => b'?',
    }
}

fn quoted(word: &[u8]) {
    let shown = &word[..word.len().min(SHOWN)];
    let mut text = [0u8; SHOWN];
    for (to, from) in text.iter_mut().zip(shown) {
        *to = printable(*from);
    }
    say(b"'");
    say(&text[..shown.len()]);
    if shown.len() < word.len() {
        say(b"..");
    }
    say(b"'");
}

fn found(text: &[u8], from: usize, to: usize) {
    match text.get(from..to) {
        Some(word) if !word.is_empty() => quoted(word),
        _ if from == text.len() => say(b"the end of the file"),
        _ => say(b"the end of the line"),
    }
}

fn wanted(w: Wanted) {
    match w {
        Wanted::Line => say(
            b"a check, '-', or one of period, noise, radio, wander-offset, wander-rate, rate-keeps, season, start-offset, start-rate",
        ),
        Wanted::Seconds => say(b"the period's seconds, a whole number from 1 to 999999999"),
        Wanted::SdOrVariance => say(b"'sd' or 'variance'"),
        Wanted::Size => say(b"a whole number of at most 15 digits, with no minus"),
        Wanted::UnknownOrValue => say(b"'unknown', or a whole number of at most 15 digits"),
        Wanted::Thousandths => say(
            b"the thousandths of its rate that the clock keeps, a whole number from 1 to 999999999999999",
        ),
        Wanted::SeasonStart => say(b"the season's first period, a whole number from 2 to 4096"),
        Wanted::LineEnd => say(b"the end of the line"),
        Wanted::Check => say(
            b"a check: a whole number of at most 15 digits, or '-' for none; '+', a check to come, goes with --table",
        ),
        Wanted::OneCheck => say(b"one check, since 'noise' has one number"),
        Wanted::Once => say(b"each setting once"),
        Wanted::SettingsFirst => say(b"the settings before the first check"),
        Wanted::PeriodSetting => say(b"the setting 'period' before it"),
        Wanted::NoiseSetting => say(b"the setting 'noise' before it"),
        Wanted::FewerPeriods => say(b"at most 4096 periods"),
    }
}

pub fn wrong(text: &[u8], w: Wrong) -> Told {
    say(b"panel: line ");
    io::print_decimal(ERRORS, w.line);
    say(b": found ");
    found(text, w.from, w.to);
    say(b", wanted ");
    wanted(w.wanted);
    say(b"\n");
    Told
}

// What no sheet can bring about: the parts that this program makes are of a shape that is right for all of them.
fn fault(name: &[u8]) {
    say(name);
    say(b": this is a mistake of the program's, and no sheet mends it; please report the sheet");
}

// By its number, its name, and what to mend where a sheet or a saved run can bring it about.
pub fn refusal(e: Refusal) -> Told {
    say(b"panel: refusal ");
    io::print_decimal(ERRORS, u64::from(u8::from(e)));
    say(b", ");
    match e {
        Refusal::Dimension => say(b"Dimension: give from 1 to 4096 periods, a line each"),
        Refusal::Length => fault(b"Length"),
        Refusal::NonFiniteSystem => {
            say(b"NonFiniteSystem: make the numbers of period, noise, radio and wander smaller")
        }
        Refusal::NotPsd => fault(b"NotPsd"),
        Refusal::QNotDiagonal => fault(b"QNotDiagonal"),
        Refusal::NonFiniteStart => {
            say(b"NonFiniteStart: make the numbers of start-offset, start-rate and radio smaller")
        }
        Refusal::StartShape => fault(b"StartShape"),
        Refusal::NonDiagonalH => fault(b"NonDiagonalH"),
        Refusal::InfiniteReading => say(b"InfiniteReading: make the checks smaller"),
        Refusal::MixedDriven => fault(b"MixedDriven"),
        Refusal::NonFiniteNoise => {
            say(b"NonFiniteNoise: make the numbers of radio and wander smaller")
        }
        Refusal::NoInformation => say(
            b"NoInformation: there are checks, and none of them tells anything new. Say 'unknown' of the start, or give it, or the wander, a spread above 0",
        ),
        Refusal::ListShort => fault(b"ListShort"),
        Refusal::BadSaved => say(
            b"BadSaved: the file is not a saved run of this clock, or the run would be longer than 4096 periods. Give the file that --save wrote, as it was; to begin a new run leave --from out",
        ),
    }
    say(b"\n");
    Told
}
