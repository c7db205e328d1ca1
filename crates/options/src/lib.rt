// The arguments of the panel's two programs: which there are, and the files that they name.
#![tactic(auto)]

ghost use Rattle.std.specs.Prelude.{◌≤◌, length, IfSome, IfOk};

use std::env::{Env, FillError};
use std::fs;
use std::fs::Files;
use std::io::{Error, ErrorKind, Read};
use told::Told;

// A file is the place among the arguments that its name has. With none for the sheet it is standard input.
#[derive(Clone, Copy, Default)]
pub struct Options {
    pub smooth: bool,
    pub table: bool,
    pub svg: Option<usize>,
    pub save: Option<usize>,
    pub from: Option<usize>,
    pub sheet: Option<usize>,
}

impl Options {
    // Whether the sheet is one stretch of a run, which goes on from a saved one, or is to be saved, or both.
    pub fn is_stretch(self) -> bool {
        self.save.is_some() | self.from.is_some()
    }

    // A picture shows estimates, and before any reading exists there are none. A stretch is not smoothed, since what comes after it is not there yet;
    // and the picture shows smoothed estimates too. A table is of checks to come, and a saved run is of checks that came.
    fn go_together(self) -> bool {
        let picture = self.svg.is_some();
        !(self.table & picture) & !(self.is_stretch() & (self.smooth | self.table | picture))
    }
}

// The files that an argument can name.
#[derive(Clone, Copy)]
enum File {
    Svg,
    Save,
    From,
    Sheet,
}

// What the arguments say, as far as they are read. A wrong one is kept as a flag and does not end the reading, since --help behind it still counts.
#[derive(Clone, Copy, Default)]
struct Said {
    options: Options,
    help: bool,
    wrong: bool,
    // Whose file the next argument is.
    awaits: Option<File>,
}

impl Said {
    // Argument i names this file, which no other does.
    fn name(&mut self, file: File, i: usize) {
        let before = match file {
            File::Svg => self.options.svg.replace(i),
            File::Save => self.options.save.replace(i),
            File::From => self.options.from.replace(i),
            File::Sheet => self.options.sheet.replace(i),
        };
        self.wrong |= before.is_some();
    }

    fn take(&mut self, i: usize, word: &[u8]) {
        if let Some(file) = self.awaits.take() {
            return self.name(file, i);
        }
        match word {
            b"--smooth" => self.options.smooth = true,
            b"--table" => self.options.table = true,
            b"--help" => self.help = true,
            b"--svg" => self.awaits = Some(File::Svg),
            b"--save" => self.awaits = Some(File::Save),
            b"--from" => self.awaits = Some(File::From),
            b"-" => self.name(File::Sheet, i),
            [] | [b'-', ..] => self.wrong = true,
            _ => self.name(File::Sheet, i),
        }
    }

    fn is_wrong(self) -> bool {
        self.wrong | self.awaits.is_some() | !self.options.go_together()
    }
}

// Argument i, in the space. None: there is no such argument. One that is longer than the space reads as an empty one.
pub fn argument<'a, E: Env>(env: &E, i: usize, space: &'a mut [u8]) -> Option<&'a [u8]>
    ensures { IfSome result (λ w. length w.now ≤ length space.old) }
{
    match env.arg(i, space) {
        Ok(k) => Some(&space[..k]),
        Err(FillError::TooLong) => Some(b""),
        Err(FillError::NotPresent) => None,
    }
}

// The name that argument i is, in the space.
pub fn name<'a, E: Env>(env: &E, i: usize, space: &'a mut [u8]) -> &'a [u8] {
    argument(env, i, space).unwrap_or(b"")
}

fn read_all<E: Env>(env: &E) -> Said {
    let mut said = Said::default();
    // The first is the program's own name. The list has no length: it ends at the first that is not there.
    for i in 1..usize::MAX {
        let mut space = io::buffer();
        match argument(env, i, &mut space) {
            Some(word) => said.take(i, word),
            None => break,
        }
    }
    said
}

// The options, where the arguments ask for what the program can do. Else the usage is told.
pub fn given<E: Env>(env: &E) -> Result<Options, Told> {
    let said = read_all(env);
    if said.help {
        return Err(told::help());
    }
    if said.is_wrong() {
        return Err(told::wrong_arguments());
    }
    Ok(said.options)
}

// ---- files by name

const NAME_TOO_LONG: i32 = 36;

// To std a file's name is text.
fn as_text(name: &[u8]) -> std::io::Result<&str> {
    if name.len() > 4095 {
        return Err(Error::from_raw_os_error(NAME_TOO_LONG));
    }
    str::from_utf8(name).map_err(|_| Error::from(ErrorKind::InvalidFilename))
}

pub fn open_read<R: Files>(files: &R, name: &[u8]) -> std::io::Result<R::File> {
    fs::open(files, as_text(name)?)
}

// A file that is there is emptied.
pub fn create<R: Files>(files: &R, name: &[u8]) -> std::io::Result<R::File> {
    fs::create(files, as_text(name)?)
}

pub fn remove_file<R: Files>(files: &R, name: &[u8]) -> std::io::Result<()> {
    fs::remove_file(files, as_text(name)?)
}

pub fn rename<R: Files>(files: &R, from: &[u8], to: &[u8]) -> std::io::Result<()> {
    fs::rename(files, as_text(from)?, as_text(to)?)
}

// Reads until the space is full, the file ends or a read fails: by hand, since std's read_exact does not answer how much there was, and its read_to_end
// allocates.
pub fn read_full<'a, F: Read>(file: &mut F, space: &'a mut [u8]) -> &'a [u8]
    ensures { length result.now ≤ length space.old }
{
    let mut done = 0;
    while done < space.len() {
        match file.read(&mut space[done..]) {
            Ok(0) | Err(_) => break,
            Ok(n) => done += n,
        }
    }
    &space[..done]
}

// The same of standard input: by io, which does say how much there was, and needs no handle.
fn read_input(space: &mut [u8]) -> &[u8]
    ensures { length result.now ≤ length space.old }
{
    let n = io::read_full(0, space);
    &space[..n]
}

// ---- the sheet, and the picture

// A sheet that fills its space may go on past it.
pub const SPACE: usize = 262144;

// `-` in the place of the sheet's file is standard input.
fn read_named<'a, R: Files>(files: &R, name: &[u8], space: &'a mut [u8]) -> Result<&'a [u8], Told>
    ensures { IfOk result (λ w. length w.now ≤ length space.old) }
{
    if matches!(name, b"-") {
        return Ok(read_input(space));
    }
    let mut file = open_read(files, name).map_err(|e| told::unopened(b"the sheet", name, e))?;
    Ok(read_full(&mut file, space))
}

pub fn read_sheet<'a, R: Env + Files>(
    rt: &R,
    sheet: Option<usize>,
    space: &'a mut [u8],
) -> Result<&'a [u8], Told>
    ensures { IfOk result (λ w. length w.now ≤ length space.old) }
{
    let Some(i) = sheet else {
        return Ok(read_input(space));
    };
    let mut names = io::buffer();
    read_named(rt, name(rt, i, &mut names), space)
}

// The sheet's text, in the space. Where it can't be had, that is told.
pub fn text<'a, R: Env + Files>(
    rt: &R,
    sheet: Option<usize>,
    space: &'a mut [u8; SPACE],
) -> Result<&'a [u8], Told> {
    let text = read_sheet(rt, sheet, space)?;
    if text.len() == SPACE {
        return Err(told::too_long());
    }
    Ok(text)
}

// The picture's file, open for writing. Where it can't be had, that is told.
pub fn create_picture<R: Env + Files>(rt: &R, svg: usize) -> Result<R::File, Told> {
    let mut space = io::buffer();
    let name = name(rt, svg, &mut space);
    create(rt, name).map_err(|e| told::unopened(b"the picture's file", name, e))
}
