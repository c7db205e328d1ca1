// The file of a saved run: it is read, and it is replaced whole, so that whenever the power goes it is the old one or the new one.
ghost use Rattle.std.specs.Prelude.{◌≤◌, length, IfSome, IfOk};

use std::env::Env;
use std::fs::{Files, OpenFile};
use std::io::{Error, Write};
use told::Told;

fn failed(name: &[u8], e: Error) -> Told {
    told::unopened(b"the saved run", name, e)
}

// One byte more than a saved run has, so that a file that is too long is not taken for one.
pub const ROOM: usize = resumed::BYTES + 1;

// The bytes of the file that the argument names, as many as there is room for. None: a run begins. Where the file can't be had, that is told.
pub fn read<'a, R: Env + Files>(
    rt: &R,
    from: Option<usize>,
    space: &'a mut [u8],
) -> Result<Option<&'a [u8]>, Told>
    ensures { IfOk result (λ b. IfSome b (λ w. length w.now ≤ length space.old)) }
{
    let Some(from) = from else {
        return Ok(None);
    };
    let mut names = io::buffer();
    let name = options::name(rt, from, &mut names);
    let mut file = options::open_read(rt, name).map_err(|e| failed(name, e))?;
    Ok(Some(options::read_full(&mut file, space)))
}

// The longest name that '.new' fits behind, since a path has at most 4095 bytes.
const LONGEST: usize = 4091;

// The name of k bytes with '.new' put behind it. No name stays none, and one that is too long gives all of the space: no file can be opened by either.
fn lengthened(space: &mut [u8; 4096], k: usize) -> &[u8] {
    if k == 0 {
        return b"";
    }
    if k > LONGEST {
        return space;
    }
    space[k..k + 4].copy_from_slice(b".new");
    &space[..k + 4]
}

// The file takes all, and its device too, and is closed.
fn put<F: Write + OpenFile + Drop>(file: F, bytes: &[u8]) -> std::io::Result<()> {
    let mut file = file;
    file.write_all(bytes)?;
    file.sync_all()
}

// A step has failed, of the file of this name, once the new file was there: nothing of that stays.
fn undone<R: Files>(files: &R, new: &[u8], name: &[u8], e: Error) -> Told {
    let told = failed(name, e);
    let _ = options::remove_file(files, new);
    told
}

fn replace<R: Files>(files: &R, name: &[u8], new: &[u8], bytes: &[u8]) -> Result<(), Told> {
    let file = options::create(files, new).map_err(|e| failed(new, e))?;
    put(file, bytes).map_err(|e| undone(files, new, new, e))?;
    options::rename(files, new, name).map_err(|e| undone(files, new, name, e))
}

// Saves a run to the file that the argument names. Where it can't be saved that is told, and the file is as it was. The name is fetched twice, since the
// new file's is made of it in its place.
pub fn write<R: Env + Files>(rt: &R, save: usize, bytes: &[u8]) -> Result<(), Told> {
    let mut names = io::buffer();
    let name = options::name(rt, save, &mut names);
    let mut space = io::buffer();
    let k = options::name(rt, save, &mut space).len();
    replace(rt, name, lengthened(&mut space, k), bytes)
}
