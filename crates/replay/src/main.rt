// Replays a case file (oracle/FORMAT.md), which comes by standard input: each case's two calls are made, of the filter and of the
// smoother, and all that they answer and leave is compared bit for bit, all NaNs as one. Prints how many cases there were and how many differ, and
// the first difference.
#![tactic(auto)]

mod found;
mod sides;
mod words;

use found::Difference;

const MAGIC: &[u8] = b"GOXCASE4";

// Reads from byte `from` up to byte `to`, if the buffer has them. A bool: a file that ends early is told by the counts alone.
fn read(case: &mut [u8], from: usize, to: usize) -> bool {
    from <= to && to <= case.len() && io::read_full(0, &mut case[from..to]) == to - from
}

// How many cases the file says it has; none if it is no case file.
fn header(case: &mut [u8]) -> usize {
    if read(case, 0, 40) && case.starts_with(MAGIC) {
        words::size(case, 1)
    } else {
        0
    }
}

// The next case, whole: its first word says how many it has.
fn next(case: &mut [u8]) -> bool {
    if !read(case, 0, 8) {
        return false;
    }
    let k = words::size(case, 0);
    (words::HEAD..=words::WORDS).contains(&k) && read(case, 8, 8 * k)
}

// How many cases were replayed and how many differ, and the first that does, by its number.
#[derive(Drop)]
struct Tally {
    cases: u64,
    differ: u64,
    first: Option<(u64, Difference)>,
}

impl Tally {
    fn add(&mut self, case: Result<(), Difference>) {
        if let Err(d) = case {
            if self.first.is_none() {
                self.first = Some((self.cases, d));
            }
            self.differ = self.differ.wrapping_add(1);
        }
        self.cases = self.cases.wrapping_add(1);
    }
}

// By io, and no handle's print!: each function here would take the handle and throw a Result away.
// `said`: how many cases the file says it has.
fn print(t: &Tally, said: usize) {
    io::print_decimal(1, t.cases);
    io::write_all(1, b" cases, ");
    io::print_decimal(1, t.differ);
    io::write_all(1, b" differ\n");
    if let Some((case, d)) = t.first {
        found::print(case, d);
    }
    if t.cases != said as u64 {
        io::write_all(1, b"the file ends before its last case\n");
    }
}

// The first difference of the two calls, the filter's before the smoother's.
fn both(case: &[u8]) -> Result<(), Difference> {
    let numbers = words::doubles(case);
    let low = words::bytes(case);
    sides::filtered(case, &numbers, &low)?;
    sides::smoothed(case, &numbers, &low)
}

fn main() {
    let mut case = io::large_buffer();
    let n = header(&mut case);
    let mut t = Tally {
        cases: 0,
        differ: 0,
        first: None,
    };
    for _ in 0..n {
        if !next(&mut case) {
            break;
        }
        t.add(both(&case));
    }
    print(&t, n);
}
