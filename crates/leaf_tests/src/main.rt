// Runs each leaf on the groups of vectors of tools/leaf-vectors, which come by standard input, and compares bits, all NaNs as one.
#![tactic(auto)]

mod matrices;
mod vectors;
mod words;

use words::GROUP;

const LEAVES: u64 = 28;

// By io, and no handle's print!: the function would take the handle and throw a Result away.
fn print_line(vectors: u64, differ: u64) {
    io::print_decimal(1, vectors);
    io::write_all(1, b" vectors, ");
    io::print_decimal(1, differ);
    io::write_all(1, b" differ\n");
}

fn main() {
    let mut vectors: u64 = 0;
    let mut differ: u64 = 0;
    let mut group = [0u8; GROUP];
    for _ in 0..1000 {
        let n = io::read_full(0, &mut group);
        if n < GROUP {
            break;
        }
        vectors = vectors.wrapping_add(LEAVES);
        differ = words::sum(&[differ, matrices::differ(&group), vectors::differ(&group)]);
    }
    print_line(vectors, differ);
}
