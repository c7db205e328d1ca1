// The first difference of a case, and how it is told.

// A place of a part where the call has another number than the case. The part stands here as it is told.
#[derive(Clone, Copy)]
pub struct Difference {
    part: &'static str,
    place: usize,
    wanted: u64,
    found: u64,
}

// An Err where they differ, so that a `?` ends a comparison at its first difference.
pub fn compare(
    part: &'static str,
    place: usize,
    wanted: u64,
    found: u64,
) -> Result<(), Difference> {
    if wanted != found {
        return Err(Difference {
            part,
            place,
            wanted,
            found,
        });
    }
    Ok(())
}

// By io, and no handle's print!: each function here would take the handle and throw a Result away.
pub fn print(case: u64, d: Difference) {
    io::write_all(1, b"first: case ");
    io::print_decimal(1, case);
    io::write_all(1, b", ");
    io::write_all(1, d.part.as_bytes());
    io::write_all(1, b" at ");
    io::print_decimal(1, d.place as u64);
    io::write_all(1, b": wanted ");
    io::print_hex(1, d.wanted, 16);
    io::write_all(1, b", found ");
    io::print_hex(1, d.found, 16);
    io::write_all(1, b"\n");
}
