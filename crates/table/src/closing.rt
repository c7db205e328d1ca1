// The closing line, which names the periods from which on numbers ran off.
ghost use Rattle.std.specs.Prelude.{◌≡◌, ◌+◌, ◌≤◌, length};
ghost use Rattle.decimal.specs.Printed.{Added};
ghost use Rattle.table.specs.Closing.{part_of, line_of, means_off, closing_of};

// Words and a period's number, from `at` on. Answers where they end.
fn part(line: &mut [u8], at: usize, words: &[u8], period: usize) -> usize
    requires { at + length words.now + 20 ≤ length line.old }
    ensures { Added at (part_of words.now period) line.old result line.new
        × (result ≤ at + length words.now + 20) }
{
    let to = cells::text(line, at, words);
    decimal::plain(line, to, period as u64)
}

// 0 for none, as in the library's answer (definition Reports.first_from), in C too.
fn write(line: &mut [u8], cov: usize, mean: usize) -> usize
    requires { 128 ≤ length line.old }
    ensures { Added 0 (line_of cov mean) line.old result line.new }
{
    if cov == 0 {
        if mean == 0 {
            return 0;
        }
        let to = part(line, 0, b"numbers ran off     mean from period ", mean);
        return cells::text(line, to, b"\n");
    }
    let to = part(line, 0, b"numbers ran off     covariance from period ", cov);
    if mean == 0 {
        return cells::text(line, to, b"\n");
    }
    let to = part(line, to, b", mean from period ", mean);
    cells::text(line, to, b"\n")
}

fn means(mean: usize, table: bool) -> usize
    ensures { result ≡ means_off table mean }
{
    if table {
        return 0;
    }
    mean
}

// The line, from the start of `line` on: nothing where no number ran off. Answers how long it is.
pub fn closing(line: &mut [u8], cov: usize, mean: usize, table: bool) -> usize
    requires { 128 ≤ length line.old }
    ensures { Added 0 (closing_of table cov mean) line.old result line.new }
{
    let mean = means(mean, table);
    write(line, cov, mean)
}
