// Where a line ends, and where what counts of it ends.
ghost use Rattle.std.specs.Prelude.{◌≡◌, ◌≤◌, length};
ghost use Rattle.sheet.specs.Lines.{is_end, run_to, content_of};

// A newline ends a line; a # or a carriage return ends what counts of it. The flag picks the test, as in the definition; a closure would have to be tied
// to it again.
fn is_end(newline: bool, b: u8) -> bool
    ensures { result ≡ is_end newline b }
{
    if newline {
        return b == b'\n';
    }
    b == b'#' || b == b'\r'
}

// How many bytes stand before the first end, or in the whole text.
pub fn run(text: &[u8], newline: bool) -> usize
    ensures value { result ≡ run_to newline text.now }
    ensures within { result ≤ length text.now }
{
    text.iter().take_while(|b| !is_end(newline, **b)).count()
}

// What counts of a line.
#[tactic(auto, unfolding(crate::specs::Lines::content_of))]
pub fn content<'a>(line: &'a [u8]) -> &'a [u8]
    ensures value { result.now ≡ content_of line.now }
    ensures within { length result.now ≤ length line.now }
{
    &line[..run(line, false)]
}
