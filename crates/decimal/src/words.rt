// The words of a line: stretches with no blank. A blank is a space or a tab.
ghost use Rattle.std.specs.Prelude.{◌≡◌, ◌≤◌, length};
ghost use Rattle.decimal.specs.Words.{is_blank, run_of, word_at};
ghost use Rattle.decimal.specs.Words.{keeps as Words·keeps};

use crate::answers::Span;

fn is_blank(b: u8) -> bool
    ensures { result ≡ is_blank b }
{
    b == b' ' || b == b'\t'
}

// Whether b goes on a run of blanks, or of other bytes. The flag picks the test, as in the definition; a closure would have to be tied to it again.
fn keeps(blanks: bool, b: u8) -> bool
    ensures { result ≡ Words·keeps blanks b }
{
    is_blank(b) == blanks
}

// How many bytes at the start are all blanks, or all no blanks.
fn run(bytes: &[u8], blanks: bool) -> usize
    ensures { (result ≡ run_of blanks bytes.now) × (result ≤ length bytes.now) }
{
    bytes.iter().take_while(|b| keeps(blanks, **b)).count()
}

// The next word at or after `at`: past the blanks, up to the next blank. Where there is none it is the empty stretch at the end of the line.
pub fn word(line: &[u8], at: usize) -> Span
    ensures { result ≡ word_at line.now at }
{
    let start = at.min(line.len());
    let from = start + run(&line[start..], true);
    let to = from + run(&line[from..], false);
    Span { from, to }
}
