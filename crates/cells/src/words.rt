// A word in a field, with blanks around it; and words from a place on, with none.
ghost use Rattle.std.specs.Prelude.{◌≡◌, ◌+◌, ◌-◌, ◌≤◌, ◌++◌, length, replicate};
ghost use Rattle.decimal.specs.Printed.{Added};
ghost use Rattle.cells.specs.Cells.{right_of, left_of, fits, written};

// The field: `pad` blanks, the word, and blanks up to its end. The field's end is not added up before the test: the sum could wrap.
fn word(out: &mut [u8], at: usize, width: usize, pad: usize, text: &[u8]) -> bool
    requires { pad + length text.now ≤ width }
    ensures value { result ≡ fits (length out.old) at width (length text.now) }
    ensures out_after { out.new ≡ written (length text.now) at width (replicate pad 32 ++ (text.now ++ replicate (width - (pad + length text.now)) 32)) out.old }
{
    if out.len() < at || out.len() - at < width {
        return false;
    }
    decimal::blanks(out, at, width);
    let from = at + pad;
    let to = from + text.len();
    out[from..to].copy_from_slice(text);
    true
}

// The word at the right of the field out[at..at + width], blanks before it. Where the field is not in out, or the word longer than the field, nothing is written and the answer is false.
pub fn word_right(out: &mut [u8], at: usize, width: usize, text: &[u8]) -> bool
    ensures value { result ≡ fits (length out.old) at width (length text.now) }
    ensures out_after { out.new ≡ written (length text.now) at width (right_of width text.now) out.old }
{
    if width < text.len() {
        return false;
    }
    word(out, at, width, width - text.len(), text)
}

// The same at the left, blanks after it.
pub fn word_left(out: &mut [u8], at: usize, width: usize, text: &[u8]) -> bool
    ensures value { result ≡ fits (length out.old) at width (length text.now) }
    ensures out_after { out.new ≡ written (length text.now) at width (left_of width text.now) out.old }
{
    if width < text.len() {
        return false;
    }
    word(out, at, width, 0, text)
}

// The words from `at` on, with nothing around them. Answers where they end.
pub fn text(out: &mut [u8], at: usize, words: &[u8]) -> usize
    requires { at + length words.now ≤ length out.old }
    ensures { Added at words.now out.old result out.new }
{
    word_left(out, at, words.len(), words);
    at + words.len()
}
