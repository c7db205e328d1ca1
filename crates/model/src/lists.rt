// Z and T of a period: each is given once, or as a list with an entry for each period.
ghost use Rattle.std.specs.Prelude.{◌≡◌, ◌≤◌, ◌-◌, ◌*◌, ◌/◌, min, length};
ghost use Rattle.definition.specs.Inputs.{part_from, transition_from};
ghost use Rattle.laws.specs.Later.{later_from};
ghost use Rattle.dense.specs.Views.{mat};
ghost use Rattle.model.specs.Lists.{Whole, PartFits, Stands};

// Where the entry of period t begins in a list of so many numbers, k for each entry; once the list has run out, where its
// last one does. The list is whole, so no division is made.
fn entry_from(list: usize, k: usize, t: usize) -> usize
    requires { Whole k list × (k ≤ 64) × (t ≤ 4096) }
    ensures { result ≡ min t (list / k - 1) * k }
{
    let from = t * k;
    if from < list {
        return from;
    }
    list - k
}

// The p by m numbers of period t, handed out as a part of whichever was given: the design; and with m for p, the transition.
pub fn part<'a>(once: &'a [f64], list: &'a [f64], p: usize, m: usize, t: usize) -> &'a [f64]
    requires { PartFits p m (length once.now) (length list.now) × (t ≤ 4096) }
    ensures { result.now ≡ part_from (p * m) once.now list.now t }
{
    if list.len() == 0 {
        return once;
    }
    let k = p * m;
    let a = entry_from(list.len(), k, t);
    let e = a + k;
    &list[a..e]
}

// The transition of period t in tr, which holds the constant one where that is given: then nothing is done.
pub fn transition<'a>(tr: &mut [f64; 64], once: &'a [f64], list: &'a [f64], m: usize, t: usize)
    requires { PartFits m m (length once.now) (length list.now) × (t ≤ 4096)
        × Stands m once.now list.now tr.old }
    ensures { mat m tr.new ≡ transition_from m once.now list.now t }
{
    if list.len() == 0 {
        return;
    }
    dense::fill(tr, part(once, list, m, m, t));
}

// The list without the entries that the first `done` periods have used up: what is left begins with the one that the next
// period takes. Of an empty list nothing is left.
pub fn later<'a>(list: &'a [f64], p: usize, m: usize, done: usize) -> &'a [f64]
    requires { (p ≤ 8) × (m ≤ 8) × (done ≤ 4096) × ((length list.now ≡ 0 → ⊥) → Whole (p * m) (length list.now)) }
    ensures { result.now ≡ later_from (p * m) done list.now }
{
    if list.len() == 0 {
        return list;
    }
    let from = entry_from(list.len(), p * m, done);
    &list[from..]
}
