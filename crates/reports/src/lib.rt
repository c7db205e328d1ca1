// The reports on numbers that ran off: the first period whose stored moments have a number that is not finite, plus 1, or 0 for none. Place n says
// whether there is anything to look for: what has run off stays so to the end (laws RunsOff), but for P∞, which is cleared where the diffuse state ends.
#![tactic(auto)]

ghost use Rattle.std.specs.Prelude.{◌≡◌, ◌||◌, cond, ◌*◌, length};
ghost use Rattle.definition.specs.Num.{tabulate};
ghost use Rattle.definition.specs.Refusals.{not_finite};
ghost use Rattle.definition.specs.Reports.{first_from, told_before};
ghost use Rattle.laws.specs.Flat.{block_at};
ghost use Rattle.laws.specs.Told.{off_at};
ghost use Rattle.reports.specs.Rooms.{Block, Blocks, CovRooms, MeanRooms};

// Block t of a part, of k numbers: one of them is not finite.
fn block_off(a: &[f64], k: usize, t: usize) -> bool
    requires { Block k t (length a.now) }
    ensures { result ≡ not_finite (block_at k a.now t) }
{
    let from = t * k;
    let to = from + k;
    dense::not_finite(&a[from..to])
}

// Some number of three lists of one length is not finite. One loop and not three, for its size: the search stands in each call twice. By the index: std's
// lemmas place the items of a zip of two alone.
fn some_off(a: &[f64], b: &[f64], c: &[f64]) -> bool
    requires { (length b.now ≡ length a.now) × (length c.now ≡ length a.now) }
    ensures { result ≡ (not_finite a.now || not_finite b.now || not_finite c.now) }
{
    let mut found = false;
    for i in 0..a.len() {
        found = found | !float::is_finite(a[i]) | !float::is_finite(b[i]) | !float::is_finite(c[i]);
    }
    found
}

// The same of block t of three parts.
fn off_at(a: &[f64], b: &[f64], c: &[f64], k: usize, t: usize) -> bool
    requires { Block k t (length a.now) × Block k t (length b.now) × Block k t (length c.now) }
    ensures { result ≡ off_at k a.now b.now c.now t }
{
    let from = t * k;
    let to = from + k;
    some_off(&a[from..to], &b[from..to], &c[from..to])
}

// The first of n such blocks, plus 1, where block 0 is that of period `done`; 0: none. That is the number that a caller reads (the definition's first_from);
// an Option here would be turned into it in the next line.
fn first_off(a: &[f64], b: &[f64], c: &[f64], k: usize, n: usize, done: usize) -> usize
    requires { Blocks k n done (length a.now) (length b.now) (length c.now) }
    ensures { result ≡ first_from done (tabulate n (off_at k a.now b.now c.now)) }
{
    for t in 0..n {
        if off_at(a, b, c, k, t) {
            return done + t + 1;
        }
    }
    0
}

// How many periods are looked at: all n where place n of the part has run off, else `few`.
fn until(part: &[f64], k: usize, n: usize, few: usize) -> usize
    requires { Block k n (length part.now) }
    ensures { result ≡ cond (not_finite (block_at k part.now n)) n few }
{
    if block_off(part, k, n) { n } else { few }
}

// The covariances of n periods, `diffuse` of which were diffuse, as the covariance pass left them. Period 0 of them is period `done` of the run.
pub fn covs(
    pred_cov: &[f64],
    pred_inf: &[f64],
    filt_cov: &[f64],
    diffuse: usize,
    m: usize,
    n: usize,
    done: usize,
) -> usize
    requires { CovRooms diffuse m n done (length pred_cov.now) (length pred_inf.now) (length filt_cov.now) }
    ensures { result ≡ first_from done (tabulate (cond (not_finite (block_at (m * m) pred_cov.now n)) n diffuse)
        (off_at (m * m) pred_cov.now pred_inf.now filt_cov.now)) }
{
    let mm = m * m;
    first_off(
        pred_cov,
        pred_inf,
        filt_cov,
        mm,
        until(pred_cov, mm, n, diffuse),
        done,
    )
}

// The means, as the mean pass left them. The filtered ones stand twice, for the search goes through three parts.
pub fn means(pred_mean: &[f64], filt_mean: &[f64], m: usize, n: usize, done: usize) -> usize
    requires { MeanRooms m n done (length pred_mean.now) (length filt_mean.now) }
    ensures { result ≡ first_from done (tabulate (cond (not_finite (block_at m pred_mean.now n)) n 0)
        (off_at m pred_mean.now filt_mean.now filt_mean.now)) }
{
    first_off(
        pred_mean,
        filt_mean,
        filt_mean,
        m,
        until(pred_mean, m, n, 0),
        done,
    )
}

// Of a run that goes on: what was told before stays.
pub fn told(before: usize, later: usize) -> usize
    ensures { result ≡ told_before before later }
{
    if before == 0 { later } else { before }
}
