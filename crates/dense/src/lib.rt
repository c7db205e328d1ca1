// dense.rs: vectors in [f64; 8] and matrices in [f64; 64], row by row. A contract speaks of the places in use:
// `vec m` of a vector, `mat m` of a square matrix, `rect r c` of one of r rows and c columns. The arrays are of fixed size, since nothing is allocated;
// the sizes stay numbers, with m ≤ 8 in the clauses (DECISIONS 148).
#![tactic(auto)]

ghost use Rattle.std.specs.Prelude.{◌≡◌, ℕ, Bool, List, ◌++◌, ◌≤◌, ◌<◌, ◌+◌, ◌*◌, Float, set, length};
ghost use Rattle.definition.specs.Num.{is_zero, tabulate, matrix, zeros, at, ent, sum_to, sum_from};
ghost use Rattle.definition.specs.Dense.{dot, axpy, over, scaled, row, mat_vec, mat_tVec, mat_tVec_at};
ghost use Rattle.definition.specs.Dense.{outer_sub, outer_scaled, plus, minus, symmetrise, sq_term, frob_sq, abs_term, abs_column, abs_quad_form};
ghost use Rattle.definition.specs.Run.{any_of, any_to};
ghost use Rattle.definition.specs.Refusals.{not_finite};
ghost use Rattle.dense.specs.Views.{vec, mat, rect};
ghost use Rattle.dense.specs.Columns.{more_at, more_kept_at, column_less, column_kept, outer_more_at};
ghost use Rattle.dense.specs.Pairs.{mean_of, Paired};
ghost use Rattle.dense.specs.Places.{Within, Cell, Saved};
ghost use Rattle.dense.specs.Told.{Told};
ghost use Rattle.dense.specs.Entries.{ReadyBelow, GivesBelow, ReadyWithin, GivesWithin};

// What a sum starts from.
pub const EMPTY: f64 = 0.0;

// Either zero, and no NaN: a column with this multiplier is left out where document 01 says so.
fn is_zero(x: f64) -> bool
    ensures { result ≡ is_zero x }
{
    x == 0.0
}

// ---- whether a test holds somewhere. All places are looked at, with no branch on what is found: a call takes as long for any values.

// At a place below k.
pub fn any<F: Fn(usize) -> bool>(k: usize, test: F) -> bool
    requires { (i : _) → i < k → F.pre test i }
    ensures { (q : ℕ → Bool) → ((i : ℕ) (b : Bool) → i < k → F.post test i b → b ≡ q i) → result ≡ any_to k q }
{
    let mut found = false;
    for i in 0..k {
        found = found | test(i);
    }
    found
}

// Of an entry of a list.
pub fn any_of<T: Copy, F: Fn(T) -> bool>(s: &[T], test: F) -> bool
    requires { F.IsAlwaysCallable test }
    ensures { (q : T → Bool) → ((v : T) (b : Bool) → F.post test v b → b ≡ q v) → result ≡ any_of q s.now }
{
    let mut found = false;
    for v in s {
        found = found | test(*v);
    }
    found
}

// ---- whether all is finite. A kernel that tells it looks through its result after its loop: the loop stays as it is, and
// where nobody asks, the compiler leaves the look out.

// Some entry is NaN or an infinity.
pub fn not_finite(a: &[f64]) -> bool
    ensures { result ≡ not_finite a.now }
{
    any_of(a, |x| !float::is_finite(x))
}

// The same of the places in use: of a vector, of a matrix of r rows and c columns, and of a square one. One thing by a name for each view that contracts
// have: vec, rect, mat.
pub fn vector_not_finite(x: &[f64; 8], m: usize) -> bool
    requires { m ≤ 8 }
    ensures { result ≡ not_finite (vec m x.now) }
{
    not_finite(&x[..m])
}

pub fn rect_not_finite(a: &[f64; 64], r: usize, c: usize) -> bool
    requires { (r ≤ 8) × (c ≤ 8) }
    ensures { result ≡ not_finite (rect r c a.now) }
{
    not_finite(&a[..r * c])
}

pub fn matrix_not_finite(a: &[f64; 64], m: usize) -> bool
    requires { m ≤ 8 }
    ensures { result ≡ not_finite (mat m a.now) }
{
    rect_not_finite(a, m, m)
}

pub fn nth(x: &[f64; 8], m: usize, i: usize) -> f64
    requires { (m ≤ 8) × (i < m) }
    ensures { result ≡ at (vec m x.now) i }
{
    x[i]
}

// An entry of a square matrix, and below of any: one thing by a name for each view that contracts have, mat and rect.
pub fn get(a: &[f64; 64], m: usize, i: usize, j: usize) -> f64
    requires { Within m i j }
    ensures { result ≡ ent m (mat m a.now) i j }
{
    cell(a, m, m, i, j)
}

pub fn put(a: &mut [f64; 64], m: usize, i: usize, j: usize, v: f64)
    requires { Within m i j }
    ensures { a.new ≡ set a.old (i * m + j) v }
{
    set_cell(a, m, m, i, j, v);
}

// Entry (i, j) of a matrix of r rows and c columns.
pub fn cell(a: &[f64; 64], r: usize, c: usize, i: usize, j: usize) -> f64
    requires { Cell r c i j }
    ensures { result ≡ ent c (rect r c a.now) i j }
{
    a[i * c + j]
}

pub fn set_cell(a: &mut [f64; 64], r: usize, c: usize, i: usize, j: usize, v: f64)
    requires { Cell r c i j }
    ensures { a.new ≡ set a.old (i * c + j) v }
{
    a[i * c + j] = v;
}

// ---- by a closure: a sum by its terms, a vector and a matrix by their entries, and a matrix that is changed entry by entry. The compiler puts the
// closure into the loop.

// s and n terms, from the first on.
fn sum_more<F: Fn(usize) -> f64>(s: f64, n: usize, term: F) -> f64
    requires { ReadyBelow n (F.pre term) }
    ensures { (f : ℕ → Float) → GivesBelow n (F.post term) f → result ≡ sum_from s n f }
{
    let mut s = s;
    for i in 0..n {
        s = s + term(i);
    }
    s
}

// The sum of n terms, from the first on.
pub fn sum<F: Fn(usize) -> f64>(n: usize, term: F) -> f64
    requires { ReadyBelow n (F.pre term) }
    ensures { (f : ℕ → Float) → GivesBelow n (F.post term) f → result ≡ sum_to n f }
{
    sum_more(EMPTY, n, term)
}

// A vector of m entries; 0 behind them.
pub fn vector<F: Fn(usize) -> f64>(m: usize, entry: F) -> [f64; 8]
    requires size { m ≤ 8 }
    requires each { ReadyBelow m (F.pre entry) }
    ensures { (f : ℕ → Float) → GivesBelow m (F.post entry) f → vec m result ≡ tabulate m f }
{
    let mut out = [0.0; 8];
    for i in 0..m {
        out[i] = entry(i);
    }
    out
}

// A matrix of r rows and c columns.
pub fn matrix_into<F: Fn(usize, usize) -> f64>(out: &mut [f64; 64], r: usize, c: usize, entry: F)
    requires size { (r ≤ 8) × (c ≤ 8) }
    requires each { ReadyWithin r c (F.pre entry) }
    ensures { (f : ℕ → ℕ → Float) → GivesWithin r c (F.post entry) f → rect r c out.new ≡ matrix r c f }
{
    for i in 0..r {
        for j in 0..c {
            let v = entry(i, j);
            set_cell(out, r, c, i, j, v);
        }
    }
}

// Each entry of a matrix by what it was, in place.
pub fn change<F: Fn(f64, usize, usize) -> f64>(p: &mut [f64; 64], r: usize, c: usize, entry: F)
    requires size { (r ≤ 8) × (c ≤ 8) }
    requires each { (x : Float) → ReadyWithin r c (F.pre entry x) }
    ensures { (f : Float → ℕ → ℕ → Float)
        → ((x : Float) → GivesWithin r c (F.post entry x) (f x))
        → rect r c p.new ≡ matrix r c (λ i j. f (ent c (rect r c p.old) i j) i j) }
{
    for i in 0..r {
        for j in 0..c {
            let v = entry(cell(p, r, c, i, j), i, j);
            set_cell(p, r, c, i, j, v);
        }
    }
}

// The first n places of p, each by itself and by q's, in place; a matrix as one row.
fn combine<const N: usize, F: Fn(f64, f64) -> f64>(p: &mut [f64; N], q: &[f64; N], n: usize, of: F)
    requires room { n ≤ N }
    requires each { (x y : Float) → F.pre of x y }
    ensures { (f : Float → Float → Float)
        → ((x y v : Float) → F.post of x y v → v ≡ f x y)
        → vec n p.new ≡ tabulate n (λ i. f (at (vec n p.old) i) (at (vec n q.now) i)) }
{
    for k in 0..n {
        p[k] = of(p[k], q[k]);
    }
}

pub fn dot(a: &[f64; 8], b: &[f64; 8], m: usize) -> f64
    requires { m ≤ 8 }
    ensures { result ≡ dot m (vec m a.now) (vec m b.now) }
{
    sum(m, |i| nth(a, m, i) * nth(b, m, i))
}

// y + s x, in place, nothing left out; and whether all of it is finite.
pub fn axpy(y: &mut [f64; 8], s: f64, x: &[f64; 8], m: usize) -> bool
    requires { m ≤ 8 }
    ensures { Told (axpy m (vec m y.old) s (vec m x.now)) (vec m y.new) result }
{
    combine(y, x, m, |y, x| y + s * x);
    !vector_not_finite(y, m)
}

// Each entry of x times s.
pub fn scaled(x: &[f64; 8], s: f64, m: usize) -> [f64; 8]
    requires { m ≤ 8 }
    ensures { vec m result ≡ scaled m (vec m x.now) s }
{
    vector(m, |i| nth(x, m, i) * s)
}

// Each entry of x over s.
pub fn over(x: &[f64; 8], s: f64, m: usize) -> [f64; 8]
    requires { m ≤ 8 }
    ensures { vec m result ≡ over m (vec m x.now) s }
{
    vector(m, |i| nth(x, m, i) / s)
}

// out and column j of M times x_j.
fn add_column(out: &mut [f64; 8], a: &[f64; 64], x: &[f64; 8], m: usize, j: usize)
    requires { (m ≤ 8) × (j < m) }
    ensures { vec m out.new ≡ tabulate m (more_at m (mat m a.now) (vec m x.now) j (vec m out.old)) }
{
    let xj = nth(x, m, j);
    for i in 0..m {
        out[i] = out[i] + get(a, m, i, j) * xj;
    }
}

// The same, or nothing where x_j equals 0.
fn add_column_kept(out: &mut [f64; 8], a: &[f64; 64], x: &[f64; 8], m: usize, j: usize)
    requires { (m ≤ 8) × (j < m) }
    ensures { vec m out.new ≡ tabulate m (more_kept_at m (mat m a.now) (vec m x.now) j (vec m out.old)) }
{
    if is_zero(nth(x, m, j)) {
        return;
    }
    add_column(out, a, x, m, j);
}

// M x, a column whose multiplier equals 0 left out; and whether all of it is finite.
pub fn mat_vec(out: &mut [f64; 8], a: &[f64; 64], x: &[f64; 8], m: usize) -> bool
    requires { m ≤ 8 }
    ensures { Told (mat_vec m (mat m a.now) (vec m x.now)) (vec m out.new) result }
{
    *out = [0.0; 8];
    for j in 0..m {
        add_column_kept(out, a, x, m, j);
    }
    !vector_not_finite(out, m)
}

// Column j of P less a b_j.
fn sub_column(p: &mut [f64; 64], a: &[f64; 8], b: &[f64; 8], m: usize, j: usize)
    requires { (m ≤ 8) × (j < m) }
    ensures { mat m p.new ≡ matrix m m (column_less m (mat m p.old) (vec m a.now) (vec m b.now) j) }
{
    let bj = nth(b, m, j);
    for i in 0..m {
        let v = get(p, m, i, j) - nth(a, m, i) * bj;
        put(p, m, i, j, v);
    }
}

// The same, or nothing where b_j equals 0.
fn sub_column_kept(p: &mut [f64; 64], a: &[f64; 8], b: &[f64; 8], m: usize, j: usize)
    requires { (m ≤ 8) × (j < m) }
    ensures { mat m p.new ≡ matrix m m (column_kept m (mat m p.old) (vec m a.now) (vec m b.now) j) }
{
    if is_zero(nth(b, m, j)) {
        return;
    }
    sub_column(p, a, b, m, j);
}

// P - a b', a column whose multiplier equals 0 left out; and whether all of it is finite.
pub fn outer_sub(p: &mut [f64; 64], a: &[f64; 8], b: &[f64; 8], m: usize) -> bool
    requires { m ≤ 8 }
    ensures { Told (outer_sub m (mat m p.old) (vec m a.now) (vec m b.now))
        (mat m p.new) result }
{
    for j in 0..m {
        sub_column_kept(p, a, b, m, j);
    }
    !matrix_not_finite(p, m)
}

// P + a b', in place, nothing left out.
pub fn outer_add(p: &mut [f64; 64], a: &[f64; 8], b: &[f64; 8], m: usize)
    requires { m ≤ 8 }
    ensures { mat m p.new ≡ matrix m m (outer_more_at m (vec m a.now) (vec m b.now) (mat m p.old)) }
{
    change(p, m, m, |x, i, j| x + nth(a, m, i) * nth(b, m, j));
}

// s a b', as (s a) b'.
pub fn outer_scaled(a: &[f64; 8], b: &[f64; 8], s: f64, m: usize) -> [f64; 64]
    requires { m ≤ 8 }
    ensures { mat m result ≡ outer_scaled m (vec m a.now) (vec m b.now) s }
{
    let mut out = [0.0; 64];
    matrix_into(&mut out, m, m, |i, j| s * nth(a, m, i) * nth(b, m, j));
    out
}

// Entry j of M' x. No term is left out where x is 0: an infinity times 0 is a NaN.
fn mat_t_vec_at(a: &[f64; 64], x: &[f64; 8], m: usize, j: usize) -> f64
    requires { (m ≤ 8) × (j < m) }
    ensures { result ≡ mat_tVec_at m (mat m a.now) (vec m x.now) j }
{
    sum(m, |i| get(a, m, i, j) * nth(x, m, i))
}

// M' x.
pub fn mat_t_vec(a: &[f64; 64], x: &[f64; 8], m: usize) -> [f64; 8]
    requires { m ≤ 8 }
    ensures { vec m result ≡ mat_tVec m (mat m a.now) (vec m x.now) }
{
    vector(m, |j| mat_t_vec_at(a, x, m, j))
}

// Both mirrored entries, (i, j) and (j, i), become half of their sum.
fn mirror(p: &mut [f64; 64], m: usize, i: usize, j: usize)
    requires { (m ≤ 8) × (i < j) × (j < m) }
    ensures { p.new ≡ set (set p.old (i * m + j) (mean_of m (mat m p.old) i j)) (j * m + i) (mean_of m (mat m p.old) i j) }
{
    let v = 0.5 * (get(p, m, i, j) + get(p, m, j, i));
    put(p, m, i, j, v);
    put(p, m, j, i, v);
}

// The pairs of column j above the diagonal.
fn mirror_column(p: &mut [f64; 64], m: usize, j: usize)
    requires { (m ≤ 8) × (j < m) }
    ensures { (q : List Float) → Paired m j 0 q p.old → Paired m (j + 1) 0 q p.new }
{
    for i in 0..j {
        mirror(p, m, i, j);
    }
}

// (M + M') / 2, in place; the diagonal stays.
pub fn symmetrize_in_place(p: &mut [f64; 64], m: usize)
    requires { m ≤ 8 }
    ensures { mat m p.new ≡ symmetrise m (mat m p.old) }
{
    for j in 0..m {
        mirror_column(p, m, j);
    }
}

// All of P is 0.
pub fn clear(p: &mut [f64; 64], m: usize)
    requires { m ≤ 8 }
    ensures { mat m p.new ≡ zeros (m * m) }
{
    p[..m * m].fill(0.0);
}

// P + Q, in place.
pub fn add(p: &mut [f64; 64], q: &[f64; 64], m: usize)
    requires { m ≤ 8 }
    ensures { mat m p.new ≡ plus m (mat m p.old) (mat m q.now) }
{
    combine(p, q, m * m, |x, y| x + y);
}

// P - Q, in place.
pub fn sub(p: &mut [f64; 64], q: &[f64; 64], m: usize)
    requires { m ≤ 8 }
    ensures { mat m p.new ≡ minus m (mat m p.old) (mat m q.now) }
{
    combine(p, q, m * m, |x, y| x - y);
}

// s and the terms of column j of |z|' |M| |z|.
fn abs_column(s: f64, z: &[f64; 8], a: &[f64; 64], m: usize, j: usize) -> f64
    requires { (m ≤ 8) × (j < m) }
    ensures { result ≡ sum_from s m (abs_term m (vec m z.now) (mat m a.now) j) }
{
    let zj = float::abs(nth(z, m, j));
    sum_more(
        s,
        m,
        |i| float::abs(nth(z, m, i)) * zj * float::abs(get(a, m, i, j)),
    )
}

fn abs_column_kept(s: f64, z: &[f64; 8], a: &[f64; 64], m: usize, j: usize) -> f64
    requires { (m ≤ 8) × (j < m) }
    ensures { result ≡ abs_column m (vec m z.now) (mat m a.now) j s }
{
    if is_zero(nth(z, m, j)) {
        return s;
    }
    abs_column(s, z, a, m, j)
}

// |z|' |M| |z|, column by column, leaving out the columns at which z is 0.
pub fn abs_quad_form(z: &[f64; 8], a: &[f64; 64], m: usize) -> f64
    requires { m ≤ 8 }
    ensures { result ≡ abs_quad_form m (vec m z.now) (mat m a.now) }
{
    let mut s = EMPTY;
    for j in 0..m {
        s = abs_column_kept(s, z, a, m, j);
    }
    s
}

fn sq_column(s: f64, a: &[f64; 64], m: usize, j: usize) -> f64
    requires { (m ≤ 8) × (j < m) }
    ensures { result ≡ sum_from s m (sq_term m (mat m a.now) j) }
{
    sum_more(s, m, |i| {
        let x = get(a, m, i, j);
        x * x
    })
}

// The sum of the squares, column by column.
pub fn frob_sq(a: &[f64; 64], m: usize) -> f64
    requires { m ≤ 8 }
    ensures { result ≡ frob_sq m (mat m a.now) }
{
    let mut s = EMPTY;
    for j in 0..m {
        s = sq_column(s, a, m, j);
    }
    s
}

// Row i of a matrix of p rows and m columns.
pub fn row_to_vec(a: &[f64; 64], p: usize, m: usize, i: usize) -> [f64; 8]
    requires { (p ≤ 8) × ((m ≤ 8) × (i < p)) }
    ensures { vec m result ≡ row m (rect p m a.now) i }
{
    vector(m, |j| cell(a, p, m, i, j))
}

// x becomes row i of a matrix of c columns: what stands before it stays.
pub fn put_row(a: &mut [f64; 64], x: &[f64; 8], i: usize, c: usize)
    requires { (i < 8) × (c ≤ 8) }
    ensures { rect (i + 1) c a.new ≡ rect i c a.old ++ vec c x.now }
{
    a[i * c..i * c + c].copy_from_slice(&x[..c]);
}

// ---- between a lent part and an array

// A part, in an array that has room for it.
pub fn load<const N: usize>(s: &[f64]) -> [f64; N]
    requires { length s.now ≤ N }
    ensures { vec (length s.now) result ≡ s.now }
{
    let mut out = [0.0; N];
    fill(&mut out, s);
    out
}

// The same, into an array that is there: what stands behind it stays.
pub fn fill<const N: usize>(out: &mut [f64; N], s: &[f64])
    requires { length s.now ≤ N }
    ensures { vec (length s.now) out.new ≡ s.now }
{
    for i in 0..s.len() {
        out[i] = s[i];
    }
}

// The first places of an array, into a part that is no longer.
pub fn save<T: Copy, const N: usize>(out: &mut [T], a: &[T; N])
    requires { length out.old ≤ N }
    ensures { Saved (length out.old) a.now out.new }
{
    for i in 0..out.len() {
        out[i] = a[i];
    }
}
