// filter.rs, `pivoted_root` and `StarRoot`: the square-root companion of a period's P*, for the decision on a suspect
// element alone. It is seldom asked, and a call's stack has room for it whether it is or not. So a matrix becomes its root
// in its own place; and the root is in one loop of crates/period alone.
#![tactic(auto)]

ghost use Rattle.std.specs.Prelude.{◌≡◌, List, [], ◌≤◌, ◌<◌, take, length, Float};
ghost use Rattle.definition.specs.Num.{ent, matrix, tabulate};
ghost use Rattle.definition.specs.Dense.{row};
ghost use Rattle.definition.specs.Star.{better, pivot_to, column_at, column, pivoted_root, loads, on, sub, u_at, w_at};
ghost use Rattle.dense.specs.Views.{vec, mat, rect};
ghost use Rattle.dense.specs.Places.{Within};
ghost use Rattle.star.specs.Views.{
  pivot_of,
  factor,
  cols_of,
  Shrunk,
  projected_at,
  Found,
  States,
  Joined,
  Sound,
  Downdated,
  Replayed,
};
ghost use Rattle.star.specs.Workspace.{picked, Rows, Placed, Grew, left_by, left_free, with_row, flip, exchanged, Renumbered};

// Where the largest diagonal entry above 0 is, or the size for none, and how large. No Option: the definition's fold, Star.pivot_to, starts from such a pivot.
#[derive(Drop)]
struct Pivot {
    place: usize,
    best: f64,
}

// The states that the design loads on, in order: an array and their number, since nothing is allocated.
#[derive(Drop)]
pub struct Support {
    pub places: [usize; 8],
    pub count: usize,
}

// A factor of P* on the support: rank columns, with an entry for each state there.
#[derive(Drop)]
pub struct StarRoot {
    pub support: Support,
    pub cols: [f64; 64],
    pub rank: usize,
}

// The pivot b, or place j where that is free and its entry larger: the first of equals stays.
fn better(b: Pivot, a: &[f64; 64], used: &[bool; 8], k: usize, j: usize) -> Pivot
    requires { (k ≤ 8) × (j < k) }
    ensures { pivot_of result ≡ better k (mat k a.now) (take k used.now) j (pivot_of b) }
{
    let x = dense::get(a, k, j, j);
    if used[j] {
        return b;
    }
    if x > b.best {
        return Pivot { place: j, best: x };
    }
    b
}

// The pivot of what is left: the largest diagonal entry at a free place.
fn find_pivot(a: &[f64; 64], used: &[bool; 8], k: usize) -> Pivot
    requires { k ≤ 8 }
    ensures { pivot_of result ≡ pivot_to k (mat k a.now) (take k used.now) k }
{
    let mut b = Pivot {
        place: k,
        best: 0.0,
    };
    for j in 0..k {
        b = better(b, a, used, k, j);
    }
    b
}

// Entry i of the column by pivot j, whose root is sd; 0 in a row that is used up.
fn column_at(a: &[f64; 64], used: &[bool; 8], k: usize, j: usize, sd: f64, i: usize) -> f64
    requires { Within k i j }
    ensures { result ≡ column_at k (mat k a.now) (take k used.now) j sd i }
{
    if used[i] {
        return 0.0;
    }
    dense::get(a, k, i, j) / sd
}

// The column by pivot j.
fn column(a: &[f64; 64], used: &[bool; 8], k: usize, j: usize, sd: f64) -> [f64; 8]
    requires { (k ≤ 8) × (j < k) }
    ensures { vec k result ≡ column k (mat k a.now) (take k used.now) j sd }
{
    dense::vector(k, |i| column_at(a, used, k, j, sd, i))
}

// ---- a matrix becomes its root in its own place: no entry in a used row or column is read again (laws Unread), so a
// column goes into its pivot's row. `order` has these rows, in the order of the columns; `used` says by place what `order`
// says by column: each entry asks it.

// What a column leaves of x at (i, j). A row that is used up holds a column, and stays.
fn left_at(x: f64, used: &[bool; 8], col: &[f64; 8], k: usize, i: usize, j: usize) -> f64
    requires { Within k i j }
    ensures { result ≡ left_by (take k used.now) (vec k col.now) x i j }
{
    let spent = used[i];
    if spent {
        return x;
    }
    x - dense::nth(col, k, i) * dense::nth(col, k, j)
}

// What a column leaves.
fn take_off(work: &mut [f64; 64], used: &[bool; 8], col: &[f64; 8], k: usize)
    requires { k ≤ 8 }
    ensures { mat k work.new
        ≡ matrix k k (left_free k (take k used.now) (vec k col.now) (mat k work.old)) }
{
    dense::change(work, k, k, |x, i, j| left_at(x, used, col, k, i, j));
}

// Row i becomes x, and the others stay. dense::put_row stores the same; what it promises is of the rows up to i alone.
fn set_row(work: &mut [f64; 64], x: &[f64; 8], k: usize, i: usize)
    requires { (k ≤ 8) × (i < k) }
    ensures { mat k work.new ≡ matrix k k (with_row k i (vec k x.now) (mat k work.old)) }
{
    for j in 0..k {
        let v = dense::nth(x, k, j);
        dense::put(work, k, i, j, v);
    }
}

// One column more, where there is one. How many there are then.
fn grow(
    work: &mut [f64; 64],
    used: &mut [bool; 8],
    order: &mut [usize; 8],
    rank: usize,
    k: usize,
) -> usize
    requires { (k ≤ 8) × ((rank < k) × Placed k rank (take k used.old) order.old) }
    ensures { Grew k rank (take k used.old) order.old (mat k work.old)
        result (take k used.new) order.new (mat k work.new) }
{
    let b = find_pivot(work, used, k);
    let j = b.place;
    if j == k {
        return rank;
    }
    let col = column(work, used, k, j, float::sqrt(b.best));
    take_off(work, used, &col, k);
    set_row(work, &col, k, j);
    used[j] = true;
    order[rank] = j;
    rank + 1
}

// The other of i and j, and any third as it is.
fn flip(i: usize, j: usize, x: usize) -> usize
    ensures { result ≡ flip i j x }
{
    if x == i {
        return j;
    }
    if x == j {
        return i;
    }
    x
}

// Rows i and j change places.
fn exchange(work: &mut [f64; 64], k: usize, i: usize, j: usize)
    requires { Within k i j }
    ensures { mat k work.new ≡ matrix k k (exchanged k i j (mat k work.old)) }
{
    let x = dense::row_to_vec(work, k, k, i);
    let y = dense::row_to_vec(work, k, k, j);
    set_row(work, &y, k, i);
    set_row(work, &x, k, j);
}

// And the first n numbers in `order` go with them.
fn renumber(order: &mut [usize; 8], n: usize, i: usize, j: usize)
    requires { (n ≤ 8) × (length order.old ≡ 8) }
    ensures { Renumbered n i j order.old order.new }
{
    for x in &mut order[..n] {
        *x = flip(i, j, *x);
    }
}

// The columns one after the other: column l, from row order[l], into row l.
fn arrange(work: &mut [f64; 64], order: &mut [usize; 8], n: usize, k: usize)
    requires { (k ≤ 8) × ((n ≤ k) × Rows k n order.old) }
    ensures { rect n k work.new ≡ matrix n k (picked k order.old (mat k work.old)) }
{
    for l in 0..n {
        let j = order[l];
        exchange(work, k, l, j);
        renumber(order, n, l, j);
    }
}

// A k by k matrix becomes its factor: column after column, each by the largest diagonal entry that is left. How many
// there are.
fn pivoted_root(work: &mut [f64; 64], k: usize) -> usize
    requires { k ≤ 8 }
    ensures { (factor k result work.new ≡ pivoted_root k (mat k work.old)) × (result ≤ k) }
{
    let mut used = [false; 8];
    let mut order = [0; 8];
    let mut rank = 0;
    for _ in 0..k {
        rank = grow(work, &mut used, &mut order, rank, k);
    }
    arrange(work, &mut order, rank, k);
    rank
}

// Whether some row of the design, p of them, is not 0 at state j.
fn loads(z: &[f64; 64], p: usize, m: usize, j: usize) -> bool
    requires { (p ≤ 8) × ((m ≤ 8) × (j < m)) }
    ensures { result ≡ loads m (rect p m z.now) j p }
{
    dense::any(p, |i| dense::cell(z, p, m, i, j) != 0.0)
}

impl Support {
    // State j joins the others.
    fn join(&mut self, j: usize)
        requires { self.old.count < 8 }
        ensures { Joined self.old j self.new }
    {
        self.places[self.count] = j;
        self.count += 1;
    }

    // A vector on the support.
    fn vector(&self, x: &[f64; 8], m: usize) -> [f64; 8]
        requires { States m self.now.count self.now.places }
        ensures { vec self.now.count result ≡ on self.now.count (take self.now.count self.now.places) (vec m x.now) }
    {
        dense::vector(self.count, |a| dense::nth(x, m, self.places[a]))
    }

    // A matrix on the support.
    fn matrix_into(&self, out: &mut [f64; 64], a: &[f64; 64], m: usize)
        requires { States m self.now.count self.now.places }
        ensures { mat self.now.count out.new ≡ sub m self.now.count (take self.now.count self.now.places) (mat m a.now) }
    {
        dense::matrix_into(
            out,
            self.count,
            self.count,
            |i, j| dense::get(a, m, self.places[i], self.places[j]),
        );
    }
}

// The support: the states on which some row of the design loads, in order.
fn find_support(z: &[f64; 64], p: usize, m: usize) -> Support
    requires { (p ≤ 8) × (m ≤ 8) }
    ensures { Found p m m (rect p m z.now) result }
{
    let mut s = Support {
        places: [0; 8],
        count: 0,
    };
    for j in 0..m {
        if loads(z, p, m, j) {
            s.join(j);
        }
    }
    s
}

// ---- the root at work

impl StarRoot {
    // Entry l of u = S' z.
    fn u_at(&self, z: &[f64; 8], l: usize) -> f64
        requires { (self.now.support.count ≤ 8) × (self.now.rank ≤ 8) × (l < self.now.rank) }
        ensures { result ≡ u_at self.now.support.count (cols_of self.now) (vec self.now.support.count z.now) l }
    {
        let k = self.support.count;
        dense::sum(
            k,
            |a| dense::cell(&self.cols, self.rank, k, l, a) * dense::nth(z, k, a),
        )
    }

    // Entry a of w = S u.
    fn w_at(&self, u: &[f64; 8], a: usize) -> f64
        requires { (self.now.support.count ≤ 8) × (self.now.rank ≤ 8) × (a < self.now.support.count) }
        ensures { result ≡ w_at self.now.support.count self.now.rank (cols_of self.now) (vec self.now.rank u.now) a }
    {
        let r = self.rank;
        dense::sum(
            r,
            |l| dense::cell(&self.cols, r, self.support.count, l, a) * dense::nth(u, r, l),
        )
    }

    // u = S' z.
    fn u(&self, z: &[f64; 8]) -> [f64; 8]
        requires { (self.now.support.count ≤ 8) × (self.now.rank ≤ 8) }
        ensures { vec self.now.rank result ≡ tabulate self.now.rank (u_at self.now.support.count (cols_of self.now) (vec self.now.support.count z.now)) }
    {
        dense::vector(self.rank, |l| self.u_at(z, l))
    }

    // w = S u.
    fn w(&self, u: &[f64; 8]) -> [f64; 8]
        requires { (self.now.support.count ≤ 8) × (self.now.rank ≤ 8) }
        ensures { vec self.now.support.count result
            ≡ tabulate self.now.support.count (w_at self.now.support.count self.now.rank (cols_of self.now) (vec self.now.rank u.now)) }
    {
        dense::vector(self.support.count, |a| self.w_at(u, a))
    }

    // S - g w u', in place.
    fn shrink(&mut self, g: f64, u: &[f64; 8], w: &[f64; 8])
        requires { (self.old.support.count ≤ 8) × (self.old.rank ≤ 8) }
        ensures { Shrunk g (vec self.old.rank u.now) (vec self.old.support.count w.now) self.old self.new }
    {
        let k = self.support.count;
        let r = self.rank;
        dense::change(
            &mut self.cols,
            r,
            k,
            |x, l, a| x - g * dense::nth(w, k, a) * dense::nth(u, r, l),
        );
    }

    // F = u' u + h, u = S' z: the element's variance as a sum of squares.
    pub fn project(&self, z: &[f64; 8], h: f64, m: usize) -> f64
        requires { Sound m self.now }
        ensures { result ≡ projected_at self.now (vec m z.now) h }
    {
        let zs = self.support.vector(z, m);
        let u = self.u(&zs);
        dense::dot(&u, &u, self.rank) + h
    }

    // Potter's update for the element (z, h): S (I - g u u'), g = 1 / (F + sqrt(h F)).
    pub fn downdate(&mut self, z: &[f64; 8], h: f64, m: usize)
        requires { Sound m self.old }
        ensures { Downdated (vec m z.now) h self.old self.new }
    {
        let zs = self.support.vector(z, m);
        let u = self.u(&zs);
        let f = dense::dot(&u, &u, self.rank) + h;
        if f > 0.0 {
            let w = self.w(&u);
            let g = 1.0 / (f + float::sqrt(h * f));
            self.shrink(g, &u, &w);
        }
    }

    // It becomes the factor of a period's predicted P*: no update is followed yet. It is built where it stands: handed out
    // by value, it would stand in a call's frame more than once.
    pub fn build(&mut self, p: usize, m: usize, design: &[f64; 64], pre: &[f64; 64])
        requires { (p ≤ 8) × (m ≤ 8) }
        ensures { (h : List Float) → Replayed p m (rect p m design.now) h (mat m pre.now) [] self.new }
    {
        self.support = find_support(design, p, m);
        self.support.matrix_into(&mut self.cols, pre, m);
        self.rank = pivoted_root(&mut self.cols, self.support.count);
    }
}

// F of element i of the period, by the root.
pub fn ask(root: &StarRoot, p: usize, m: usize, design: &[f64; 64], hs: &[f64; 64], i: usize) -> f64
    requires { (p ≤ 8) × ((i < p) × Sound m root.now) }
    ensures { result
        ≡ projected_at root.now (row m (rect p m design.now) i) (ent p (mat p hs.now) i i) }
{
    let z = dense::row_to_vec(design, p, m, i);
    root.project(&z, dense::get(hs, p, i, i), m)
}

// The update for element i of the period.
pub fn follow(root: &mut StarRoot, p: usize, m: usize, design: &[f64; 64], hs: &[f64; 64], i: usize)
    requires { (p ≤ 8) × ((i < p) × Sound m root.old) }
    ensures { Downdated (row m (rect p m design.now) i) (ent p (mat p hs.now) i i)
        root.old root.new }
{
    let z = dense::row_to_vec(design, p, m, i);
    root.downdate(&z, dense::get(hs, p, i, i), m);
}
