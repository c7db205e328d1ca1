// The leaves that answer with a vector or with a number, and those of one double, which are run on all eight of x: how many differ.
ghost use Rattle.std.specs.Prelude.{◌+◌, ◌*◌, ◌<◌, ◌≤◌};

use crate::words::{GROUP, apart, apart_from, count, doubles, size, sum, word};

fn scaling(x: &[f64; 8], y: &[f64; 8], s: f64, m: usize, group: &[u8; GROUP]) -> u64
    requires { m ≤ 8 }
{
    let p = dense::over(x, s, m);
    let q = dense::scaled(x, s, m);
    let mut t = *y;
    dense::axpy(&mut t, s, x, m);
    count(&[
        apart_from(&p[..m], group, 7824),
        apart_from(&q[..m], group, 7888),
        apart_from(&t[..m], group, 7952),
    ])
}

fn by_matrix(a: &[f64; 64], x: &[f64; 8], m: usize, group: &[u8; GROUP]) -> u64
    requires { m ≤ 8 }
{
    let mut p = [0.0; 8];
    dense::mat_vec(&mut p, a, x, m);
    let q = dense::mat_t_vec(a, x, m);
    count(&[
        apart_from(&p[..m], group, 8016),
        apart_from(&q[..m], group, 8080),
    ])
}

fn last_row(a: &[f64; 64], r: usize, c: usize, group: &[u8; GROUP]) -> u64
    requires { (0 < r) × (r ≤ 8) × (c ≤ 8) }
{
    let p = dense::row_to_vec(a, r, c, r - 1);
    count(&[apart_from(&p[..c], group, 8144)])
}

// The first n places out of an array, and into another: of a vector or of a matrix.
pub fn moved<const N: usize>(a: &[f64; N], n: usize, group: &[u8; GROUP], at: usize) -> u64
    requires { (n ≤ N) × (at + 8 * N ≤ 8616) }
{
    let l: [f64; N] = dense::load(&a[..n]);
    let mut out = [0.0; N];
    dense::save(&mut out[..n], &l);
    count(&[apart_from(&out, group, at)])
}

// 1 for a NaN, 2 for an infinity and 4 for a finite number, by the three tests.
fn kind(x: f64) -> f64 {
    let n = if float::is_nan(x) { 1.0 } else { 0.0 };
    let i = if float::is_infinite(x) { 2.0 } else { 0.0 };
    let f = if float::is_finite(x) { 4.0 } else { 0.0 };
    n + i + f
}

fn of_one(x: &[f64; 8], group: &[u8; GROUP]) -> u64 {
    count(&[
        apart_from(&x.map(|x| float::abs(x)), group, 8272),
        apart_from(&x.map(|x| float::max0(x)), group, 8336),
        apart_from(&x.map(|x| float::sqrt(x)), group, 8400),
        apart_from(&x.map(|x| float::ln(x)), group, 8464),
        apart_from(&x.map(kind), group, 8528),
    ])
}

fn numbers(a: &[f64; 64], x: &[f64; 8], y: &[f64; 8], m: usize, group: &[u8; GROUP]) -> u64
    requires { m ≤ 8 }
{
    let p = apart(dense::dot(x, y, m), word(group, 8592));
    let q = apart(dense::frob_sq(a, m), word(group, 8600));
    let t = apart(dense::abs_quad_form(x, a, m), word(group, 8608));
    count(&[p, q, t])
}

fn by_vectors(group: &[u8; GROUP]) -> u64 {
    let x = doubles(group, 1032);
    let y = doubles(group, 1096);
    let s = bits::double(word(group, 1160));
    let m = size(group, 3);
    sum(&[scaling(&x, &y, s, m, group), moved(&x, m, group, 8208)])
}

fn by_matrices(group: &[u8; GROUP]) -> u64 {
    let a = doubles(group, 8);
    let x = doubles(group, 1032);
    let y = doubles(group, 1096);
    let m = size(group, 3);
    sum(&[by_matrix(&a, &x, m, group), numbers(&a, &x, &y, m, group)])
}

fn by_rows(group: &[u8; GROUP]) -> u64 {
    let a = doubles(group, 8);
    last_row(&a, size(group, 0), size(group, 2), group)
}

fn by_eight(group: &[u8; GROUP]) -> u64 {
    let x = doubles(group, 1032);
    of_one(&x, group)
}

pub fn differ(group: &[u8; GROUP]) -> u64 {
    sum(&[
        by_vectors(group),
        by_matrices(group),
        by_rows(group),
        by_eight(group),
    ])
}
