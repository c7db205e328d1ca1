// The leaves that answer with a matrix, in the order of tools/leaf-vectors: how many of them differ from what the group wants.
ghost use Rattle.std.specs.Prelude.{◌<◌, ◌≤◌};
ghost use Rattle.dense.specs.Places.{Sizes};

use crate::vectors::moved;
use crate::words::{GROUP, apart_from, count, doubles, size, sum, word};

fn cells(r: usize, c: usize) -> usize
    requires { (r ≤ 8) × (c ≤ 8) }
    ensures { result ≤ 64 }
{
    r * c
}

fn products(a: &[f64; 64], b: &[f64; 64], r: usize, k: usize, c: usize, group: &[u8; GROUP]) -> u64
    requires { Sizes r k c }
{
    let n = cells(r, c);
    let mut p = [0.0; 64];
    products::product_into(&mut p, a, b, r, k, c);
    let mut q = [0.0; 64];
    products::product_t_into(&mut q, a, b, r, k, c);
    let mut t = [0.0; 64];
    products::t_product_into(&mut t, a, b, r, k, c);
    count(&[
        apart_from(&p[..n], group, 1168),
        apart_from(&q[..n], group, 1680),
        apart_from(&t[..n], group, 2192),
    ])
}

fn triples(a: &[f64; 64], b: &[f64; 64], m: usize, group: &[u8; GROUP]) -> u64
    requires { m ≤ 8 }
{
    let n = cells(m, m);
    let p = products::sandwich(a, b, m);
    let q = products::quad(a, b, a, m);
    count(&[
        apart_from(&p[..n], group, 3216),
        apart_from(&q[..n], group, 3728),
    ])
}

fn in_place(a: &[f64; 64], b: &[f64; 64], m: usize, group: &[u8; GROUP]) -> u64
    requires { m ≤ 8 }
{
    let n = cells(m, m);
    let mut p = *a;
    dense::add(&mut p, b, m);
    let mut q = *a;
    dense::sub(&mut q, b, m);
    let mut t = *a;
    dense::symmetrize_in_place(&mut t, m);
    count(&[
        apart_from(&p[..n], group, 4240),
        apart_from(&q[..n], group, 4752),
        apart_from(&t[..n], group, 6288),
    ])
}

fn outer(a: &[f64; 64], x: &[f64; 8], y: &[f64; 8], s: f64, m: usize, group: &[u8; GROUP]) -> u64
    requires { m ≤ 8 }
{
    let n = cells(m, m);
    let mut p = *a;
    dense::outer_sub(&mut p, x, y, m);
    let q = dense::outer_scaled(x, y, s, m);
    count(&[
        apart_from(&p[..n], group, 5264),
        apart_from(&q[..n], group, 5776),
    ])
}

fn rows(a: &[f64; 64], x: &[f64; 8], r: usize, c: usize, group: &[u8; GROUP]) -> u64
    requires { (0 < r) × (r ≤ 8) × (c ≤ 8) }
{
    let n = cells(r, c);
    let t = products::transpose(a, r, c);
    let mut p = *a;
    dense::put_row(&mut p, x, r - 1, c);
    count(&[
        apart_from(&t[..n], group, 2704),
        apart_from(&p[..n], group, 6800),
    ])
}

fn by_sizes(group: &[u8; GROUP]) -> u64 {
    let a = doubles(group, 8);
    let b = doubles(group, 520);
    products(
        &a,
        &b,
        size(group, 0),
        size(group, 1),
        size(group, 2),
        group,
    )
}

fn by_size(group: &[u8; GROUP]) -> u64 {
    let a = doubles(group, 8);
    let b = doubles(group, 520);
    let m = size(group, 3);
    sum(&[triples(&a, &b, m, group), in_place(&a, &b, m, group)])
}

fn by_vectors(group: &[u8; GROUP]) -> u64 {
    let a = doubles(group, 8);
    let x = doubles(group, 1032);
    let y = doubles(group, 1096);
    let s = bits::double(word(group, 1160));
    outer(&a, &x, &y, s, size(group, 3), group)
}

fn by_rows(group: &[u8; GROUP]) -> u64 {
    let a = doubles(group, 8);
    let x = doubles(group, 1032);
    let r = size(group, 0);
    let c = size(group, 2);
    sum(&[
        rows(&a, &x, r, c, group),
        moved(&a, cells(r, c), group, 7312),
    ])
}

pub fn differ(group: &[u8; GROUP]) -> u64 {
    sum(&[
        by_sizes(group),
        by_size(group),
        by_vectors(group),
        by_rows(group),
    ])
}
