// The leaves by the C calling convention, for timing and for comparisons at scale. A size above 8 does nothing, and answers 0 or false. The kernels that
// tell whether all results are finite hand that word out.
#![tactic(auto)]

ghost use Rattle.std.specs.Prelude.{◌≡◌};
ghost use Rattle.std.specs.Float.Ieee.{is_nan};
ghost use Rattle.definition.specs.Num.{abs_of, max0, is_infinite, is_finite};
ghost use Rattle.definition.specs.Root.{sqrt_of};
ghost use Rattle.definition.specs.Log.{ln_of, ln_two_pi};

mod transposes;

#[unsafe(no_mangle)]
pub extern "C" fn leaf_abs(x: f64) -> f64
    ensures { result ≡ abs_of x }
{
    float::abs(x)
}

#[unsafe(no_mangle)]
pub extern "C" fn leaf_max0(x: f64) -> f64
    ensures { result ≡ max0 x }
{
    float::max0(x)
}

#[unsafe(no_mangle)]
pub extern "C" fn leaf_sqrt(x: f64) -> f64
    ensures { result ≡ sqrt_of x }
{
    float::sqrt(x)
}

#[unsafe(no_mangle)]
pub extern "C" fn leaf_ln(x: f64) -> f64
    ensures { result ≡ ln_of x }
{
    float::ln(x)
}

#[unsafe(no_mangle)]
pub extern "C" fn leaf_ln_two_pi() -> f64
    ensures { result ≡ ln_two_pi }
{
    float::ln_two_pi()
}

#[unsafe(no_mangle)]
pub extern "C" fn leaf_is_nan(x: f64) -> bool
    ensures { result ≡ is_nan x }
{
    float::is_nan(x)
}

#[unsafe(no_mangle)]
pub extern "C" fn leaf_is_infinite(x: f64) -> bool
    ensures { result ≡ is_infinite x }
{
    float::is_infinite(x)
}

#[unsafe(no_mangle)]
pub extern "C" fn leaf_is_finite(x: f64) -> bool
    ensures { result ≡ is_finite x }
{
    float::is_finite(x)
}

#[unsafe(no_mangle)]
pub extern "C" fn leaf_dot(a: &[f64; 8], b: &[f64; 8], m: usize) -> f64 {
    if m > 8 {
        return 0.0;
    }
    dense::dot(a, b, m)
}

#[unsafe(no_mangle)]
pub extern "C" fn leaf_axpy(y: &mut [f64; 8], s: f64, x: &[f64; 8], m: usize) -> bool {
    m <= 8 && dense::axpy(y, s, x, m)
}

#[unsafe(no_mangle)]
pub extern "C" fn leaf_mat_vec(a: &[f64; 64], x: &[f64; 8], m: usize, out: &mut [f64; 8]) -> bool {
    m <= 8 && dense::mat_vec(out, a, x, m)
}

#[unsafe(no_mangle)]
pub extern "C" fn leaf_mat_t_vec(a: &[f64; 64], x: &[f64; 8], m: usize, out: &mut [f64; 8]) {
    if m <= 8 {
        *out = dense::mat_t_vec(a, x, m);
    }
}

#[unsafe(no_mangle)]
pub extern "C" fn leaf_outer_sub(p: &mut [f64; 64], a: &[f64; 8], b: &[f64; 8], m: usize) -> bool {
    m <= 8 && dense::outer_sub(p, a, b, m)
}

#[unsafe(no_mangle)]
pub extern "C" fn leaf_product(
    a: &[f64; 64],
    b: &[f64; 64],
    m: usize,
    out: &mut [f64; 64],
) -> bool {
    m <= 8 && products::product_into(out, a, b, m, m, m)
}

// The other ways to a product: A B', A' B, and A B and A' B by the square kernels. `way` is a number, since C calls it; any but 0, 1 and 2 is the last.
#[unsafe(no_mangle)]
pub extern "C" fn leaf_product_by(
    way: u8,
    a: &[f64; 64],
    b: &[f64; 64],
    m: usize,
    out: &mut [f64; 64],
) -> bool {
    if m > 8 {
        return false;
    }
    match way {
        0 => products::product_t_into(out, a, b, m, m, m),
        1 => products::t_product_into(out, a, b, m, m, m),
        2 => products::mul_into(out, a, b, m),
        _ => products::t_mul_into(out, a, b, m),
    }
}

#[unsafe(no_mangle)]
pub extern "C" fn leaf_sandwich(t: &[f64; 64], p: &[f64; 64], m: usize, out: &mut [f64; 64]) {
    if m <= 8 {
        *out = products::sandwich(t, p, m);
    }
}

#[unsafe(no_mangle)]
pub extern "C" fn leaf_abs_quad_form(z: &[f64; 8], a: &[f64; 64], m: usize) -> f64 {
    if m > 8 {
        return 0.0;
    }
    dense::abs_quad_form(z, a, m)
}

#[unsafe(no_mangle)]
pub extern "C" fn leaf_frob_sq(a: &[f64; 64], m: usize) -> f64 {
    if m > 8 {
        return 0.0;
    }
    dense::frob_sq(a, m)
}

#[unsafe(no_mangle)]
pub extern "C" fn leaf_symmetrize(p: &mut [f64; 64], m: usize) {
    if m <= 8 {
        dense::symmetrize_in_place(p, m);
    }
}

#[unsafe(no_mangle)]
pub extern "C" fn leaf_add(p: &mut [f64; 64], q: &[f64; 64], m: usize) {
    if m <= 8 {
        dense::add(p, q, m);
    }
}

// ---- document 02, request l: the transpose of a product by two ways, and a matrix symmetrised twice

#[unsafe(no_mangle)]
pub extern "C" fn leaf_transposed_product(
    a: &[f64; 64],
    b: &[f64; 64],
    r: usize,
    k: usize,
    c: usize,
    one: &mut [f64; 64],
    other: &mut [f64; 64],
) {
    if r <= 8 && k <= 8 && c <= 8 {
        transposes::of_product(one, other, a, b, r, k, c);
    }
}

#[unsafe(no_mangle)]
pub extern "C" fn leaf_transposed_mul(
    a: &[f64; 64],
    b: &[f64; 64],
    m: usize,
    one: &mut [f64; 64],
    other: &mut [f64; 64],
) {
    if m <= 8 {
        transposes::of_mul(one, other, a, b, m);
    }
}

#[unsafe(no_mangle)]
pub extern "C" fn leaf_symmetrize_twice(p: &mut [f64; 64], m: usize) {
    if m <= 8 {
        transposes::symmetrize_twice(p, m);
    }
}
