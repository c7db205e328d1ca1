// Document 02, request l, of the compiled kernels: the transpose of a product, by two ways that agree, and a matrix symmetrised twice. laws Transposes
// has why.
ghost use Rattle.std.specs.Prelude.{◌≡◌, ◌≤◌};
ghost use Rattle.definition.specs.Dense.{product, transpose, mul, transposed, symmetrise};
ghost use Rattle.dense.specs.Views.{rect, mat};
ghost use Rattle.dense.specs.Places.{Sizes};

// (A B)', of r rows, k inner places and c columns, and B' A'.
pub fn of_product(
    one: &mut [f64; 64],
    other: &mut [f64; 64],
    a: &[f64; 64],
    b: &[f64; 64],
    r: usize,
    k: usize,
    c: usize,
)
    requires { Sizes r k c }
    ensures { (rect c r one.new ≡ transpose r c (product r k c (rect r k a.now) (rect k c b.now)))
        × (rect c r other.new ≡ rect c r one.new) }
{
    let mut ab = [0.0; 64];
    products::product_into(&mut ab, a, b, r, k, c);
    *one = products::transpose(&ab, r, c);
    let bt = products::transpose(b, k, c);
    let at = products::transpose(a, r, k);
    products::product_into(other, &bt, &at, c, k, r);
}

// The same of m by m, by the kernels of the way back.
pub fn of_mul(one: &mut [f64; 64], other: &mut [f64; 64], a: &[f64; 64], b: &[f64; 64], m: usize)
    requires { m ≤ 8 }
    ensures { (mat m one.new ≡ transposed m (mul m (mat m a.now) (mat m b.now)))
        × (mat m other.new ≡ mat m one.new) }
{
    let mut ab = [0.0; 64];
    products::mul_into(&mut ab, a, b, m);
    *one = products::transpose(&ab, m, m);
    let at = products::transpose(a, m, m);
    products::t_mul_into(other, b, &at, m);
}

// Symmetrised twice is symmetrised once.
pub fn symmetrize_twice(p: &mut [f64; 64], m: usize)
    requires { m ≤ 8 }
    ensures { mat m p.new ≡ symmetrise m (mat m p.old) }
{
    dense::symmetrize_in_place(p, m);
    dense::symmetrize_in_place(p, m);
}
