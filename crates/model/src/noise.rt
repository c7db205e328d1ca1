// R Q R', symmetrised, of a Q that is diagonal: each disturbance adds an outer product of its column of R. laws Noise has why this is document 01's
// (R Q) R' to the bit.
ghost use Rattle.std.specs.Prelude.{◌≡◌, length};
ghost use Rattle.definition.specs.Num.{tabulate, matrix, ent};
ghost use Rattle.definition.specs.Inputs.{noise_of};
ghost use Rattle.dense.specs.Views.{vec, mat};
ghost use Rattle.model.specs.Noise.{Column, NoiseGiven, more_at};

// Column l of a matrix of m rows and r columns.
fn column(a: &[f64], m: usize, r: usize, l: usize) -> [f64; 8]
    requires { Column m r l (length a.now) }
    ensures { vec m result ≡ tabulate m (λ i. ent r a.now i l) }
{
    dense::vector(m, |i| a[i * r + l])
}

// P and what disturbance l brings, of variance q. The sum in R Q starts from +0.0, so no entry of it is -0.0.
fn add_disturbance(out: &mut [f64; 64], rr: &[f64], q: f64, m: usize, r: usize, l: usize)
    requires { Column m r l (length rr.now) }
    ensures { mat m out.new ≡ matrix m m (more_at m r rr.now q l (mat m out.old)) }
{
    let a = column(rr, m, r, l);
    let mut b = [0.0; 8];
    dense::axpy(&mut b, q, &a, m);
    dense::outer_add(out, &b, &a, m);
}

// The same. In the frequent sizes the compiler knows the size.
fn add_sized(out: &mut [f64; 64], rr: &[f64], q: f64, m: usize, r: usize, l: usize)
    requires { Column m r l (length rr.now) }
    ensures { mat m out.new ≡ matrix m m (more_at m r rr.now q l (mat m out.old)) }
{
    match m {
        1 => add_disturbance(out, rr, q, 1, r, l),
        2 => add_disturbance(out, rr, q, 2, r, l),
        4 => add_disturbance(out, rr, q, 4, r, l),
        8 => add_disturbance(out, rr, q, 8, r, l),
        _ => add_disturbance(out, rr, q, m, r, l),
    }
}

pub fn noise(out: &mut [f64; 64], rr: &[f64], q: &[f64], m: usize, r: usize)
    requires { NoiseGiven m r rr.now q.now }
    ensures { mat m out.new ≡ noise_of m r rr.now q.now }
{
    dense::clear(out, m);
    for l in 0..r {
        add_sized(out, rr, q[l * r + l], m, r, l);
    }
    dense::symmetrize_in_place(out, m);
}
