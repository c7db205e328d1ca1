// Refusal 12: the needed stretch of each lent part is blanked.
#![tactic(auto)]

ghost use Rattle.std.specs.Prelude.{◌≡◌, ◌≤◌, length};
ghost use Rattle.definition.specs.Num.{zeros};
ghost use Rattle.definition.specs.Run.{lay};
ghost use Rattle.blank.specs.Stretches.{MeanRoom, CovRoom, RecordRoom, SmoothedRoom, MeanBlank, CovBlank, RecordBlank, SmoothedBlank};

// The first k places become +0.0.
fn clear(out: &mut [f64], k: usize)
    requires { k ≤ length out.old }
    ensures { out.new ≡ lay (zeros k) out.old }
{
    out[..k].fill(0.0);
}

fn means(pred_mean: &mut [f64], filt_mean: &mut [f64], v: &mut [f64], p: usize, m: usize, n: usize)
    requires { MeanRoom p m n (length pred_mean.old) (length filt_mean.old) (length v.old) }
    ensures { MeanBlank p m n pred_mean.old pred_mean.new filt_mean.old filt_mean.new v.old v.new }
{
    let nm = n * m;
    clear(pred_mean, nm + m);
    clear(filt_mean, nm);
    clear(v, n * p);
}

fn covs(
    pred_cov: &mut [f64],
    pred_inf: &mut [f64],
    filt_cov: &mut [f64],
    p: usize,
    m: usize,
    n: usize,
)
    requires { CovRoom p m n (length pred_cov.old) (length pred_inf.old) (length filt_cov.old) }
    ensures { CovBlank m n pred_cov.old pred_cov.new pred_inf.old pred_inf.new filt_cov.old filt_cov.new }
{
    let mm = m * m;
    let nmm = n * mm;
    let pred = nmm + mm;
    clear(pred_cov, pred);
    clear(pred_inf, pred);
    clear(filt_cov, nmm);
}

fn records(
    kinds: &mut [u8],
    f_star: &mut [f64],
    f_inf: &mut [f64],
    m_star: &mut [f64],
    m_inf: &mut [f64],
    p: usize,
    m: usize,
    n: usize,
)
    requires { RecordRoom p m n (length kinds.old) (length f_star.old) (length f_inf.old) (length m_star.old) (length m_inf.old) }
    ensures { RecordBlank p m n kinds.old kinds.new f_star.old f_star.new f_inf.old f_inf.new m_star.old m_star.new m_inf.old m_inf.new }
{
    let np = n * p;
    let npm = n * (p * m);
    kinds[..np].fill(0);
    clear(f_star, np);
    clear(f_inf, np);
    clear(m_star, npm);
    clear(m_inf, npm);
}

// All of the filter's parts.
pub fn filtered(
    pred_mean: &mut [f64],
    pred_cov: &mut [f64],
    pred_inf: &mut [f64],
    filt_mean: &mut [f64],
    filt_cov: &mut [f64],
    kinds: &mut [u8],
    v: &mut [f64],
    f_star: &mut [f64],
    f_inf: &mut [f64],
    m_star: &mut [f64],
    m_inf: &mut [f64],
    p: usize,
    m: usize,
    n: usize,
)
    requires { (MeanRoom p m n (length pred_mean.old) (length filt_mean.old) (length v.old))
        × (CovRoom p m n (length pred_cov.old) (length pred_inf.old) (length filt_cov.old))
        × (RecordRoom p m n (length kinds.old) (length f_star.old) (length f_inf.old) (length m_star.old) (length m_inf.old)) }
    ensures { (MeanBlank p m n pred_mean.old pred_mean.new filt_mean.old filt_mean.new v.old v.new)
        × (CovBlank m n pred_cov.old pred_cov.new pred_inf.old pred_inf.new filt_cov.old filt_cov.new)
        × (RecordBlank p m n kinds.old kinds.new f_star.old f_star.new f_inf.old f_inf.new m_star.old m_star.new m_inf.old m_inf.new) }
{
    means(pred_mean, filt_mean, v, p, m, n);
    covs(pred_cov, pred_inf, filt_cov, p, m, n);
    records(kinds, f_star, f_inf, m_star, m_inf, p, m, n);
}

// The smoother's two parts.
pub fn smoothed(sm_mean: &mut [f64], sm_cov: &mut [f64], p: usize, m: usize, n: usize)
    requires { SmoothedRoom p m n (length sm_mean.old) (length sm_cov.old) }
    ensures { SmoothedBlank m n sm_mean.old sm_mean.new sm_cov.old sm_cov.new }
{
    clear(sm_mean, n * m);
    clear(sm_cov, n * (m * m));
}
