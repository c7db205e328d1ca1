// The filter's call by the C calling convention: numbers as themselves, a slice as pointer and length. It asks nothing of its caller. A crate of its own,
// and so an object of its own in libgoxundar.a (DECISIONS 74). Its name ends in the interface's number, which the header puts there.
#![tactic(auto)]

ghost use Rattle.promise.specs.Lent.{given, lent};
ghost use Rattle.promise.specs.Exported.{is_yes, places, FilteredC};

use promise::{Model, Offsets};

#[unsafe(no_mangle)]
pub extern "C" fn goxundar_filter_5<'a>(
    p: usize,
    m: usize,
    r: usize,
    n: usize,
    z: &'a [f64],
    zs: &'a [f64],
    repeats: u8,
    h: &[f64],
    t: &'a [f64],
    ts: &'a [f64],
    rr: &[f64],
    q: &[f64],
    c: &[f64],
    d: &[f64],
    a1: &[f64],
    p_star: &[f64],
    flags: &[u8],
    y: &[f64],
    pred_mean: &mut [f64],
    pred_cov: &mut [f64],
    pred_inf: &mut [f64],
    filt_mean: &mut [f64],
    filt_cov: &mut [f64],
    kinds: &mut [u8],
    v: &mut [f64],
    f_star: &mut [f64],
    f_inf: &mut [f64],
    m_star: &mut [f64],
    m_inf: &mut [f64],
    loglik: &mut f64,
    d_diffuse: &mut usize,
    heard: &mut usize,
    news: &mut usize,
    cov_off: &mut usize,
    mean_off: &mut usize,
) -> u32
    ensures { FilteredC
        (given p m r n
        z.now zs.now (is_yes repeats) h.now t.now ts.now rr.now q.now
        c.now d.now a1.now p_star.now flags.now y.now)
        (lent
        pred_mean.old pred_cov.old pred_inf.old
        filt_mean.old filt_cov.old
        kinds.old v.old f_star.old f_inf.old
        m_star.old m_inf.old)
        (places loglik.old d_diffuse.old heard.old news.old
        cov_off.old mean_off.old)
        result
        (lent
        pred_mean.new pred_cov.new pred_inf.new
        filt_mean.new filt_cov.new
        kinds.new v.new f_star.new f_inf.new
        m_star.new m_inf.new)
        (places loglik.new d_diffuse.new heard.new news.new
        cov_off.new mean_off.new) }
{
    let x = Model {
        p,
        m,
        r,
        n,
        z,
        zs,
        repeats: repeats != 0,
        h,
        t,
        ts,
        rr,
        q,
        p_star,
        flags,
    };
    let o = Offsets { c, d, a1 };
    let outcome = filter::filter_univariate(
        &x, &o, y, pred_mean, pred_cov, pred_inf, filt_mean, filt_cov, kinds, v, f_star, f_inf,
        m_star, m_inf,
    );
    c_answer::tell(outcome, loglik, d_diffuse, heard, news, cov_off, mean_off)
}
