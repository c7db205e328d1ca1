// The covariance pass: the periods in order. Each is handed its own block of every output and can touch nothing else.
// Where it begins and what it keeps of the state is crates/carried.
#![tactic(auto)]

ghost use Rattle.std.specs.Prelude.{◌≡◌, map, ◌≤◌, ◌*◌, length};
ghost use Rattle.definition.specs.Cov.{period_of, cov_run};
ghost use Rattle.definition.specs.Inputs.{class_of, gap_rows, system_from};
ghost use Rattle.dense.specs.Views.{mat};
ghost use Rattle.track.specs.View.{cov_in};
ghost use Rattle.element.specs.Views.{Kept};
ghost use Rattle.period.specs.Views.{gaps_of};
ghost use Rattle.carried.specs.State.{StateFits, cov_from};
ghost use Rattle.cov.specs.View.{OfPeriod, OfRecords, Blocks, Periods, Room, ReadyFor, Rooms};
ghost use Rattle.cov.specs.View.{absorb_of, Entered, Absorbed, Left, Held, LoopedTo, Passed};

use element::{Period, Records};
use promise::Model;
use track::State;

pub mod counts;

// Where the periods end: whether the diffuse state lasts, and how many of them were diffuse.
#[derive(Clone, Copy)]
pub struct Ended {
    pub live: bool,
    pub diffuse: usize,
}

// What comes before the elements: whether the period is diffuse, P∞ as it enters, and the predicted P* and P∞ stored.
fn enter(s: &mut State, pred: &mut [f64], pred_inf: &mut [f64], m: usize)
    requires { (m ≤ 8) × ((length pred.old ≡ m * m) × (length pred_inf.old ≡ m * m)) }
    ensures { Entered m s.old s.new pred.new pred_inf.new }
{
    period::begin(s, m);
    dense::save(pred, &s.star);
    dense::save(pred_inf, &s.p_inf);
}

// The elements, in order, and their records stored: P*, P∞ and B go from predicted to filtered.
fn absorb(
    s: &mut State,
    kinds: &mut [u8],
    f_star: &mut [f64],
    f_inf: &mut [f64],
    m_star: &mut [f64],
    m_inf: &mut [f64],
    design: &[f64],
    hs: &[f64; 64],
    ys: &[f64],
    p: usize,
    m: usize,
)
    requires { OfPeriod p m (length design.now) (length ys.now)
        × OfRecords p m (length kinds.old)
        (length f_star.old) (length f_inf.old) (length m_star.old) (length m_inf.old) }
    ensures absorbed { Absorbed m
        (absorb_of p m (mat p hs.now) design.now (cov_in m s.old) (gaps_of ys.now))
        s.new kinds.new f_star.new f_inf.new m_star.new m_inf.new }
    ensures kept { Kept s.old s.new }
{
    let pre = s.star;
    let mut z = [0.0; 64];
    dense::fill(&mut z, design);
    let mut records = Records {
        kinds: [0; 8],
        f_star: [0.0; 8],
        f_inf: [0.0; 8],
        m_star: [0.0; 64],
        m_inf: [0.0; 64],
    };
    let x = Period {
        pre: &pre,
        design: &z,
        hs,
        p,
        m,
    };
    period::elements(s, &mut records, &x, ys);
    dense::save(kinds, &records.kinds);
    dense::save(f_star, &records.f_star);
    dense::save(f_inf, &records.f_inf);
    dense::save(m_star, &records.m_star);
    dense::save(m_inf, &records.m_inf);
}

// What comes after the elements: the filtered P* stored, and the state gone on by T.
fn leave(s: &mut State, filt: &mut [f64], tr: &[f64; 64], rqr: &[f64; 64], m: usize)
    requires { (m ≤ 8) × (length filt.old ≡ m * m) }
    ensures { Left m (mat m tr.now) (mat m rqr.now) (cov_in m s.old) (cov_in m s.new) filt.new }
{
    dense::symmetrize_in_place(&mut s.star, m);
    dense::symmetrize_in_place(&mut s.p_inf, m);
    dense::save(filt, &s.star);
    period::go_on(s, tr, rqr, m);
}

// One period. It sees its own block of each output, its own readings, and nothing of another's. Whether it was diffuse stands
// in the state afterwards. The outputs stay apart here and above, since the exported functions are lent each by itself (DECISIONS 147).
fn cov_period(
    s: &mut State,
    pred: &mut [f64],
    pred_inf: &mut [f64],
    filt: &mut [f64],
    kinds: &mut [u8],
    f_star: &mut [f64],
    f_inf: &mut [f64],
    m_star: &mut [f64],
    m_inf: &mut [f64],
    design: &[f64],
    hs: &[f64; 64],
    tr: &[f64; 64],
    rqr: &[f64; 64],
    ys: &[f64],
    p: usize,
    m: usize,
)
    requires { OfPeriod p m (length design.now) (length ys.now)
        × Blocks p m (length pred.old) (length pred_inf.old) (length filt.old)
        (length kinds.old) (length f_star.old) (length f_inf.old)
        (length m_star.old) (length m_inf.old) }
    ensures { Held m
        (period_of p m (mat p hs.now) (mat m tr.now) (mat m rqr.now)
        design.now (cov_in m s.old) (gaps_of ys.now))
        (cov_in m s.new) pred.new pred_inf.new filt.new kinds.new
        f_star.new f_inf.new m_star.new m_inf.new }
{
    enter(s, pred, pred_inf, m);
    absorb(s, kinds, f_star, f_inf, m_star, m_inf, design, hs, ys, p, m);
    leave(s, filt, tr, rqr, m);
}

// All n periods, in order, each with its own block of each output, its own design and its own transition. How many of them
// were diffuse. By the index: a period is a block of each of several lists, of other widths.
fn cov_loop(
    s: &mut State,
    x: &Model,
    hs: &[f64; 64],
    rqr: &[f64; 64],
    y: &[f64],
    pred_cov: &mut [f64],
    pred_inf: &mut [f64],
    filt_cov: &mut [f64],
    kinds: &mut [u8],
    f_star: &mut [f64],
    f_inf: &mut [f64],
    m_star: &mut [f64],
    m_inf: &mut [f64],
) -> usize
    requires { Periods x.now.p x.now.m x.now.n (length x.now.z.now) (length x.now.zs.now)
        (length x.now.t.now) (length x.now.ts.now) (length y.now)
        × Room x.now.p x.now.m x.now.n (length pred_cov.old) (length pred_inf.old) (length filt_cov.old)
        (length kinds.old) (length f_star.old) (length f_inf.old)
        (length m_star.old) (length m_inf.old) }
    ensures { LoopedTo x.now.p x.now.m x.now.n
        (cov_run (system_from x.now.p x.now.m x.now.z.now x.now.zs.now (mat x.now.p hs.now)
        x.now.t.now x.now.ts.now (mat x.now.m rqr.now)) 0
        (cov_in x.now.m s.old)
        (gap_rows x.now.n x.now.p (map class_of y.now)))
        s.new result
        pred_cov.old pred_cov.new pred_inf.old pred_inf.new
        filt_cov.old filt_cov.new kinds.old kinds.new
        f_star.old f_star.new f_inf.old f_inf.new
        m_star.old m_star.new m_inf.old m_inf.new }
{
    let mm = x.m * x.m;
    let pm = x.p * x.m;
    let mut d = 0;
    let mut tr = [0.0; 64];
    dense::fill(&mut tr, x.t);
    for t in 0..x.n {
        let design = model::lists::part(x.z, x.zs, x.p, x.m, t);
        model::lists::transition(&mut tr, x.t, x.ts, x.m, t);
        // Where its blocks lie: its matrices, its elements, their gain vectors.
        let cov = t * mm;
        let cov_end = cov + mm;
        let element = t * x.p;
        let element_end = element + x.p;
        let gain = t * pm;
        let gain_end = gain + pm;
        cov_period(
            s,
            &mut pred_cov[cov..cov_end],
            &mut pred_inf[cov..cov_end],
            &mut filt_cov[cov..cov_end],
            &mut kinds[element..element_end],
            &mut f_star[element..element_end],
            &mut f_inf[element..element_end],
            &mut m_star[gain..gain_end],
            &mut m_inf[gain..gain_end],
            design,
            hs,
            &tr,
            rqr,
            &y[element..element_end],
            x.p,
            x.m,
        );
        d += s.live as usize;
    }
    d
}

// The covariance pass: the predicted, diffuse and filtered covariances and the records of n periods, and place n of the
// predicted ones, in its own part too. It begins at the state that is lent, and leaves it as it is after the n periods; an
// empty state: it begins at the start. `rqr` is R Q R', symmetrised.
pub fn cov_pass(
    x: &Model,
    rqr: &[f64; 64],
    y: &[f64],
    pred_cov: &mut [f64],
    pred_inf: &mut [f64],
    filt_cov: &mut [f64],
    kinds: &mut [u8],
    f_star: &mut [f64],
    f_inf: &mut [f64],
    m_star: &mut [f64],
    m_inf: &mut [f64],
    state: &mut [f64],
    live: bool,
) -> Ended
    requires { StateFits x.now.m (length state.old)
        × ReadyFor x.now (length y.now)
        × Rooms x.now.p x.now.m x.now.n (length pred_cov.old) (length pred_inf.old) (length filt_cov.old)
        (length kinds.old) (length f_star.old) (length f_inf.old)
        (length m_star.old) (length m_inf.old) }
    ensures { Passed x.now.p x.now.m x.now.n
        (cov_run (system_from x.now.p x.now.m x.now.z.now x.now.zs.now x.now.h.now
        x.now.t.now x.now.ts.now (mat x.now.m rqr.now)) 0
        (cov_from x.now.m state.old live x.now.p_star.now x.now.flags.now)
        (gap_rows x.now.n x.now.p (map class_of y.now))) result state.old state.new
        pred_cov.old pred_cov.new pred_inf.old pred_inf.new
        filt_cov.old filt_cov.new kinds.old kinds.new
        f_star.old f_star.new f_inf.old f_inf.new
        m_star.old m_star.new m_inf.old m_inf.new }
{
    let mut hs = [0.0; 64];
    dense::fill(&mut hs, x.h);
    // The zeros are written out here and in stretch: it is not known of a const of 2 KB that it would make no copy more in the frame.
    let mut s = State {
        live,
        star: [0.0; 64],
        p_inf: [0.0; 64],
        root: [0.0; 64],
        unres: [0.0; 64],
    };
    carried::cov_from(state, x, live, &mut s);
    let diffuse = cov_loop(
        &mut s, x, &hs, rqr, y, pred_cov, pred_inf, filt_cov, kinds, f_star, f_inf, m_star, m_inf,
    );
    let mm = x.m * x.m;
    let from = x.n * mm;
    let to = from + mm;
    dense::save(&mut pred_cov[from..to], &s.star);
    dense::save(&mut pred_inf[from..to], &s.p_inf);
    carried::keep_cov(state, &s, x.m);
    Ended {
        live: s.live,
        diffuse,
    }
}
