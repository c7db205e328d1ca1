// A case's call, of the filter or of the smoother, with a list of records: patterned outputs are lent, the call is made, and all that it answers and leaves
// is compared. The call makes the one without a list, so both are replayed.
ghost use Rattle.std.specs.Prelude.{◌≡◌, ◌<◌, ◌≤◌, length};

use crate::found::{Difference, compare};
use crate::words::{PATTERN, PATTERN_BYTE, Span, lent, marked, size, stretch, word};
use goxundar::{Answer, Kind, Model, Offsets, Record, Refusal};
use promise::{DIFFUSE, FlatRecord};

// ---- what the call is given

// Input j, as a part of the case's doubles, or of its bytes.
fn part<'a, T>(list: &'a [T], case: &[u8], j: usize) -> &'a [T]
    requires { j < 13 }
{
    let s = stretch(case, j);
    if s.to > list.len() {
        return list;
    }
    &list[s.from..s.to]
}

fn model<'a>(case: &[u8], numbers: &'a [f64], low: &'a [u8]) -> Model<'a> {
    Model {
        p: size(case, 2),
        m: size(case, 3),
        r: size(case, 4),
        n: size(case, 5),
        z: part(numbers, case, 0),
        zs: part(numbers, case, 1),
        repeats: marked(case),
        h: part(numbers, case, 2),
        t: part(numbers, case, 3),
        ts: part(numbers, case, 4),
        rr: part(numbers, case, 5),
        q: part(numbers, case, 6),
        p_star: part(numbers, case, 10),
        flags: part(low, case, 11),
    }
}

fn offsets<'a>(case: &[u8], numbers: &'a [f64]) -> Offsets<'a> {
    Offsets {
        c: part(numbers, case, 7),
        d: part(numbers, case, 8),
        a1: part(numbers, case, 9),
    }
}

// ---- what an output holds before the call

// A place of an output.
trait Place: Copy {
    // As the case has it.
    fn word(self) -> u64;

    // What stands there before the call.
    fn patterned() -> Self;
}

impl Place for f64 {
    fn word(self) -> u64 {
        bits::pattern(self)
    }

    fn patterned() -> f64 {
        bits::double(PATTERN)
    }
}

impl Place for u8 {
    fn word(self) -> u64 {
        u64::from(self)
    }

    fn patterned() -> u8 {
        PATTERN_BYTE
    }
}

fn patterned<T: Place>() -> [T; 1024]
    ensures { 1024 ≡ length result }
{
    [T::patterned(); 1024]
}

fn patterned_records() -> [Record; 1024] {
    let x = bits::double(PATTERN);
    [Record {
        kind: Kind::Diffuse(x, x, x),
    }; 1024]
}

// ---- what it answers and leaves, against the case's

// The answer: words 35 to 40.
fn answer(case: &[u8], outcome: Result<Answer, Refusal>, refusal: u64) -> Result<(), Difference> {
    match outcome {
        Err(e) => compare("refusal", 0, refusal, u64::from(u8::from(e))),
        Ok(a) => {
            compare("refusal", 0, refusal, 0)?;
            compare("loglik", 0, word(case, 35), bits::pattern(a.loglik))?;
            compare("d_diffuse", 0, word(case, 36), a.d_diffuse as u64)?;
            compare("heard", 0, word(case, 37), a.heard as u64)?;
            compare("news", 0, word(case, 38), a.news as u64)?;
            compare("cov_off", 0, word(case, 39), a.cov_off as u64)?;
            compare("mean_off", 0, word(case, 40), a.mean_off as u64)
        }
    }
}

// What place i of an output must hold: the case's word where the call writes, and the pattern past that. A call that is refused writes nothing, but for
// refusal 12.
fn wanted(case: &[u8], s: Span, i: usize, pattern: u64, refusal: u64) -> u64
    requires { i < 1024 }
{
    let writes = refusal == 0 || refusal == 12;
    if writes && s.from + i < s.to {
        word(case, s.from + i)
    } else {
        pattern
    }
}

// The places lent of output k.
fn output<T: Place>(
    part: &'static str,
    out: &[T],
    case: &[u8],
    k: usize,
    refusal: u64,
) -> Result<(), Difference>
    requires { (k < 13) × (length out.now ≤ 1024) }
{
    let s = stretch(case, 13 + k);
    let pattern = T::patterned().word();
    for (i, x) in out.iter().enumerate() {
        compare(part, i, wanted(case, s, i, pattern, refusal), x.word())?;
    }
    Ok(())
}

// The list of records: every place, against the case's flat ones.
fn list_output(list: &[Record; 1024], case: &[u8], refusal: u64) -> Result<(), Difference> {
    let kinds = stretch(case, 18);
    let v = stretch(case, 19);
    let f_star = stretch(case, 20);
    let f_inf = stretch(case, 21);
    for (i, record) in list.iter().enumerate() {
        let r = FlatRecord::from(*record);
        compare(
            "the list's kind",
            i,
            wanted(case, kinds, i, u64::from(DIFFUSE), refusal),
            u64::from(r.kind),
        )?;
        compare(
            "the list's v",
            i,
            wanted(case, v, i, PATTERN, refusal),
            bits::pattern(r.v),
        )?;
        compare(
            "the list's f_star",
            i,
            wanted(case, f_star, i, PATTERN, refusal),
            bits::pattern(r.f_star),
        )?;
        compare(
            "the list's f_inf",
            i,
            wanted(case, f_inf, i, PATTERN, refusal),
            bits::pattern(r.f_inf),
        )?;
    }
    Ok(())
}

// The eleven outputs of both calls, one by one as the calls are lent them: a struct of them would be made for this function alone.
fn outputs(
    case: &[u8],
    refusal: u64,
    pred_mean: &[f64],
    pred_cov: &[f64],
    pred_inf: &[f64],
    filt_mean: &[f64],
    filt_cov: &[f64],
    kinds: &[u8],
    v: &[f64],
    f_star: &[f64],
    f_inf: &[f64],
    m_star: &[f64],
    m_inf: &[f64],
) -> Result<(), Difference>
    requires { (length pred_mean.now ≤ 1024) × (length pred_cov.now ≤ 1024) × (length pred_inf.now ≤ 1024) × (length filt_mean.now ≤ 1024)
        × (length filt_cov.now ≤ 1024)
        × (length kinds.now ≤ 1024)
        × (length v.now ≤ 1024)
        × (length f_star.now ≤ 1024)
        × (length f_inf.now ≤ 1024)
        × (length m_star.now ≤ 1024)
        × (length m_inf.now ≤ 1024) }
{
    output("pred_mean", pred_mean, case, 0, refusal)?;
    output("pred_cov", pred_cov, case, 1, refusal)?;
    output("pred_inf", pred_inf, case, 2, refusal)?;
    output("filt_mean", filt_mean, case, 3, refusal)?;
    output("filt_cov", filt_cov, case, 4, refusal)?;
    output("kinds", kinds, case, 5, refusal)?;
    output("v", v, case, 6, refusal)?;
    output("f_star", f_star, case, 7, refusal)?;
    output("f_inf", f_inf, case, 8, refusal)?;
    output("m_star", m_star, case, 9, refusal)?;
    output("m_inf", m_inf, case, 10, refusal)
}

// ---- the calls

// The first difference of the filter's call. Word 33 has its refusal.
pub fn filtered(case: &[u8], numbers: &[f64], low: &[u8]) -> Result<(), Difference> {
    let mut pred_mean = patterned();
    let mut pred_cov = patterned();
    let mut pred_inf = patterned();
    let mut filt_mean = patterned();
    let mut filt_cov = patterned();
    let mut kinds = patterned();
    let mut v = patterned();
    let mut f_star = patterned();
    let mut f_inf = patterned();
    let mut m_star = patterned();
    let mut m_inf = patterned();
    let pred_mean = &mut pred_mean[..lent(case, 0)];
    let pred_cov = &mut pred_cov[..lent(case, 1)];
    let pred_inf = &mut pred_inf[..lent(case, 2)];
    let filt_mean = &mut filt_mean[..lent(case, 3)];
    let filt_cov = &mut filt_cov[..lent(case, 4)];
    let kinds = &mut kinds[..lent(case, 5)];
    let v = &mut v[..lent(case, 6)];
    let f_star = &mut f_star[..lent(case, 7)];
    let f_inf = &mut f_inf[..lent(case, 8)];
    let m_star = &mut m_star[..lent(case, 9)];
    let m_inf = &mut m_inf[..lent(case, 10)];
    let x = model(case, numbers, low);
    let o = offsets(case, numbers);
    let y = part(numbers, case, 12);
    let listed = record_lists::filter(
        &x,
        &o,
        y,
        pred_mean,
        pred_cov,
        pred_inf,
        filt_mean,
        filt_cov,
        kinds,
        v,
        f_star,
        f_inf,
        m_star,
        m_inf,
        patterned_records(),
    );
    let refusal = word(case, 33);
    answer(case, listed.outcome, refusal)?;
    outputs(
        case, refusal, pred_mean, pred_cov, pred_inf, filt_mean, filt_cov, kinds, v, f_star, f_inf,
        m_star, m_inf,
    )?;
    list_output(&listed.records, case, refusal)
}

// The first difference of the smoother's call. Word 34 has its refusal. It has two outputs more.
pub fn smoothed(case: &[u8], numbers: &[f64], low: &[u8]) -> Result<(), Difference> {
    let mut pred_mean = patterned();
    let mut pred_cov = patterned();
    let mut pred_inf = patterned();
    let mut filt_mean = patterned();
    let mut filt_cov = patterned();
    let mut kinds = patterned();
    let mut v = patterned();
    let mut f_star = patterned();
    let mut f_inf = patterned();
    let mut m_star = patterned();
    let mut m_inf = patterned();
    let mut sm_mean = patterned();
    let mut sm_cov = patterned();
    let pred_mean = &mut pred_mean[..lent(case, 0)];
    let pred_cov = &mut pred_cov[..lent(case, 1)];
    let pred_inf = &mut pred_inf[..lent(case, 2)];
    let filt_mean = &mut filt_mean[..lent(case, 3)];
    let filt_cov = &mut filt_cov[..lent(case, 4)];
    let kinds = &mut kinds[..lent(case, 5)];
    let v = &mut v[..lent(case, 6)];
    let f_star = &mut f_star[..lent(case, 7)];
    let f_inf = &mut f_inf[..lent(case, 8)];
    let m_star = &mut m_star[..lent(case, 9)];
    let m_inf = &mut m_inf[..lent(case, 10)];
    let sm_mean = &mut sm_mean[..lent(case, 11)];
    let sm_cov = &mut sm_cov[..lent(case, 12)];
    let x = model(case, numbers, low);
    let o = offsets(case, numbers);
    let y = part(numbers, case, 12);
    let listed = record_lists::smooth(
        &x,
        &o,
        y,
        pred_mean,
        pred_cov,
        pred_inf,
        filt_mean,
        filt_cov,
        kinds,
        v,
        f_star,
        f_inf,
        m_star,
        m_inf,
        sm_mean,
        sm_cov,
        patterned_records(),
    );
    let refusal = word(case, 34);
    answer(case, listed.outcome, refusal)?;
    outputs(
        case, refusal, pred_mean, pred_cov, pred_inf, filt_mean, filt_cov, kinds, v, f_star, f_inf,
        m_star, m_inf,
    )?;
    output("sm_mean", sm_mean, case, 11, refusal)?;
    output("sm_cov", sm_cov, case, 12, refusal)?;
    list_output(&listed.records, case, refusal)
}
