// What the library makes of a sheet that is one stretch of a run: its call, which begins the run or goes on from the bytes of a saved one, the numbers of
// its answer that are shown, and the kinds, which say what became of each check. The other outputs of 4096 periods stand on the stack, and a T for each,
// 2.0 MB.
#![tactic(auto)]

ghost use Rattle.std.specs.Prelude.{◌≤◌};

use clock::Clock;
use goxundar::{Answer, Refusal};
use sheet::answers::Sheet;

// How many bytes a saved run of three states has: 120 + 8 m + 32 m².
pub const BYTES: usize = 432;

// How many periods the run before has done: bytes 28 to 35, most significant first. Where the library takes it they are at most 4096, so that the last
// two bytes say it. None: the run begins.
pub fn done(before: Option<&[u8]>) -> usize
    ensures { result ≤ 65535 }
{
    let saved = before.unwrap_or(&[]);
    match saved.get(34..36) {
        Some([high, low]) => u16::from_be_bytes([*high, *low]) as usize,
        _ => 0,
    }
}

// A stretch has no smoothed numbers: the places for them are filled from empty parts, and nobody shows them.
pub fn estimate(
    sheet: Sheet,
    y: &[f64],
    before: Option<&[u8]>,
    last: bool,
    rows: &mut [f64],
    kinds: &mut [u8],
    save: &mut [u8],
) -> Result<Answer, Refusal>
    requires { sheet.periods ≤ 4096 }
{
    let Sheet {
        settings,
        periods: n,
    } = sheet;
    let mut pred_mean = [0.0; 12291];
    let mut pred_cov = [0.0; 36873];
    let mut pred_inf = [0.0; 36873];
    let mut filt_mean = [0.0; 12288];
    let mut filt_cov = [0.0; 36864];
    let mut v = [0.0; 8192];
    let mut f_star = [0.0; 8192];
    let mut f_inf = [0.0; 8192];
    let mut m_star = [0.0; 24576];
    let mut m_inf = [0.0; 24576];
    let mut list = [0.0; 36864];
    clock::transitions(settings, &mut list);
    let clock = Clock::of(settings, &list);
    // `begins` and `last` are flags, since the call, which C makes too, has them so.
    let outcome = goxundar::stretch(
        &clock.model(n),
        &clock.offsets(),
        clock::first(y, 2 * n),
        before.is_none(),
        before.unwrap_or(&[]),
        last,
        &mut pred_mean,
        &mut pred_cov,
        &mut pred_inf,
        &mut filt_mean,
        &mut filt_cov,
        kinds,
        &mut v,
        &mut f_star,
        &mut f_inf,
        &mut m_star,
        &mut m_inf,
        save,
    );
    rows::fill(rows, n, &pred_inf, kinds, &filt_mean, &filt_cov, &[], &[]);
    outcome
}
