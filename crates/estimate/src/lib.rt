// What the library makes of a sheet: its call, the numbers of its answer that are shown, and the kinds, which say what became of each check. The other
// outputs of 4096 periods stand on the stack, and a T for each, 2.4 MB.
#![tactic(auto)]

ghost use Rattle.std.specs.Prelude.{◌≤◌};

use clock::Clock;
use goxundar::{Answer, Refusal};
use sheet::answers::Sheet;

pub fn estimate(
    sheet: Sheet,
    y: &[f64],
    rows: &mut [f64],
    kinds: &mut [u8],
) -> Result<Answer, Refusal>
    requires { sheet.periods ≤ 4096 }
{
    let Sheet {
        settings,
        periods: n,
    } = sheet;
    let mut pred_mean = [0.0; 12291];
    let mut pred_cov = [0.0; 36873];
    let mut pred_inf = [0.0; 36873];
    let mut filt_mean = [0.0; 12288];
    let mut filt_cov = [0.0; 36864];
    let mut v = [0.0; 8192];
    let mut f_star = [0.0; 8192];
    let mut f_inf = [0.0; 8192];
    let mut m_star = [0.0; 24576];
    let mut m_inf = [0.0; 24576];
    let mut sm_mean = [0.0; 12288];
    let mut sm_cov = [0.0; 36864];
    let mut list = [0.0; 36864];
    clock::transitions(settings, &mut list);
    let clock = Clock::of(settings, &list);
    let outcome = goxundar::smooth(
        &clock.model(n),
        &clock.offsets(),
        clock::first(y, 2 * n),
        &mut pred_mean,
        &mut pred_cov,
        &mut pred_inf,
        &mut filt_mean,
        &mut filt_cov,
        kinds,
        &mut v,
        &mut f_star,
        &mut f_inf,
        &mut m_star,
        &mut m_inf,
        &mut sm_mean,
        &mut sm_cov,
    );
    rows::fill(
        rows, n, &pred_inf, kinds, &filt_mean, &filt_cov, &sm_mean, &sm_cov,
    );
    outcome
}
