// Both passes back over the periods, one after the other: the covariances' is crates/cov_back, the means' crates/mean_back.
#![tactic(auto)]

ghost use Rattle.std.specs.Prelude.{length};
ghost use Rattle.record.specs.Decisions.{flat_of};
ghost use Rattle.backward.specs.View.{ReadyFor, BackOf};

use mean_back::Predicted;
use promise::{Decisions, Model};

// The two passes back, over what the run left: the smoothed covariances and the smoothed means of n periods.
pub fn back(
    x: &Model,
    pred: &Predicted,
    left: &Decisions,
    v: &[f64],
    sm_mean: &mut [f64],
    sm_cov: &mut [f64],
    d_diffuse: usize,
)
    requires { ReadyFor x.now pred.now (length v.now) (flat_of left.now) (length sm_mean.old) (length sm_cov.old) }
    ensures { BackOf x.now d_diffuse pred.now v.now (flat_of left.now)
        sm_mean.old sm_mean.new sm_cov.old sm_cov.new }
{
    cov_back::cov_back(x, pred.cov, pred.inf, left, sm_cov, d_diffuse);
    mean_back::mean_back(x, pred, left, v, sm_mean, d_diffuse);
}
