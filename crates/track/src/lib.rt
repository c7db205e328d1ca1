// The covariance track's state between two periods: P*, P∞, the root B of P∞, P∞ with nothing resolved, and whether the diffuse state lasts. No function
// stands here.
#![tactic(auto)]

#[derive(Clone, Copy)]
pub struct State {
    pub live: bool,
    pub star: [f64; 64],
    pub p_inf: [f64; 64],
    pub root: [f64; 64],
    pub unres: [f64; 64],
}
