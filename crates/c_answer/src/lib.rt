// How an exported call tells its outcome, by the C calling convention: 0 says that the answer stands in its six places; any other is the refusal's number,
// and these stay as they were.
#![tactic(auto)]

ghost use Rattle.promise.specs.Exported.{places, Told};

use promise::{Answer, Refusal};

// The outcome as a number, and the answer in its places.
pub fn tell(
    o: Result<Answer, Refusal>,
    loglik: &mut f64,
    d_diffuse: &mut usize,
    heard: &mut usize,
    news: &mut usize,
    cov_off: &mut usize,
    mean_off: &mut usize,
) -> u32
    ensures { Told o result
        (places loglik.old d_diffuse.old heard.old news.old
        cov_off.old mean_off.old)
        (places loglik.new d_diffuse.new heard.new news.new
        cov_off.new mean_off.new) }
{
    match o {
        Err(e) => u32::from(u8::from(e)),
        Ok(a) => {
            *loglik = a.loglik;
            *d_diffuse = a.d_diffuse;
            *heard = a.heard;
            *news = a.news;
            *cov_off = a.cov_off;
            *mean_off = a.mean_off;
            0
        }
    }
}
