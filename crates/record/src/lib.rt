// The element record where the flat parts hold its numbers: read there, into and out of a lent list of records, and a run's flat records laid out as such
// a list.
#![tactic(auto)]

ghost use Rattle.std.specs.Prelude.{◌≡◌, set, get_or};
ghost use Rattle.definition.specs.Num.{at};
ghost use Rattle.laws.specs.Kinds.{news_kind};
ghost use Rattle.promise.specs.Records.{gap_record, kind_from, record_at, filled};

use promise::{Cause, DIFFUSE, FlatRecord, GAP, Kind, Record, USUAL};

// Whether a record is news, by the number of its kind: it is usual or diffuse.
pub fn is_news(kind: u8) -> bool
    ensures { result ≡ news_kind kind }
{
    kind == USUAL || kind == DIFFUSE
}

// The kind that a flat record's numbers tell: what every reader of the flat parts goes by.
pub fn kind_from(kind: u8, v: f64, f_star: f64, f_inf: f64) -> Kind
    ensures { result ≡ kind_from kind v f_star f_inf }
{
    let r = Record::from(FlatRecord {
        kind,
        v,
        f_star,
        f_inf,
    });
    r.kind
}

// r into place k of a lent list. Past its end nothing is written.
pub fn put(records: &mut [Record], k: usize, r: Record)
    ensures { records.new ≡ set records.old k r }
{
    // Not by get_mut: its contract says nothing of what the list ends as.
    if k < records.len() {
        records[k] = r;
    }
}

// The record at place k of a lent list. Past its end it is that of a gap.
pub fn get(records: &[Record], k: usize) -> Record
    ensures { result ≡ get_or records.now k gap_record }
{
    let gap = Record {
        kind: Kind::Skipped(Cause::Gap),
    };
    records.get(k).copied().unwrap_or(gap)
}

// The number at place k of a list. Past its end there is none, and NaN stands for it.
fn float_at(numbers: &[f64], k: usize) -> f64
    ensures { result ≡ at numbers.now k }
{
    numbers.get(k).copied().unwrap_or(f64::NAN)
}

// The record that the flat parts tell at place k.
pub fn record_at(kinds: &[u8], v: &[f64], f_star: &[f64], f_inf: &[f64], k: usize) -> Record
    ensures { result ≡ record_at kinds.now v.now
        f_star.now f_inf.now k }
{
    Record::from(FlatRecord {
        kind: kinds.get(k).copied().unwrap_or(GAP),
        v: float_at(v, k),
        f_star: float_at(f_star, k),
        f_inf: float_at(f_inf, k),
    })
}

// The first k records of the flat parts, into a lent list of records, as far as it reaches. The rest of it stays. The four parts come one by one, as the
// callers have them, and a struct of them would have these two functions alone.
pub fn fill(
    kinds: &[u8],
    v: &[f64],
    f_star: &[f64],
    f_inf: &[f64],
    k: usize,
    records: &mut [Record],
)
    ensures { records.new ≡ filled k kinds.now v.now
        f_star.now f_inf.now records.old }
{
    // By the index, which tells the places in the four parts too.
    for i in 0..k {
        put(records, i, record_at(kinds, v, f_star, f_inf, i));
    }
}
