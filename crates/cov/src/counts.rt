// The counts: readings that are not NaN, and records that are news.
ghost use Rattle.std.specs.Prelude.{◌≡◌, map, not, ◌≤◌, length, take};
ghost use Rattle.definition.specs.Inputs.{class_of, is_gap};
ghost use Rattle.definition.specs.Run.{count};
ghost use Rattle.laws.specs.Kinds.{news_kind};

pub fn heard(y: &[f64]) -> usize
    requires { length y.now ≤ 65536 }
    ensures { result ≡ count not (map is_gap (map class_of y.now)) }
{
    y.iter().filter(|x| !float::is_nan(**x)).count()
}

// Of the first n records.
pub fn news(kinds: &[u8], n: usize) -> usize
    requires { (n ≤ 65536) × (n ≤ length kinds.now) }
    ensures { result ≡ count news_kind (take n kinds.now) }
{
    kinds[..n]
        .iter()
        .filter(|kind| record::is_news(**kind))
        .count()
}
