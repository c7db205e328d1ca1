// Powers of ten. The exponent is a number with a clause: units, put and cells::number are promised with it, and a type would be narrower.
ghost use Rattle.std.specs.Prelude.{◌≡◌, ◌^◌, ◌≤◌, ◌<◌};

pub fn ten_to(d: u8) -> u64
    requires { d ≤ 6 }
    ensures { (result ≡ 10 ^ d) × (0 < result) × (result ≤ 1000000) }
{
    10u64.pow(u32::from(d))
}
