// Rounding to the nearest, of halves to the even one: floats to cm, and the NoData number to a float. RULES 11.2.
ghost use Rattle.std.specs.Prelude.{◌≡◌, ◌*◌, ◌^◌, ◌≤◌, ◌<◌};
ghost use Rattle.floats.specs.Floats.{units, metre};
ghost use Rattle.floats.specs.Rounding.{nearest, nearest_magnitude, nearest_float};

// `n` / `d`.
fn quotient(n: u64, d: u64) -> u64
    requires { (0 < d) × (d ≤ 9223372036854775808) × (n < 2 ^ 24 * d) }
    ensures { (result ≡ nearest n d) × (result ≤ 16777216) }
{
    let q = n / d;
    let r = n % d;
    if r < d - r {
        return q;
    }
    if d - r < r {
        return q + 1;
    }
    q + q % 2
}

// `n` / 2 ^ `s`.
fn shifted(n: u64, s: u32) -> u64
    requires { (n < 2147483648) × (1 ≤ s) × (s ≤ 32) }
    ensures { (result ≡ nearest n (2 ^ s)) × (result ≤ 2147483648) }
{
    let half: u64 = 1 << (s - 1);
    let odd = (n >> s) % 2;
    (n + (half - 1) + odd) >> s
}

// The cm of the float of magnitude `m`, which is below 16,384 m.
pub(crate) fn centimetres(m: u32) -> u32
    requires { m < 1182793728 }
    ensures { result ≡ nearest (100 * units m) metre }
{
    let e = m >> 23;
    if e < 118 {
        return 0;
    }
    let n = 100 * ((m % 8388608) + 8388608);
    shifted(n as u64, 150 - e) as u32
}

// The magnitude of the float nearest `n` cm.
fn nearest_magnitude(n: u64) -> u32
    requires { n ≤ 9223372036854775808 }
    ensures { (result ≡ nearest_magnitude n) × (result < 2147483648) }
{
    if n == 0 {
        return 0;
    }
    let mut m = n;
    let mut e: u32 = 149;
    while m < 838860800 {
        m *= 2;
        e -= 1;
    }
    let mut d: u64 = 100;
    while d <= m >> 24 {
        d *= 2;
        e += 1;
    }
    e * 8388608 + quotient(m, d) as u32
}

// The float nearest `n` cm.
pub(crate) fn nearest_float(n: i64) -> u32
    ensures { result ≡ nearest_float n }
{
    let m = nearest_magnitude(n.unsigned_abs());
    if n < 0 { 2147483648 + m } else { m }
}
