// The hash of a name by a multiplier, and the multiplier to go on with where names collide.
//
// The hash is a polynomial in a factor that the multiplier gives, modulo the prime 2^33 - 9, with four bytes of the name to a step, and at the
// end a square. A step adds and then multiplies, so that the hash of a short name depends on the multiplier too; the square takes names at
// equal distances, such as L1, L2, L3, to unequal ones. No contract uses more than that it is a function of the multiplier and the name. `hash`
// takes time linear in the name, `next` in the text.

#![tactic(auto)]

ghost use Rattle.std.specs.Prelude.{◌≡◌, ◌<◌, [], ◌∷◌};
ghost use Rattle.names.specs.Hash.{factor, mix, packed, hashed, spread, hash};

mod siphash;

// The factor of a multiplier: never small, and not linear in the multiplier.
fn factor(m: u16) -> usize
    ensures { (result ≡ factor m) × (result < 268435456) }
{
    let x = usize::from(m) + 65536;
    x * x / 64
}

// (h + c) * f modulo 2^33 - 9: the bits from 33 on are added to those below, nine times.
fn mix(f: usize, h: usize, c: usize) -> usize
    requires { (f < 268435456) × (h < 34359738368) × (c < 4294967296) }
    ensures { (result ≡ mix f h c) × (result < 34359738368) }
{
    let x = (h + c) * f;
    x % 8589934592 + 9 * (x / 8589934592)
}

// Four bytes as one number.
fn packed(a: u8, b: u8, c: u8, d: u8) -> usize
    ensures { (result ≡ packed a b c d) × (result < 4294967296) }
{
    // A cast: std has no `From` of 32 bits to `usize`.
    u32::from_le_bytes([a, b, c, d]) as usize
}

// The polynomial of the name s in the factor f.
fn hashed(f: usize, s: &[u8]) -> usize
    requires { f < 268435456 }
    ensures { result ≡ hashed f 1 s.now }
{
    // A `while`: what is left behind the last four bytes is read too.
    let mut h = 1;
    let mut rest = s;
    while let [a, b, c, d, more @ ..] = rest {
        h = mix(f, h, packed(*a, *b, *c, *d));
        rest = more;
    }
    match rest {
        [] => h,
        [a] => mix(f, h, packed(*a, 0, 0, 0)),
        [a, b] => mix(f, h, packed(*a, *b, 0, 0)),
        [a, b, c, ..] => mix(f, h, packed(*a, *b, *c, 0)),
    }
}

// The square of the lower 32 bits, without its lower 16.
fn spread(h: usize) -> usize
    ensures { result ≡ spread h }
{
    let x = h % 4294967296;
    x * x / 65536
}

// The hash of the name s by the multiplier m.
pub fn hash(m: u16, s: &[u8]) -> usize
    ensures { result ≡ hash m s.now }
{
    spread(hashed(factor(m), s))
}

// The hash of a name of three bytes.
pub fn short_hash(m: u16, a: u8, b: u8, c: u8) -> usize
    ensures { result ≡ hash m (a ∷ b ∷ c ∷ []) }
{
    spread(mix(factor(m), 1, packed(a, b, c, 0)))
}

// The multiplier after m: drawn from the text, so that whoever chooses names against it has to know the whole text. No contract depends on it.
pub fn next(m: u16, text: &[u8]) -> u16 {
    // A cast: a remainder by 65,536 has 16 bits.
    (siphash::hash(u64::from(m), text) % 65536) as u16
}
