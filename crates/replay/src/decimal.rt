// Decimal numbers in text, separated by blanks and line feeds. Each function reads the start of a slice and gives what it found and the rest.
//
// `number` takes time linear in the bytes that it passes. Contracts cite this crate's specs/Decimal.antt.

#![tactic(auto, using(crate::proofs::Digits::number_rules))]

ghost use Rattle.std.specs.Prelude.{◌≡◌, ◌≤◌, ◌<◌, IfSome, length};
ghost use Rattle.replay.specs.Decimal.{is_blank, blanks, digits, number, number_of};

fn is_blank(b: u8) -> bool
    ensures { result ≡ is_blank b }
{
    b == b' ' || b == b'\n'
}

// What is left behind the blanks and line feeds at the start.
pub fn skip(s: &[u8]) -> &[u8]
    ensures value { result.now ≡ blanks s.now }
    ensures upper_bound { length result.now ≤ length s.now }
{
    let mut rest = s;
    while let Some((b, tail)) = rest.split_first() {
        if !is_blank(*b) {
            break;
        }
        rest = tail;
    }
    rest
}

// The value of the digits at the start, 0 where there is none. None where it is beyond 64 bits.
fn digits(s: &[u8]) -> Option<(u64, &[u8])>
    ensures value { number_of result ≡ digits 0 s.now }
    ensures upper_bound { IfSome result (λ r. length r.1.now ≤ length s.now) }
{
    let mut v: u64 = 0;
    let mut rest = s;
    while let Some((b, tail)) = rest.split_first() {
        if !b.is_ascii_digit() {
            break;
        }
        v = v.checked_mul(10)?.checked_add(u64::from(*b - b'0'))?;
        rest = tail;
    }
    Some((v, rest))
}

// The number at the start, behind any blanks.
pub fn number(s: &[u8]) -> Option<(u64, &[u8])>
    ensures value { number_of result ≡ number s.now }
    ensures upper_bound { IfSome result (λ r. length r.1.now < length s.now) }
{
    let start = skip(s);
    let (v, rest) = digits(start)?;
    (rest.len() < start.len()).then_some((v, rest))
}
