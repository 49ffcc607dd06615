// Steps over JSON text: white space, fixed words, whole numbers. Each reads the start of a slice and gives what it found and the rest.
//
// Each takes time linear in the bytes that it passes over and copies nothing. Each is total, and its answer is what a parser of
// Rattle.json_definitions.specs gives.

#![tactic(auto, using(crate::proofs::Rules::scans))]

ghost use Rattle.std.specs.Prelude.{◌≡◌};
ghost use Rattle.json_definitions.specs.Parser.{skip_white_space, is_white_space, literal, lexeme};
ghost use Rattle.json_definitions.specs.Reader.{digits, at_most, whole_number, number};
ghost use Rattle.json_scan.specs.Answers.{next_of, number_of};

fn is_white_space(c: u8) -> bool
    ensures { result ≡ is_white_space c }
{
    c == b' ' || c == b'\t' || c == b'\n' || c == b'\r'
}

// What is left behind the white space at the start.
pub fn skip_white_space(s: &[u8]) -> &[u8]
    ensures { result.now ≡ skip_white_space s.now }
{
    let mut rest = s;
    while let Some((c, tail)) = rest.split_first() {
        if !is_white_space(*c) {
            break;
        }
        rest = tail;
    }
    rest
}

// What is left behind the bytes w.
pub fn literal<'a>(s: &'a [u8], w: &[u8]) -> Option<&'a [u8]>
    ensures { next_of result ≡ literal w.now s.now }
{
    // `s.strip_prefix(w)` was tried: it makes the reader slower.
    let mut rest = s;
    for c in w {
        let (first, tail) = rest.split_first()?;
        if *first != *c {
            return None;
        }
        rest = tail;
    }
    Some(rest)
}

// What is left behind white space and the bytes w.
pub fn lexeme<'a>(s: &'a [u8], w: &[u8]) -> Option<&'a [u8]>
    ensures { next_of result ≡ lexeme w.now s.now }
{
    literal(skip_white_space(s), w)
}

// Numbers

// The digits at the start, behind those of `first`.
fn digits(s: &[u8], first: u64, most: u64) -> Option<(u64, &[u8])>
    ensures { number_of result ≡ at_most most (digits first s.now) }
{
    let mut v = first;
    let mut rest = s;
    while let Some((c, tail)) = rest.split_first() {
        if !c.is_ascii_digit() {
            break;
        }
        v = v.checked_mul(10)?.checked_add(u64::from(*c - b'0'))?;
        rest = tail;
    }
    (v <= most).then_some((v, rest))
}

fn whole_number(s: &[u8], most: u64) -> Option<(u64, &[u8])>
    ensures { number_of result ≡ whole_number most s.now }
{
    let (c, rest) = s.split_first()?;
    match *c {
        b'0' => Some((0, rest)),
        b'1'..=b'9' => digits(rest, u64::from(*c - b'0'), most),
        _ => None,
    }
}

// White space and a whole number, at most `most`.
pub fn number(s: &[u8], most: u64) -> Option<(u64, &[u8])>
    ensures { number_of result ≡ number most s.now }
{
    whole_number(skip_white_space(s), most)
}
