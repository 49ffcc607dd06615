// Byte texts and columns of words: comparing, taking a part, asking whether bytes are UTF-8, zeroing. Nothing is copied.
//
// Each function takes time linear in the bytes or words that it looks at: `word`, `byte` and `part` constant time, `code_point` at most four
// bytes. Each is total, and its result is what a definition gives: of Rattle.definitions.specs.Lists, of Rattle.definitions.specs.Utf8, or
// of this crate's specs/.

#![tactic(auto)]

ghost use Rattle.std.specs.Prelude.{◌≡◌, [], ◌∷◌, ◌≤◌, ◌<◌, length, get_or, drop};
ghost use Rattle.definitions.specs.Lists.{◌≟◌, starts_with, ends_with, contains, part};
ghost use Rattle.definitions.specs.Utf8.{is_utf8, to, tail};
ghost use Rattle.text.specs.CodePoint.{low, high, starts_within, code_point};
ghost use Rattle.text.specs.Zeroed.{filled_from};

// The word at k, 0 past the end.
pub fn word(ws: &[u32], k: usize) -> usize
    ensures { result ≡ get_or ws.now k 0 }
{
    // A cast: std has no `From` of 32 bits to `usize`.
    ws.get(k).copied().unwrap_or(0) as usize
}

pub fn wide_byte(b: u8) -> usize
    ensures { (result ≡ b) × (result < 256) }
{
    usize::from(b)
}

// The byte at k, 0 past the end.
pub fn byte(s: &[u8], k: usize) -> usize
    ensures { (result ≡ get_or s.now k 0) × (result < 256) }
{
    wide_byte(s.get(k).copied().unwrap_or(0))
}

// The bytes from a up to e, as many of them as there are.
pub fn part(s: &[u8], a: usize, e: usize) -> &[u8]
    ensures { result.now ≡ part a e s.now }
{
    // Branches and no `min`, for speed: mostly the part is within the text.
    if e <= s.len() {
        if a < e { &s[a..e] } else { &s[..0] }
    } else {
        if a < s.len() { &s[a..] } else { &s[..0] }
    }
}

// The same bytes. Short texts by a loop, for speed: mostly one of the first bytes differs, and nothing is called.
#[tactic(auto, using(crate::proofs::Texts::equal_steps))]
pub fn equal(a: &[u8], b: &[u8]) -> bool
    ensures { result ≡ (a.now ≟ b.now) }
{
    if a.len() != b.len() {
        return false;
    }
    if a.len() > 16 {
        return a == b;
    }
    for i in 0..a.len() {
        if a[i] != b[i] {
            return false;
        }
    }
    true
}

// The text s starts with p.
#[tactic(auto, using(crate::proofs::Texts::starts))]
pub fn starts_with(s: &[u8], p: &[u8]) -> bool
    ensures { result ≡ starts_with p.now s.now }
{
    let n = p.len();
    n <= s.len() && equal(&s[..n], p)
}

// The text s ends with p.
#[tactic(auto, using(crate::proofs::Texts::std_words))]
pub fn ends_with(s: &[u8], p: &[u8]) -> bool
    ensures { result ≡ ends_with p.now s.now }
{
    s.ends_with(p)
}

// The byte b stands in s.
#[tactic(auto, using(crate::proofs::Texts::std_words))]
pub fn contains(s: &[u8], b: u8) -> bool
    ensures { result ≡ contains b s.now }
{
    s.contains(&b)
}

// UTF-8

// The least second byte after the leading byte a.
fn low(a: u8) -> u8
    ensures { result ≡ low a }
{
    match a {
        0xe0 => 0xa0,
        0xf0 => 0x90,
        _ => 0x80,
    }
}

// The greatest second byte after the leading byte a.
fn high(a: u8) -> u8
    ensures { result ≡ high a }
{
    match a {
        0xed => 0x9f,
        0xf4 => 0x8f,
        _ => 0xbf,
    }
}

// There is a byte at i, and it is from l to h.
#[tactic(auto, using(crate::proofs::CodePoints::code_points))]
fn one_within(s: &[u8], i: usize, l: u8, h: u8) -> bool
    ensures { result ≡ starts_within (to l h ∷ []) (drop i s.now) }
{
    s.get(i).is_some_and(|b| l <= *b && *b <= h)
}

// The same, and a tail byte behind it.
#[tactic(auto, using(crate::proofs::CodePoints::code_points))]
fn two_within(s: &[u8], i: usize, l: u8, h: u8) -> bool
    requires { i ≤ length s.now }
    ensures { result ≡ starts_within (to l h ∷ tail ∷ []) (drop i s.now) }
{
    one_within(s, i, l, h) && one_within(s, i + 1, 0x80, 0xbf)
}

// The same, and two tail bytes behind it.
#[tactic(auto, using(crate::proofs::CodePoints::code_points))]
fn three_within(s: &[u8], i: usize, l: u8, h: u8) -> bool
    requires { i ≤ length s.now }
    ensures { result ≡ starts_within (to l h ∷ tail ∷ tail ∷ []) (drop i s.now) }
{
    one_within(s, i, l, h) && two_within(s, i + 1, 0x80, 0xbf)
}

// How many bytes long the code point at i is, 0 where there is none.
#[tactic(auto, using(crate::proofs::CodePoints::code_points))]
pub fn code_point(s: &[u8], i: usize) -> usize
    ensures { result ≡ code_point (drop i s.now) }
{
    let Some(&a) = s.get(i) else {
        return 0;
    };
    match a {
        0..=0x7f => 1,
        0xc2..=0xdf if one_within(s, i + 1, 0x80, 0xbf) => 2,
        0xe0..=0xef if two_within(s, i + 1, low(a), high(a)) => 3,
        0xf0..=0xf4 if three_within(s, i + 1, low(a), high(a)) => 4,
        _ => 0,
    }
}

// The bytes are UTF-8. A byte below 0x80 is passed over without asking `code_point`. A `while`: it goes from code point to code point, which is no
// range. Not std's `from_utf8`: that tells what it takes by decoding and encoding again, and no lemma ties this to the ranges of RFC 3629; and
// other readers need `code_point`.
#[inline(never)] // in a loop over tokens its own loop has a move more a byte
#[tactic(auto, using(crate::proofs::CodePoints::code_points))]
pub fn is_utf8(s: &[u8]) -> bool
    ensures { result ≡ is_utf8 s.now }
{
    let mut i = 0;
    while i < s.len() {
        if s[i] < 0x80 {
            i += 1;
        } else {
            let n = code_point(s, i);
            if n == 0 {
                return false;
            }
            i += n;
        }
    }
    true
}

// Zeroing

// An unsigned number of any size. The four impls stand out in full: one that a macro of the repository makes is refused.
pub trait Unsigned: Copy {
    ghost ZERO: { Self };

    const ZERO: Self;
}

impl Unsigned for u8 {
    ghost ZERO = { 0 };

    const ZERO: u8 = 0;
}

impl Unsigned for u16 {
    ghost ZERO = { 0 };

    const ZERO: u16 = 0;
}

impl Unsigned for u32 {
    ghost ZERO = { 0 };

    const ZERO: u32 = 0;
}

impl Unsigned for u64 {
    ghost ZERO = { 0 };

    const ZERO: u64 = 0;
}

// Zeroes the words from place `from` on: what stands before is kept. Not std's `fill`, which asks that a clone cannot fail: nothing says so of
// any T.
pub fn zero<T: Unsigned>(words: &mut [T], from: usize)
    ensures { words.new ≡ filled_from from T.ZERO words.old }
{
    let at = from.min(words.len());
    for word in &mut words[at..] {
        *word = T::ZERO;
    }
}
