// SipHash-1-3 of a text, the hash of Rust's own maps. Nothing is promised of it.
#[derive(Clone, Copy)]
pub struct State {
    pub a: u64,
    pub b: u64,
    pub c: u64,
    pub d: u64,
}

fn round(s: State) -> State {
    let a = s.a.wrapping_add(s.b);
    let c = s.c.wrapping_add(s.d);
    let b = s.b.rotate_left(13) ^ a;
    let d = s.d.rotate_left(16) ^ c;
    let e = a.rotate_left(32).wrapping_add(d);
    let f = c.wrapping_add(b);
    State {
        a: e,
        b: b.rotate_left(17) ^ f,
        c: f.rotate_left(32),
        d: d.rotate_left(21) ^ e,
    }
}

// Eight bytes of the text more.
fn absorbed(s: State, w: u64) -> State {
    let t = round(State { d: s.d ^ w, ..s });
    State { a: t.a ^ w, ..t }
}

// At most seven bytes, and the length of the text.
fn last(s: &[u8], length: usize) -> u64 {
    // A cast: std has no `From` of `usize` to 64 bits.
    let mut w = (length as u64) << 56;
    for (k, b) in s.iter().take(7).enumerate() {
        w |= u64::from(*b) << (k * 8);
    }
    w
}

fn finished(s: State) -> u64 {
    let t = round(round(round(State { c: s.c ^ 255, ..s })));
    t.a ^ t.b ^ t.c ^ t.d
}

// The hash of the text by a key whose second half is 0.
pub fn hash(key: u64, text: &[u8]) -> u64 {
    let mut s = State {
        a: key ^ 0x736f6d6570736575,
        b: 0x646f72616e646f6d,
        c: key ^ 0x6c7967656e657261,
        d: 0x7465646279746573,
    };
    let (blocks, rest) = text.as_chunks();
    for block in blocks {
        s = absorbed(s, u64::from_le_bytes(*block));
    }
    finished(absorbed(s, last(rest, text.len())))
}
