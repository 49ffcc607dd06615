// Words of 16 bits: reading one, casts. Constant time.

#![tactic(auto)]

ghost use Rattle.std.specs.Prelude.{◌≡◌, ◌<◌, get_or};

// The word at k, 0 past the end.
pub fn word(ws: &[u16], k: usize) -> u16
    ensures { result ≡ get_or ws.now k 0 }
{
    ws.get(k).copied().unwrap_or(0)
}

pub fn wide(x: u16) -> usize
    ensures { result ≡ x }
{
    usize::from(x)
}

// A cast: callers show that the number fits, where `try_from` would answer whether it does.
pub fn narrow(x: usize) -> u16
    requires { x < 65536 }
    ensures { result ≡ x }
{
    x as u16
}

// The word at k as a number.
pub fn number(ws: &[u16], k: usize) -> usize
    ensures { result ≡ get_or ws.now k 0 }
{
    usize::from(word(ws, k))
}
