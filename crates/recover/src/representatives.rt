// Representatives, by definition number: definitions that reach one read get the least of their representatives. This is the Rust's `Dsu`,
// each set already found: one link takes time linear in the family's definitions.
//
// Contracts cite `link` of Rattle.definitions.specs.Recover.
#![tactic(auto, using(crate::proofs::RepresentativeRules::representative_rules))]

ghost use Rattle.std.specs.Prelude.{◌≡◌, map, cond, ◌≤◌, ◌<◌, eqb, length, get_or, set};
ghost use Rattle.definitions.specs.Lists.{all, up_to};
ghost use Rattle.definitions.specs.Recover.{link};
ghost use Rattle.recover.specs.Numbers.{Least, Within, alike, marked, merged, earlier};

use words::{narrow, number, word};

// Each definition is its own representative.
pub fn alone(rep: &mut [u16])
    requires { length rep.old ≤ 65536 }
    ensures { rep.new ≡ up_to (length rep.old) }
{
    for d in 0..rep.len() {
        rep[d] = narrow(d);
    }
}

// The representative of the definition at place k of ds.
fn rep_of(rep: &[u16], ds: &[u16], k: usize) -> u16
    ensures { result ≡ get_or rep.now (get_or ds.now k 0) 0 }
{
    word(rep, number(ds, k))
}

// The least representative of the definitions ds.
fn least(rep: &[u16], ds: &[u16]) -> u16
    requires { 0 < length ds.now }
    ensures { Least rep.now ds.now result }
{
    let mut m = rep_of(rep, ds, 0);
    for k in 1..ds.len() {
        m = m.min(rep_of(rep, ds, k));
    }
    m
}

fn mark(marks: &mut [u8], r: u16)
    ensures { marks.new ≡ set marks.old r 1 }
{
    let k = usize::from(r);
    if k < marks.len() {
        marks[k] = 1;
    }
}

// Marks the representatives of the definitions ds.
fn mark_all(rep: &[u16], ds: &[u16], marks: &mut [u8])
    ensures { marks.new ≡ marked rep.now marks.old ds.now }
{
    for k in 0..ds.len() {
        mark(marks, rep_of(rep, ds, k));
    }
}

fn merged(marks: &[u8], m: u16, r: u16) -> u16
    ensures { result ≡ merged m marks.now r }
{
    let k = usize::from(r);
    if k < marks.len() && marks[k] == 1 {
        m
    } else {
        r
    }
}

// Every representative that is marked becomes m.
fn merge(rep: &mut [u16], marks: &[u8], m: u16)
    ensures { rep.new ≡ map (merged m marks.now) rep.old }
{
    for r in rep.iter_mut() {
        *r = merged(marks, m, *r);
    }
}

// The definition at place k of ds has the representative of the first.
fn is_same(rep: &[u16], ds: &[u16], k: usize) -> bool
    ensures { result ≡ alike rep.now ds.now (get_or ds.now k 0) }
{
    rep_of(rep, ds, k) == rep_of(rep, ds, 0)
}

// The definitions ds have one representative.
fn are_same(rep: &[u16], ds: &[u16]) -> bool
    ensures { result ≡ all (alike rep.now ds.now) ds.now }
{
    for k in 0..ds.len() {
        if !is_same(rep, ds, k) {
            return false;
        }
    }
    true
}

// The definitions ds, which reach one read, are one web. Where they are already, as behind an earlier read, nothing is merged.
pub fn link(rep: &mut [u16], ds: &[u16], marks: &mut [u8])
    requires { Within (length marks.old) rep.old }
    ensures { rep.new ≡ link rep.old ds.now }
{
    if ds.len() < 2 {
        return;
    }
    if are_same(rep, ds) {
        return;
    }
    text::zero(marks, 0);
    mark_all(rep, ds, marks);
    let m = least(rep, ds);
    merge(rep, marks, m);
}

// How many webs start before each definition.
pub fn ranks(rep: &[u16], rank: &mut [u16])
    requires { (length rank.old ≡ length rep.now) × (length rep.now ≤ 65535) }
    ensures { rank.new ≡ map (earlier rep.now) (up_to (length rep.now)) }
{
    let mut count = 0;
    for d in 0..rank.len() {
        rank[d] = narrow(count);
        count += starts(rep, d);
    }
}

// 1 where the definition d is its own representative, else 0.
fn starts(rep: &[u16], d: usize) -> usize
    ensures { (result ≡ cond (eqb (get_or rep.now d 0) d) 1 0) × (result ≤ 1) }
{
    if number(rep, d) == d { 1 } else { 0 }
}
