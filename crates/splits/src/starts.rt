// The split points by line, one step a line: the indent-1 definitions that no goto crosses.
//
// Contracts cite `all_jumps` and `crosses` of Rattle.definitions.specs.SplitPoints.
#![tactic(auto, using(crate::proofs::StartRules::start_rules))]

ghost use Rattle.std.specs.Prelude.{if◌then◌else◌, ◌≡◌, ◌&&◌, ℕ, ◌≤◌, ◌<◌, eqb, ltb, length, get_or};
ghost use Rattle.definitions.specs.Lists.{any};
ghost use Rattle.definitions.specs.Model.{line};
ghost use Rattle.definitions.specs.SplitPoints.{all_jumps, crosses};
ghost use Rattle.model.specs.Listings.{listing_of};
ghost use Rattle.crossings.specs.Crossed.{crossed};
ghost use Rattle.families.specs.Families.{Defs};
ghost use Rattle.splits.specs.Starts.{Starts};

use model::listing::Listing;
use words::{number, word};

// Line i has indent 1 and is beyond `reach`.
fn is_point(code: &Listing, i: usize, reach: usize) -> bool
    ensures { let L = listing_of code.now in
        result ≡ (eqb (line L i).indent 1 && ltb reach i) }
{
    code.indent(i) == 1 && reach < i
}

// What `defs` has for line i if that is so, else 0.
fn start_of(code: &Listing, defs: &[u16], i: usize, reach: usize) -> u16
    ensures { let L = listing_of code.now in
        result ≡ (if eqb (line L i).indent 1 && ltb reach i then get_or defs.now i 0 else 0) }
{
    if is_point(code, i, reach) {
        word(defs, i)
    } else {
        0
    }
}

// Leaves in `defs`, which has the place of the family that each line defines, the split points only. `far` has the lines that gotos join.
pub fn starts(code: &Listing, far: &[u16], defs: &mut [u16])
    requires { (let L = listing_of code.now in
        Defs L defs.old × ((k : ℕ) → crossed far.now k ≡ any (crosses k) (all_jumps L))) × (length code.now.lines.now ≤ length defs.old) }
    ensures { Starts (listing_of code.now) defs.new }
{
    let mut reach = 0;
    for i in 0..code.lines.len() {
        defs[i] = start_of(code, defs, i, reach);
        reach = reach.max(number(far, i));
    }
}
