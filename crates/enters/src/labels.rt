// The labels of a loop, listed once.

#![tactic(auto, using(crate::proofs::EnterRules::lists))]

ghost use Rattle.std.specs.Prelude.{◌≡◌, [], ◌∷◌, ◌++◌, ◌+◌, ◌≤◌, ◌<◌, length, take};
ghost use Rattle.enters.specs.Inside.{labels};
ghost use Rattle.model.specs.Listings.{listing_of};

use gotos::words::label_word;
use model::listing::Listing;
use plan::source;
use words::narrow;

// The source line of the word w at place m of the list, where its line is a label; answers the place behind.
fn keep(code: &Listing, list: &mut [u16], m: usize, w: usize) -> usize
    requires { m < length list.old }
    ensures upper_bound { result ≤ m + 1 }
    ensures list_after { let C = listing_of code.now in
        take result list.new ≡ take m list.old ++ labels C (w ∷ []) }
{
    if label_word(code, w) {
        list[m] = narrow(source(w));
        return m + 1;
    }
    m
}

// Lists the source lines of the words whose lines are labels; answers how many there are.
pub fn list_labels(code: &Listing, words: &[usize], list: &mut [u16]) -> usize
    requires { length words.now ≤ length list.old }
    ensures upper_bound { result ≤ length list.old }
    ensures list_after { let C = listing_of code.now in
        take result list.new ≡ labels C words.now }
{
    let mut m = 0;
    for &w in words {
        m = keep(code, list, m, w);
    }
    m
}
