// The blocks of a listing beside its keywords.
ghost use Rattle.std.specs.Prelude.{◌≡◌, ◌≤◌, ◌<◌, length, get_or, IfSome};
ghost use Rattle.definitions.specs.Blocks.{blocks};
ghost use Rattle.definitions.specs.FlowGraph.{end_of};
ghost use Rattle.definitions.specs.Lists.{is_some};
ghost use Rattle.model.specs.Listings.{listing_of};
ghost use Rattle.blocks.specs.Entries.{entry};
ghost use Rattle.blocks.specs.Structure.{blocks_of, Ended, Enclosed};

use blocks::blocks;
use line_keywords::Keywords;

// A listing with its keywords, and of each line the entries of the line that closes its block and of the innermost opener around it.
#[derive(Clone, Copy)]
pub struct Blocks<'c, 'a, 'k, 'm> {
    pub keywords: Keywords<'c, 'a, 'k>,
    pub ends: &'m [u16],
    pub parents: &'m [u16],
    pub ghost ends_room: { length keywords.code.lines.now ≤ length ends.now },
    pub ghost parents_room: { length keywords.code.lines.now ≤ length parents.now },
    pub ghost ended: { Ended (listing_of keywords.code) (blocks_of (listing_of keywords.code)) ends.now },
    pub ghost enclosed: { Enclosed (listing_of keywords.code) (blocks_of (listing_of keywords.code)) parents.now },
}

impl<'c, 'a, 'k, 'm> Blocks<'c, 'a, 'k, 'm> {
    // None where a brace does not match. The columns have room for an entry for each line.
    pub fn new(
        keywords: &Keywords<'c, 'a, 'k>,
        ends: &'m mut [u16],
        parents: &'m mut [u16],
        counts: &mut [usize],
    ) -> Option<Self>
        requires { let n = length keywords.now.code.lines.now in
            (n ≤ length ends.old) × (n ≤ length parents.old) × (n ≤ length counts.old) × (n ≤ 1024) }
        ensures matched { is_some result ≡ is_some (blocks (listing_of keywords.now.code)) }
        ensures same { IfSome result (λ b. b.keywords ≡ keywords.now) }
    {
        if blocks(&keywords.code, ends, parents, counts) {
            Some(Blocks {
                keywords: *keywords,
                ends,
                parents,
            })
        } else {
            None
        }
    }

    // The line that closes the block that line h opens; of several blocks, the last.
    #[tactic(auto, using(crate::proofs::Falls::closing))]
    pub fn end(&self, h: usize) -> Option<usize>
        requires { h < length self.now.keywords.code.lines.now }
        ensures value { let L = listing_of self.now.keywords.code in
            result ≡ end_of (blocks_of L) h }
        ensures later { IfSome result (λ e. (h < e) × (e < length self.now.keywords.code.lines.now)) }
    {
        usize::from(self.ends[h]).checked_sub(1)
    }

    // The innermost opener around line i.
    pub fn opener(&self, i: usize) -> Option<usize>
        requires { i < length self.now.keywords.code.lines.now }
        ensures { entry result ≡ get_or self.now.parents.now i 0 }
    {
        usize::from(self.parents[i]).checked_sub(1)
    }
}
