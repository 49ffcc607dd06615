// The flow graph of a listing, drawn into the two matrices of Rattle.bits, with questions 8 and 9.
//
// Keywords, blocks and labels stand in local arrays, of 64 entries for at most 64 lines, else of 1,024. Drawing answers question 9: the label
// of a goto is looked up once, for its step. Beside the steps, which are drawn line by line, the time is linear in the tokens and bytes.
// Contracts cite `flow_graph` and `gotos_lead` of Rattle.definitions.specs.FlowGraph.
ghost use Rattle.std.specs.Prelude.{◌≡◌, true, ◌≤◌, length, None};
ghost use Rattle.definitions.specs.Lists.{member};
ghost use Rattle.definitions.specs.FlowGraph.{successors, gotos_lead};
ghost use Rattle.model.specs.Listings.{listing_of};
ghost use Rattle.bits.specs.Edges.{Matrices};
ghost use Rattle.blocks.specs.Structure.{blocks_of};
ghost use Rattle.line_steps.specs.Drawing.{Drawn};
ghost use Rattle.questions.specs.Refusals.{refused};
ghost use Rattle.flow.specs.Graph.{Graph, flow_refusal};

use labels::Labels;
use line_keywords::Keywords;
use line_steps::nesting::Blocks;
use line_steps::steps::line_steps;
use model::listing::Listing;
use questions::Refusal;

// The edges of every line, with question 9: has every goto keyword a symbol after it, the first of which names a label?
fn draw(blocks: &Blocks, labels: &Labels, space: &mut [u64], r: usize) -> bool
    requires matrices { Matrices (length blocks.now.keywords.code.lines.now) r space.old }
    requires same { labels.now.code ≡ blocks.now.keywords.code }
    ensures value { result ≡ gotos_lead (listing_of blocks.now.keywords.code) }
    ensures fact { let L = listing_of blocks.now.keywords.code in
        let n = length blocks.now.keywords.code.lines.now in
        (result ≡ true → Drawn n r space.old space.new (λ i j. member j (successors L (blocks_of L) i))) }
{
    for i in 0..blocks.keywords.code.lines.len() {
        if !line_steps(blocks, labels, space, r, i) {
            return false;
        }
    }
    true
}

// The same as `flow_graph`, in local columns: for each line N entries have room, and there are H words of buckets. To zero them is most of what a
// short listing costs.
#[tactic(auto, unfolding(crate::specs::Graph::flow_refusal))]
fn flow_graph_in<const N: usize, const H: usize>(
    code: &Listing,
    space: &mut [u64],
    r: usize,
) -> Result<(), Refusal>
    requires room { (length code.now.lines.now ≤ N) × (N ≤ 1024) × (256 ≤ H) × (H ≤ 1024) }
    requires matrices { Matrices (length code.now.lines.now) r space.old }
    ensures result_value { refused result ≡ flow_refusal (listing_of code.now) }
    ensures fact { let L = listing_of code.now in
        (refused result ≡ None → Graph L (length code.now.lines.now) r space.old space.new) }
{
    let mut masks = [0u8; N];
    let mut ends = [0u16; N];
    let mut parents = [0u16; N];
    let mut counts = [0usize; N];
    let mut heads = [0u16; H];
    let mut nexts = [0u16; N];
    let keywords = Keywords::new(code, &mut masks);
    let Some(blocks) = Blocks::new(&keywords, &mut ends, &mut parents, &mut counts) else {
        return Err(Refusal::UnmatchedBrace);
    };
    let labels = Labels::new(code, &mut heads, &mut nexts);
    bits::no_edges(space, code.lines.len(), r);
    if !draw(&blocks, &labels, space, r) {
        return Err(Refusal::UnknownLabel);
    }
    Ok(())
}

// Draws the flow graph, unless a brace does not match or a goto leads to no label. The space has room for the two matrices; what it holds
// after a refusal is left open.
pub fn flow_graph(code: &Listing, space: &mut [u64], r: usize) -> Result<(), Refusal>
    requires { (length code.now.lines.now ≤ 1024) × Matrices (length code.now.lines.now) r space.old }
    ensures result_value { refused result ≡ flow_refusal (listing_of code.now) }
    ensures fact { let L = listing_of code.now in
        (refused result ≡ None → Graph L (length code.now.lines.now) r space.old space.new) }
{
    if code.lines.len() <= 64 {
        flow_graph_in::<64, 256>(code, space, r)
    } else {
        flow_graph_in::<1024, 1024>(code, space, r)
    }
}
