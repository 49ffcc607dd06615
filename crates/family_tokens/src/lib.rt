// The tokens of one family: the lines that read it, and what its tokens are given. A step a token of its own, and a few a line.
//
// Contracts cite `read_lines` of Rattle.definitions.specs.Recover and specs/Lines.antt of crate walks.

#![tactic(auto, using(crate::proofs::TokenRules::token_rules))]

ghost use Rattle.std.specs.Prelude.{◌≡◌, ◌<◌, ◌≤◌, length, take};
ghost use Rattle.definitions.specs.Recover.{read_lines};
ghost use Rattle.model.specs.Listings.{listing_of};
ghost use Rattle.text.specs.Zeroed.{zeroed};
ghost use Rattle.families.specs.Families.{Table, Defs};
ghost use Rattle.families.specs.Tokens.{family_name};
ghost use Rattle.chains.specs.Chains.{Chain};
ghost use Rattle.walks.specs.Lines.{Written};
ghost use Rattle.family_tokens.specs.Writes.{Writes};

use walks::chained::Columns;
use walks::reads::{is_rsp, read_lines};
use walks::writing::{mark_lines, write_tokens};

// Lists the lines that read family k, none for rsp; answers how many there are.
pub fn family_reads(
    columns: &Columns,
    table: &[u16],
    count: usize,
    numbers: &[u32],
    k: usize,
    seen: &mut [u8],
    reads: &mut [u16],
) -> usize
    requires fact { let code = columns.now.code.now in let L = listing_of code in
        Table L count table.now × (k < count) × (k < 1024) × Chain code.lines.now code.tokens.now code.text.now k numbers.now columns.now.first.now × Defs L columns.now.defs.now }
    requires lines_nonzero { let n = length columns.now.code.now.lines.now in (0 < n) × (n ≤ length seen.old) × (n ≤ length reads.old) × (n ≤ 65536) }
    ensures { (result ≤ length columns.now.code.now.lines.now) × (let L = listing_of columns.now.code.now in take result reads.new ≡ read_lines L (family_name L k)) }
{
    if is_rsp(table, k) {
        return 0;
    }
    read_lines(columns, numbers, k, seen, reads)
}

// The tokens of family k get the number 0.
pub fn write_zeros(
    columns: &Columns,
    numbers: &mut [u32],
    k: usize,
    own: &mut [u16],
    read: &mut [u16],
)
    requires { let code = columns.now.code.now in
        Chain code.lines.now code.tokens.now code.text.now k numbers.old columns.now.first.now × (k < 1024) }
    ensures { let code = columns.now.code.now in
        Written code.lines.now code.tokens.now code.text.now k columns.now.defs.now (zeroed 0 own.old) (zeroed 0 read.old) numbers.old numbers.new }
{
    text::zero(own, 0);
    text::zero(read, 0);
    write_tokens(columns, numbers, k, own, read);
}

// The tokens of family k get their numbers, its definitions their marks.
pub fn write_family(
    columns: &Columns,
    numbers: &mut [u32],
    marks: &mut [u8],
    k: usize,
    own: &[u16],
    read: &[u16],
)
    requires { let code = columns.now.code.now in
        Chain code.lines.now code.tokens.now code.text.now k numbers.old columns.now.first.now × (k < 1024) }
    ensures { let code = columns.now.code.now in
        Writes code.lines.now code.tokens.now code.text.now k columns.now.defs.now own.now read.now numbers.old numbers.new marks.old marks.new }
{
    let Columns { code, defs, .. } = *columns;
    write_tokens(columns, numbers, k, own, read);
    mark_lines(code, marks, code.lines.len(), k, defs);
}
