// Families by their names.
#![tactic(auto, using(crate::proofs::RowRules::names))]

ghost use Rattle.std.specs.Prelude.{◌<◌};
ghost use Rattle.legacy.specs.Table.{row_name};
ghost use Rattle.family.specs.Register.{family_of};
ghost use Rattle.json_append.specs.Appended.{Wrote};
ghost use Rattle.rows.specs.Rows.{name_of};

use family::Register;
use json_append::writer::Writer;

// The name of the family in row i of the table of legacy registers.
fn put_row_name(to: &mut Writer, i: usize)
    requires { i < 8 }
    ensures { Wrote to.old (row_name i) to.new }
{
    let a = 3 * i;
    to.put(text::part(b"raxrbxrcxrdxrsirdirbprsp", a, a + 3));
}

// The name of the family that the answer r gives the text s, nothing where it gives none.
pub fn put_name(to: &mut Writer, s: &[u8], r: Option<Register>)
    ensures { Wrote to.old (name_of (family_of s.now r)) to.new }
{
    match r {
        Some(Register::Legacy { row, .. }) => {
            if row < 8 {
                put_row_name(to, row);
            }
        }
        Some(Register::Numbered { length, .. }) => to.put(text::part(s, 0, length)),
        Some(Register::Var) => to.put(s),
        None => {}
    }
}
