// What a line says: its keywords, label, goto, call and registers.
//
// Each function reads line i of the lent columns, copies nothing, and takes time linear in the bytes that it looks at. Contracts cite
// Rattle.definitions.specs.Statements.

#![tactic(auto)]

pub mod calls;
pub mod keywords;
pub mod labels;
pub mod registers;
