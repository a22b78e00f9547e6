//! Logic functions of masters as truth tables, and the functions file that gives them.
//!
//! The functions file is a TOML document with a table per master, in the profile of docs/FORMATS.md.
#![tactic(auto)]

ghost use Rattle.eco_func.specs.Expressions.{TablesAreValues};
ghost use Rattle.eco_func.specs.FunctionsFile.{CharactersAreRows};
ghost use Rattle.eco_func.specs.Tables.{RowsAreBits};

mod bits;
mod blame;
mod differ;
mod document;
mod expression;
mod fault;
mod functions;
mod master;
mod operator;
mod output;
mod part;
mod read;
mod rows;
mod table;
mod text_list;

pub use crate::bits::read_table;
pub use crate::fault::FuncFault;
pub use crate::functions::Functions;
pub use crate::master::MasterFn;
pub use crate::output::OutputFn;
pub use crate::read::read_functions;
pub use crate::rows::{input_column, low_rows};
pub use crate::table::Table;
pub use crate::text_list::texts;
pub use eco_common::{Memory, Name};

/// A law of tables: bit `i` of the row of a list of bits is bit `i` of the list.
pub fn rows_are_bits()
    ensures { RowsAreBits }
{}

/// A law of texts: the character at each place of a table's text is the value at that row.
pub fn characters_are_rows()
    ensures { CharactersAreRows }
{}

/// A law of expressions: the table of an expression has the expression's value at each row.
pub fn tables_are_values()
    ensures { TablesAreValues }
{}
