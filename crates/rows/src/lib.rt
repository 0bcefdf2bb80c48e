// Rows of numbers: their order, and an index that takes rows in and gives them from the least on.
//
//     let rows = [3, 1, 2, 9, 3, 1];
//     let mut index = RowIndex::<3>::new(&rows);            // room for two different rows
//     index.put(0, 2) && index.put(2, 4) && index.put(4, 6) // true: 3 1 is put in twice
//     index.write_all(&mut out)                             // 6 numbers: 2 9 3 1 3 1
//     index.in_order()                                      // the rows 2 9 and 3 1
//     index.parts_in_order()                                // where they lie: from 2 to 4, and from 0 to 2
#![tactic(auto)]

mod copy;
pub mod part;
pub mod row;
pub mod row_index;
mod row_tree;
