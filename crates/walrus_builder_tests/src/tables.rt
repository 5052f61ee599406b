//! Arenas, forms of types and their records, and the table of types.

mod arenas;
mod chains;
mod forms;
mod locals;
mod records;
mod rows;
mod steps;
mod tables;
mod unmarked;
mod values;
mod words;
mod writing;
