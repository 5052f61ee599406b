//! Tests of operators, of the maps of indices and ids, and of the pairing of operators with instructions.

mod asks;
mod bytes;
mod codes;
mod faults;
mod maps;
mod names;
mod numbers;
mod pairing;
mod rows;
mod table;
mod view;
