//! Instructions, walks, trees and the builder.

mod calls;
mod constants;
mod forms;
mod instrs;
mod rows;
mod shapes;
mod small;
mod steps;
mod table;
mod types;
mod view;
mod walks;
