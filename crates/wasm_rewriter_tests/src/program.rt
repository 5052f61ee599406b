//! The program: its words, statuses and texts, and what becomes of the files.

mod cases;
mod causes;
mod failing;
mod files;
mod folder;
mod host;
mod outputs;
mod words;
