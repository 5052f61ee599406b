//! The program `walrus_inspect`: its words, statuses and texts.

mod files;
mod words;
