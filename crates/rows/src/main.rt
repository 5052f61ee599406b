//! Rewrites the modules of `rows.txt`, and tells of each row whether it comes out as the row says.
//!
//! A line of that file is a word and what belongs to it:
//!
//!     row NAME            a row begins
//!     with OPTIONS        the options that are on, of names, producers, places, stable, legacy, shared and segments; without this line none
//!     bytes COUNT HEX     the module goes on with these bytes, so many times
//!     first FROM TO       what follows is said of each of its prefixes of these lengths, and not of the whole
//!     output HEX          this is written
//!     unchanged           the module is written as it is
//!     places COUNT OLD NEW ..     there are so many pairs of places, of which these are first
//!     refused LINE        the module is refused, and the program says so in this line
//!     # ..                nothing
#![tactic(auto)]

mod answer;
mod row;

use anyhow::Result;
use row::{Row, Tally};
use std::fs;

fn main(rt: HostRuntime) -> Result<()> {
    let text = fs::read_to_string(&rt, "rows.txt")?;
    let mut tally = Tally::new();
    let mut row = Row::new(rt.alloc(), "");
    for line in text.lines() {
        row.take(&rt, &mut tally, line)?;
    }
    row.end(&rt)?;
    println!(rt; "{tally}")?;
    Ok(())
}
