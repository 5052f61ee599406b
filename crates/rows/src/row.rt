// A row, as its lines come.
use crate::answer::{line_of, says};
use anyhow::{Result, anyhow, bail};
use std::alloc::Global;
use std::fmt;
use wasm_rewriter::{Options, rewrite};

/// How many answers are as their rows say, and how many aren't.
#[derive(Drop)]
pub(crate) struct Tally {
    same: u32,
    differ: u32,
}

impl Tally {
    pub(crate) fn new() -> Tally {
        Tally { same: 0, differ: 0 }
    }
}

impl fmt::Display for Tally {
    fn fmt<W: fmt::Write>(&self, f: &mut fmt::Formatter<W>) -> fmt::Result {
        write!(f, "{} same, {} differ", self.same, self.differ)
    }
}

/// A row: its module, the options, and of which lengths its answers are said.
#[derive(Drop)]
pub(crate) struct Row<'a> {
    name: &'a str,
    options: Options,
    input: Vec<u8>,
    lengths: Option<(usize, usize)>,
    has_differed: bool,
}

impl<'a> Row<'a> {
    /// A row without a module, and with no option on.
    pub(crate) fn new(alloc: Global, name: &'a str) -> Row<'a> {
        Row {
            name,
            options: options_of(""),
            input: Vec::new(alloc),
            lengths: None,
            has_differed: false,
        }
    }

    /// Takes the next line.
    ///
    /// # Errors
    ///
    /// A line that is none of a row; want of memory, or what the system says.
    pub(crate) fn take(
        &mut self,
        rt: &HostRuntime,
        tally: &mut Tally,
        line: &'a str,
    ) -> Result<()> {
        let (word, rest) = line.split_once(' ').unwrap_or((line, ""));
        match word {
            "row" => {
                self.end(rt)?;
                *self = Row::new(rt.alloc(), rest);
            }
            "with" => self.options = options_of(rest),
            "bytes" => self.add_bytes(rt.alloc(), rest)?,
            "first" => self.lengths = Some(numbers_of(rest)?),
            "output" | "unchanged" | "places" | "refused" => self.check(rt, tally, line)?,
            "" | "#" => {}
            _ => bail!("{line}"),
        }
        Ok(())
    }

    /// Tells that all was as the row says, where it was.
    pub(crate) fn end(&self, rt: &HostRuntime) -> Result<()> {
        if !self.name.is_empty() && !self.has_differed {
            println!(rt; "row {}: same", self.name)?;
        }
        Ok(())
    }

    fn add_bytes(&mut self, alloc: Global, words: &str) -> Result<()> {
        let (count, digits) = words.split_once(' ').unwrap_or((words, ""));
        let bytes = hex::decode(alloc, digits)?;
        for _ in 0..count.parse::<usize>()? {
            self.input.extend_from_slice(&bytes)?;
        }
        Ok(())
    }

    // Compares what the line says with what is given, for each length.
    fn check(&mut self, rt: &HostRuntime, tally: &mut Tally, line: &str) -> Result<()> {
        let whole = self.input.len();
        let (from, to) = self.lengths.unwrap_or((whole, whole));
        for length in from..=to {
            self.check_first(rt, tally, line, length)?;
        }
        Ok(())
    }

    fn check_first(
        &mut self,
        rt: &HostRuntime,
        tally: &mut Tally,
        line: &str,
        length: usize,
    ) -> Result<()> {
        let Some(input) = self.input.get(..length) else {
            bail!("row {}: {length} bytes are more than there are", self.name);
        };
        let (word, _) = line.split_once(' ').unwrap_or((line, ""));
        let answer = rewrite(rt.alloc(), input, &self.options);
        let said = line_of(rt.alloc(), word, input, &answer)?;
        if says(line, &said) {
            tally.same = tally.same.saturating_add(1);
        } else {
            tally.differ = tally.differ.saturating_add(1);
            self.has_differed = true;
            println!(rt; "row {}, {length} bytes: {said}, and not {line}", self.name)?;
        }
        Ok(())
    }
}

// The options of these words.
fn options_of(words: &str) -> Options {
    Options {
        only_stable_features: has(words, "stable"),
        legacy_exceptions: has(words, "legacy"),
        names: has(words, "names"),
        producers: has(words, "producers"),
        places: has(words, "places"),
        shared_types: has(words, "shared"),
        keep_segments: has(words, "segments"),
    }
}

fn has(words: &str, wanted: &str) -> bool {
    words.split_whitespace().any(|word| word == wanted)
}

fn numbers_of(words: &str) -> Result<(usize, usize)> {
    match words.split_once(' ') {
        Some((from, to)) => Ok((from.parse::<usize>()?, to.parse::<usize>()?)),
        None => Err(anyhow!("{words}")),
    }
}
