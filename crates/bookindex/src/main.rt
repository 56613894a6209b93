// Indexes the book in the current folder: galley.txt, with the terms of terms.txt.
#![tactic(auto)]

use book::feeds::page_starts;
use book::whole::index_book;
use galleys::byte::ByteGalley;
use indexer::index::Indexer;
use matchers::comparer::Comparer;
use rules::locator::Locator;
use std::fs::File;
use std::io::Read;
use std::process::ExitCode;
use std::{fmt, io};

// A line of the index: a locator and the number of its term.
#[derive(Clone, Copy)]
struct Line {
    number: usize,
    locator: Locator,
}

impl fmt::Display for Line {
    fn fmt<W: fmt::Write>(&self, f: &mut fmt::Formatter<W>) -> fmt::Result {
        let Line { number, locator } = *self;
        let Locator {
            page,
            place,
            variant,
            ..
        } = locator;
        write!(f, "{number} {page} {place} {variant}")
    }
}

// The first `most` bytes of the file.
fn read_front(rt: &HostRuntime, path: &str, most: u64) -> io::Result<Vec<u8>> {
    let mut bytes = Vec::new(rt.alloc());
    File::open(rt, path)?.take(most).read_to_end(&mut bytes)?;
    Ok(bytes)
}

// The same; none where the file cannot be read, which is said on standard error.
fn read_named(rt: &HostRuntime, path: &str, most: u64) -> anyhow::Result<Option<Vec<u8>>> {
    match read_front(rt, path, most) {
        Ok(bytes) => Ok(Some(bytes)),
        Err(error) => {
            eprintln!(rt; "bookindex: cannot read {path}: {error}")?;
            Ok(None)
        }
    }
}

// Adds the locators of the number's term, by ascending start; answers whether a term stands under the number.
// The loop asks from behind the last locator on: an iterator over them would be no plainer, since it has to say what it gives and that it ends.
fn collect(
    lines: &mut Vec<Line>,
    indexer: &Indexer<Comparer, ByteGalley>,
    number: usize,
) -> anyhow::Result<bool> {
    let mut from = 0;
    for _ in 0..16384 {
        match indexer.locator(number, from) {
            Err(_) => return Ok(false),
            Ok(None) => return Ok(true),
            Ok(Some(locator)) => {
                lines.push(Line { number, locator })?;
                from = locator.start as usize + 1;
            }
        }
    }
    Ok(true)
}

// Prints the head and a line for each locator, terms by number and starts ascending.
fn print_index(
    rt: &HostRuntime,
    indexer: &mut Indexer<Comparer, ByteGalley>,
) -> anyhow::Result<()> {
    let mut lines = Vec::new(rt.alloc());
    let mut terms = 0usize;
    for number in 0..16 {
        if collect(&mut lines, indexer, number)? {
            terms = terms.saturating_add(1);
        }
    }
    let (_, owed) = indexer.run(0);
    let locators = lines.len();
    println!(rt; "owed {owed} terms {terms} locators {locators}")?;
    for line in lines.iter() {
        println!(rt; "{line}")?;
    }
    Ok(())
}

// Ends with status 1 where a file cannot be read or the sheet is refused.
fn main(rt: HostRuntime) -> anyhow::Result<ExitCode> {
    let Some(text) = read_named(&rt, "galley.txt", 16384)? else {
        return Ok(ExitCode::FAILURE);
    };
    let Some(sheet) = read_named(&rt, "terms.txt", 8192)? else {
        return Ok(ExitCode::FAILURE);
    };
    let starts = page_starts(rt.alloc(), text.as_slice())?;
    let mut indexer = Indexer::new(Comparer::new(), ByteGalley::new(text), 1);
    match index_book(&mut indexer, starts.as_slice(), sheet.as_slice()) {
        Ok(()) => {
            print_index(&rt, &mut indexer)?;
            Ok(ExitCode::SUCCESS)
        }
        Err(fault) => {
            println!(rt; "{fault}")?;
            Ok(ExitCode::FAILURE)
        }
    }
}
