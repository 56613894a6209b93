// Takes one task from start to finish over the library, and prints each action with its answer.
#![tactic(auto)]

use galleys::byte::ByteGalley;
use galleys::galley::Galley;
use indexer::index::Indexer;
use matchers::comparer::Comparer;
use matchers::matcher::Matcher;
use telling::answers::told;
use term_sheet::enters::enter_sheet;

type Book = Indexer<Comparer, ByteGalley>;

// Prints what a run did and left.
fn run(rt: &HostRuntime, book: &mut Book, units: usize) -> anyhow::Result<()> {
    let (done, owed) = book.run(units);
    println!(rt; "run {units}: {done} done, {owed} owed")?;
    Ok(())
}

// Prints the first locator of the term at or after a place.
fn locate(rt: &HostRuntime, book: &Book, number: usize, from: usize) -> anyhow::Result<()> {
    print!(rt; "locator {number} from {from}: ")?;
    match book.locator(number, from) {
        Ok(Some(locator)) => println!(rt; "{locator:?}")?,
        Ok(None) => println!(rt; "none")?,
        Err(refusal) => println!(rt; "{refusal}")?,
    }
    Ok(())
}

// The galley by itself: what it holds, shows and refuses.
fn read_galley(rt: &HostRuntime, galley: &mut ByteGalley) -> anyhow::Result<()> {
    let length = galley.length();
    println!(rt; "galley: {length} bytes")?;
    let mut word = [0u8; 6];
    println!(rt;
        "{}",
        told("fetch 6 bytes at 4", galley.fetch(4, &mut word))
    )?;
    let [first, .., last] = word;
    println!(rt; "the first is {first}, the last {last}")?;
    println!(rt;
        "{}",
        told("fetch 6 bytes at 111", galley.fetch(111, &mut word))
    )?;
    println!(rt; "{}", told("put a semicolon at 26", galley.put(26, b';')))?;
    println!(rt; "{}", told("put a semicolon at 116", galley.put(116, b';')))?;
    Ok(())
}

// The matcher by itself: what fits it, what it holds and finds.
fn try_matcher(rt: &HostRuntime, matcher: &mut Comparer) -> anyhow::Result<()> {
    let fits = matcher.fits(64, 63);
    let fits_not = matcher.fits(65, 0);
    println!(rt; "fits 64 bytes with limit 63: {fits}; 65 bytes: {fits_not}")?;
    if let Err(refusal) = matcher.scan(b"The the tHe") {
        println!(rt; "scan with no term held: {refusal}")?;
    }
    println!(rt;
        "{}",
        told("prepare an empty term", matcher.prepare(b"", 0))
    )?;
    println!(rt;
        "{}",
        told("prepare 'the' with limit 3", matcher.prepare(b"the", 3))
    )?;
    println!(rt;
        "{}",
        told("prepare 'the' with limit 1", matcher.prepare(b"the", 1))
    )?;
    if let Ok(word) = matcher.scan(b"The the tHe") {
        println!(rt; "scan 'The the tHe': word {word}")?;
    }
    if let Err(refusal) = matcher.scan(&[0u8; 128]) {
        println!(rt; "scan 128 bytes: {refusal}")?;
    }
    Ok(())
}

// A term to enter.
#[derive(Clone, Copy)]
struct Wanted<'a> {
    action: &'a str,
    number: usize,
    limit: usize,
    term: &'a [u8],
}

// Pages and terms, accepted and refused.
fn set_up(rt: &HostRuntime, book: &mut Book) -> anyhow::Result<()> {
    println!(rt; "{}", told("page at 49", book.page(49)))?;
    println!(rt; "{}", told("page at 49 again", book.page(49)))?;
    println!(rt; "{}", told("page at 116", book.page(116)))?;
    let terms = [
        Wanted {
            action: "enter 3: 'reason' with limit 1",
            number: 3,
            limit: 1,
            term: b"reason",
        },
        Wanted {
            action: "enter 3 once more",
            number: 3,
            limit: 0,
            term: b"rule",
        },
        Wanted {
            action: "enter 16",
            number: 16,
            limit: 0,
            term: b"rule",
        },
        Wanted {
            action: "enter 4: an empty term",
            number: 4,
            limit: 0,
            term: b"",
        },
        Wanted {
            action: "enter 4: 'rule' with limit 4",
            number: 4,
            limit: 4,
            term: b"rule",
        },
    ];
    for wanted in terms {
        let answer = book.enter(wanted.number, wanted.limit, wanted.term);
        println!(rt; "{}", told(wanted.action, answer))?;
    }
    Ok(())
}

// A sheet of three terms, of which the last is refused.
fn read_sheet(rt: &HostRuntime, book: &mut Book) -> anyhow::Result<()> {
    match enter_sheet(book, b"7 0 rule\n\n8 1 the\n8 0 law\n") {
        Ok(()) => println!(rt; "sheet: accepted")?,
        Err(fault) => println!(rt; "sheet: {fault}")?,
    }
    Ok(())
}

// Units done in two runs, and what is listed before and after.
fn work(rt: &HostRuntime, book: &mut Book) -> anyhow::Result<()> {
    locate(rt, book, 3, 0)?;
    run(rt, book, 0)?;
    run(rt, book, 4)?;
    for (number, from) in [(3, 0), (3, 1), (7, 36)] {
        locate(rt, book, number, from)?;
    }
    run(rt, book, 100)?;
    for (number, from) in [(3, 58), (3, 96), (7, 0), (8, 0), (9, 0), (16, 0)] {
        locate(rt, book, number, from)?;
    }
    Ok(())
}

fn main(rt: HostRuntime) -> anyhow::Result<()> {
    let text =
        b"Reason is a rule of itself, and is ruled by none\x0cbut the reason of each is the Rule of all, by Reason; so we read it";
    let mut galley = ByteGalley::new(text.to_vec(rt.alloc())?);
    read_galley(&rt, &mut galley)?;
    let mut matcher = Comparer::new();
    try_matcher(&rt, &mut matcher)?;
    let mut book = Indexer::new(matcher, galley, 7);
    set_up(&rt, &mut book)?;
    read_sheet(&rt, &mut book)?;
    work(&rt, &mut book)
}
