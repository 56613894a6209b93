// Takes the parts of the library one by one, and prints what each does: galleys and layers, the matchers, the index file.
#![tactic(auto)]

ghost use Rattle.index_file.specs.Files.{Reaches};

use galleys::byte::ByteGalley;
use galleys::galley::Galley;
use galleys::six_bit::SixBitGalley;
use index_file::record::{Head, Term};
use index_file::state::{Headed, Unheaded};
use layers::folded::FoldedGalley;
use layers::paste_up::PasteUp;
use matchers::comparer::Comparer;
use matchers::matcher::Matcher;
use rules::declined::Declined;
use rules::locator::Locator;
use shifts::shift_and::ShiftAnd;
use shifts::shift_or::ShiftOr;
use telling::answers::told;
use windows::two_way::TwoWayShiftOr;

// Puts the heading into the galley, byte by byte, and prints what it then fetches. stacks puts a word so: a library would owe what the text then is, for a loop of one line.
fn set_heading<G: Galley>(rt: &HostRuntime, name: &str, galley: &mut G) -> anyhow::Result<()> {
    let mut answer = Ok(());
    for (at, b) in b"REASON and rule.".iter().enumerate() {
        answer = answer.and(galley.put(at, *b));
    }
    println!(rt; "{}", told(name, answer))?;
    let mut text = [0u8; 16];
    println!(rt; "{}", told("fetch 16 bytes", galley.fetch(0, &mut text)))?;
    print!(rt; "the text is '")?;
    for b in text {
        let letter = b as char;
        print!(rt; "{letter}")?;
    }
    println!(rt; "'")?;
    Ok(())
}

// One heading held in three ways: in six-bit characters, in bytes that the upper layer folds, in bytes pasted over a blank.
fn hold_in_three_ways(rt: &HostRuntime) -> anyhow::Result<()> {
    let mut six_bit = FoldedGalley::new(SixBitGalley::new([0u8; 12].to_vec(rt.alloc())?));
    set_heading(rt, "put a heading, folded over six-bit", &mut six_bit)?;
    let mut folded = FoldedGalley::new(ByteGalley::new([b' '; 16].to_vec(rt.alloc())?));
    set_heading(rt, "put a heading, folded over bytes", &mut folded)?;
    let blank = FoldedGalley::new(ByteGalley::new([b' '; 16].to_vec(rt.alloc())?));
    let mut paste_up = PasteUp::new(blank);
    set_heading(rt, "put a heading, pasted over folded", &mut paste_up)?;
    let held = paste_up.held();
    println!(rt; "pasted bytes held: {held}")?;
    paste_up.spill();
    let held = paste_up.held();
    println!(rt; "and after a spill: {held}")?;
    Ok(())
}

// Prints the word of a matcher that is prepared for a term and scans the galley's first block.
fn scan_block<M: Matcher>(
    rt: &HostRuntime,
    name: &str,
    matcher: &mut M,
    galley: &ByteGalley,
) -> anyhow::Result<()> {
    println!(rt; "{}", told(name, matcher.prepare(b"rule", 0)))?;
    let mut stretch = [0u8; 67];
    println!(rt;
        "{}",
        told("fetch the block", galley.fetch(0, &mut stretch))
    )?;
    if let Ok(word) = matcher.scan(&stretch) {
        println!(rt; "scan for 'rule': word {word}")?;
    }
    Ok(())
}

// The same galley, scanned by each matcher.
fn scan_by_each(rt: &HostRuntime, galley: &ByteGalley) -> anyhow::Result<()> {
    scan_block(rt, "Comparer", &mut Comparer::new(), galley)?;
    scan_block(rt, "ShiftOr", &mut ShiftOr::new(), galley)?;
    scan_block(rt, "TwoWayShiftOr", &mut TwoWayShiftOr::new(), galley)?;
    scan_block(rt, "ShiftAnd", &mut ShiftAnd::new(), galley)
}

// The head of a small file.
fn write_head(buffer: &mut [u8; 41]) -> Headed
    ensures reach { Reaches 12 0 result }
{
    let head = Head {
        n: 116,
        owed: 0,
        terms: 1,
    };
    match Unheaded::begin().head(buffer, head) {
        Ok(file) => file,
        Err(_) => unreachable!(),
    }
}

// A term and its locator after the head, and the end; the file's length. A shorter buffer is tried first, which refuses the term and hands the state back.
fn write_rest(file: Headed, buffer: &mut [u8; 41]) -> usize
    requires { Reaches 12 0 file }
{
    let term = Term {
        number: 7,
        limit: 0,
        bytes: b"rule",
    };
    let locator = Locator {
        start: 12,
        page: 1,
        place: 12,
        variant: 0,
    };
    let Declined { refusal: _, back } = match file.term(&mut buffer[0..21], term) {
        Ok(_) => unreachable!(),
        Err(declined) => declined,
    };
    let file = match back.term(buffer, term) {
        Ok(file) => file,
        Err(_) => unreachable!(),
    };
    let file = match file.locator(buffer, locator) {
        Ok(file) => file,
        Err(_) => unreachable!(),
    };
    match file.end(buffer) {
        Ok(length) => length,
        Err(_) => unreachable!(),
    }
}

// A small index file written record by record. files and stacks print bytes so too: a type that prints them, in a library, would owe the text that it prints, for one line of a loop.
fn write_file(rt: &HostRuntime) -> anyhow::Result<()> {
    let mut buffer = [0u8; 41];
    let file = write_head(&mut buffer);
    let length = write_rest(file, &mut buffer);
    print!(rt; "index file of {length} bytes:")?;
    for b in buffer {
        print!(rt; " {b}")?;
    }
    println!(rt; "")?;
    Ok(())
}

fn main(rt: HostRuntime) -> anyhow::Result<()> {
    hold_in_three_ways(&rt)?;
    let text = b"Reason is a rule of itself, and is ruled by none\x0cbut the reason of each";
    scan_by_each(&rt, &ByteGalley::new(text.to_vec(rt.alloc())?))?;
    write_file(&rt)
}
