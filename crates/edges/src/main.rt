// Plays the edges: galleys of telling lengths, all sixteen terms, too many pages, sheets with every fault. What it prints is held to what the plain search in reference/ finds.
#![tactic(auto)]

use book::whole::open_pages;
use galleys::byte::ByteGalley;
use indexer::index::Indexer;
use matchers::comparer::Comparer;
use rules::locator::Locator;
use rules::refusal::Refusal;
use std::alloc::{AllocError, Global};
use telling::answers::code;
use telling::sums::{drawn, mixed};
use term_sheet::enters::enter_sheet;

type Book = Indexer<Comparer, ByteGalley>;

// A text of few letters, so that terms occur often and overlap.
fn make_text(heap: Global, n: usize) -> Result<Vec<u8>, AllocError> {
    let letters = b"abAB \n";
    let mut text = Vec::new(heap);
    let mut seed = 1u32;
    for _ in 0..n {
        seed = drawn(seed);
        text.push(letters[(seed >> 16) as usize % 6])?;
    }
    Ok(text)
}

// The text's last three bytes, where it has so many.
fn last_three(text: &[u8]) -> [u8; 3] {
    match text {
        [.., a, b, c] => [*a, *b, *c],
        _ => *b"zzz",
    }
}

// Prints the number of an answer: 0, or the refusal's.
fn print_answer(
    rt: &HostRuntime,
    action: &str,
    number: usize,
    answer: Result<(), Refusal>,
) -> anyhow::Result<()> {
    let refused = code(answer);
    println!(rt; "{action} {number}: {refused}")?;
    Ok(())
}

// A term of the table: its limit and its bytes.
#[derive(Clone, Copy)]
struct Short<'a> {
    limit: usize,
    bytes: &'a [u8],
}

// Enters the terms one after the other, from the number on.
fn enter_all(
    rt: &HostRuntime,
    book: &mut Book,
    from: usize,
    terms: &[Short],
) -> anyhow::Result<()> {
    for (number, term) in (from..).zip(terms) {
        print_answer(
            rt,
            "enter",
            number,
            book.enter(number, term.limit, term.bytes),
        )?;
    }
    Ok(())
}

// Enters sixteen terms and one too many: short ones, the text's end, terms longer than short texts, terms that never occur.
fn enter_terms(rt: &HostRuntime, book: &mut Book, end: &[u8]) -> anyhow::Result<()> {
    enter_all(
        rt,
        book,
        0,
        &[
            Short {
                limit: 0,
                bytes: b"a",
            },
            Short {
                limit: 0,
                bytes: b"ab",
            },
            Short {
                limit: 1,
                bytes: b"ab",
            },
            Short {
                limit: 1,
                bytes: b"bB",
            },
            Short {
                limit: 2,
                bytes: b"aba",
            },
            Short {
                limit: 0,
                bytes: b" ",
            },
            Short {
                limit: 1,
                bytes: b"\na",
            },
            Short {
                limit: 2,
                bytes: b" \n ",
            },
        ],
    )?;
    enter_all(
        rt,
        book,
        8,
        &[
            Short {
                limit: 0,
                bytes: end,
            },
            Short {
                limit: 2,
                bytes: end,
            },
            Short {
                limit: 0,
                bytes: &[b'a'; 64],
            },
            Short {
                limit: 63,
                bytes: &[b'b'; 64],
            },
            Short {
                limit: 3,
                bytes: b"AbaB",
            },
            Short {
                limit: 0,
                bytes: b"zz",
            },
            Short {
                limit: 1,
                bytes: b"BB",
            },
            Short {
                limit: 4,
                bytes: b"a b a",
            },
            Short {
                limit: 0,
                bytes: b"a",
            },
        ],
    )
}

// Prints how many locators the term has and their running sum; each of them too where the text is short. `each` adds one print; a closure for it would be no plainer.
// The loop asks from behind the last locator on: an iterator over them would be no plainer, since it has to say what it gives and that it ends. bookindex asks so too, but keeps what it is given.
fn list(rt: &HostRuntime, book: &Book, number: usize, each: bool) -> anyhow::Result<()> {
    let mut count = 0u32;
    let mut sum = 0u32;
    let mut from = 0;
    for _ in 0..16384 {
        let Ok(Some(locator)) = book.locator(number, from) else {
            break;
        };
        let Locator {
            start,
            page,
            place,
            variant,
        } = locator;
        if each {
            println!(rt; "{number}: {start} {page} {place} {variant}")?;
        }
        for value in [start, page, place, variant as u16] {
            sum = mixed(sum, value as u32);
        }
        count = count.wrapping_add(1);
        from = start as usize + 1;
    }
    println!(rt; "{number}: {count} locators, sum {sum}")?;
    Ok(())
}

// Opens a page at every 60th place, up to the 300th of them.
fn page_all(heap: Global, book: &mut Book) -> Result<(), AllocError> {
    let mut starts = Vec::new(heap);
    for start in (60..=18000).step_by(60) {
        starts.push(start)?;
    }
    open_pages(book, starts.as_slice());
    Ok(())
}

// A galley of n bytes, indexed in runs of `step` units.
fn play(rt: &HostRuntime, n: usize, step: usize) -> anyhow::Result<()> {
    println!(rt; "galley of {n} bytes")?;
    let text = make_text(rt.alloc(), n)?;
    let end = last_three(text.as_slice());
    let mut book = Indexer::new(Comparer::new(), ByteGalley::new(text), 1);
    page_all(rt.alloc(), &mut book)?;
    enter_terms(rt, &mut book, &end)?;
    let (_, owed) = book.run(0);
    println!(rt; "owed {owed}")?;
    let (done, left) = book.run(step);
    println!(rt; "done {done} left {left}")?;
    let (done, left) = book.run(5000);
    println!(rt; "done {done} left {left}")?;
    for number in 0..16 {
        list(rt, &book, number, n < 100)?;
    }
    Ok(())
}

// Which refusal the next pages of a full book get: in the text, at the last page, past the text.
fn page_too_many(rt: &HostRuntime) -> anyhow::Result<()> {
    let mut book = Indexer::new(
        Comparer::new(),
        ByteGalley::new(make_text(rt.alloc(), 16384)?),
        1,
    );
    page_all(rt.alloc(), &mut book)?;
    print_answer(rt, "page", 257, book.page(16383))?;
    print_answer(rt, "page", 255, book.page(255 * 60))?;
    print_answer(rt, "page", 273, book.page(16384))
}

// What a sheet is answered, entered into an empty book.
fn sheet(rt: &HostRuntime, bytes: &[u8]) -> anyhow::Result<()> {
    let mut book = Indexer::new(
        Comparer::new(),
        ByteGalley::new(make_text(rt.alloc(), 70)?),
        1,
    );
    let answer = enter_sheet(&mut book, bytes);
    let (_, owed) = book.run(0);
    match answer {
        Ok(()) => println!(rt; "accepted, {owed} units owed")?,
        Err(fault) => println!(rt; "{fault}, {owed} units owed")?,
    }
    Ok(())
}

// Sheets without a fault, with one of the sheet's own, and with a term that the indexer refuses.
fn sheets(rt: &HostRuntime) -> anyhow::Result<()> {
    let all: [&[u8]; 21] = [
        b"",
        b"\n\n",
        b"3 0 cat",
        b"3 0 cat\n\n015 001 a b\r\n",
        b"3 0 cat\nb 1 cat",
        b"3",
        b"3 ",
        b"3 0",
        b"3 0\n4 0 a",
        b"\n 3 0 cat",
        b"0003 0 cat",
        b"3 -1 cat",
        b"3 0 cat\n4 1x cat",
        b"16 0 cat",
        b"999 0 cat\n3",
        b"3 0 ",
        b"1 0 a\n3 0 \n4 0 b",
        b"2 0 a\n3 3 cat",
        b"3 0 cat\n3 0 dog",
        b"3 0 aaaaaaaaaaaaaaaaaaaaaaaaaaaaaaaaaaaaaaaaaaaaaaaaaaaaaaaaaaaaaaaa",
        b"3 0 aaaaaaaaaaaaaaaaaaaaaaaaaaaaaaaaaaaaaaaaaaaaaaaaaaaaaaaaaaaaaaaaa",
    ];
    for bytes in all {
        sheet(rt, bytes)?;
    }
    Ok(())
}

fn main(rt: HostRuntime) -> anyhow::Result<()> {
    for (n, step) in [(0, 1), (1, 1), (63, 3), (64, 15), (65, 17), (16384, 1000)] {
        play(&rt, n, step)?;
    }
    page_too_many(&rt)?;
    sheets(&rt)
}
