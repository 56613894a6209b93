// Plays every galley and stacks of layers over buffers of telling lengths: every byte value put and read back, fetches at the end, what comes back. What it prints is held to plain lists in reference/.
#![tactic(auto)]

use galleys::byte::ByteGalley;
use galleys::galley::Galley;
use galleys::six_bit::SixBitGalley;
use layers::folded::FoldedGalley;
use layers::paste_up::PasteUp;
use rules::refusal::Refusal;
use std::alloc::{AllocError, Global};
use telling::answers::code;
use telling::sums::{drawn, sum_of};

// A buffer of n bytes of all values. edges draws a text so: the two differ in the seed and in the byte that is made of a draw, for a loop of two lines.
fn make_buffer(heap: Global, n: usize) -> Result<Vec<u8>, AllocError> {
    let mut buffer = Vec::new(heap);
    let mut seed = 7u32;
    for _ in 0..n {
        seed = drawn(seed);
        buffer.push((seed >> 16 & 255) as u8)?;
    }
    Ok(buffer)
}

// What a fetch of `l` bytes answers, of at most 127. Here and below an array is cut to its length, since a fetch fills what it is lent.
fn try_fetch<G: Galley>(galley: &G, at: usize, l: usize) -> Result<(), Refusal> {
    let mut buffer = [0u8; 127];
    galley.fetch(at, &mut buffer[..l.min(127)])
}

// The running sum with the `l` bytes of the text from `at` on, at most 127.
fn sum_part<G: Galley>(galley: &G, sum: u32, at: usize, l: usize) -> u32 {
    let mut buffer = [0u8; 127];
    let part = &mut buffer[..l.min(127)];
    match galley.fetch(at, part) {
        Ok(()) => sum_of(sum, part),
        Err(_) => sum,
    }
}

// The running sum of the text, fetched in parts of 127 bytes.
fn sum_text<G: Galley>(galley: &G) -> u32 {
    let n = galley.length();
    let mut sum = 0;
    for at in (0..n).step_by(127) {
        sum = sum_part(galley, sum, at, n - at);
    }
    sum
}

// Puts every byte value somewhere and reads it back; the running sum of what is read.
fn put_all<G: Galley>(galley: &mut G) -> u32 {
    let n = galley.length().max(1);
    let mut sum = 0;
    for b in 0..=255u8 {
        let at = b as usize * 61 % n;
        let mut read = [0u8; 1];
        let put = code(galley.put(at, b));
        let fetched = code(galley.fetch(at, &mut read));
        sum = sum_of(sum, &[put, fetched, read[0], galley.show(b)]);
    }
    sum
}

// Fetches and puts at the text's end, one past it and where the sum passes the largest number.
fn ends<G: Galley>(rt: &HostRuntime, galley: &mut G) -> anyhow::Result<()> {
    let n = galley.length();
    let last = n.saturating_sub(1);
    print!(rt; "  ends:")?;
    for (at, l) in [
        (n, 0),
        (last, 1),
        (n, 1),
        (last, 2),
        (n.saturating_sub(127), 127),
        (n.saturating_sub(126), 127),
        (usize::MAX, 0),
        (usize::MAX, 1),
    ] {
        let answer = code(try_fetch(galley, at, l));
        print!(rt; " {answer}")?;
    }
    let past = code(galley.put(n, b'a'));
    let far = code(galley.put(usize::MAX, b'a'));
    println!(rt; " {past} {far}")?;
    Ok(())
}

// A galley played, and what is below it given back.
fn play<G: Galley>(rt: &HostRuntime, name: &str, galley: &mut G) -> anyhow::Result<()> {
    let n = galley.length();
    let before = sum_text(galley);
    let read = put_all(galley);
    let after = sum_text(galley);
    println!(rt; "{name}: {n} {before} {read} {after}")?;
    ends(rt, galley)
}

// The buffer that comes back.
fn back(rt: &HostRuntime, buffer: Vec<u8>) -> anyhow::Result<()> {
    let l = buffer.len();
    let sum = sum_of(0, buffer.as_slice());
    println!(rt; "  back: {l} {sum}")?;
    Ok(())
}

// Galleys and layers of one kind each.
fn plain(rt: &HostRuntime, l: usize) -> anyhow::Result<()> {
    let mut byte = ByteGalley::new(make_buffer(rt.alloc(), l)?);
    play(rt, "byte", &mut byte)?;
    back(rt, byte.into_buffer())?;
    let mut six = SixBitGalley::new(make_buffer(rt.alloc(), l)?);
    play(rt, "six-bit", &mut six)?;
    back(rt, six.into_buffer())?;
    let mut folded = FoldedGalley::new(SixBitGalley::new(make_buffer(rt.alloc(), l)?));
    play(rt, "folded six-bit", &mut folded)?;
    back(rt, folded.into_below().into_buffer())
}

// Paste-ups: how many bytes they hold is told too.
fn pasted(rt: &HostRuntime, l: usize) -> anyhow::Result<()> {
    let mut byte = PasteUp::new(ByteGalley::new(make_buffer(rt.alloc(), l)?));
    play(rt, "paste-up byte", &mut byte)?;
    let held = byte.held();
    println!(rt; "  held: {held}")?;
    back(rt, byte.into_below().into_buffer())?;
    let mut twice = PasteUp::new(PasteUp::new(ByteGalley::new(make_buffer(rt.alloc(), l)?)));
    play(rt, "paste-up paste-up byte", &mut twice)?;
    let upper = twice.held();
    let below = twice.into_below();
    let lower = below.held();
    println!(rt; "  held: {upper} {lower}")?;
    back(rt, below.into_below().into_buffer())
}

// Layers over layers.
fn stacked(rt: &HostRuntime, l: usize) -> anyhow::Result<()> {
    let six = SixBitGalley::new(make_buffer(rt.alloc(), l)?);
    let mut stack = FoldedGalley::new(PasteUp::new(six));
    play(rt, "folded paste-up six-bit", &mut stack)?;
    back(rt, stack.into_below().into_below().into_buffer())?;
    let byte = ByteGalley::new(make_buffer(rt.alloc(), l)?);
    let mut stack = PasteUp::new(FoldedGalley::new(byte));
    play(rt, "paste-up folded byte", &mut stack)?;
    back(rt, stack.into_below().into_below().into_buffer())
}

// How many are held as one byte after the other is pasted: up to 32, the 33rd, a replaced one, a spill.
fn holding(rt: &HostRuntime) -> anyhow::Result<()> {
    let mut paste_up = PasteUp::new(ByteGalley::new(make_buffer(rt.alloc(), 100)?));
    print!(rt; "held:")?;
    for at in 0..40 {
        let answer = code(paste_up.put(at * 2, b'*'));
        let again = code(paste_up.put(at * 2, b'+'));
        let held = paste_up.held();
        print!(rt; " {answer}{again}{held}")?;
    }
    let before = sum_text(&paste_up);
    paste_up.spill();
    let held = paste_up.held();
    let after = sum_text(&paste_up);
    println!(rt; ", spilled {held}, text {before} {after}")?;
    back(rt, paste_up.into_below().into_buffer())
}

// Puts the word at the galley's start, up to the first refusal; parts does so too, and a library would owe what the text then is, for a loop of one line.
fn set_word<G: Galley>(galley: &mut G, word: &[u8]) -> Result<(), Refusal> {
    for (at, b) in word.iter().enumerate() {
        galley.put(at, *b)?;
    }
    Ok(())
}

// Prints the bytes as numbers. The loop stands in files and parts too: a type that prints them, in a library, would owe the text that it prints, for one line of a loop.
fn print_bytes(rt: &HostRuntime, name: &str, bytes: &[u8]) -> anyhow::Result<()> {
    print!(rt; "{name}:")?;
    for b in bytes {
        print!(rt; " {b}")?;
    }
    println!(rt; "")?;
    Ok(())
}

// How one word is packed, and how one stands folded.
fn words(rt: &HostRuntime) -> anyhow::Result<()> {
    let mut six = SixBitGalley::new([255u8; 4].to_vec(rt.alloc())?);
    let refused = code(set_word(&mut six, b"cat\t"));
    println!(rt; "put 'cat' and a tab: {refused}")?;
    let buffer = six.into_buffer();
    print_bytes(rt, "packed", buffer.as_slice())?;
    let mut folded = FoldedGalley::new(ByteGalley::new([0u8; 4].to_vec(rt.alloc())?));
    let refused = code(set_word(&mut folded, b"KANT"));
    println!(rt; "put 'KANT': {refused}")?;
    let mut text = [0u8; 4];
    let answer = code(folded.fetch(0, &mut text));
    println!(rt; "fetch: {answer}")?;
    print_bytes(rt, "folded", &text)
}

fn main(rt: HostRuntime) -> anyhow::Result<()> {
    for l in [0, 1, 2, 3, 4, 5, 12287, 12288, 12289, 16385] {
        println!(&rt; "buffer of {l} bytes")?;
        plain(&rt, l)?;
        pasted(&rt, l)?;
        stacked(&rt, l)?;
    }
    holding(&rt)?;
    words(&rt)
}
