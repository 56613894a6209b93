// Runs every matcher on a table of terms and stretches, and asks for table words and states. What it prints is held to what the plain search in reference/ finds.
#![tactic(auto)]

mod case;
mod printed;
mod promises;

use case::{Case, Kind};
use matchers::comparer::Comparer;
use matchers::matcher::Matcher;
use printed::Printed;
use promises::{and_state, and_word, or_state, or_word};
use rules::refusal::Refusal;
use shifts::shift_and::ShiftAnd;
use shifts::shift_or::ShiftOr;
use windows::two_way::TwoWayShiftOr;

// The four matchers, prepared one after the other for the same terms.
#[derive(Drop)]
struct All {
    comparer: Comparer,
    shift_or: ShiftOr,
    two_way: TwoWayShiftOr,
    shift_and: ShiftAnd,
}

// The word of the stretch, by the matcher prepared for the term.
fn found<M: Matcher>(
    matcher: &mut M,
    term: &[u8],
    k: usize,
    stretch: &[u8],
) -> Result<u64, Refusal> {
    matcher.prepare(term, k)?;
    matcher.scan(stretch)
}

// One line: the words of the four matchers.
fn line(rt: &HostRuntime, all: &mut All, case: Case) -> anyhow::Result<()> {
    let term = case.term();
    let stretch = case.stretch();
    let k = case.k;
    // cut where they are lent; vectors of fixed capacity would be filled by loops
    let term = &term[..case.m.min(65)];
    let stretch = &stretch[..case.l.min(128)];
    let comparer = Printed::from(found(&mut all.comparer, term, k, stretch));
    let shift_or = Printed::from(found(&mut all.shift_or, term, k, stretch));
    let two_way = Printed::from(found(&mut all.two_way, term, k, stretch));
    let shift_and = Printed::from(found(&mut all.shift_and, term, k, stretch));
    println!(rt; "{case}: {comparer} {shift_or} {two_way} {shift_and}")?;
    Ok(())
}

// The lines of a kind and a length, for each limit and each length of the stretch.
fn lines(rt: &HostRuntime, all: &mut All, kind: Kind, m: usize) -> anyhow::Result<()> {
    let longest = m.max(1) - 1;
    for k in [0, 1, longest] {
        for l in [0, 1, longest, m, 63, 64, 126, 127, 128] {
            line(rt, all, Case { kind, m, k, l })?;
        }
    }
    Ok(())
}

// The table words of some bytes.
fn table_words(rt: &HostRuntime, all: &All, bytes: &[u8]) -> anyhow::Result<()> {
    for &byte in bytes {
        if let Ok(word) = or_word(&all.shift_or, byte) {
            println!(rt; "or table {byte}: {word}")?;
        }
        if let Ok(word) = all.two_way.table_word(byte) {
            println!(rt; "two-way table {byte}: {word}")?;
        }
        if let Ok(word) = and_word(&all.shift_and, byte) {
            println!(rt; "and table {byte}: {word}")?;
        }
    }
    Ok(())
}

// The states of the forward matchers after the first bytes of the stretch.
fn forward_states(rt: &HostRuntime, all: &All, stretch: &[u8]) -> anyhow::Result<()> {
    for n in 0..stretch.len() {
        let read = &stretch[..n];
        if let Ok(state) = or_state(&all.shift_or, read) {
            println!(rt; "or state {n}: {state}")?;
        }
        if let Ok(state) = and_state(&all.shift_and, read) {
            println!(rt; "and state {n}: {state}")?;
        }
    }
    Ok(())
}

// The states of the two-way matcher, window by window and step by step.
fn window_states(rt: &HostRuntime, all: &All, stretch: &[u8]) -> anyhow::Result<()> {
    for window in 0..5 {
        for step in 0..6 {
            let state = Printed(all.two_way.state(stretch, window, step));
            println!(rt; "window {window} step {step}: {state}")?;
        }
    }
    Ok(())
}

// Tables and states for the term, of which Shift-And takes the first byte in either case where there are two; a matcher that it does not fit keeps its own.
fn inside(rt: &HostRuntime, all: &mut All, term: &[u8], stretch: &[u8]) -> anyhow::Result<()> {
    let m = term.len();
    println!(rt; "inside {m}")?;
    let _ = all.shift_or.prepare(term, 0);
    let _ = all.two_way.prepare(term, 0);
    let _ = all.shift_and.prepare(term, m.min(2).max(1) - 1);
    table_words(rt, all, b"abAz \t")?;
    forward_states(rt, all, stretch)?;
    window_states(rt, all, stretch)
}

fn main(rt: HostRuntime) -> anyhow::Result<()> {
    let mut all = All {
        comparer: Comparer::new(),
        shift_or: ShiftOr::new(),
        two_way: TwoWayShiftOr::new(),
        shift_and: ShiftAnd::new(),
    };
    window_states(&rt, &all, b"")?;
    for kind in Kind::ALL {
        for m in [0, 1, 2, 31, 32, 33, 63, 64, 65] {
            lines(&rt, &mut all, kind, m)?;
        }
    }
    inside(&rt, &mut all, b"a", b"abcaa")?;
    inside(&rt, &mut all, b"ab", b"ababaB ab")?;
    inside(&rt, &mut all, b"abcab", b"xabcabcabxabcabc")?;
    inside(&rt, &mut all, &[b'a'; 64], &[b'a'; 66])
}
