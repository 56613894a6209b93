// Writes index files record by record into buffers of every length, and prints what was refused and what stands in the buffers. What it prints is held to a plain C encoder in reference/.
#![tactic(auto)]

ghost use Rattle.std.specs.Prelude.{◌≡◌, ◌+◌, ◌<◌, ◌≤◌, min, length, IfErr};
ghost use Rattle.files.specs.Steps.{Grows, Tried};

use index_file::record::{Head, Term};
use index_file::state::{Headed, Unheaded};
use rules::declined::Declined;
use rules::locator::Locator;
use rules::refusal::Refusal;
use telling::sums::sum_of;

// What stands between a file's head and its end.
#[derive(Clone, Copy)]
enum Entry<'a> {
    Term(Term<'a>),
    Locator(Locator),
}

// A file that is to be written: its name, its head and its entries.
#[derive(Clone, Copy)]
struct Plan<'a> {
    name: &'a str,
    head: Head,
    entries: [Entry<'a>; 6],
}

// The buffer that a file is written into, and the spare one for the records that are refused there.
#[derive(Drop)]
struct Buffers<'a> {
    buffer: &'a mut [u8],
    spare: [u8; 1024],
}

impl Buffers<'_> {
    // Takes a step of a file in the buffer or, where that is refused, in the spare one; what it was refused with in the buffer.
    fn step<S, T, F: Fn(S, &mut [u8]) -> Result<T, Declined<S>>>(
        &mut self,
        state: S,
        step: F,
    ) -> (Result<T, Declined<S>>, Option<Refusal>)
        requires { F.IsAlwaysCallable step }
        ensures tried { Tried F.Fn step state self.old.buffer.now self.old.spare result.0 result.1 }
    {
        match step(state, self.buffer) {
            Ok(next) => (Ok(next), None),
            Err(Declined { refusal, back }) => (step(back, &mut self.spare), Some(refusal)),
        }
    }

    // Writes the head.
    fn start(&mut self, begun: Unheaded, given: Head) -> (Headed, Option<Refusal>)
        ensures reach { result.0.at ≤ 12 }
    {
        let (answer, refusal) = self.step(begun, |begun: Unheaded, lent| begun.head(lent, given));
        match answer {
            Ok(file) => (file, refusal),
            Err(_) => unreachable!(),
        }
    }

    // Writes an entry; a term that is refused for its length is left out.
    fn add(&mut self, file: Headed, entry: Entry<'_>) -> (Headed, Option<Refusal>)
        ensures reach { result.0.at ≤ file.at + 70 }
    {
        let (answer, refusal) = self.step(file, |file: Headed, lent| entered(file, lent, entry));
        match answer {
            Ok(file) => (file, refusal),
            Err(Declined { refusal: _, back }) => (back, refusal),
        }
    }

    // Writes the end; the file's length.
    fn finish(&mut self, file: Headed) -> (usize, Option<Refusal>)
        requires { file.at ≤ 1016 }
    {
        let (answer, refusal) = self.step(file, |file: Headed, lent| ended(file, lent));
        match answer {
            Ok(length) => (length, refusal),
            Err(_) => unreachable!(),
        }
    }

    // Writes the file; its length, and what each record was refused with.
    fn write(&mut self, plan: &Plan<'_>) -> (usize, [Option<Refusal>; 8]) {
        let mut refusals = [None; 8];
        let begun = Unheaded::begin();
        let (mut file, refusal) = self.start(begun, plan.head);
        refusals[0] = refusal;
        for (i, entry) in plan.entries.iter().enumerate() {
            let (next, refusal) = self.add(file, *entry);
            file = next;
            refusals[i + 1] = refusal;
        }
        let (length, refusal) = self.finish(file);
        refusals[7] = refusal;
        (length, refusals)
    }
}

// Writes the end into the buffer.
fn ended(file: Headed, buffer: &mut [u8]) -> Result<usize, Declined<Headed>>
    ensures cramped { IfErr result (λ d. (d.back ≡ file) × (min (length buffer.old) 4294967295 < file.at + 8)) }
{
    file.end(buffer)
}

// Writes an entry into the buffer.
fn entered(file: Headed, buffer: &mut [u8], entry: Entry<'_>) -> Result<Headed, Declined<Headed>>
    ensures grows { Grows file result }
{
    match entry {
        Entry::Term(term) => file.term(buffer, term),
        Entry::Locator(locator) => file.locator(buffer, locator),
    }
}

// A term of these fields.
fn term(number: u8, limit: u8, bytes: &[u8]) -> Entry<'_> {
    Entry::Term(Term {
        number,
        limit,
        bytes,
    })
}

// A locator of these fields.
fn locator<'a>(start: u16, page: u16, place: u16, variant: u8) -> Entry<'a> {
    Entry::Locator(Locator {
        start,
        page,
        place,
        variant,
    })
}

// The file of two terms with one and three locators.
fn sample<'a>() -> Plan<'a> {
    Plan {
        name: "sample",
        head: Head {
            n: 22,
            owed: 0,
            terms: 2,
        },
        entries: [
            term(3, 0, b"cat"),
            locator(4, 1, 4, 0),
            term(5, 1, b"cat"),
            locator(4, 1, 4, 0),
            locator(8, 1, 8, 1),
            locator(19, 2, 7, 1),
        ],
    }
}

// The largest numbers in every field, all byte values in terms, a term too short and one too long; locators before terms.
fn extremes(values: &[u8; 128]) -> Plan<'_> {
    let most = locator(65535, 65535, 65535, 255);
    Plan {
        name: "extremes",
        head: Head {
            n: 4294967295,
            owed: 65535,
            terms: 65535,
        },
        entries: [
            most,
            term(255, 255, &values[0..64]),
            term(1, 0, b""),
            term(2, 0, &values[0..65]),
            term(0, 0, &values[64..128]),
            most,
        ],
    }
}

// Writes the file into the first `room` bytes of the buffer, and prints its length, what each record was refused with, 0 for nothing, and the sums of both buffers.
fn show(rt: &HostRuntime, plan: &Plan<'_>, buffer: &mut [u8], room: usize) -> anyhow::Result<()> {
    let room = room.min(buffer.len());
    let mut buffers = Buffers {
        buffer: &mut buffer[0..room],
        spare: [85; 1024],
    };
    let (length, refusals) = buffers.write(plan);
    let spare_sum = sum_of(0, &buffers.spare);
    let sum = sum_of(0, buffer);
    print!(rt; "{}: {length} bytes, refused", plan.name)?;
    for refusal in refusals {
        print!(rt; " {}", refusal.map_or(0, u8::from))?;
    }
    println!(rt; ", sums {sum} {spare_sum}")?;
    Ok(())
}

// Prints the bytes of the sample. parts and stacks print bytes so too: a type that prints them, in a library, would owe the text that it prints, for one line of a loop.
fn print_sample(rt: &HostRuntime) -> anyhow::Result<()> {
    let mut buffer = [0u8; 82];
    let mut buffers = Buffers {
        buffer: &mut buffer,
        spare: [0; 1024],
    };
    let (length, _) = buffers.write(&sample());
    print!(rt; "{length}:")?;
    for b in buffer {
        print!(rt; " {b}")?;
    }
    println!(rt; "")?;
    Ok(())
}

fn main(rt: HostRuntime) -> anyhow::Result<()> {
    print_sample(&rt)?;
    for room in 0..86 {
        show(&rt, &sample(), &mut [170; 128], room)?;
    }
    let values = std::array::from_fn(|i| (2 * i + 1) as u8);
    for room in [0, 11, 12, 22, 23, 92, 93, 162, 163, 173, 174, 181, 182, 256] {
        show(&rt, &extremes(&values), &mut [170; 256], room)?;
    }
    Ok(())
}
