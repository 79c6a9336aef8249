// Prints what the calls wrote.
ghost use Rattle.std.specs.Prelude.{◌<◌};

use crate::buffers::NOISE;
use std::{fmt, io};

// Prints the mesh that a call wrote into an output, if it was accepted, and returns its list. Says whether more was
// written. (The refusal is a number, as the answers that C takes have it.)
pub fn print_mesh<'a, R: Print>(
    rt: &R,
    output: &'a [u16],
    refusal: u64,
    triangles: u64,
) -> io::Result<Option<&'a [u16]>> {
    let entries = (triangles as usize).saturating_mul(3);
    print_output(rt, output, (refusal == 0).then_some(entries))
}

// Prints what a call wrote into an output, which is so many entries, or nothing where it was refused, and returns it.
// Says how many entries after them are not as they were lent, if any.
pub fn print_output<'a, R: Print>(
    rt: &R,
    output: &'a [u16],
    entries: Option<usize>,
) -> io::Result<Option<&'a [u16]>> {
    let written = entries.map(|count| start(output, count));
    if let Some(list) = written {
        println!(rt; "{}", Listed(list))?;
    }
    let after = output.iter().skip(entries.unwrap_or(0));
    say_dirty(rt, after.filter(|entry| **entry != NOISE).count())?;
    Ok(written)
}

// Says how many of the entries of work buffers that were lent are not zero, if any.
pub fn say_left<R: Print>(rt: &R, work: &[&[u16]]) -> io::Result<()> {
    let left = work.iter().map(|buffer| buffer.iter().filter(|entry| **entry != 0).count());
    say_dirty(rt, left.fold(0, usize::saturating_add))
}

// Says that so many entries are not as they have to be, if any.
fn say_dirty<R: Print>(rt: &R, count: usize) -> io::Result<()> {
    if count == 0 {
        return Ok(());
    }
    println!(rt; "dirty {count}")
}

// The first `count` entries of a list, or all that there are (a list is taken no further than it goes, even by a wrong
// answer).
fn start(list: &[u16], count: usize) -> &[u16] {
    &list[..count.min(list.len())]
}

// The most entries that are printed one by one.
const PRINTED: usize = 96;

// A list as it is printed: how many entries it has, a colon, and the entries, or where they are many the first three,
// the last three and a sum of all.
#[derive(Drop)]
pub struct Listed<'a>(pub &'a [u16]);

impl fmt::Display for Listed<'_> {
    fn fmt<W: fmt::Write>(&self, f: &mut fmt::Formatter<W>) -> fmt::Result {
        let list = self.0;
        let count = list.len();
        write!(f, "{count}:")?;
        if count <= PRINTED {
            return write!(f, "{}", Entries(list));
        }
        let first = Entries(&list[..3]);
        let last = Entries(&list[count - 3..]);
        let sum = mixed_sum(list);
        write!(f, "{first}{last} {sum}")
    }
}

// Numbers as they are printed: each with a blank before it.
#[derive(Drop)]
pub struct Entries<'a, T>(pub &'a [T]);

impl<T: fmt::Display> fmt::Display for Entries<'_, T> {
    fn fmt<W: fmt::Write>(&self, f: &mut fmt::Formatter<W>) -> fmt::Result {
        for entry in self.0 {
            write!(f, " {entry}")?;
        }
        Ok(())
    }
}

// A sum of the entries, in which each place counts differently.
fn mixed_sum(list: &[u16]) -> u64 {
    let mut sum = 0;
    for entry in list {
        sum = with_entry(sum, *entry);
    }
    sum
}

// The sum with an entry more.
fn with_entry(sum: u64, entry: u16) -> u64
    requires { sum < 1000003 }
    ensures { result < 1000003 }
{
    (31 * sum + u64::from(entry) + 1) % 1000003
}
