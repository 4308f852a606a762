//! Every value of every byte of an image.
use image::Load;
use refusal::Refusal;
use std::alloc::{AllocError, Global};
use std::fmt;

// How these bytes are refused, if they are.
fn refusal_of<T: Load>(bytes: Vec<u8>) -> Option<Refusal> {
    T::load(bytes).err().map(|back| back.why)
}

// The bytes with another value at a place.
fn with_byte(heap: Global, bytes: &[u8], at: usize, value: u8) -> Result<Vec<u8>, AllocError> {
    let mut changed = bytes.to_vec(heap)?;
    if let Some(byte) = changed.get_mut(at) {
        *byte = value;
    }
    Ok(changed)
}

// The values of the byte at a place, from the first to the last, that have one answer.
#[derive(Clone, Copy)]
struct Run {
    at: usize,
    first: u8,
    last: u8,
    answer: Option<Refusal>,
}

impl fmt::Display for Run {
    fn fmt<W: fmt::Write>(&self, f: &mut fmt::Formatter<W>) -> fmt::Result {
        let Run {
            at,
            first,
            last,
            answer,
        } = self;
        match answer {
            None => write!(f, "{at} {first} {last} accepted"),
            Some(why) => write!(f, "{at} {first} {last} refused {why}"),
        }
    }
}

fn sweep_byte<T: Load>(rt: &HostRuntime, bytes: &[u8], at: usize) -> anyhow::Result<()> {
    let mut run = Run {
        at,
        first: 0,
        last: 0,
        answer: refusal_of::<T>(with_byte(rt.alloc(), bytes, at, 0)?),
    };
    for value in 1..=255u8 {
        let answer = refusal_of::<T>(with_byte(rt.alloc(), bytes, at, value)?);
        if answer != run.answer {
            println!(rt; "{run}")?;
            run.first = value;
            run.answer = answer;
        }
        run.last = value;
    }
    println!(rt; "{run}")?;
    Ok(())
}

// Prints what becomes of an image, for each value of each of its bytes.
pub(crate) fn sweep<T: Load>(rt: &HostRuntime, label: &str, bytes: &[u8]) -> anyhow::Result<()> {
    println!(rt; "{label}")?;
    for at in 0..bytes.len() {
        sweep_byte::<T>(rt, bytes, at)?;
    }
    Ok(())
}
