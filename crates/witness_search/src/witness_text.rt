//! The text of a witness, in blocks.

use case_forms::{OutOfMemory, Step, Steps, Version, Witness};
use std::alloc::Global;
use witness::{print_witness, push_step};

// How many steps a block has.
const STEPS: usize = 32;

/// The text of a witness, in blocks of whole lines. They fit where parts of the trace were freed; one text of this
/// length would need new memory.
pub(crate) fn witness_blocks(
    alloc: Global,
    witness: &Witness,
) -> Result<Vec<Vec<u8>>, OutOfMemory> {
    let mut blocks = Vec::new(alloc);
    let mut text = first_line(alloc, witness.version)?;
    blocks.push(Vec::from_slice(alloc, text.as_slice())?)?;
    for steps in witness.steps.as_slice().chunks(STEPS) {
        text.clear();
        push_steps(&mut text, steps)?;
        blocks.push(Vec::from_slice(alloc, text.as_slice())?)?;
    }
    Ok(blocks)
}

// The first line of a witness.
fn first_line(alloc: Global, version: Version) -> Result<Vec<u8>, OutOfMemory> {
    let steps = Steps::new(alloc);
    print_witness(alloc, &Witness { version, steps })
}

// Writes these steps.
fn push_steps(out: &mut Vec<u8>, steps: &[Step]) -> Result<(), OutOfMemory> {
    for step in steps {
        push_step(out, step)?;
    }
    Ok(())
}
