//! What signals and variables hold at the start.
use scc_base::{List, NoMemory, push};
use scc_bits::Word;
use scc_elab_design::{Design, Object, ObjectNode};
use std::alloc::Global;

/// A word for each signal and variable, in construction order.
#[derive(Drop)]
pub struct Start {
    pub words: List<Word>,
}

impl Start {
    /// The word 0 for each; for each variable whose object's number stands in `constant` what construction left in it.
    pub fn zero(alloc: Global, d: &Design, constant: &[u32]) -> Result<Start, NoMemory> {
        let kept = marked(alloc, d.objects.len(), constant)?;
        let mut words = List::new(alloc);
        let mut number: usize = 0;
        for object in d.objects.as_slice() {
            let keeps = kept.get(number).copied().unwrap_or(false);
            if let Some(word) = first_word(object, keeps) {
                words.push(word)?;
            }
            number = number.saturating_add(1);
        }
        Ok(Start { words })
    }
}

// Whether each of so many numbers stands in a list.
fn marked(alloc: Global, n: usize, numbers: &[u32]) -> Result<Vec<bool>, NoMemory> {
    let mut list = Vec::new(alloc);
    for _ in 0..n {
        push(&mut list, false)?;
    }
    for number in numbers {
        if let Some(is) = list.get_mut(*number as usize) {
            *is = true;
        }
    }
    Ok(list)
}

fn first_word(object: &Object, keeps: bool) -> Option<Word> {
    match object.node {
        ObjectNode::Signal(_) => Some(Word { bits: 0 }),
        ObjectNode::Variable { value, .. } => {
            if keeps {
                Some(value)
            } else {
                Some(Word { bits: 0 })
            }
        }
        _ => None,
    }
}
