// The least number that isn't in a list, in time linear in its length.
ghost use Rattle.std.specs.Prelude.{◌≡◌, IfOk};
ghost use Rattle.table_names.specs.Marks.{first_unmarked, marks_of, with_mark, IsLeastMissing};

use std::alloc::{AllocError, Global};

/// The least number from 1 on that isn't among these.
pub(crate) fn least_missing(alloc: Global, numbers: &[u64]) -> Result<u64, AllocError>
    ensures { IfOk result (λ number. IsLeastMissing numbers.now number) }
{
    let marks = marks_of(alloc, numbers)?;
    Ok(first_unmarked(marks.as_slice()) as u64)
}

#[tactic(auto, unfolding(crate::specs::Marks::marked))]
fn marks_of(alloc: Global, numbers: &[u64]) -> Result<Vec<bool>, AllocError>
    ensures { IfOk result (λ marks. marks.items ≡ marks_of numbers.now) }
{
    let mut marks = vec![in alloc; false; numbers.len() + 2]?;
    mark(marks.as_mut_slice(), 0);
    for number in numbers {
        mark(marks.as_mut_slice(), *number);
    }
    Ok(marks)
}

// Marks the place of a number, if there is such a place.
fn mark(marks: &mut [bool], number: u64)
    ensures { marks.new ≡ with_mark marks.old number }
{
    if number < marks.len() as u64 {
        marks[number as usize] = true;
    }
}

fn first_unmarked(marks: &[bool]) -> usize
    ensures { result ≡ first_unmarked marks.now }
{
    marks.iter().position(|mark| !*mark).unwrap_or(marks.len())
}
