/// What is wrong in a module as it is written, with the number of bytes before it.
#[derive(Clone, Copy, Debug, PartialEq, Eq)]
pub enum Wrong {
    /// A width, a cast, a length, a literal, a divisor, a select or a label.
    Size(usize),
    /// A name that is not declared, or that was declared before.
    Name(usize),
    /// A name that is declared and stands where it may not: a variable that nothing drives, or two blocks; an input that is
    /// assigned; what is mentioned before it has a value; what an edge sets twice; a clock or a reset; what a reset loads. A
    /// reset's condition that is not that of its edge stands at its first byte.
    Driver(usize),
}
