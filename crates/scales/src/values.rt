ghost use Rattle.std.specs.Prelude.{◌≤◌};

// Whether there is a tree. (A type of its own, as the other two scales are; its field is public.)
#[derive(Clone, Copy, PartialEq, Eq, Debug)]
pub struct YesNo {
    pub yes: bool,
}

// How many trees there are; 4,294,967,295 stands for so many or more (no case of its own: sums and products stop there, and callers
// read it).
#[derive(Clone, Copy, PartialEq, Eq, Debug)]
pub struct Count {
    pub value: u32,
    ghost fits: { value ≤ 4294967295 },
}

// The smallest price of a tree; 4,294,967,295 stands for no tree (no option: it is the none of the scale, and the product, which adds
// and stops there, keeps it).
#[derive(Clone, Copy, PartialEq, Eq, Debug)]
pub struct Price {
    pub value: u32,
    ghost fits: { value ≤ 4294967295 },
}
