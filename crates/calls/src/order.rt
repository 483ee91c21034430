// What a job is to do: a kind and four numbers, whose meaning the kind decides.
#[derive(Clone, Copy, Debug, PartialEq, Eq)]
pub struct Order {
    // Kept a number: each family numbers its own kinds, and a pair of families goes on counting behind the first.
    pub kind: u32,
    pub a: u32,
    pub b: u32,
    pub c: u32,
    pub d: u32,
}

// An order that no job can be made of.
#[derive(Clone, Copy, Debug, PartialEq, Eq)]
pub struct BadOrder;
