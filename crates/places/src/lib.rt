// A place among the roots and a place in the bundle: two kinds of number, counted from 0, and how many of each a card has at most.
// They are not one type with a const argument: a bundle place crosses to C in savuneco_path, which can't take such a type.
#![tactic(auto)]

#[derive(Clone, Copy)]
pub struct RootPlace(pub u8);

impl RootPlace {
    pub const MOST: usize = 64;
}

#[repr(C)]
#[derive(Clone, Copy)]
pub struct BundlePlace(pub u8);

impl BundlePlace {
    pub const MOST: usize = 24;
}
