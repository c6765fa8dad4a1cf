// What compiling is lent to work in, and how much of it. The code is crate `lower`; what it leaves in storage is said in specs/.
#![tactic(auto)]

// The work room: the table of forms that are built, and the two pools of their terms.
#[derive(Drop)]
pub struct WorkRoom<'a> {
    pub nums: &'a mut [usize],
    pub biases: &'a mut [f32],
    pub wires: &'a mut [u32],
    pub coefs: &'a mut [f32],
}

// The lengths of the slices, one number each for all trees.
impl WorkRoom<'_> {
    // The table of forms: two numbers and a bias a slot.
    pub const NUMS: usize = 13920;

    pub const BIASES: usize = 6960;

    // The terms of working forms, in each of two pools.
    pub const TERMS: usize = 262144;
}
