// What is lent to a circuit that is to be written: its numbers, its biases, and the two pools of its terms.

#[derive(Drop)]
pub struct Storage<'a> {
    pub nums: &'a mut [u32],
    pub biases: &'a mut [f32],
    pub wires: &'a mut [u32],
    pub coefs: &'a mut [f32],
}
