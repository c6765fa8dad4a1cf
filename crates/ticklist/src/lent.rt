// What is lent: the lengths of docs/STORAGE.md, exactly. Each room is made by a function of its own that promises nothing: an array's type tells its
// length, and where a contract tells it too the check takes twice the time.

// Twice what a record that still lacks bytes can have, so that there is always room to read on.
pub(crate) fn buffer_room() -> [u8; 131072] {
    [0; 131072]
}

pub(crate) fn nums_room() -> [u32; 12991] {
    [0; 12991]
}

pub(crate) fn biases_room() -> [f32; 5222] {
    [0.0; 5222]
}

pub(crate) fn wires_room() -> [u32; 507904] {
    [0; 507904]
}

pub(crate) fn coefs_room() -> [f32; 507904] {
    [0.0; 507904]
}

pub(crate) fn work_nums_room() -> [usize; 13920] {
    [0; 13920]
}

pub(crate) fn work_biases_room() -> [f32; 6960] {
    [0.0; 6960]
}

pub(crate) fn work_wires_room() -> [u32; 262144] {
    [0; 262144]
}

pub(crate) fn work_coefs_room() -> [f32; 262144] {
    [0.0; 262144]
}
