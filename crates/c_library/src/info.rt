//! What a call returns besides its status.

/// What a call returns besides its status.
#[repr(C)]
#[derive(Clone, Copy)]
pub struct Info {
    /// How many bytes of the buffer the output or the names take.
    pub len: usize,
    /// How many names there are.
    pub count: usize,
    /// If the buffer is too small, the length of the output or the names; else 0.
    pub needed: usize,
    /// The code of a refusal or a fault.
    pub code: u32,
}
