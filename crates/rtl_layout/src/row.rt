/// A row of the scrambling: the bits of the index that it names, and its constant bit.
#[derive(Clone, Copy)]
pub struct Row {
    pub mask: u64,
    pub flip: bool,
}

impl Default for Row {
    fn default() -> Self {
        Row {
            mask: 0,
            flip: false,
        }
    }
}
