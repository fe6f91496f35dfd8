// An open entry: its number and its value.
#[derive(Clone, Copy)]
pub struct Entry<V> {
    pub number: u32,
    pub value: V,
}
