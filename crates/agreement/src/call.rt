// A call on a reading.
#[derive(Clone, Copy, PartialEq, Eq, Debug)]
pub enum Call {
    Put(u8),
    TakeBack,
    Look,
    List,
    Score,
}
