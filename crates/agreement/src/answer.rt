use grammar::refusals::ReadingRefusal;

// What a call on a reading answered; a score is on a scale of the type S. (Each case holds its call's own result, refusals included: a
// step cites the call's relation, which speaks of it.)
#[derive(Clone, Copy, PartialEq, Eq, Debug)]
pub enum Answer<S> {
    Put(Result<u8, ReadingRefusal>),
    TakenBack(Result<u8, ReadingRefusal>),
    Looked(Result<(bool, u32), ReadingRefusal>),
    Listed(Result<usize, ReadingRefusal>),
    Scored(Result<S, ReadingRefusal>),
}
