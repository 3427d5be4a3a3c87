// What a call answered.
use fault::Fault;

// A refused call leaves its buffer as it was, which the contracts of the calls say; so no case tells whether it did.
#[derive(Drop)]
pub enum Answer {
    Done,
    Number(u64),
    Bytes(Vec<u8>),
    Words(Vec<u32>),
    // the five totals of a check, and its words
    Checked((u64, u64, u64, u64, u64), Vec<u32>),
    Refused(Fault),
    // a line that is no call
    Mistake(&'static str),
}
