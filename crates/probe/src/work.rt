// The memory that the requests share: arrays, so that a `Count<N>` bounds what is lent of them.

// What the words of a request spell: the bytes of two words, and the numbers of one.
#[derive(Drop)]
pub struct Spelled {
    pub first: [u8; 40000],
    pub second: [u8; 40000],
    pub numbers: [u16; 20000],
}

// The slots that a call is lent.
#[derive(Drop)]
pub struct Lent {
    pub bytes: [u8; 20000],
    pub numbers: [u16; 20000],
}
