// Records as parts of a file.

// A record of a day file, with the bytes of its words. A rule of the project: each case holds a part of the file.
#[derive(Clone, Copy)]
pub enum Record<'a> {
    Start(&'a [u8]),
    Clock(&'a [u8]),
    Order(&'a [u8]),
    Cancel(&'a [u8]),
    Quote(&'a [u8]),
    Opening(&'a [u8]),
    Trade(&'a [u8]),
    Close(&'a [u8]),
}

// A record with the byte place where it begins.
#[derive(Clone, Copy)]
pub struct Placed<'a> {
    pub record: Record<'a>,
    pub place: usize,
}
