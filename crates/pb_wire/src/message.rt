// The fields of a message, as a reader gives them and a writer takes them.

/// A value on the wire, by its wire type.
#[derive(Clone, Copy, Debug, PartialEq, Eq)]
pub enum Wire<'a> {
    /// Wire type 0.
    Varint(u64),
    /// Wire type 1: eight bytes, the least first.
    Fixed64(u64),
    /// Wire type 2: a string, bytes, a message or packed values.
    Bytes(&'a [u8]),
    /// Wire type 5: four bytes, the least first.
    Fixed32(u32),
}

/// One field of a message.
#[derive(Clone, Copy, Debug, PartialEq, Eq)]
pub struct Field<'a> {
    /// From 1 to 536,870,911.
    pub number: u32,
    pub value: Wire<'a>,
}
