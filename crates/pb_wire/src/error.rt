// Why bytes are no message at all.

/// Why a message can't be read, and how many bytes stand before the tag, length or value at fault.
///
/// At a tag the order is `Short` or `BadVarint`, `BadTag`, `Group`, and then the value's own.
#[derive(Clone, Copy, Debug, PartialEq, Eq)]
pub enum WireErr {
    /// Ten bytes stand there that all have the top bit set.
    BadVarint { at: usize },
    /// The tag is 2^32 or more, or it has field number 0 or wire type 6 or 7.
    BadTag { at: usize },
    /// The tag has wire type 3 or 4, which begin and end a group.
    Group { at: usize },
    /// The bytes end before the varint or the value does.
    Short { at: usize },
}
