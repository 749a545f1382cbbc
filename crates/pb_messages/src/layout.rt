// How the value of each payload type is written.
ghost use Rattle.std.specs.Prelude.{◌≡◌};
ghost use Rattle.pb_messages.specs.Layout.{layout_of};

use pb_wire::PayloadType;

/// How one element of `val` is written.
#[derive(Clone, Copy, PartialEq, Eq)]
pub enum Element {
    /// A length and so many bytes: `string` and `bytes`.
    Bytes,
    /// The varint of a zigzag number: `sint32`.
    Sint32,
    /// Four bytes, the least first: `float` and `sfixed32`.
    Fixed32,
    /// Eight bytes, the least first: `double`.
    Fixed64,
}

/// What stands in `val`.
#[derive(Clone, Copy)]
pub struct Layout {
    pub element: Element,
    /// Any number of elements may stand there, packed where they are numbers; else one is required.
    pub repeated: bool,
}

impl Layout {
    pub(crate) fn of(ty: PayloadType) -> Layout
        ensures { result ≡ layout_of ty }
    {
        let (element, repeated) = match ty {
            PayloadType::ScalarString => (Element::Bytes, false),
            PayloadType::ScalarShort => (Element::Sint32, false),
            PayloadType::ScalarFloat => (Element::Fixed32, false),
            PayloadType::ScalarEnum => (Element::Sint32, false),
            PayloadType::ScalarByte => (Element::Bytes, false),
            PayloadType::ScalarInt => (Element::Fixed32, false),
            PayloadType::ScalarDouble => (Element::Fixed64, false),
            PayloadType::WaveformString => (Element::Bytes, true),
            PayloadType::WaveformShort => (Element::Sint32, true),
            PayloadType::WaveformFloat => (Element::Fixed32, true),
            PayloadType::WaveformEnum => (Element::Sint32, true),
            PayloadType::WaveformByte => (Element::Bytes, false),
            PayloadType::WaveformInt => (Element::Fixed32, true),
            PayloadType::WaveformDouble => (Element::Fixed64, true),
        };
        Layout { element, repeated }
    }
}
