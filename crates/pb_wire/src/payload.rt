// The fourteen payload types, their numbers and names (EPICSEvent.proto).
ghost use Rattle.std.specs.Prelude.{◌≡◌, IfSome};
ghost use Rattle.pb_wire.specs.declared.payload.PayloadType.{PayloadType};
ghost use Rattle.pb_wire.specs.Payload.{row_of};

/// The type of a PB file's samples, as EPICSEvent.proto lists them.
#[derive(Clone, Copy, Debug, PartialEq, Eq)]
pub enum PayloadType {
    ScalarString,
    ScalarShort,
    ScalarFloat,
    ScalarEnum,
    ScalarByte,
    ScalarInt,
    ScalarDouble,
    WaveformString,
    WaveformShort,
    WaveformFloat,
    WaveformEnum,
    WaveformByte,
    WaveformInt,
    WaveformDouble,
}

impl PayloadType {
    /// All types, in the order of their numbers.
    pub const ALL: [PayloadType; 14] = [
        PayloadType::ScalarString,
        PayloadType::ScalarShort,
        PayloadType::ScalarFloat,
        PayloadType::ScalarEnum,
        PayloadType::ScalarByte,
        PayloadType::ScalarInt,
        PayloadType::ScalarDouble,
        PayloadType::WaveformString,
        PayloadType::WaveformShort,
        PayloadType::WaveformFloat,
        PayloadType::WaveformEnum,
        PayloadType::WaveformByte,
        PayloadType::WaveformInt,
        PayloadType::WaveformDouble,
    ];

    /// The number that stands for it in a header.
    pub fn number(self) -> u32
        ensures { result ≡ (row_of self).number }
    {
        self as u32
    }

    /// The type of this number. Numbers from 14 on stand for none.
    pub fn from_number(number: u32) -> Option<PayloadType>
        ensures found { IfSome result (λ t. (row_of t).number ≡ number) }
        ensures only { (t : PayloadType) → (row_of t).number ≡ number → result ≡ Some t }
    {
        match number {
            0 => Some(PayloadType::ScalarString),
            1 => Some(PayloadType::ScalarShort),
            2 => Some(PayloadType::ScalarFloat),
            3 => Some(PayloadType::ScalarEnum),
            4 => Some(PayloadType::ScalarByte),
            5 => Some(PayloadType::ScalarInt),
            6 => Some(PayloadType::ScalarDouble),
            7 => Some(PayloadType::WaveformString),
            8 => Some(PayloadType::WaveformShort),
            9 => Some(PayloadType::WaveformFloat),
            10 => Some(PayloadType::WaveformEnum),
            11 => Some(PayloadType::WaveformByte),
            12 => Some(PayloadType::WaveformInt),
            13 => Some(PayloadType::WaveformDouble),
            _ => None,
        }
    }

    /// Its name in EPICSEvent.proto.
    pub fn name(self) -> &'static str
        ensures { result.now ≡ (row_of self).name }
    {
        match self {
            PayloadType::ScalarString => "SCALAR_STRING",
            PayloadType::ScalarShort => "SCALAR_SHORT",
            PayloadType::ScalarFloat => "SCALAR_FLOAT",
            PayloadType::ScalarEnum => "SCALAR_ENUM",
            PayloadType::ScalarByte => "SCALAR_BYTE",
            PayloadType::ScalarInt => "SCALAR_INT",
            PayloadType::ScalarDouble => "SCALAR_DOUBLE",
            PayloadType::WaveformString => "WAVEFORM_STRING",
            PayloadType::WaveformShort => "WAVEFORM_SHORT",
            PayloadType::WaveformFloat => "WAVEFORM_FLOAT",
            PayloadType::WaveformEnum => "WAVEFORM_ENUM",
            PayloadType::WaveformByte => "WAVEFORM_BYTE",
            PayloadType::WaveformInt => "WAVEFORM_INT",
            PayloadType::WaveformDouble => "WAVEFORM_DOUBLE",
        }
    }

    /// The type of this name, in the very letters.
    pub fn from_name(name: &[u8]) -> Option<PayloadType>
        ensures found { IfSome result (λ t. (row_of t).name ≡ name.now) }
        ensures only { (t : PayloadType) → (row_of t).name ≡ name.now → result ≡ Some t }
    {
        for kind in PayloadType::ALL {
            if kind.name().as_bytes() == name {
                return Some(kind);
            }
        }
        None
    }
}
